// States, as a set of atoms. Document 01, "How a derivation runs".
ghost use Rattle.std.specs.Prelude.{◌≡◌};
ghost use Rattle.hgn.specs.Rows.{values_tagged};
ghost use Rattle.hgn.specs.Meaning.{literals};
ghost use Rattle.hgn.specs.State.{empty_state, literal_holds, assign};
ghost use Rattle.sheet_index.specs.Index.{rows_in};
ghost use Rattle.state.specs.Effects.{set_each};

use crate::literals::LiteralTags;
use sheet_check::check::Shop;
use sheet_index::rows::Rows;
use sheet_rows::position::Atom;

// What stands for an atom where none is named: the first number that no atom has.
pub const NO_ATOM: u16 = Shop::MOST_ATOMS;

// For each atom, whether it is in.
#[derive(Clone, Copy)]
pub struct State {
    pub atoms: [bool; Shop::MOST_ATOMS as usize],
}

impl State {
    pub fn empty() -> State
        ensures { result.atoms ≡ empty_state }
    {
        State {
            atoms: [false; Shop::MOST_ATOMS as usize],
        }
    }
}

// The literal, an atom and its sign, holds.
pub fn holds(atoms: &[bool; Shop::MOST_ATOMS as usize], atom: Atom, sign: bool) -> bool
    ensures { result ≡ literal_holds atoms.now (record { sign = sign; atom = atom.0 }) }
{
    let at = atom.0 as usize;
    // As a slice: an array behind a reference does not tell a proof its length.
    let list: &[bool] = atoms;
    if at < list.len() {
        list[at] == sign
    } else {
        !sign
    }
}

// The atoms in the values of the rows with this tag are put in (true) or taken out (false), where they stand.
pub fn assign(atoms: &mut [bool], rows: Rows, tag: u16, to: bool)
    ensures { atoms.new ≡ assign to (values_tagged tag (rows_in rows.entry)) atoms.old }
{
    for (own, value) in rows.iter() {
        let at = *value as usize;
        if *own == tag && at < atoms.len() {
            atoms[at] = to;
        }
    }
}

// A copy of the atoms in which those of the rows with this tag are put in (true) or taken out (false).
pub fn assigned(
    atoms: [bool; Shop::MOST_ATOMS as usize],
    rows: Rows,
    tag: u16,
    to: bool,
) -> [bool; Shop::MOST_ATOMS as usize]
    ensures { result ≡ assign to (values_tagged tag (rows_in rows.entry)) atoms }
{
    let mut next = atoms;
    assign(&mut next, rows, tag, to);
    next
}

// The rows' literals: each atom is put in or taken out in turn.
pub fn set_each(atoms: &mut [bool], rows: Rows, signs: LiteralTags)
    ensures { atoms.new ≡ set_each (literals signs.positive signs.negative (rows_in rows.entry)) atoms.old }
{
    for (tag, value) in rows.iter() {
        if let Some(literal) = signs.literal(*tag, *value) {
            let at = literal.atom.0 as usize;
            if at < atoms.len() {
                atoms[at] = literal.sign;
            }
        }
    }
}
