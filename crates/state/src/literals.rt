// Tests on rows: do their literals hold, does their formula, are these effects relevant to it? Document 01, "How a derivation runs".
ghost use Rattle.std.specs.Prelude.{◌≡◌};
ghost use mathlib.Core.List.{[], ◌∷◌};
ghost use Rattle.hgn.specs.Rows.{row};
ghost use Rattle.hgn.specs.Tag.{wanted_true, wanted_false};
ghost use Rattle.hgn.specs.Meaning.{literals, node_of};
ghost use Rattle.hgn.specs.State.{all_hold, relevant};
ghost use Rattle.sheet_index.specs.Index.{rows_in};
ghost use Rattle.state.specs.Effects.{met_of};
ghost use Rattle.state.specs.Literals.{literal_of, literals_of};
ghost use Rattle.state.specs.Tests.{Tested, GoalTested};

use crate::atoms;
use sheet_check::check::Shop;
use sheet_index::rows::Rows;
use sheet_rows::position::Atom;
use sheet_rows::tag;

// An atom and its sign: the literal holds where the atom is in (true) or out (false).
#[derive(Clone, Copy)]
pub struct Literal {
    pub atom: Atom,
    pub sign: bool,
}

// The two tags of the rows that have a literal, one tag for each sign.
#[derive(Clone, Copy)]
pub struct LiteralTags {
    pub positive: u16,
    pub negative: u16,
}

impl LiteralTags {
    // What an action or a method needs.
    pub const NEEDS: LiteralTags = LiteralTags {
        positive: tag::NEEDS_TRUE,
        negative: tag::NEEDS_FALSE,
    };

    // What an action makes.
    pub const EFFECTS: LiteralTags = LiteralTags {
        positive: tag::MAKES_TRUE,
        negative: tag::MAKES_FALSE,
    };

    // What a node wants.
    pub const WANTED: LiteralTags = LiteralTags {
        positive: tag::WANTED_TRUE,
        negative: tag::WANTED_FALSE,
    };

    // A row's literal, if its tag is one of the two.
    pub fn literal(self, tag: u16, value: u16) -> Option<Literal>
        ensures { literals_of result ≡ literals self.positive self.negative (row tag value ∷ []) }
    {
        if tag == self.positive {
            Some(Literal {
                atom: Atom(value),
                sign: true,
            })
        } else if tag == self.negative {
            Some(Literal {
                atom: Atom(value),
                sign: false,
            })
        } else {
            None
        }
    }
}

// The row's literal holds, if it has one.
fn row_holds(
    atoms: &[bool; Shop::MOST_ATOMS as usize],
    signs: LiteralTags,
    tag: u16,
    value: u16,
) -> bool
    ensures { result ≡ all_hold atoms.now (literals signs.positive signs.negative (row tag value ∷ [])) }
{
    match signs.literal(tag, value) {
        Some(literal) => atoms::holds(atoms, literal.atom, literal.sign),
        None => true,
    }
}

// The literals of these rows hold; else the atom of the first that does not.
pub fn test_literals(
    atoms: &[bool; Shop::MOST_ATOMS as usize],
    rows: Rows,
    signs: LiteralTags,
) -> Result<(), Atom>
    ensures { Tested atoms.now (literals signs.positive signs.negative (rows_in rows.entry)) result }
{
    for (tag, value) in rows.iter() {
        if !row_holds(atoms, signs, *tag, *value) {
            return Err(Atom(*value));
        }
    }
    Ok(())
}

// Every literal of these rows holds.
pub fn all_hold(atoms: &[bool; Shop::MOST_ATOMS as usize], rows: Rows, signs: LiteralTags) -> bool
    ensures { result ≡ all_hold atoms.now (literals signs.positive signs.negative (rows_in rows.entry)) }
{
    test_literals(atoms, rows, signs).is_ok()
}

// The formula of a node's rows holds where one of its alternatives does. Where none does, the first row that is not as wanted is told; it
// stands in the first alternative, since the walk ends where one holds. A formula without alternatives names no atom.
pub fn test_formula(atoms: &[bool; Shop::MOST_ATOMS as usize], node: Rows) -> Result<(), Atom>
    ensures { GoalTested atoms.now (node_of (rows_in node.entry)).formula result }
{
    // The alternative that the row stands in holds so far; there is none before the first 8.
    let mut so_far = false;
    // The atom of the first row that was not as wanted.
    let mut unmet = None;
    for (tag, value) in node.iter() {
        if *tag == tag::ALTERNATIVE {
            if so_far {
                return Ok(());
            }
            so_far = true;
        } else if so_far && !row_holds(atoms, LiteralTags::WANTED, *tag, *value) {
            so_far = false;
            unmet = unmet.or(Some(Atom(*value)));
        }
    }
    if so_far {
        return Ok(());
    }
    Err(unmet.unwrap_or(Atom(atoms::NO_ATOM)))
}

// What effects do to wanted literals: they contain the opposite of one, or else one of them, or neither.
#[derive(Clone, Copy)]
pub enum Met {
    Opposite,
    Same,
    Neither,
}

// What an effect does to a wanted literal.
fn literal_met(effect: Literal, wanted: Literal) -> Met
    ensures { result ≡ met_of (literal_of effect ∷ []) (literal_of wanted ∷ []) }
{
    if effect.atom.0 != wanted.atom.0 {
        Met::Neither
    } else if effect.sign == wanted.sign {
        Met::Same
    } else {
        Met::Opposite
    }
}

// What a row's literal, if it has one, does to a wanted literal.
fn row_met(signs: LiteralTags, tag: u16, value: u16, wanted: Literal) -> Met
    ensures { result ≡ met_of (literals signs.positive signs.negative (row tag value ∷ [])) (literal_of wanted ∷ []) }
{
    match signs.literal(tag, value) {
        Some(effect) => literal_met(effect, wanted),
        None => Met::Neither,
    }
}

// What these effects do to a wanted literal.
fn part_met(effects: Rows, signs: LiteralTags, wanted: Literal) -> Met
    ensures { result ≡ met_of (literals signs.positive signs.negative (rows_in effects.entry)) (literal_of wanted ∷ []) }
{
    let mut met = Met::Neither;
    for (tag, value) in effects.iter() {
        match row_met(signs, *tag, *value, wanted) {
            Met::Opposite => return Met::Opposite,
            Met::Same => met = Met::Same,
            Met::Neither => {}
        }
    }
    met
}

// What these effects do to the literal that a row wants, if it wants one.
fn wanted_met(effects: Rows, signs: LiteralTags, tag: u16, value: u16) -> Met
    ensures { result ≡ met_of (literals signs.positive signs.negative (rows_in effects.entry))
        (literals wanted_true wanted_false (row tag value ∷ [])) }
{
    match LiteralTags::WANTED.literal(tag, value) {
        Some(wanted) => part_met(effects, signs, wanted),
        None => Met::Neither,
    }
}

// These effects are relevant to the formula of a node's rows: they contain one of its literals and the opposite of none.
pub fn is_relevant(effects: Rows, signs: LiteralTags, node: Rows) -> bool
    ensures { result ≡ relevant (literals signs.positive signs.negative (rows_in effects.entry)) (node_of (rows_in node.entry)).formula }
{
    // The row stands in an alternative; none does before the first 8.
    let mut inside = false;
    let mut helped = false;
    for (tag, value) in node.iter() {
        if *tag == tag::ALTERNATIVE {
            inside = true;
        } else if inside {
            match wanted_met(effects, signs, *tag, *value) {
                Met::Opposite => return false,
                Met::Same => helped = true,
                Met::Neither => {}
            }
        }
    }
    helped
}
