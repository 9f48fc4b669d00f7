// What effects do to wanted literals, told with the effect that decides. The effects are walked in listed order and each is looked up among the
// wanted literals, whose rows are gone through once: for one or two effects each row is compared with them, for more the rows leave a mark at
// each atom. (An effect whose number is no atom, which no checked sheet has, is looked for among the rows once more.) Document 02, Req 04.
ghost use Rattle.std.specs.Prelude.{◌≡◌, true, ◌&&◌, eqb};
ghost use mathlib.Core.List.{[], ◌∷◌, flatten};
ghost use Rattle.hgn.specs.Rows.{row, values_tagged};
ghost use Rattle.hgn.specs.Tag.{wanted_true, wanted_false};
ghost use Rattle.hgn.specs.Meaning.{literals, node_of};
ghost use Rattle.hgn.specs.State.{assign};
ghost use Rattle.hgn.specs.Relevance.{is_helping, relevance};
ghost use Rattle.sheet_index.specs.Index.{rows_in};
ghost use Rattle.state.specs.Literals.{literal_of};
ghost use Rattle.state.specs.Relevances.{relevance_of, followed, effect_met_by, wanted_in, NextEffect, Marked};

use crate::literals::{Literal, LiteralTags};
use crate::{atoms, part};
use sheet_check::check::Shop;
use sheet_index::rows::Rows;
use sheet_rows::position::Atom;
use sheet_rows::tag;

// What effects do to wanted literals: blocked, with the first effect whose opposite is wanted; else helping, with the first that is wanted itself;
// else neither.
#[derive(Clone, Copy)]
pub enum Relevance {
    Blocked(Literal),
    Helping(Literal),
    Neither,
}

impl Relevance {
    // The effects are relevant: one helps, and none is blocked.
    pub fn is_helping(self) -> bool
        ensures { result ≡ is_helping (relevance_of self) }
    {
        match self {
            Relevance::Helping(_) => true,
            Relevance::Blocked(_) => false,
            Relevance::Neither => false,
        }
    }

    // What effects and those listed after them do together: the first that is blocked decides, else the first that helps.
    fn followed_by(self, later: Relevance) -> Relevance
        ensures { relevance_of result ≡ followed (relevance_of self) (relevance_of later) }
    {
        match self {
            Relevance::Blocked(effect) => Relevance::Blocked(effect),
            Relevance::Helping(effect) => match later {
                Relevance::Blocked(other) => Relevance::Blocked(other),
                Relevance::Helping(other) => Relevance::Helping(effect),
                Relevance::Neither => Relevance::Helping(effect),
            },
            Relevance::Neither => later,
        }
    }
}

// What an effect does, from whether its atom is wanted true (`positive`) and whether it is wanted false (`negative`).
fn meets(effect: Literal, positive: bool, negative: bool) -> Relevance
    ensures { relevance_of result ≡ effect_met_by (literal_of effect) positive negative }
{
    if effect.sign {
        if negative {
            return Relevance::Blocked(effect);
        }
        if positive {
            return Relevance::Helping(effect);
        }
        return Relevance::Neither;
    }
    if positive {
        return Relevance::Blocked(effect);
    }
    if negative {
        return Relevance::Helping(effect);
    }
    Relevance::Neither
}

// The row has this tag and this atom. No branch depends on the row, so that the compiler can compare several rows at once.
fn is_row(tag: u16, value: u16, wanted: u16, atom: Atom) -> bool
    ensures { result ≡ (eqb value atom.0 && eqb tag wanted) }
{
    (value == atom.0) & (tag == wanted)
}

// What one effect does to what these rows want.
fn one_meets(effect: Literal, wanted: Rows) -> Relevance
    ensures { relevance_of result ≡ relevance (literal_of effect ∷ []) (wanted_in (rows_in wanted.entry)) }
{
    let mut positive = false;
    let mut negative = false;
    for (tag, value) in wanted.iter() {
        positive |= is_row(*tag, *value, tag::WANTED_TRUE, effect.atom);
        negative |= is_row(*tag, *value, tag::WANTED_FALSE, effect.atom);
    }
    if positive | negative {
        meets(effect, positive, negative)
    } else {
        Relevance::Neither
    }
}

// What two effects, in this order, do to what these rows want. Each row is compared with both.
fn two_meet(first: Literal, second: Literal, wanted: Rows) -> Relevance
    ensures { relevance_of result ≡ relevance (literal_of first ∷ literal_of second ∷ []) (wanted_in (rows_in wanted.entry)) }
{
    let mut first_positive = false;
    let mut first_negative = false;
    let mut second_positive = false;
    let mut second_negative = false;
    for (tag, value) in wanted.iter() {
        first_positive |= is_row(*tag, *value, tag::WANTED_TRUE, first.atom);
        first_negative |= is_row(*tag, *value, tag::WANTED_FALSE, first.atom);
        second_positive |= is_row(*tag, *value, tag::WANTED_TRUE, second.atom);
        second_negative |= is_row(*tag, *value, tag::WANTED_FALSE, second.atom);
    }
    if first_positive | first_negative | second_positive | second_negative {
        meets(first, first_positive, first_negative).followed_by(meets(
            second,
            second_positive,
            second_negative,
        ))
    } else {
        Relevance::Neither
    }
}

// The atoms that these rows want true are put into one set, those that they want false into another, in one pass.
fn mark(positive: &mut [bool], negative: &mut [bool], wanted: Rows)
    ensures { (positive.new ≡ assign true (values_tagged wanted_true (rows_in wanted.entry)) positive.old)
        × (negative.new ≡ assign true (values_tagged wanted_false (rows_in wanted.entry)) negative.old) }
{
    for (tag, value) in wanted.iter() {
        let at = *value as usize;
        if *tag == tag::WANTED_TRUE {
            if at < positive.len() {
                positive[at] = true;
            }
        } else if *tag == tag::WANTED_FALSE {
            if at < negative.len() {
                negative[at] = true;
            }
        }
    }
}

// What an effect does to what these rows want, by their marks. A number that is no atom has no mark: the rows themselves are asked.
fn effect_meets(
    effect: Literal,
    positive: &[bool; Shop::MOST_ATOMS as usize],
    negative: &[bool; Shop::MOST_ATOMS as usize],
    wanted: Rows,
) -> Relevance
    requires { Marked (rows_in wanted) positive.now negative.now }
    ensures { relevance_of result ≡ relevance (literal_of effect ∷ []) (wanted_in (rows_in wanted.entry)) }
{
    let atom = effect.atom;
    if Shop::MOST_ATOMS <= atom.0 {
        return one_meets(effect, wanted);
    }
    let wanted_true = atoms::holds(positive, atom, true);
    let wanted_false = atoms::holds(negative, atom, true);
    meets(effect, wanted_true, wanted_false)
}

// What the effect of a row, if it has one, does to what these rows want, by their marks.
fn row_meets(
    signs: LiteralTags,
    tag: u16,
    value: u16,
    positive: &[bool; Shop::MOST_ATOMS as usize],
    negative: &[bool; Shop::MOST_ATOMS as usize],
    wanted: Rows,
) -> Relevance
    requires { Marked (rows_in wanted) positive.now negative.now }
    ensures { relevance_of result ≡ relevance (literals signs.positive signs.negative (row tag value ∷ []))
        (wanted_in (rows_in wanted.entry)) }
{
    match signs.literal(tag, value) {
        Some(effect) => effect_meets(effect, positive, negative, wanted),
        None => Relevance::Neither,
    }
}

// What these effects do to what these rows want, by their marks. The walk ends at the first effect that is blocked; the first that helps is told
// only at the end.
fn walk_effects(
    effects: Rows,
    signs: LiteralTags,
    positive: &[bool; Shop::MOST_ATOMS as usize],
    negative: &[bool; Shop::MOST_ATOMS as usize],
    wanted: Rows,
) -> Relevance
    requires { Marked (rows_in wanted) positive.now negative.now }
    ensures { relevance_of result ≡ relevance (literals signs.positive signs.negative (rows_in effects.entry))
        (wanted_in (rows_in wanted.entry)) }
{
    let mut told = Relevance::Neither;
    for (tag, value) in effects.iter() {
        told = told.followed_by(row_meets(signs, *tag, *value, positive, negative, wanted));
        if let Relevance::Blocked(_) = told {
            return told;
        }
    }
    told
}

// What these effects, however many, do to what these rows want.
fn many_meet(effects: Rows, signs: LiteralTags, wanted: Rows) -> Relevance
    ensures { relevance_of result ≡ relevance (literals signs.positive signs.negative (rows_in effects.entry))
        (wanted_in (rows_in wanted.entry)) }
{
    let mut positive = [false; Shop::MOST_ATOMS as usize];
    let mut negative = [false; Shop::MOST_ATOMS as usize];
    mark(&mut positive, &mut negative, wanted);
    walk_effects(effects, signs, &positive, &negative, wanted)
}

// The first effect of these rows, with the rows behind its own; none where no row has one.
fn next_effect<'a>(effects: Rows<'a>, signs: LiteralTags) -> Option<(Literal, Rows<'a>)>
    ensures { NextEffect signs (rows_in effects.entry) result }
{
    // By the row's number, since the rows behind it are handed back.
    for i in 0..effects.count() {
        if let Some(effect) = signs.literal(effects.tags[i], effects.values[i]) {
            return Some((effect, effects.skip(i + 1)));
        }
    }
    None
}

// What these effects do to what rows want, whichever rows these are: those of one alternative or of several. Every 9 and 10 row counts, wherever it
// stands.
pub fn relevance_of(effects: Rows, signs: LiteralTags, wanted: Rows) -> Relevance
    ensures { relevance_of result ≡ relevance (literals signs.positive signs.negative (rows_in effects.entry))
        (literals wanted_true wanted_false (rows_in wanted.entry)) }
{
    let Some((first, rest)) = next_effect(effects, signs) else {
        return Relevance::Neither;
    };
    let Some((second, rest)) = next_effect(rest, signs) else {
        return one_meets(first, wanted);
    };
    match next_effect(rest, signs) {
        None => two_meet(first, second, wanted),
        Some(_) => many_meet(effects, signs, wanted),
    }
}

// The same for all that a node with these rows wants, in whichever alternative. What stands before the first 8 belongs to none.
pub fn relevance_to_node(effects: Rows, signs: LiteralTags, node: Rows) -> Relevance
    ensures { relevance_of result ≡ relevance (literals signs.positive signs.negative (rows_in effects.entry))
        (flatten (node_of (rows_in node.entry)).formula) }
{
    relevance_of(effects, signs, part::behind_first_alternative(node))
}
