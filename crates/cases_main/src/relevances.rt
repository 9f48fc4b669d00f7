// What effects do to what a goal wants: `: blocked TAG VALUE`, `: helping TAG VALUE` or `: neither`, the tag and the value of the effect that
// decides. A case gives the rows of the effects and those of the goal, without sizes. Document 02, Req 04.
ghost use Rattle.std.specs.Prelude.{◌≡◌, ◌+◌, ◌/◌, ◌≤◌, length};
ghost use mathlib.Core.List.{flatten};
ghost use Rattle.hgn.specs.Lists.{any};
ghost use Rattle.hgn.specs.Rows.{rows_of};
ghost use Rattle.hgn.specs.Meaning.{node_of};
ghost use Rattle.hgn.specs.Relevance.{relevance};
ghost use Rattle.sheet_index.specs.Index.{rows_in};
ghost use Rattle.state.specs.Relevances.{relevance_of, effects_in};
ghost use Rattle.cases_main.specs.Relevances.{most_words, pairs, is_wanted, tags_of, tag_of, ToldOf, AnsweredBy};

use crate::sheet::is_plain;
use crate::text::{between, find, rest};
use crate::{line, sheet};
use sheet_index::rows::Rows;
use sheet_rows::tag;
use state::literals::{Literal, LiteralTags};
use state::relevance::{Relevance, relevance_to_node};

// What is told of effects and a goal, and the two tags that the effects have.
#[derive(Clone, Copy)]
pub struct Told {
    relevance: Relevance,
    signs: LiteralTags,
}

// Writes the rows of words that are a tag and a value by turns into a room's first words, as a sheet has them: the tags, then the values.
fn write_rows(room: &mut [u16], words: &[u16])
    requires { length words.now ≤ length room.old }
    ensures { rows_of 0 (length words.now / 2) room.new ≡ pairs words.now }
{
    let rows = words.len() / 2;
    for row in 0..rows {
        room[row] = words[2 * row];
        room[rows + row] = words[2 * row + 1];
    }
}

// Whether a row of words that are a tag and a value by turns has tag 9 or 10, as the rows of a method's goal have.
fn has_wanted(words: &[u16]) -> bool
    ensures { result ≡ any is_wanted (pairs words.now) }
{
    for row in 0..words.len() / 2 {
        if matches!(words[2 * row], tag::WANTED_TRUE | tag::WANTED_FALSE) {
            return true;
        }
    }
    false
}

// The two tags that effects have among the rows of words that are a tag and a value by turns: those of a goal where a row has one of them,
// or else those of an action.
fn signs_of(words: &[u16]) -> LiteralTags
    ensures { result ≡ tags_of (pairs words.now) }
{
    if has_wanted(words) {
        LiteralTags {
            positive: tag::WANTED_TRUE,
            negative: tag::WANTED_FALSE,
        }
    } else {
        LiteralTags {
            positive: tag::MAKES_TRUE,
            negative: tag::MAKES_FALSE,
        }
    }
}

// The rows in a room's first words: so many tags, then as many values.
fn laid_rows<'a>(room: &'a [u16], rows: usize) -> Rows<'a>
    requires { rows + rows ≤ length room.now }
    ensures { rows_in result ≡ rows_of 0 rows room.now }
{
    Rows {
        tags: &room[0..rows],
        values: &room[rows..rows + rows],
    }
}

// What the effects among the rows in one room do to what the rows in another want. Each room begins with so many tags, then as many values.
fn relevance_in(
    left: &[u16],
    effects: usize,
    signs: LiteralTags,
    right: &[u16],
    wanted: usize,
) -> Relevance
    requires { (effects + effects ≤ length left.now) × (wanted + wanted ≤ length right.now) }
    ensures { relevance_of result ≡ relevance (effects_in signs (rows_of 0 effects left.now))
        (flatten (node_of (rows_of 0 wanted right.now)).formula) }
{
    relevance_to_node(laid_rows(left, effects), signs, laid_rows(right, wanted))
}

// What is told of effects and a goal, whose rows are given as words, a tag and a value by turns.
fn told_of(effects: &[u16], wanted: &[u16]) -> Told
    requires { (length effects.now ≤ most_words) × (length wanted.now ≤ most_words) }
    ensures { ToldOf (pairs effects.now) (pairs wanted.now) result }
{
    let mut left = [0u16; sheet::ROOM];
    write_rows(&mut left, effects);
    let mut right = [0u16; sheet::ROOM];
    write_rows(&mut right, wanted);
    let signs = signs_of(effects);
    let relevance = relevance_in(&left, effects.len() / 2, signs, &right, wanted.len() / 2);
    Told { relevance, signs }
}

// What a case answers, by the words of its two sides. A side with an odd number of words is unreadable, since its last tag has no value. One
// that is longer than a room fills the room, whose number of words is odd, so that it is unreadable too.
fn answer_on_words(effects: &[u16], wanted: &[u16]) -> Option<Told>
    requires { (length effects.now ≤ most_words) × (length wanted.now ≤ most_words) }
    ensures { AnsweredBy effects.now wanted.now result }
{
    if effects.len() % 2 == 0 && wanted.len() % 2 == 0 {
        Some(told_of(effects, wanted))
    } else {
        None
    }
}

// The words of each side are made by a function of its own, as those of a call's sheets are.
fn answer_on_effects(effects: &[u16], wanted: &[u8]) -> Option<Told>
    requires { length effects.now ≤ most_words }
{
    let mut words = [0u16; sheet::ROOM];
    let length = sheet::write(&mut words, sheet::ROWS, wanted);
    answer_on_words(effects, &words[..length])
}

fn answer_on_sides(effects: &[u8], wanted: &[u8]) -> Option<Told> {
    let mut words = [0u16; sheet::ROOM];
    let length = sheet::write(&mut words, sheet::ROWS, effects);
    answer_on_effects(&words[..length], wanted)
}

// What a case of relevance answers, by its parts from the semicolon on. They are rows, one bar, and rows.
pub fn answer_to(parts: &[u8]) -> Option<Told> {
    let bar = find(parts, 0, b'|');
    let has_one_bar = bar < parts.len() && parts.len() <= find(parts, bar, b'|');
    if has_one_bar && is_plain(rest(parts, 1)) {
        answer_on_sides(between(parts, 0, bar), rest(parts, bar + 1))
    } else {
        None
    }
}

// The tag that the row of an effect with this sign has.
fn tag_of(signs: LiteralTags, sign: bool) -> u16
    ensures { result ≡ tag_of signs sign }
{
    if sign { signs.positive } else { signs.negative }
}

fn write_effect(rt: &impl Print, signs: LiteralTags, effect: Literal) {
    line::number(rt, u64::from(tag_of(signs, effect.sign)));
    line::number(rt, u64::from(effect.atom.0));
}

pub fn write(rt: &impl Print, told: Told) {
    match told.relevance {
        Relevance::Blocked(effect) => {
            line::text(rt, b": blocked");
            write_effect(rt, told.signs, effect);
        }
        Relevance::Helping(effect) => {
            line::text(rt, b": helping");
            write_effect(rt, told.signs, effect);
        }
        Relevance::Neither => line::text(rt, b": neither"),
    }
    line::text(rt, b"\n");
}
