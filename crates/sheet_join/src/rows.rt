// The rows of the joined sheet, put into lent room in one pass over each order. Document 01, "How a derivation runs".
ghost use Rattle.std.specs.Prelude.{◌≡◌, ◌+◌, ◌≤◌, length, drop};
ghost use mathlib.Core.List.{map, flat_map};
ghost use Rattle.hgn.specs.Lists.{range};
ghost use Rattle.hgn.specs.Tag as Tag;
ghost use Rattle.hgn.specs.Rows.{row, rows_of};
ghost use Rattle.hgn.specs.Order.{order_rows};
ghost use Rattle.hgn.specs.Lent.{overwritten};
ghost use Rattle.hgn.specs.JoinSheet.{raised_row, joined_words};
ghost use Rattle.sheet_check.specs.Puts.{put_rows};
ghost use Rattle.sheet_join.specs.Joinings.{Holds, RowFits, SecondFits, Writable};

use crate::joining::Joining;
use sheet_check::check::Order;
use sheet_check::rows::{Layout, Row};
use sheet_check::sizes::OrderSizes;
use sheet_rows::tag;

// The rows of the first order go into the room as they stand, from row 0 on.
fn put_first(room: &mut [u16], into: Layout, first: &[u16], from: Layout)
    requires { Holds into room.old × Holds from first.now × (from.rows ≤ into.rows) }
    ensures { room.new ≡ put_rows into.sizes into.rows 0 (rows_of from.sizes from.rows first.now) room.old }
{
    for i in 0..from.rows {
        let row = Row(i as u16);
        into.put(room, row, from.tag(first, row), from.value(first, row));
    }
}

// The 11 rows of a goal of the second order that name the goals of the first, so many, from row `at` on.
fn put_afters(room: &mut [u16], into: Layout, at: usize, before: u16)
    requires { Holds into room.old × (at + before ≤ into.rows) }
    ensures { room.new ≡ put_rows into.sizes into.rows at (map (row Tag.after) (range 0 before)) room.old }
{
    for goal in 0..before {
        into.put(room, Row((at + goal as usize) as u16), tag::AFTER, goal);
    }
}

// What a row of the second order becomes, from row `at` on. Answers the row behind.
fn put_raised(room: &mut [u16], into: Layout, at: usize, before: u16, tag: u16, value: u16) -> usize
    requires { RowFits into at before (row tag value) room.old }
    ensures { (room.new ≡ put_rows into.sizes into.rows at (raised_row before (row tag value)) room.old) × (result ≡ at + length (raised_row before (row tag value))) }
{
    let row = Row(at as u16);
    if tag == tag::AFTER {
        into.put(room, row, tag, before + value);
        return at + 1;
    }
    into.put(room, row, tag, value);
    if tag == tag::NODE {
        put_afters(room, into, at + 1, before);
        return at + 1 + before as usize;
    }
    at + 1
}

// The goals of the second order go into the room behind the rows of the first, from row `at` on.
fn put_second(room: &mut [u16], into: Layout, second: &[u16], at: usize, joining: Joining)
    requires { SecondFits into second.now at joining room.old }
    ensures { room.new ≡ put_rows into.sizes into.rows at (flat_map (raised_row joining.before) (drop joining.from (order_rows second.now))) room.old }
{
    let from = OrderSizes::of(second).layout();
    let mut next = at;
    for i in joining.from..from.rows {
        let row = Row(i as u16);
        let tag = from.tag(second, row);
        let value = from.value(second, row);
        next = put_raised(room, into, next, joining.before, tag, value);
    }
}

// The sizes, the rows of the first order and those of the second.
pub fn write(room: &mut [u16], first: &[u16], second: &[u16], joining: Joining)
    requires { Writable first.now second.now room.old joining }
    ensures { room.new ≡ overwritten (joined_words first.now second.now) room.old }
{
    let sizes = OrderSizes::of(first);
    let into = Layout {
        sizes: Order::SIZES,
        rows: joining.rows,
    };
    room[OrderSizes::ATOMS] = joining.atoms;
    room[OrderSizes::GOALS] = joining.goals;
    room[OrderSizes::ROWS] = joining.rows as u16;
    put_first(room, into, first, sizes.layout());
    put_second(room, into, second, sizes.rows as usize, joining);
}
