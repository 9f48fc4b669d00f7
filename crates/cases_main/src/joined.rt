// What a join answers and what it leaves in the room: `: NUMBER PLACE; words F GOALS N, TAGS, VALUES; rest kept`, the words of the sheet that
// was written. Refused, `: NUMBER PLACE; words none; rest kept`, and the rest is the whole room.
ghost use Rattle.std.specs.Prelude.{◌≡◌};
ghost use Rattle.hgn.specs.JoinSheet.{write_join};

use crate::{line, room};
use sheet_check::check::Order;
use sheet_check::sizes::OrderSizes;
use sheet_join::call::join;
use sheet_rows::refusal::Refusal;

// The sheet in a room's first words, and the words behind it.
fn write_sheet(rt: &impl Print, room: &[u16]) {
    let sizes = OrderSizes::of(room);
    let rows = usize::from(sizes.rows);
    line::number(rt, u64::from(sizes.atoms));
    line::number(rt, u64::from(sizes.goals));
    line::number(rt, u64::from(sizes.rows));
    line::text(rt, b",");
    room::write_part(rt, room, Order::SIZES, rows);
    line::text(rt, b",");
    room::write_part(rt, room, Order::SIZES + rows, rows);
    room::write_rest(rt, room, Order::SIZES + 2 * rows);
}

fn write_answer(rt: &impl Print, answer: Result<(), Refusal>, room: &[u16]) {
    line::text(rt, b":");
    line::answer(rt, answer);
    line::text(rt, b"; words");
    if answer.is_ok() {
        write_sheet(rt, room);
    } else {
        room::write_none(rt, true);
        room::write_rest(rt, room, 0);
    }
    line::text(rt, b"\n");
}

// The answer is written, and the room is left as the join leaves it.
pub fn write(rt: &impl Print, shop: &[u16], first: &[u16], second: &[u16], room: &mut [u16])
    ensures { room.new ≡ (write_join shop.now first.now second.now room.old).room }
{
    let answer = join(shop, first, second, room);
    write_answer(rt, answer, room);
}
