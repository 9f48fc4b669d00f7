// The join's call: its questions, and the joined sheet written. Document 02, Req 02.
ghost use Rattle.std.specs.Prelude.{◌≡◌};
ghost use Rattle.hgn.specs.Questions.{first_no, answered};
ghost use Rattle.hgn.specs.JoinSheet.{sheet_questions, write_join};
ghost use Rattle.sheet_rows.specs.Refusals.{answer_of, lent_of};

use crate::joining::Joining;
use crate::rows;
use sheet_check::check;
use sheet_check::check::Order;
use sheet_check::rows::Layout;
use sheet_rows::refusal::{Question, Refusal};

// Questions 1 to 9, then 11 to 18 of the first order, then the same of the second.
fn ask_sheets(shop: &[u16], first: &[u16], second: &[u16]) -> Result<(), Refusal>
    ensures { answer_of result ≡ answered (first_no (sheet_questions shop.now first.now second.now)) }
{
    check::check_shop(shop)?;
    check::ask_order(shop, first)?;
    check::ask_order(shop, second)
}

// The questions of the sheets, then 81 to 83. Written, the joined sheet stands in the first 3 + 2N words of the room.
pub fn join(shop: &[u16], first: &[u16], second: &[u16], room: &mut [u16]) -> Result<(), Refusal>
    ensures { lent_of result room.new ≡ write_join shop.now first.now second.now room.old }
{
    ask_sheets(shop, first, second)?;
    let joining = Joining::of(first, second);
    if Order::MOST_GOALS < joining.goals {
        return Err(Refusal::by(Question::TooManyGoals));
    }
    if (Layout::MOST_ROWS as usize) < joining.rows {
        return Err(Refusal::by(Question::TooManyRows));
    }
    if room.len() < Order::SIZES + 2 * joining.rows {
        return Err(Refusal::by(Question::JoinRoom));
    }
    rows::write(room, first, second, joining);
    Ok(())
}
