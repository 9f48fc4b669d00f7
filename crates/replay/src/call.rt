// The replay's call. Document 01, "Questions".
ghost use Rattle.std.specs.Prelude.{◌≡◌, suc, ◌≤◌, ◌+◌, length, take, drop};
ghost use Rattle.hgn.specs.Rows.{most_rows};
ghost use Rattle.hgn.specs.Shop.{most_actions, most_methods};
ghost use Rattle.hgn.specs.Questions.{passed};
ghost use Rattle.hgn.specs.Trace.{check_trace, step_count};
ghost use Rattle.hgn.specs.Run.{problem_of};
ghost use Rattle.hgn.specs.Order as OrderSheet;
ghost use Rattle.hgn.specs.Replay as Replay;
ghost use Rattle.replay.specs.Answers.{answer_of, with_state, replayed_of, run_answer};

use crate::answer::{Accepted, Counts};
use crate::{first, plan, run};
use network::goals::Goals;
use sheet_check::check;
use sheet_check::check::{Shop, Trace};
use sheet_check::rows::word;
use sheet_check::sizes::{ShopSizes, TraceSizes};
use sheet_index::index::Tables;
use sheet_rows::refusal::Question;
use step::failure::Failure;

// The moves of a trace.
fn moves_of(trace: &[u16]) -> &[u16]
    requires { 1 + step_count trace.now ≤ length trace.now }
    ensures { result.now ≡ take (step_count trace.now) (drop 1 trace.now) }
{
    let steps = word(trace, TraceSizes::STEPS) as usize;
    &trace[Trace::SIZES..Trace::SIZES + steps]
}

// The run of a trace's steps, on sheets that passed. The state that it leaves is the last one, if the trace is accepted.
fn run_indexed(
    shop: &[u16],
    order: &[u16],
    trace: &[u16],
    tables: &mut [u16],
    atoms: &mut [bool; Shop::MOST_ATOMS as usize],
) -> Result<Counts, Failure>
    requires trace_value { check_trace shop.now order.now trace.now ≡ passed }
    requires most_methods_in_bounds { most_rows + suc (most_actions + most_methods) ≤ length tables.old }
    ensures { answer_of (with_state atoms.new result) ≡ run_answer shop.now trace.now (problem_of (OrderSheet.order order.now)) }
{
    let mut goals = Goals::empty();
    first::begun(shop, order, tables, &mut goals);
    first::write_start(shop, order, atoms);
    run::take_all(shop, order, trace, tables, atoms, &mut goals)
}

// The run of sheets that passed. The tables of their index have the largest sheet's size, since no size is known before.
fn run_checked(
    shop: &[u16],
    order: &[u16],
    trace: &[u16],
    atoms: &mut [bool; Shop::MOST_ATOMS as usize],
) -> Result<Counts, Failure>
    requires { check_trace shop.now order.now trace.now ≡ passed }
    ensures { answer_of (with_state atoms.new result) ≡ run_answer shop.now trace.now (problem_of (OrderSheet.order order.now)) }
{
    let mut tables = [0u16; Tables::WORDS];
    run_indexed(shop, order, trace, &mut tables, atoms)
}

// Questions 1 to 33. Accepted, the plan stands in the first words of the room. The state of the answer is written where the caller keeps it:
// an answer that holds it would be copied by each function that hands it on, and all copies stand on the stack of the call.
pub fn replay_into(
    shop: &[u16],
    order: &[u16],
    trace: &[u16],
    plan: &mut [u16],
    atoms: &mut [bool; Shop::MOST_ATOMS as usize],
) -> Result<Counts, Failure>
    ensures called { replayed_of (with_state atoms.new result) plan.new ≡ Replay.replay shop.now order.now trace.now plan.old }
    ensures state { atoms.new ≡ (Replay.replay shop.now order.now trace.now plan.old).answer.state }
{
    // Refused, the answer has the empty state.
    *atoms = [false; Shop::MOST_ATOMS as usize];
    check::check_trace(shop, order, trace)?;
    if plan.len() < word(trace, TraceSizes::STEPS) as usize {
        return Err(Failure::by(Question::PlanRoom));
    }
    match run_checked(shop, order, trace, atoms) {
        Ok(counts) => {
            plan::write_plan(moves_of(trace), word(shop, ShopSizes::ACTIONS), plan);
            Ok(counts)
        }
        Err(failure) => {
            *atoms = [false; Shop::MOST_ATOMS as usize];
            Err(failure)
        }
    }
}

// The same, with the last state in the answer.
pub fn replay(
    shop: &[u16],
    order: &[u16],
    trace: &[u16],
    plan: &mut [u16],
) -> Result<Accepted, Failure>
    ensures { replayed_of result plan.new ≡ Replay.replay shop.now order.now trace.now plan.old }
{
    let mut atoms = [false; Shop::MOST_ATOMS as usize];
    let counts = replay_into(shop, order, trace, plan, &mut atoms)?;
    Ok(Accepted::of(counts, &atoms))
}
