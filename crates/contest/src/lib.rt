// The contest over a few moves: whether the keeper can hold a state against whatever the works do.
#![tactic(auto)]

ghost use Rattle.std.specs.Prelude.{◌≡◌, Bool};
ghost use Rattle.model.specs.Refusal.{given};
ghost use Rattle.model.specs.Contest.{contest_call, Contested};
ghost use Rattle.tables.specs.Meaning.{lent};
ghost use Rattle.contest.specs.Answers.{answer_of};

use crate::admission::admit;
use crate::laid::LaidPlan;
use crate::turns::keeper_turn;
use nets::propagations::initialize;
use tables::{Plan, Refusal, Size};

mod admission;
mod laid;
mod memo;
mod turns;

// The contest at `state` over `moves` moves: whether the keeper's turn is held. Refused with 10, then 11, then 12. Nothing is lent to be
// written; free is only how the call comes to its answer (rule U10).
// No turn is worked out twice (turns.rt): for each number of moves left, 0 to 8, each state, command and outcome is looked at once at most,
// so that there are at most 9 (n + m + t) looks beside the soundness test, whatever the plan is. The local tables have 26,624 bytes
// whatever the plan is, and at most 17 turns are under way at a time; docs/PERFORMANCE.md has the times and the stack.
// Ruled out: a failing state held when no move is left, and a turn called held since one outcome of a command is.
#[tactic(auto, using(crate::proofs::Replying::denies_unsound))]
pub fn contest(plan: &Plan, state: usize, moves: usize) -> Result<bool, Refusal>
    ensures call { answer_of result ≡ contest_call (lent plan.now) state moves }
    ensures contested { (answer : Bool) → answer_of result ≡ given answer → Contested (lent plan.now) state moves answer }
{
    let checked = plan.sound()?;
    admit(&checked, state, moves)?;
    let mut seeds = [0u16; Size::STATES];
    let mut froms = [0u16; Size::STATES];
    let mut tos = [0u16; Size::STATES];
    let mut places = [0u16; Size::STATES];
    let mut memo = [None; memo::PLACES];
    initialize(
        checked.plan.size,
        checked.plan.rows,
        &mut seeds,
        &mut froms,
        &mut tos,
        &mut places,
    );
    let laid = LaidPlan {
        checked,
        seeds: &seeds,
        froms: &froms,
        tos: &tos,
    };
    Ok(keeper_turn(&laid, &mut memo, state, moves))
}
