// Deciding a whole plan.
#![tactic(auto)]

ghost use Rattle.std.specs.Prelude.{◌≡◌, OnOk};
ghost use Rattle.model.specs.Calls.{decide_call};
ghost use Rattle.model.specs.Demand3.{DecidingDemand3};
ghost use Rattle.tables.specs.Meaning.{lent};
ghost use Rattle.decide.specs.Answers.{after_decide};

use nets::propagations::propagate_plan;
use tables::entries::fill;
use tables::{Plan, Refusal};
use verdicts::{judge_all, numbered};

mod verdicts;

// How many states have a practice that holds, one that fails, and none: of the safe states, and of the lost.
pub type Tally = [[u16; 3]; 2];

// Decides the plan: its ranks, commands and practice marks (rule C4), and the tally, which is one array (rule N1), passed on by value from
// state to state.
// Free is what the tables have while the call runs (rule U2): until the answers are written, the propagations work in the first n
// places of all four, and no place behind them is written. When it is over nothing is free: the equation says what every place has.
// The tables that are written stay parameters of their own (decision 69).
// Ruled out: a leaking ring called safe, and a verdict where space was lacking.
pub fn decide(
    plan: &Plan,
    ranks: &mut [u16],
    commands: &mut [u16],
    marks: &mut [u16],
    scratch: &mut [u16],
) -> Result<Tally, Refusal>
    ensures call { after_decide result ranks.new commands.new marks.new scratch.new
        ≡ decide_call (lent plan.now) ranks.old commands.old marks.old scratch.old }
    ensures demand3 { OnOk result (DecidingDemand3 (lent plan.now) ranks.new commands.new) }
{
    let checked = plan.sound()?;
    let n = checked.plan.size.n;
    if ranks.len() < n || commands.len() < n || marks.len() < n || scratch.len() < n {
        return Err(Refusal::Cramped);
    }
    propagate_plan(&checked, ranks, commands, marks, scratch);
    let tally = judge_all(&checked, &numbered(ranks), commands, marks);
    fill(scratch, n, 0);
    Ok(tally)
}
