// The warning time: within what time the works can bring about failure from a lost state, whatever is commanded.
#![tactic(auto)]

ghost use Rattle.std.specs.Prelude.{◌≡◌};
ghost use Rattle.std.proofs.Math.Option.{Option};
ghost use Rattle.model.specs.Refusal.{given};
ghost use Rattle.model.specs.Warning.{Time as ModelTime, warning_call, Warned};
ghost use Rattle.tables.specs.Meaning.{lent};
ghost use Rattle.warning.specs.Answers.{answer_of};

use crate::admission::admit;
use nets::propagations::propagate_plan;
use tables::{Plan, Refusal, Size};

mod admission;
mod times;

// Whole minutes, and the seconds left over.
#[derive(Clone, Copy, Debug, PartialEq, Eq)]
pub struct Time {
    pub minutes: u16,
    pub seconds: u16,
}

// The warning time at `state`, where a move takes `seconds` seconds: a time at a lost state, and none, which is no limit, at a safe one.
// Refused with 10, then 11, then 13. Nothing is lent to be written; free is only how the call comes to the rank (rule U7).
// The ranks come from the propagations that deciding makes, so the call is linear in n + m + t as deciding is. Its local tables have 8,192
// bytes and those of the propagations 45,056, whatever the plan is; docs/PERFORMANCE.md has the times and the stack.
// Ruled out: minutes that are rounded up, and a product of rank and length that is cut to 16 bits.
#[tactic(auto, using(crate::proofs::Replying::denies_unsound))]
pub fn warning_time(plan: &Plan, state: usize, seconds: usize) -> Result<Option<Time>, Refusal>
    ensures call { answer_of result ≡ warning_call (lent plan.now) state seconds }
    ensures warned { (answer : Option ModelTime) → answer_of result ≡ given answer → Warned (lent plan.now) state seconds answer }
{
    let checked = plan.sound()?;
    admit(&checked, state, seconds)?;
    let mut ranks = [0u16; Size::STATES];
    let mut tos = [0u16; Size::STATES];
    let mut fails = [0u16; Size::STATES];
    let mut scratch = [0u16; Size::STATES];
    propagate_plan(&checked, &mut ranks, &mut tos, &mut fails, &mut scratch);
    Ok(times::warning(&ranks, state, seconds))
}
