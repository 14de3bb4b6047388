// What the warning time of a sound plan is refused with.
ghost use Rattle.std.specs.Prelude.{◌≡◌};
ghost use Rattle.model.specs.Verdict.{rank};
ghost use Rattle.model.specs.Held.{plan_in};
ghost use Rattle.model.specs.Warning.{warning, warning_call};
ghost use Rattle.tables.specs.Meaning.{answered, lent};

use crate::times::LONGEST_MOVE;
use tables::Refusal;
use tables::sound_plan::SoundPlan;

// Refusal 11, then 13.
#[tactic(auto, using(crate::proofs::Replying::admitting))]
pub fn admit(checked: &SoundPlan, state: usize, seconds: usize) -> Result<(), Refusal>
    ensures { let T = lent checked.now.plan in
        warning_call T state seconds ≡ answered (λ _. warning (rank (plan_in T) state) seconds) result }
{
    if checked.plan.size.n <= state {
        return Err(Refusal::Stranger);
    }
    if seconds < 1 || LONGEST_MOVE < seconds {
        return Err(Refusal::Seconds);
    }
    Ok(())
}
