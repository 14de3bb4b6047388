// What the contest over a sound plan is refused with.
ghost use Rattle.std.specs.Prelude.{◌≡◌};
ghost use Rattle.model.specs.Held.{plan_in};
ghost use Rattle.model.specs.Contest.{keeper_turn, contest_call};
ghost use Rattle.tables.specs.Meaning.{answered, lent};

use crate::memo::MOVES;
use tables::Refusal;
use tables::sound_plan::SoundPlan;

// Refusal 11, then 12.
#[tactic(auto, using(crate::proofs::Replying::admitting))]
pub fn admit(checked: &SoundPlan, state: usize, moves: usize) -> Result<(), Refusal>
    ensures { let T = lent checked.now.plan in
        contest_call T state moves ≡ answered (λ _. keeper_turn (plan_in T) moves state) result }
{
    if checked.plan.size.n <= state {
        return Err(Refusal::Stranger);
    }
    if MOVES < moves {
        return Err(Refusal::Moves);
    }
    Ok(())
}
