// What is read of a state at once.
ghost use Rattle.std.specs.Prelude.{◌≡◌, ◌<◌};
ghost use Rattle.tables.specs.Meaning.{lent};
ghost use Rattle.trim.specs.Stretches.{stretch_at};

use tables::sound_plan::SoundPlan;

// The commands of a state, from `first` up to `end`, and the outcomes of them all, from `from` up to `to`.
#[derive(Clone, Copy, Debug, PartialEq, Eq)]
pub struct Stretch {
    pub first: usize,
    pub end: usize,
    pub from: usize,
    pub to: usize,
}

// The stretch of state s.
pub fn stretch_at(checked: &SoundPlan, s: usize) -> Stretch
    requires { s < checked.now.plan.size.n }
    ensures { result ≡ stretch_at (lent checked.now.plan) s }
{
    let span = checked.span(s);
    Stretch {
        first: span.first,
        end: span.end,
        from: checked.first_outcome(span.first),
        to: checked.first_outcome(span.end),
    }
}
