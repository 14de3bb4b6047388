// The fields of a plan's states.
ghost use Rattle.std.specs.Prelude.{[], ◌∷◌, ◌-◌, ◌<◌, ◌≤◌, length};
ghost use Rattle.laws.specs.Lists.{tabulate};
ghost use Rattle.model.specs.Bytes.{commands_bytes, states_bytes};
ghost use Rattle.model.specs.Places.{outcomes_at};
ghost use Rattle.model.specs.Held.{state_at};
ghost use Rattle.tables.specs.Meaning.{lent};
ghost use Rattle.writing.specs.Puts.{Room, Put};

use crate::bytes::Output;
use crate::fields::{write_command, write_row};
use tables::sound_plan::SoundPlan;

// The commands from `first` up to `end`.
fn write_commands(checked: &SoundPlan, first: usize, end: usize, out: &mut Output)
    requires inside { end ≤ checked.now.plan.size.m }
    requires room { Room out.old (length (commands_bytes (tabulate (outcomes_at (lent checked.now.plan)) first (end - first)) [])) }
    ensures { Put out.old (commands_bytes (tabulate (outcomes_at (lent checked.now.plan)) first (end - first)) []) out.new }
{
    for c in first..end {
        write_command(checked, c, out);
    }
}

// A state field and its commands.
fn write_state(checked: &SoundPlan, s: usize, out: &mut Output)
    requires inside { s < checked.now.plan.size.n }
    requires room { Room out.old (length (states_bytes (state_at (lent checked.now.plan) s ∷ []) [])) }
    ensures { Put out.old (states_bytes (state_at (lent checked.now.plan) s ∷ []) []) out.new }
{
    let span = checked.span(s);
    write_row(span, out);
    write_commands(checked, span.first, span.end, out);
}

// Each state in number order.
pub fn write_states(checked: &SoundPlan, out: &mut Output)
    requires { let T = lent checked.now.plan in
        Room out.old (length (states_bytes (tabulate (state_at T) 0 T.size.n) [])) }
    ensures { let T = lent checked.now.plan in
        Put out.old (states_bytes (tabulate (state_at T) 0 T.size.n) []) out.new }
{
    for s in 0..checked.plan.size.n {
        write_state(checked, s, out);
    }
}
