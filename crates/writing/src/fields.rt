// The fields of a plan file. The casts in it lose nothing, which is proved; `try_from` and `unwrap` would say the same in more words.
ghost use Rattle.std.specs.Prelude.{[], ◌∷◌, ◌<◌, ◌≤◌, length};
ghost use Rattle.laws.specs.Entry.{two};
ghost use Rattle.model.specs.File.{head_tag, end_tag};
ghost use Rattle.model.specs.Bytes.{state_bytes, commands_bytes};
ghost use Rattle.model.specs.Places.{outcomes_at};
ghost use Rattle.tables.specs.Meaning.{lent};
ghost use Rattle.tables.specs.Spans.{field_in};
ghost use Rattle.writing.specs.Puts.{Room, Put};

use crate::bytes::Output;
use tables::sound_plan::SoundPlan;
use tables::spans::Span;
use tables::tags::{COMMAND, END, HEAD, STATE};

#[tactic(auto, using(crate::proofs::FileFacts::size_fits))]
pub fn write_head(checked: &SoundPlan, out: &mut Output)
    requires { Room out.old 7 }
    ensures { let z = checked.now.plan.size in
        Put out.old (head_tag ∷ two 4 (two z.n (two z.start []))) out.new }
{
    out.put_byte(HEAD);
    out.put_number(4);
    out.put_number(checked.plan.size.n as u16);
    out.put_number(checked.plan.size.start as u16);
}

// A state field, without the state's commands.
pub fn write_row(span: Span, out: &mut Output)
    requires room { Room out.old 8 }
    requires fits { (span.kind < 256) × (span.first ≤ span.end) × (span.end < 65536) × (span.practice < 65536) }
    ensures { Put out.old (state_bytes (field_in span) []) out.new }
{
    out.put_byte(STATE);
    out.put_number(5);
    out.put_byte(span.kind as u8);
    out.put_number((span.end - span.first) as u16);
    out.put_number(span.practice as u16);
}

// A command field.
pub fn write_command(checked: &SoundPlan, c: usize, out: &mut Output)
    requires inside { c < checked.now.plan.size.m }
    requires room { Room out.old (length (commands_bytes (outcomes_at (lent checked.now.plan) c ∷ []) [])) }
    ensures { Put out.old (commands_bytes (outcomes_at (lent checked.now.plan) c ∷ []) []) out.new }
{
    let from = checked.first_outcome(c);
    let to = checked.first_outcome(c + 1);
    out.put_byte(COMMAND);
    out.put_number(((to - from) * 2) as u16);
    out.put_numbers(&checked.plan.outcomes[from..to]);
}

pub fn write_end(out: &mut Output)
    requires { Room out.old 3 }
    ensures { Put out.old (end_tag ∷ two 0 []) out.new }
{
    out.put_byte(END);
    out.put_number(0);
}
