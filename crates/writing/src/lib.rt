// Writing a plan file from plan tables.
#![tactic(auto)]

ghost use Rattle.std.specs.Prelude.{◌≡◌};
ghost use Rattle.model.specs.Tables.{file_length};
ghost use Rattle.model.specs.Calls.{write_call};
ghost use Rattle.tables.specs.Meaning.{lent};
ghost use Rattle.writing.specs.Answers.{after_write};

use crate::bytes::Output;
use crate::fields::{write_end, write_head};
use crate::states::write_states;
use tables::sound_plan::SoundPlan;
use tables::{Plan, Refusal};

mod bytes;
mod fields;
mod states;

#[tactic(auto, using(crate::proofs::FileFacts::size_fits), unfolding(model::specs::Tables::size_length))]
fn file_length(checked: &SoundPlan) -> usize
    ensures { result ≡ file_length (lent checked.now.plan) }
{
    let size = checked.plan.size;
    10 + 8 * size.n + 3 * size.m + 2 * size.t
}

// Writes the file to the first bytes lent, and answers its length. A refusal leaves them as they were. Ruled out: bytes that read back as
// another plan, and refusal 9 though the bytes lent suffice.
pub fn write(plan: &Plan, bytes: &mut [u8]) -> Result<usize, Refusal>
    ensures call { after_write result bytes.new ≡ write_call (lent plan.now) bytes.old }
{
    let checked = plan.sound()?;
    if bytes.len() < file_length(&checked) {
        return Err(Refusal::Cramped);
    }
    let mut out = Output { bytes, place: 0 };
    write_head(&checked, &mut out);
    write_states(&checked, &mut out);
    write_end(&mut out);
    Ok(out.place)
}
