// What only the planner's own crates call: reading, to bytes. The slices are parameters one by one, as the C interface lends them.
ghost use Rattle.std.specs.Prelude.{◌≡◌};
ghost use Rattle.model.specs.Boundary.{gate_read_call};
ghost use Rattle.gate_reading.specs.Lent.{after_gate_read};
ghost use Rattle.store.specs.Codes.{code_of};

use crate::answers::{room, store_lists};
use reading::read;
use store::codes::code;
use store::encoding::store_rows;
use tables::{Refusal, Row, Size};

// By way of tables of the limits' lengths; refusal 9 where the slices have no room for the plan.
fn read_into(
    file: &[u8],
    size: &mut [u8],
    rows: &mut [u8],
    firsts: &mut [u8],
    outcomes: &mut [u8],
) -> Result<(), Refusal>
    ensures { after_gate_read (code_of result) size.new rows.new firsts.new outcomes.new
        ≡ gate_read_call file.now size.old rows.old firsts.old outcomes.old }
{
    let mut states = [Row::BLANK; Size::STATES];
    let mut commands = [0; Size::COMMANDS];
    let mut entries = [0; Size::OUTCOMES];
    let z = read(file, &mut states, &mut commands, &mut entries)?;
    if !room(z, size.len(), rows.len(), firsts.len(), outcomes.len()) {
        return Err(Refusal::Cramped);
    }
    store_rows(&states, rows, z.n);
    store_lists(z, &commands, &entries, size, firsts, outcomes);
    Ok(())
}

// Reads a file; the size record, the rows, the first outcomes and the outcomes are answered as entries of two bytes, highest first.
pub fn read_call(
    file: &[u8],
    size: &mut [u8],
    rows: &mut [u8],
    firsts: &mut [u8],
    outcomes: &mut [u8],
) -> u32
    ensures call { after_gate_read result size.new rows.new firsts.new outcomes.new
        ≡ gate_read_call file.now size.old rows.old firsts.old outcomes.old }
{
    code(read_into(file, size, rows, firsts, outcomes))
}
