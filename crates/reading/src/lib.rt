// Reading a plan file into lent tables.
#![tactic(auto)]

ghost use Rattle.std.specs.Prelude.{◌≡◌};
ghost use Rattle.model.specs.Calls.{read_call};
ghost use Rattle.tables.specs.Meaning.{rows_of};
ghost use Rattle.reading.specs.Answers.{after_read};

use tables::lengths::long_enough;
use tables::{Refusal, Row, Size};

mod bytes;
mod fields;
mod fill;
mod frame;
mod scan;
mod walker;

// Reads a file into lent tables, and answers the size record of the plan that was read. A refusal leaves each table as it was. The tables
// that are written stay parameters of their own (decision 69). Ruled out: refusing a file that can be read, and answering a size record
// while a table is not written.
pub fn read(
    file: &[u8],
    rows: &mut [Row],
    firsts: &mut [u16],
    outcomes: &mut [u16],
) -> Result<Size, Refusal>
    ensures call { after_read result rows.new firsts.new outcomes.new
        ≡ read_call file.now (rows_of rows.old) firsts.old outcomes.old }
{
    let size = scan::scan(file)?;
    if !long_enough(size, rows.len(), firsts.len(), outcomes.len()) {
        return Err(Refusal::Cramped);
    }
    fill::fill_states(file, size.n, rows, firsts, outcomes);
    Ok(size)
}
