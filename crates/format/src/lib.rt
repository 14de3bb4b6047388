// Reading and writing, one after the other: both round trips. Where the second of the two refuses, what the first has written stays.
#![tactic(auto)]

ghost use Rattle.std.specs.Prelude.{◌≡◌, ◌≤◌, length};
ghost use Rattle.laws.specs.Lists.{overwrite};
ghost use Rattle.model.specs.Refusal.{given};
ghost use Rattle.model.specs.Tables.{Size as ModelSize, Same, file_length};
ghost use Rattle.model.specs.Sound.{Sound};
ghost use Rattle.model.specs.Calls.{read_call};
ghost use Rattle.tables.specs.Meaning.{rows_of, held, lent};
ghost use Rattle.reading.specs.Answers.{answer_of as readAnswer};
ghost use Rattle.writing.specs.Answers.{answer_of as writeAnswer};
ghost use Rattle.format.specs.Trips.{read_write_call, write_read_call};
ghost use Rattle.format.specs.Meaning.{after_read_write, after_write_read};

use reading::read;
use tables::{Plan, Refusal, Row, Size};
use writing::write;

// Reads a file into lent tables, and writes what was read into lent bytes. The clause `again`: if it is read and as many bytes are lent
// as it has, these are its bytes. Ruled out: other bytes than the file's, and bytes written though the file is refused.
pub fn read_write(
    file: &[u8],
    rows: &mut [Row],
    firsts: &mut [u16],
    outcomes: &mut [u16],
    bytes: &mut [u8],
) -> Result<usize, Refusal>
    ensures call { after_read_write result rows.new firsts.new outcomes.new bytes.new
        ≡ read_write_call file.now (rows_of rows.old) firsts.old outcomes.old bytes.old }
    ensures again { (z : ModelSize)
        → (read_call file.now (rows_of rows.old) firsts.old outcomes.old).answers ≡ given z
        → length file.now ≤ length bytes.old → (writeAnswer result ≡ given (length file.now))
        × (bytes.new ≡ overwrite file.now bytes.old) }
{
    let size = read(file, rows, firsts, outcomes)?;
    let plan = Plan {
        size,
        rows,
        firsts,
        outcomes,
    };
    write(&plan, bytes)
}

// Writes lent tables into lent bytes, and reads what was written into a second set of tables. The clause `again`: if the tables are
// sound, and what is lent is long enough, the second are the same. Ruled out: a sound plan that does not come back, and reading past what
// was written.
pub fn write_read(
    plan: &Plan,
    bytes: &mut [u8],
    rows2: &mut [Row],
    firsts2: &mut [u16],
    outcomes2: &mut [u16],
) -> Result<Size, Refusal>
    ensures call { after_write_read result bytes.new rows2.new firsts2.new outcomes2.new
        ≡ write_read_call (lent plan.now) bytes.old (rows_of rows2.old) firsts2.old outcomes2.old }
    ensures again { let T = lent plan.now in
        Sound T → file_length T ≤ length bytes.old
        → T.size.n ≤ length rows2.old → T.size.m ≤ length firsts2.old → T.size.t ≤ length outcomes2.old
        → (readAnswer result ≡ given T.size) × Same T (held plan.now.size rows2.new firsts2.new outcomes2.new) }
{
    let length = write(plan, bytes)?;
    read(&bytes[..length], rows2, firsts2, outcomes2)
}
