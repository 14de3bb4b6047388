// Rows: the only functions that touch one in its table. Only the planner's own crates call this.
ghost use Rattle.std.specs.Prelude.{◌≡◌, ◌<◌, length, get_or, set};
ghost use Rattle.tables.specs.declared.Row.{Row};
ghost use Rattle.tables.specs.Spans.{no_row};

use crate::Row;
use crate::entries::ENTRY_BYTES;

// Where a plan is lent as bytes: how many entries and bytes a row has, and how many bytes a size record.
pub const ROW_ENTRIES: usize = 3;

pub const ROW_BYTES: usize = ROW_ENTRIES * ENTRY_BYTES;

pub const SIZE_BYTES: usize = 8;

// The row of state s.
pub fn row_at(rows: &[Row], s: usize) -> Row
    requires { s < length rows.now }
    ensures { result ≡ get_or rows.now s no_row }
{
    rows[s]
}

// Stores the row of state s.
pub fn put_row(rows: &mut [Row], s: usize, row: Row)
    requires { s < length rows.old }
    ensures { rows.new ≡ set rows.old s row }
{
    rows[s] = row;
}
