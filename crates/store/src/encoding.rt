// What only the planner's own crates call: each function here asks that the bytes have room.
ghost use Rattle.std.specs.Prelude.{◌≡◌, [], ◌∷◌, ◌+◌, ◌*◌, ◌<◌, ◌≤◌, length, take};
ghost use Rattle.laws.specs.Entry.{two};
ghost use Rattle.laws.specs.Lists.{overwrite};
ghost use Rattle.laws.specs.Writes.{put_all};
ghost use Rattle.model.specs.Boundary.{bytes_for, row_entries, size_entries, entry_bytes, row_bytes, size_bytes};
ghost use Rattle.tables.specs.Meaning.{numbers, row_of, rows_of};

use tables::rows::{ROW_ENTRIES, row_at};
use tables::{Row, Size};

// Stores x as the entry i.
pub fn store_entry(bytes: &mut [u8], i: usize, x: u16)
    requires { i * 2 + 2 ≤ length bytes.old }
    ensures { bytes.new ≡ put_all bytes.old (i * 2) (two x []) }
{
    let [high, low] = x.to_be_bytes();
    bytes[i * 2] = high;
    bytes[i * 2 + 1] = low;
}

// Stores the first n entries of a table.
pub fn store(table: &[u16], bytes: &mut [u8], n: usize)
    requires { (n ≤ length table.now) × (n * entry_bytes ≤ length bytes.old) }
    ensures { bytes.new ≡ overwrite (bytes_for (take n table.now)) bytes.old }
{
    for i in 0..n {
        store_entry(bytes, i, table[i]);
    }
}

// Stores the row of state s.
fn store_row(row: Row, bytes: &mut [u8], s: usize)
    requires { s * row_bytes + row_bytes ≤ length bytes.old }
    ensures { bytes.new ≡ put_all bytes.old (s * row_bytes) (bytes_for (row_entries (row_of row ∷ []))) }
{
    let from = s * ROW_ENTRIES;
    store_entry(bytes, from, row.kind);
    store_entry(bytes, from + 1, row.first);
    store_entry(bytes, from + 2, row.practice);
}

// Stores the first n rows of a table.
// This and `store` stay two: an entry is one number of two bytes and a row three, and a trait over both would have these two impls alone.
pub fn store_rows(rows: &[Row], bytes: &mut [u8], n: usize)
    requires { (n ≤ length rows.now) × (n * row_bytes ≤ length bytes.old) }
    ensures { bytes.new ≡ overwrite (bytes_for (row_entries (take n (rows_of rows.now)))) bytes.old }
{
    for s in 0..n {
        store_row(row_at(rows, s), bytes, s);
    }
}

// Stores a size record: n, m, t, start.
// These casts lose nothing, which is proved; `try_from` and `unwrap` would say the same in more words.
pub fn store_size(size: Size, bytes: &mut [u8])
    requires { (size_bytes ≤ length bytes.old) × (size.n < 65536) × (size.m < 65536) × (size.t < 65536) × (size.start < 65536) }
    ensures { bytes.new ≡ overwrite (bytes_for (size_entries (numbers size))) bytes.old }
{
    store_entry(bytes, 0, size.n as u16);
    store_entry(bytes, 1, size.m as u16);
    store_entry(bytes, 2, size.t as u16);
    store_entry(bytes, 3, size.start as u16);
}
