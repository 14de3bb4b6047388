// What the calls of the gate controller's C program read the lent plan with. Only the planner's own crates call this.
ghost use Rattle.std.specs.Prelude.{◌≡◌, ◌+◌, ◌*◌, ◌<◌, ◌≤◌, length, take};
ghost use Rattle.laws.specs.Lists.{overwrite};
ghost use Rattle.laws.specs.Entry.{be16};
ghost use Rattle.model.specs.Refusal.{answer};
ghost use Rattle.model.specs.File.{max_states, max_commands, max_outcomes};
ghost use Rattle.model.specs.Tables.{Tables};
ghost use Rattle.model.specs.Calls.{left};
ghost use Rattle.model.specs.Boundary.{entries_in, rows_in, row_in, size_in, entry_bytes, row_bytes, size_bytes};
ghost use Rattle.tables.specs.Meaning.{numbers, row_of, rows_of};
ghost use Rattle.load.specs.Loading.{few, loading, answer_of};

use tables::entries::ENTRY_BYTES;
use tables::lengths::long_enough;
use tables::rows::{ROW_BYTES, ROW_ENTRIES, SIZE_BYTES, put_row};
use tables::{Refusal, Row, Size};

// The entry at place i.
fn entry_at(bytes: &[u8], i: usize) -> u16
    requires { i * 2 + 1 < length bytes.now }
    ensures { result ≡ be16 bytes.now (i * 2) }
{
    u16::from_be_bytes([bytes[i * 2], bytes[i * 2 + 1]])
}

// The first n entries, to the first n places of a table.
pub fn load(bytes: &[u8], table: &mut [u16], n: usize)
    requires { (n * entry_bytes ≤ length bytes.now) × (n ≤ length table.old) }
    ensures { table.new ≡ overwrite (take n (entries_in bytes.now)) table.old }
{
    for i in 0..n {
        table[i] = entry_at(bytes, i);
    }
}

// The row of state s.
fn row_in(bytes: &[u8], s: usize) -> Row
    requires { s * row_bytes + row_bytes ≤ length bytes.now }
    ensures { row_of result ≡ row_in bytes.now s }
{
    let from = s * ROW_ENTRIES;
    Row {
        kind: entry_at(bytes, from),
        first: entry_at(bytes, from + 1),
        practice: entry_at(bytes, from + 2),
    }
}

// The first n rows, to the first n places of a table.
// This and `load` stay two: an entry is one number of two bytes and a row three, and a trait over both would have these two impls alone.
pub fn load_rows(bytes: &[u8], rows: &mut [Row], n: usize)
    requires { (n * row_bytes ≤ length bytes.now) × (n ≤ length rows.old) }
    ensures { rows_of rows.new
        ≡ overwrite (take n (rows_in (entries_in bytes.now))) (rows_of rows.old) }
{
    for s in 0..n {
        put_row(rows, s, row_in(bytes, s));
    }
}

fn size_in(bytes: &[u8]) -> Size
    requires { size_bytes ≤ length bytes.now }
    ensures { numbers result ≡ size_in bytes.now }
{
    let n = entry_at(bytes, 0);
    let m = entry_at(bytes, 1);
    let t = entry_at(bytes, 2);
    let start = entry_at(bytes, 3);
    Size::new(
        usize::from(n),
        usize::from(m),
        usize::from(t),
        usize::from(start),
    )
}

// No count is above its limit.
#[tactic(auto, unfolding(crate::specs::Loading::few))]
fn few(size: Size) -> bool
    ensures { result ≡ few (numbers size) }
{
    size.n <= Size::STATES && size.m <= Size::COMMANDS && size.t <= Size::OUTCOMES
}

// The lent plan's size record, where tables of the limits' lengths hold the plan; else it is unsound.
fn plan_size(size: &[u8], rows: &[u8], firsts: &[u8], outcomes: &[u8]) -> Result<Size, Refusal>
    ensures { let lent = loading size.now rows.now firsts.now outcomes.now in
        answer_of result ≡ answer (λ (T : Tables). T.size) lent }
{
    if size.len() < SIZE_BYTES {
        return Err(Refusal::Unsound);
    }
    let read = size_in(size);
    if !few(read) {
        return Err(Refusal::Unsound);
    }
    let long = long_enough(
        read,
        rows.len() / ROW_BYTES,
        firsts.len() / ENTRY_BYTES,
        outcomes.len() / ENTRY_BYTES,
    );
    if !long {
        return Err(Refusal::Unsound);
    }
    Ok(read)
}

// Reads the lent plan into tables of the limits' lengths, as far as its counts say. A plan that they cannot hold is no sound one, and is
// refused with 10; that the one read is sound is not looked at.
// The slices are parameters one by one, as the C interface lends them.
pub fn load_plan(
    size: &[u8],
    rows: &[u8],
    firsts: &[u8],
    outcomes: &[u8],
    states: &mut [Row],
    commands: &mut [u16],
    entries: &mut [u16],
) -> Result<Size, Refusal>
    requires { (max_states ≤ length states.old) × (max_commands ≤ length commands.old) × (max_outcomes ≤ length entries.old) }
    ensures answered { let lent = loading size.now rows.now firsts.now outcomes.now in
        answer_of result ≡ answer (λ (T : Tables). T.size) lent }
    ensures rows { let lent = loading size.now rows.now firsts.now outcomes.now in
        rows_of states.new ≡ left (λ (T : Tables). take T.size.n T.rows) lent (rows_of states.old) }
    ensures firsts { let lent = loading size.now rows.now firsts.now outcomes.now in
        commands.new ≡ left (λ (T : Tables). take T.size.m T.firsts) lent commands.old }
    ensures outcomes { let lent = loading size.now rows.now firsts.now outcomes.now in
        entries.new ≡ left (λ (T : Tables). take T.size.t T.outcomes) lent entries.old }
{
    let read = plan_size(size, rows, firsts, outcomes)?;
    load_rows(rows, states, read.n);
    load(firsts, commands, read.m);
    load(outcomes, entries, read.t);
    Ok(read)
}
