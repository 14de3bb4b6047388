// Entries of a table that rise. Only the planner's own crates call this.
ghost use Rattle.std.specs.Prelude.{◌≡◌, ◌<◌, ◌≤◌, ◌+◌, ◌-◌, length};
ghost use Rattle.laws.specs.Sets.{every};
ghost use Rattle.model.specs.SoundTest.{rises_at};
ghost use Rattle.tables.specs.Lasts.{rises_below};

use crate::entries::at;

// The entries at the k + 1 places from `from` on rise.
fn rises(entries: &[u16], from: usize, k: usize) -> bool
    requires { k < length entries.now - from }
    ensures { result ≡ every (λ i. rises_at entries.now (from + i)) k }
{
    for i in 0..k {
        if at(entries, from + i + 1) <= at(entries, from + i) {
            return false;
        }
    }
    true
}

// The entries from place `from` up to `to` rise, and the last is below n, if there is one: then all are.
pub fn rises_below(n: usize, entries: &[u16], from: usize, to: usize) -> bool
    requires { to ≤ length entries.now }
    ensures { result ≡ rises_below n entries.now from to }
{
    if to <= from {
        return true;
    }
    let last = to - 1;
    if n <= at(entries, last) {
        return false;
    }
    rises(entries, from, to - from - 1)
}
