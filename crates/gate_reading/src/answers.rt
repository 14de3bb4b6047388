// What was read, as bytes.
ghost use Rattle.std.specs.Prelude.{◌≡◌, ◌*◌, ◌<◌, ◌≤◌, length, take};
ghost use Rattle.laws.specs.Lists.{overwrite};
ghost use Rattle.model.specs.Boundary.{bytes_for, entry_bytes, size_bytes, size_entries};
ghost use Rattle.tables.specs.Meaning.{numbers};
ghost use Rattle.model.specs.Rooms.{read_room};

use store::encoding::{store, store_size};
use tables::Size;
use tables::entries::ENTRY_BYTES;
use tables::lengths::long_enough;
use tables::rows::{ROW_BYTES, SIZE_BYTES};

// Whether slices of these lengths have room for a plan.
pub fn room(z: Size, size: usize, rows: usize, firsts: usize, outcomes: usize) -> bool
    ensures { result ≡ read_room (numbers z) size rows firsts outcomes }
{
    long_enough(
        z,
        rows / ROW_BYTES,
        firsts / ENTRY_BYTES,
        outcomes / ENTRY_BYTES,
    ) && SIZE_BYTES <= size
}

// Stores the size record, the first outcomes of the commands and the outcome entries.
pub fn store_lists(
    z: Size,
    commands: &[u16],
    entries: &[u16],
    size: &mut [u8],
    firsts: &mut [u8],
    outcomes: &mut [u8],
)
    requires size_bytes_in_bounds { (size_bytes ≤ length size.old) × (z.n < 65536) × (z.m < 65536) × (z.t < 65536) × (z.start < 65536) }
    requires m_in_bounds { (z.m ≤ length commands.now) × (z.m * entry_bytes ≤ length firsts.old) }
    requires t_in_bounds { (z.t ≤ length entries.now) × (z.t * entry_bytes ≤ length outcomes.old) }
    ensures size { size.new ≡ overwrite (bytes_for (size_entries (numbers z))) size.old }
    ensures firsts { firsts.new ≡ overwrite (bytes_for (take z.m commands.now)) firsts.old }
    ensures outcomes { outcomes.new ≡ overwrite (bytes_for (take z.t entries.now)) outcomes.old }
{
    store_size(z, size);
    store(commands, firsts, z.m);
    store(entries, outcomes, z.t);
}
