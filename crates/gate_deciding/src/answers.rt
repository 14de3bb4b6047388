// A decision, as bytes.
ghost use Rattle.std.specs.Prelude.{◌≡◌, ◌≤◌, Ok, length};
ghost use Rattle.laws.specs.Lists.{joined, overwrite};
ghost use Rattle.model.specs.Boundary.{bytes_for, tally_bytes};
ghost use Rattle.model.specs.Rooms.{decide_room};
ghost use Rattle.decide.specs.Answers.{after_decide};
ghost use Rattle.gate_deciding.specs.Delivery.{after_gate_decide, delivery_call};
ghost use Rattle.store.specs.Codes.{code_of};

use decide::Tally;
use store::encoding::store;
use tables::Refusal;
use tables::entries::ENTRY_BYTES;

// The counts of a tally, and their bytes.
const COUNTS: usize = 6;

const TALLY_BYTES: usize = COUNTS * ENTRY_BYTES;

// Whether slices of so many bytes have room for the entries of n states and for the tally's six.
// Each call has a test of its own: it is over other slices, and the definitions have three (`read_room`, `decide_room`, `search_room`).
fn room(n: usize, ranks: usize, commands: usize, marks: usize, scratch: usize, tally: usize) -> bool
    ensures { result ≡ decide_room n ranks commands marks scratch tally }
{
    n <= ranks / ENTRY_BYTES
        && n <= commands / ENTRY_BYTES
        && n <= marks / ENTRY_BYTES
        && n <= scratch / ENTRY_BYTES
        && TALLY_BYTES <= tally
}

// The tally's two rows, one after the other.
fn store_tally(counts: Tally, tally: &mut [u8])
    requires { tally_bytes ≤ length tally.old }
    ensures { tally.new ≡ overwrite (bytes_for (joined counts)) tally.old }
{
    store(counts.as_flattened(), tally, COUNTS);
}

// Stores the tally, and the first n entries of the tables that deciding left, if there is room for all; else nothing is written. The slices
// are parameters one by one, as the C interface lends them.
pub fn deliver(
    counts: Tally,
    n: usize,
    ranked: &[u16],
    chosen: &[u16],
    marked: &[u16],
    clean: &[u16],
    ranks: &mut [u8],
    commands: &mut [u8],
    marks: &mut [u8],
    scratch: &mut [u8],
    tally: &mut [u8],
) -> Result<(), Refusal>
    requires { (n ≤ length ranked.now) × (n ≤ length chosen.now) × (n ≤ length marked.now) × (n ≤ length clean.now) }
    ensures call { let decided = after_decide (Ok counts) ranked.now chosen.now marked.now clean.now in
        after_gate_decide (code_of result) ranks.new commands.new marks.new scratch.new tally.new
        ≡ delivery_call decided n ranks.old commands.old marks.old scratch.old
        tally.old }
{
    if !room(
        n,
        ranks.len(),
        commands.len(),
        marks.len(),
        scratch.len(),
        tally.len(),
    ) {
        return Err(Refusal::Cramped);
    }
    store(ranked, ranks, n);
    store(chosen, commands, n);
    store(marked, marks, n);
    store(clean, scratch, n);
    store_tally(counts, tally);
    Ok(())
}
