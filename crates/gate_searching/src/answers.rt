// What the search found, as bytes.
ghost use Rattle.std.specs.Prelude.{◌≡◌, ◌<◌, ◌≤◌, length};
ghost use Rattle.laws.specs.Lists.{overwrite};
ghost use Rattle.model.specs.Refusal.{given};
ghost use Rattle.model.specs.Boundary.{bytes_for, result_entries, answer_bytes};
ghost use Rattle.model.specs.Rooms.{search_room};
ghost use Rattle.gate_searching.specs.Delivery.{after_gate_search, delivered};
ghost use Rattle.store.specs.Codes.{code_of};

use search::Found;
use store::encoding::{store, store_entry};
use tables::Refusal;
use tables::entries::ENTRY_BYTES;

// The verdict and the rounds, an entry each.
const ANSWER_BYTES: usize = 4;

// Whether slices of so many bytes have room for the entries of n states and for the answer.
fn room(n: usize, commands: usize, scratch: usize, answer: usize) -> bool
    ensures tested { result ≡ search_room n commands scratch answer }
{
    n <= commands / ENTRY_BYTES && n <= scratch / ENTRY_BYTES && ANSWER_BYTES <= answer
}

// The verdict, then the rounds.
fn store_found(found: Found, answer: &mut [u8])
    requires fits { (found.rounds < 65536) × (answer_bytes ≤ length answer.old) }
    ensures stored { answer.new ≡ overwrite (bytes_for (result_entries (found.lost, found.rounds))) answer.old }
{
    store_entry(answer, 0, u16::from(found.lost));
    store_entry(answer, 1, found.rounds as u16);
}

// Stores what was found, and the first n entries of the tables that the search left, if there is room for all; else nothing is written.
// The slices are parameters one by one, as the C interface lends them.
pub fn deliver(
    found: Found,
    n: usize,
    takes: &[u16],
    clean: &[u16],
    commands: &mut [u8],
    scratch: &mut [u8],
    answer: &mut [u8],
) -> Result<(), Refusal>
    requires fits { (n ≤ length takes.now) × (n ≤ length clean.now) × (found.rounds < 65536) }
    ensures call { after_gate_search (code_of result) commands.new scratch.new answer.new
        ≡ delivered (given (found.lost, found.rounds)) n takes.now clean.now
        commands.old scratch.old answer.old }
{
    if !room(n, commands.len(), scratch.len(), answer.len()) {
        return Err(Refusal::Cramped);
    }
    store(takes, commands, n);
    store(clean, scratch, n);
    store_found(found, answer);
    Ok(())
}
