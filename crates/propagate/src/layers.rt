// The propagation. Only the planner's own crates call this. Each state watches one command, the first of those that count that has no
// outcome of a rank of at most k: a look at a command that is not watched costs nothing, and each command is scanned when its state comes
// to watch it and when it is hit. The three tables that are written are parameters: a struct of them would have each function say, and each
// loop keep, that it has the same references.
ghost use Rattle.std.specs.Prelude.{◌≡◌, true, ◌↔◌, ℕ, ◌+◌, ◌≤◌, ◌<◌, length, get_or};
ghost use Rattle.laws.specs.Entry.{FFFF, entry};
ghost use Rattle.laws.specs.Lists.{tabulate, overwrite};
ghost use Rattle.laws.specs.Starts.{start_of};
ghost use Rattle.model.specs.File.{max_states};
ghost use Rattle.propagate.specs.Net.{depth, seeds, Seeded, Owns};
ghost use Rattle.propagate.specs.Progress.{progress, Room, QueueBound, Among, SeedsQueued};
ghost use Rattle.propagate.specs.Plans.{states_of, entries_of, net_from, Moves, LayerAdded};

use crate::indexed::RangedLists;
use choice::choosing::first_clear;
use choice::state_set::StateSet;
use tables::entries::{NONE, at, put};

// Whether the state s has no rank and watches the command c, which counts.
fn watches(ranged: &RangedLists, ranks: &[u16], watch: &[u16], s: usize, c: usize) -> bool
    requires { (s < states_of ranged.now) × (s < length ranks.now) × (s < length watch.now) }
    ensures { (result ≡ true) ↔ ((get_or ranks.now s 0 ≡ FFFF) × (get_or watch.now s 0 ≡ c) × (c < get_or ranged.now.tos.now s 0)) }
{
    at(ranks, s) == NONE && at(watch, s) == c && c < ranged.end_of(s)
}

// The command c, which may have an outcome of rank k, is looked at: if its state watches it, the state goes on to the next command
// that has no outcome of a rank of at most k; if there is none, the state has rank k + 1 and waits at the end of the queue.
fn visit(
    ranged: &RangedLists,
    ranks: &mut [u16],
    watch: &mut [u16],
    queue: &mut [u16],
    c: usize,
    end: usize,
    k: usize,
) -> usize
    requires c_in_bounds { (c < ranged.now.indexed.lists.table.count) × (k < max_states) }
    requires room { Room (states_of ranged.now) ranks.old watch.old queue.old }
    requires queue_bound { QueueBound (states_of ranged.now) (progress ranks.old watch.old queue.old end) }
    ensures { Moves ranged.now k (λ (d : ℕ). d ≡ c) (progress ranks.old watch.old queue.old end)
        (progress ranks.new watch.new queue.new result) }
{
    let s = ranged.indexed.owner_of(c);
    if !watches(ranged, ranks, watch, s, c) {
        return end;
    }
    let to = ranged.end_of(s);
    let lost = StateSet {
        table: ranks,
        limit: k,
    };
    let next = first_clear(&ranged.indexed.lists, &lost, c, to);
    put(watch, s, next);
    let clear = next < to;
    if clear {
        return end;
    }
    put(ranks, s, k + 1);
    put(queue, end, s);
    end + 1
}

// All commands that have the outcome o, of rank k, are looked at.
fn spread(
    ranged: &RangedLists,
    ranks: &mut [u16],
    watch: &mut [u16],
    queue: &mut [u16],
    o: usize,
    end: usize,
    k: usize,
) -> usize
    requires o_lt_n { (o < states_of ranged.now) × (k < max_states) }
    requires room { Room (states_of ranged.now) ranks.old watch.old queue.old }
    requires queue_bound { QueueBound (states_of ranged.now) (progress ranks.old watch.old queue.old end) }
    ensures { let users = start_of ranged.now.indexed.offsets.now (states_of ranged.now) (entries_of ranged.now) in
        Moves ranged.now k (Among ranged.now.indexed.users.now (users o) (users (o + 1)))
        (progress ranks.old watch.old queue.old end) (progress ranks.new watch.new queue.new result) }
{
    let mut e = end;
    for p in ranged.indexed.first_user(o)..ranged.indexed.first_user(o + 1) {
        let c = ranged.indexed.user(p);
        e = visit(ranged, ranks, watch, queue, c, e, k);
    }
    e
}

// Layer k + 1 from the states of rank k, which wait in the queue from lo on, below hi. The answer is where the queue ends then.
fn add_layer(
    ranged: &RangedLists,
    ranks: &mut [u16],
    watch: &mut [u16],
    queue: &mut [u16],
    lo: usize,
    hi: usize,
    k: usize,
) -> usize
    requires lo_le_hi { (lo ≤ hi) × (k < max_states) }
    requires room { Room (states_of ranged.now) ranks.old watch.old queue.old }
    requires queue_bound { QueueBound (states_of ranged.now) (progress ranks.old watch.old queue.old hi) }
    ensures { LayerAdded ranged.now k lo (progress ranks.old watch.old queue.old hi)
        (progress ranks.new watch.new queue.new result) }
{
    let mut e = hi;
    for h in lo..hi {
        let o = at(queue, h);
        e = spread(ranged, ranks, watch, queue, o, e, k);
    }
    e
}

// The state s waits in the queue, behind those in it already, if it has rank 0.
fn enqueue_seed(ranks: &[u16], queue: &mut [u16], s: usize, count: usize) -> usize
    requires s_in_bounds { (s < length ranks.now) × (s < length queue.old) × (s < max_states) }
    requires seeds_queued { SeedsQueued ranks.now queue.old s count }
    ensures { SeedsQueued ranks.now queue.new (s + 1) result }
{
    if at(ranks, s) != 0 {
        return count;
    }
    put(queue, count, s);
    count + 1
}

// The states of rank 0 wait in the queue.
fn enqueue_seeds(n: usize, ranks: &[u16], queue: &mut [u16]) -> usize
    requires { (n ≤ max_states) × (n ≤ length ranks.now) × (n ≤ length queue.old) }
    ensures { SeedsQueued ranks.now queue.new n result }
{
    let mut e = 0;
    for s in 0..n {
        e = enqueue_seed(ranks, queue, s, e);
    }
    e
}

// The ranks of all states from those of rank 0, layer by layer, until one adds no state. The first commands of the ranges come in
// the table of watched commands.
pub fn propagate(ranged: &RangedLists, ranks: &mut [u16], watch: &mut [u16], queue: &mut [u16])
    requires owns { Owns (net_from ranged.now watch.old) ranged.now.indexed.owner.now }
    requires n_in_bounds { Room (states_of ranged.now) ranks.old watch.old queue.old × Seeded (states_of ranged.now) ranks.old }
    ensures { ranks.new
        ≡ overwrite (tabulate (λ (s : ℕ). entry
        (depth (net_from ranged.now watch.old) (seeds ranks.old) s)) 0 (states_of ranged.now)) ranks.old }
{
    // A copy of its own. Behind a reference, which the compiler does not know to be apart from the tables that are written, each look would
    // load the slices' addresses again, and deciding takes up to a tenth longer.
    let own = *ranged;
    let mut lo = 0;
    let mut hi = enqueue_seeds(own.indexed.lists.n, ranks, queue);
    let mut k = 0;
    // A while: both bounds move with each layer.
    while lo < hi {
        let e = add_layer(&own, ranks, watch, queue, lo, hi, k);
        lo = hi;
        hi = e;
        k += 1;
    }
}
