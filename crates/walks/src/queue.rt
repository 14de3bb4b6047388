// What only the planner's own crates call: each function here asks that the flags and the queue of a walk belong together. The queue has
// the states that the walk has reached, each once, in the order in which they were reached.
ghost use Rattle.std.specs.Prelude.{ℕ, ◌<◌, ◌≤◌, eqb, length, get_or};
ghost use Rattle.std.proofs.Math.Seq.{slice};
ghost use Rattle.laws.specs.Sets.{any};
ghost use Rattle.model.specs.File.{max_states};
ghost use Rattle.walks.specs.Queued.{Queued};
ghost use Rattle.walks.specs.Spread.{Spread};

use tables::entries::{at, put};

// The flag of a state that is not reached. A number and no enum: flags are entries of a table that the caller lends, and the definitions go by
// them (`known_in`).
pub const UNREACHED: usize = 1;

// Takes state x into the walk, under the mark, if its flag says that it is not reached. The walk has reached q states before;
// answers how many it has reached then.
// Flags, queue and q stay parameters: as one struct they would have to belong together between the two stores as well, and do not.
pub fn reach(
    n: usize,
    flags: &mut [u16],
    queue: &mut [u16],
    q: usize,
    x: usize,
    mark: usize,
) -> usize
    requires queued { Queued n q flags.old queue.old }
    requires x_lt_n { (x < n) × (n ≤ max_states) × (n ≤ length flags.old) × (n ≤ length queue.old) × (2 ≤ mark) × (mark < 65536) }
    ensures { Spread n q (λ y. eqb y x) mark flags.old queue.old result flags.new queue.new }
{
    if at(flags, x) != UNREACHED {
        return q;
    }
    put(flags, x, mark);
    put(queue, q, x);
    q + 1
}

// Takes the outcomes at the places from `from` up to `end` into the walk, each under the mark.
pub fn spread(
    n: usize,
    outcomes: &[u16],
    flags: &mut [u16],
    queue: &mut [u16],
    q: usize,
    from: usize,
    end: usize,
    mark: usize,
) -> usize
    requires queued { Queued n q flags.old queue.old }
    requires n_le_max_states { (n ≤ max_states) × (n ≤ length flags.old) × (n ≤ length queue.old) × (2 ≤ mark) × (mark < 65536) }
    requires from_le_end { (from ≤ end) × (end ≤ length outcomes.now) × ((j : ℕ) → j < end → get_or outcomes.now j 0 < n) }
    ensures { Spread n q (λ y. any (eqb y) (slice from end outcomes.now)) mark flags.old queue.old result
        flags.new queue.new }
{
    let mut e = q;
    for i in from..end {
        e = reach(n, flags, queue, e, at(outcomes, i), mark);
    }
    e
}
