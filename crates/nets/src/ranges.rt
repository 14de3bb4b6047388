// What the propagations start from, state by state.
ghost use Rattle.std.specs.Prelude.{◌≡◌, ℕ, ◌<◌, ◌≤◌, length, get_or};
ghost use Rattle.laws.specs.Entry.{entry};
ghost use Rattle.model.specs.File.{max_states, max_commands};
ghost use Rattle.tables.specs.Meaning.{option_of};
ghost use Rattle.nets.specs.Nets.{practice_place, seed_of, one_end, seed_again, StateInitialized, StateKept, PracticeKept};

use crate::propagations::has_practice;
use tables::entries::{at, put, put_option};
use tables::spans::{Span, is_failing};

// Where the practice stands among all commands, or where the state's commands end.
// Not an Option: it is stored, and where the commands end the range from it is empty.
fn practice_place(span: Span) -> usize
    requires { (span.first ≤ span.end) × (span.end ≤ max_commands) }
    ensures { result ≡ practice_place span }
{
    if has_practice(span) {
        span.first + span.practice
    } else {
        span.end
    }
}

// Rank 0 at a failing state.
fn seed_of(span: Span) -> Option<usize>
    ensures { entry (option_of result) ≡ seed_of span }
{
    is_failing(span).then_some(0)
}

// Initializes state s, of which `span` was read.
pub fn initialize_state(
    span: Span,
    ranks: &mut [u16],
    froms: &mut [u16],
    tos: &mut [u16],
    places: &mut [u16],
    s: usize,
)
    requires first_le_end { (span.first ≤ span.end) × (span.end ≤ max_commands) }
    requires s_in_bounds { (s < length ranks.old) × (s < length froms.old) × (s < length tos.old) × (s < length places.old) }
    ensures { StateInitialized span s ranks.old froms.old tos.old places.old
        ranks.new froms.new tos.new places.new }
{
    put_option(ranks, s, seed_of(span));
    put(froms, s, span.first);
    put(tos, s, span.end);
    put(places, s, practice_place(span));
}

// The end of a range that begins at `from` and has at most one command, below `to`.
fn one_end(from: usize, to: usize) -> usize
    requires { to ≤ max_commands }
    ensures { result ≡ one_end from to }
{
    if from < to { from + 1 } else { to }
}

// A state's seed, by its rank: only where the seed is 0 is the rank 0.
fn seed_again(rank: usize) -> Option<usize>
    ensures { entry (option_of result) ≡ seed_again rank }
{
    (rank == 0).then_some(0)
}

// Of the commands that count at state s, keeps the practice alone.
fn keep_practice_at(ranks: &[u16], froms: &mut [u16], tos: &mut [u16], fails: &mut [u16], s: usize)
    requires s_in_bounds { (s < length ranks.now) × (s < length froms.old) × (s < length tos.old) × (s < length fails.old) }
    requires s_bound { (get_or fails.old s 0 ≤ get_or tos.old s 0) × (get_or tos.old s 0 ≤ max_commands) }
    ensures { StateKept s ranks.now froms.old tos.old fails.old
        froms.new tos.new fails.new }
{
    let place = at(fails, s);
    let end = one_end(place, at(tos, s));
    put(froms, s, place);
    put(tos, s, end);
    put_option(fails, s, seed_again(at(ranks, s)));
}

// Of the commands that count at each state, keeps the practice alone. At entry `fails` says where it stands; afterwards it has the seeds,
// made again from the ranks.
pub fn keep_practice(n: usize, ranks: &[u16], froms: &mut [u16], tos: &mut [u16], fails: &mut [u16])
    requires n_le_max_states { (n ≤ max_states)
        × (n ≤ length ranks.now) × (n ≤ length froms.old) × (n ≤ length tos.old) × (n ≤ length fails.old) }
    requires by_index { (s : ℕ) → s < n → (get_or fails.old s 0 ≤ get_or tos.old s 0) × (get_or tos.old s 0 ≤ max_commands) }
    ensures { PracticeKept n ranks.now froms.old tos.old fails.old
        froms.new tos.new fails.new }
{
    for s in 0..n {
        keep_practice_at(ranks, froms, tos, fails, s);
    }
}
