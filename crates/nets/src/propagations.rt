// Reading what the propagations start from, and the propagations over one index. Only the planner's own crates call this.
ghost use Rattle.std.specs.Prelude.{◌≡◌, List, ℕ, ◌≤◌, length, get_or};
ghost use Rattle.laws.specs.Filled.{Filled};
ghost use Rattle.laws.specs.Starts.{Parts};
ghost use Rattle.tables.specs.Meaning.{held, lent};
ghost use Rattle.tables.specs.Listed.{lists_of};
ghost use Rattle.index.specs.Parts.{Owned};
ghost use Rattle.propagate.specs.Net.{net_of, Seeded, Indexed, Owns};
ghost use Rattle.propagate.specs.Plans.{states_of, net_from};
ghost use Rattle.nets.specs.Nets.{practised, Spans, Initialized};
ghost use Rattle.nets.specs.Found.{depth_table, OwnRanges, PracticeFound, Found};

use crate::ranges::{initialize_state, keep_practice};
use index::grouping::{group, own};
use propagate::indexed::{IndexedLists, RangedLists};
use propagate::layers::propagate;
use tables::lists::StateLists;
use tables::sound_plan::SoundPlan;
use tables::spans::{Span, span_at};
use tables::{Row, Size};

// Whether a practice is given.
pub fn has_practice(span: Span) -> bool
    requires { span.first ≤ span.end }
    ensures { result ≡ practised span }
{
    span.practice < span.end - span.first
}

// Initializes every state for both propagations, in one pass: its rank, 0 or none, where its commands begin and end, and where its practice
// stands among all commands. It asks of the rows alone that each state's commands lie in order, so it takes no `SoundPlan`. Here and below
// the tables that are written stay parameters of their own (decision 69).
pub fn initialize(
    size: Size,
    rows: &[Row],
    ranks: &mut [u16],
    froms: &mut [u16],
    tos: &mut [u16],
    places: &mut [u16],
)
    requires spans { Spans size rows.now }
    requires n_in_bounds { (size.n ≤ length ranks.old) × (size.n ≤ length froms.old)
        × (size.n ≤ length tos.old) × (size.n ≤ length places.old) }
    ensures { (F O : List ℕ) → Initialized (held size rows.now F O) size.n
        ranks.old froms.old tos.old places.old
        ranks.new froms.new tos.new places.new }
{
    for s in 0..size.n {
        let span = span_at(size, rows, s);
        initialize_state(span, ranks, froms, tos, places, s);
    }
}

// The index of the lists: the state of each command, and the commands that have each state as an outcome.
// What is asked of `starts`, and below of `ranks`, stays a clause: they are tables that are written later (decision 69).
pub fn index_all(
    lists: &StateLists,
    starts: &[u16],
    owner: &mut [u16],
    offsets: &mut [u16],
    users: &mut [u16],
)
    requires parts { Parts starts.now lists.now.n lists.now.table.count }
    requires n_in_bounds { (lists.now.n ≤ length starts.now) × (lists.now.table.count ≤ length owner.old)
        × (lists.now.n ≤ length offsets.old) × (lists.now.table.end ≤ length users.old) }
    ensures indexed { Indexed lists.now.n (lists_of lists.now) offsets.new users.new owner.new }
    ensures owned { Owned starts.now lists.now.n lists.now.table.count owner.new }
{
    own(lists.n, lists.table.count, starts, owner);
    group(lists, offsets, users);
}

// A propagation whose queue is in the first n places of scratch: what they have afterwards is free, and what is behind them is as it was.
pub fn propagate_in(ranged: &RangedLists, ranks: &mut [u16], froms: &mut [u16], scratch: &mut [u16])
    requires owns { Owns (net_from ranged.now froms.old) ranged.now.indexed.owner.now }
    requires n_in_bounds { (states_of ranged.now ≤ length ranks.old) × (states_of ranged.now ≤ length froms.old)
        × (states_of ranged.now ≤ length scratch.old) × Seeded (states_of ranged.now) ranks.old }
    ensures ranked { ranks.new ≡ depth_table (net_from ranged.now froms.old) ranks.old }
    ensures queued { Filled (states_of ranged.now) (λ i. get_or scratch.new i 0) scratch.old scratch.new }
{
    propagate(ranged, ranks, froms, &mut scratch[..ranged.indexed.lists.n]);
}

// Both propagations over one index. At entry `ranks` has the seeds, `froms` and `tos` the ranges of all commands, and `fails`,
// which the propagation of ranks leaves alone, where the practice of each state stands. What `froms` and the first n places of scratch
// have afterwards is free.
// The local tables have 43,008 bytes whatever the plan is.
pub fn propagate_both(
    lists: &StateLists,
    ranks: &mut [u16],
    froms: &mut [u16],
    tos: &mut [u16],
    fails: &mut [u16],
    scratch: &mut [u16],
)
    requires parts { Parts froms.old lists.now.n lists.now.table.count }
    requires own_ranges { OwnRanges lists.now.n lists.now.table.count froms.old froms.old tos.old }
    requires own_ranges_2 { OwnRanges lists.now.n lists.now.table.count froms.old fails.old tos.old }
    requires n_in_bounds { (lists.now.n ≤ length ranks.old) × (lists.now.n ≤ length scratch.old)
        × Seeded lists.now.n ranks.old }
    ensures ranked { ranks.new ≡ depth_table (net_of lists.now.n (lists_of lists.now) froms.old tos.old) ranks.old }
    ensures failed { PracticeFound lists.now.n (lists_of lists.now) ranks.old tos.old
        fails.old tos.new fails.new }
    ensures queued { Filled lists.now.n (λ i. get_or scratch.new i 0) scratch.old scratch.new }
{
    let mut owner = [0u16; Size::COMMANDS];
    let mut users = [0u16; Size::OUTCOMES];
    let mut offsets = [0u16; Size::STATES];
    index_all(lists, froms, &mut owner, &mut offsets, &mut users);
    let indexed = IndexedLists {
        lists: *lists,
        offsets: &offsets,
        users: &users,
        owner: &owner,
    };
    propagate_in(&RangedLists { indexed, tos }, ranks, froms, scratch);
    keep_practice(lists.n, ranks, froms, tos, fails);
    propagate_in(&RangedLists { indexed, tos }, fails, froms, scratch);
}

// Both propagations: leaves the rank of each state, and a number where the practice fails. `tos` and scratch are worked in.
// The local table has 2,048 bytes whatever the plan is.
pub fn propagate_plan(
    checked: &SoundPlan,
    ranks: &mut [u16],
    tos: &mut [u16],
    fails: &mut [u16],
    scratch: &mut [u16],
)
    requires { (checked.now.plan.size.n ≤ length ranks.old) × (checked.now.plan.size.n ≤ length tos.old)
        × (checked.now.plan.size.n ≤ length fails.old) × (checked.now.plan.size.n ≤ length scratch.old) }
    ensures { Found (lent checked.now.plan)
        ranks.old tos.old fails.old scratch.old
        ranks.new tos.new fails.new scratch.new }
{
    let mut froms = [0u16; Size::STATES];
    initialize(
        checked.plan.size,
        checked.plan.rows,
        ranks,
        &mut froms,
        tos,
        fails,
    );
    let lists = checked.outcome_lists();
    propagate_both(&lists, ranks, &mut froms, tos, fails, scratch);
}
