// Looking for outcomes in a set of states, and choosing a command by it. Only the planner's own crates call this.
ghost use Rattle.std.specs.Prelude.{◌≡◌, true, ℕ, ◌<◌, ◌≤◌, length};
ghost use Rattle.laws.specs.First.{FirstNot};
ghost use Rattle.model.specs.Tables.{Tables, lists_in};
ghost use Rattle.model.specs.SoundTest.{sound};
ghost use Rattle.model.specs.Held.{plan_in};
ghost use Rattle.model.specs.Command.{choice};
ghost use Rattle.tables.specs.Meaning.{option_of};
ghost use Rattle.tables.specs.Listed.{lists_of};
ghost use Rattle.tables.specs.Spans.{span_at};
ghost use Rattle.choice.specs.Within.{members, command_hit, command_hits};
ghost use Rattle.choice.specs.Order.{alone, places, hit_at};

use crate::order::{tried_at, tries};
use crate::state_set::StateSet;
use tables::entries::at;
use tables::lists::StateLists;
use tables::spans::Span;

// The lowest outcome in the set that command c has: of list c. The entries rise, so it is the first that is found.
pub fn command_hit(lists: &StateLists, set: &StateSet, c: usize) -> Option<usize>
    requires { (c < lists.now.table.count) × (lists.now.n ≤ length set.now.table.now) }
    ensures { option_of result ≡ command_hit (lists_of lists.now) (members set.now) c }
{
    let end = lists.table.start(c + 1);
    for place in lists.table.start(c)..end {
        let x = at(lists.table.entries, place);
        if set.contains(x) {
            return Some(x);
        }
    }
    None
}

// The first command from place `from` on, below place `to`, that has no outcome in the set; or `to`.
// Not an Option: the place itself is stored, by the propagation as what is watched and by the search as where to go on.
pub fn first_clear(lists: &StateLists, set: &StateSet, from: usize, to: usize) -> usize
    requires { (from ≤ to) × (to ≤ lists.now.table.count) × (lists.now.n ≤ length set.now.table.now) }
    ensures { FirstNot (command_hits (lists_of lists.now) (members set.now)) from to result }
{
    for c in from..to {
        if command_hit(lists, set, c).is_none() {
            return c;
        }
    }
    to
}

// The first place of the trying order from `from` on whose command has no outcome in the set, or the number of places. What was read of the
// state is `span`: a state that may have no commands has none there, so its kind is not asked for.
pub fn choose_from(lists: &StateLists, span: Span, set: &StateSet, from: usize) -> usize
    requires first_le_end { (span.first ≤ span.end) × (span.end ≤ lists.now.table.count)
        × (lists.now.n ≤ length set.now.table.now) }
    requires from_bound { from ≤ places (alone (lists_of lists.now) span) 0 }
    ensures { let P = alone (lists_of lists.now) span in
        FirstNot (hit_at P (members set.now) 0) from (places P 0) result }
{
    let end = tries(span);
    for place in from..end {
        let c = tried_at(span, place).unwrap();
        if command_hit(lists, set, span.first + c).is_none() {
            return place;
        }
    }
    end
}

// The first command tried that has no outcome in the set, whatever sound plan it is whose lists these are.
pub fn choose(lists: &StateLists, span: Span, set: &StateSet) -> Option<usize>
    requires { (span.first ≤ span.end) × (span.end ≤ lists.now.table.count) × (lists.now.n ≤ length set.now.table.now) }
    ensures { (T : Tables) → sound T ≡ true → lists_of lists.now ≡ lists_in T
        → (s : ℕ) → s < T.size.n → span ≡ span_at T s → option_of result ≡ choice (plan_in T) (members set.now) s }
{
    let place = choose_from(lists, span, set, 0);
    tried_at(span, place)
}
