// The order in which the commands of a state are tried: the practice, then all, the lowest first. The code has it here only. Only the
// planner's own crates call this: what was read of the state must be in order.
ghost use Rattle.std.specs.Prelude.{◌≡◌, ◌<◌, ◌≤◌};
ghost use Rattle.model.specs.Tables.{Lists};
ghost use Rattle.choice.specs.Order.{alone, places, tried_at};

use tables::spans::Span;

// How many places the order has: a practice is tried at the first one, and again among all.
pub fn tries(span: Span) -> usize
    requires { (span.first ≤ span.end) × (span.end < 65536) }
    ensures { (L : Lists) → result ≡ places (alone L span) 0 }
{
    let count = span.end - span.first;
    if span.practice < count {
        return count + 1;
    }
    count
}

// The command at place i of the order, or none past its end.
pub fn tried_at(span: Span, i: usize) -> Option<usize>
    requires { (span.first ≤ span.end) × (span.end < 65536) }
    ensures { (L : Lists) → result ≡ tried_at (alone L span) 0 i }
{
    if tries(span) <= i {
        return None;
    }
    if span.end - span.first <= span.practice {
        return Some(i);
    }
    if i == 0 {
        return Some(span.practice);
    }
    Some(i - 1)
}
