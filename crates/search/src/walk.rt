// The walk of one round. The queue has the states that the walk has reached, each once, and the walk goes on from each once, so a round
// reads no state and no outcome more than a few times. Scratch has the flags of the crate `walks`: the mark of a reached state is 2 more
// than the place of the queue from which it was reached. So it is known which part of a walk its marked states cast no doubt on, and the
// next round need not walk it again.
ghost use Rattle.std.specs.Prelude.{◌≡◌, Bool, false, ℕ, ◌<◌, ◌≤◌, length, get_or};
ghost use Rattle.model.specs.Command.{choice};
ghost use Rattle.model.specs.Tables.{lists_in};
ghost use Rattle.model.specs.Held.{plan_in};
ghost use Rattle.tables.specs.Meaning.{lent, option_of};
ghost use Rattle.tables.specs.Spans.{span_at};
ghost use Rattle.choice.specs.Order.{alone, AllHit};
ghost use Rattle.walks.specs.Flags.{known_in};
ghost use Rattle.walks.specs.Queued.{Queued};
ghost use Rattle.search.specs.Past.{Past};
ghost use Rattle.search.specs.Marks.{marked_at, lower_of, none_left};
ghost use Rattle.search.specs.Underway.{Underway};
ghost use Rattle.search.specs.Walked.{Expanded, Walked};
ghost use Rattle.search.specs.Tried.{Tried, Retried};

use crate::marks::is_marked;
use choice::choosing::choose_from;
use choice::order::tried_at;
use choice::state_set::StateSet;
use tables::entries::{at, put, put_option};
use tables::sound_plan::SoundPlan;
use tables::spans::Span;
use walks::queue::spread;

// How many states a walk has reached, and the lowest place of the queue from which a marked state was reached, if one is marked.
#[derive(Clone, Copy, Debug, PartialEq, Eq)]
pub struct Progress {
    pub reached: usize,
    pub low: Option<usize>,
}

// The lower of `low` and the place from which s was reached, if s is marked.
fn lower(
    checked: &SoundPlan,
    commands: &[u16],
    scratch: &[u16],
    s: usize,
    low: Option<usize>,
) -> Option<usize>
    requires { (s < checked.now.plan.size.n) × (s < length commands.now) × (s < length scratch.now) }
    ensures { result
        ≡ lower_of (marked_at (span_at (lent checked.now.plan) s) commands.now scratch.now s) (get_or scratch.now s 0) low }
{
    if !is_marked(checked, commands, scratch, s) {
        return low;
    }
    let place = at(scratch, s) - 2;
    match low {
        None => Some(place),
        Some(lowest) => Some(place.min(lowest)),
    }
}

// The command taken at state s, of which `span` was read. No command that was found hit is tried again: `tried` has the place of the trying
// order to go on from.
fn take(
    checked: &SoundPlan,
    span: Span,
    scratch: &[u16],
    tried: &mut [u16],
    s: usize,
) -> Option<usize>
    requires seen { (s < checked.now.plan.size.n) × (span ≡ span_at (lent checked.now.plan) s) }
    requires n_in_bounds { (checked.now.plan.size.n ≤ length scratch.now) × (s < length tried.old) }
    requires all_hit { AllHit (plan_in (lent checked.now.plan)) (known_in scratch.now) s (get_or tried.old s 0) }
    ensures value { option_of result ≡ choice (plan_in (lent checked.now.plan)) (known_in scratch.now) s }
    ensures retried { Retried (alone (lists_in (lent checked.now.plan)) span) (known_in scratch.now) s tried.old tried.new }
{
    let from = at(tried, s);
    let known = StateSet {
        table: scratch,
        limit: 0,
    };
    let place = choose_from(&checked.outcome_lists(), span, &known, from);
    put(tried, s, place);
    tried_at(span, place)
}

// Goes on from state s: takes the command there, and the command's outcomes into the walk under the mark.
// The tables stay parameters here and below: of a struct behind a `&mut`, two cannot be lent to one call (not covered by the check).
#[tactic(auto, using(choice::proofs::Taken::choice_fits))]
fn expand(
    checked: &SoundPlan,
    commands: &mut [u16],
    scratch: &mut [u16],
    queue: &mut [u16],
    tried: &mut [u16],
    q: usize,
    s: usize,
    mark: usize,
) -> usize
    requires s_in_bounds { let n = checked.now.plan.size.n in (s < n) × (s < length tried.old) × (2 ≤ mark) × (mark < 65536) }
    requires n_in_bounds { let n = checked.now.plan.size.n in
        (n ≤ length commands.old) × (n ≤ length scratch.old) × (n ≤ length queue.old) }
    requires queued { Queued checked.now.plan.size.n q scratch.old queue.old }
    requires all_hit { AllHit (plan_in (lent checked.now.plan)) (known_in scratch.old) s (get_or tried.old s 0) }
    ensures expanded { Expanded (plan_in (lent checked.now.plan)) checked.now.plan.size.n q s mark
        commands.old scratch.old queue.old result commands.new scratch.new queue.new }
    ensures retried { let T = lent checked.now.plan in
        Retried (alone (lists_in T) (span_at T s)) (known_in scratch.old) s tried.old tried.new }
{
    let span = checked.span(s);
    let taken = take(checked, span, scratch, tried, s);
    put_option(commands, s, taken);
    let Some(c) = taken else {
        return q;
    };
    let g = span.first + c;
    let from = checked.first_outcome(g);
    let end = checked.first_outcome(g + 1);
    let plan = &checked.plan;
    spread(
        plan.size.n,
        plan.outcomes,
        scratch,
        queue,
        q,
        from,
        end,
        mark,
    )
}

// Walks on from place `from` of the queue, where `reached` states are reached. Whatever start and known set it is a walk of, of those it is
// done then.
pub fn walk(
    checked: &SoundPlan,
    commands: &mut [u16],
    scratch: &mut [u16],
    queue: &mut [u16],
    tried: &mut [u16],
    from: usize,
    reached: usize,
) -> Progress
    requires n_in_bounds { let n = checked.now.plan.size.n in
        (n ≤ length commands.old) × (n ≤ length scratch.old) × (n ≤ length queue.old) }
    requires queued { Queued checked.now.plan.size.n reached scratch.old queue.old }
    requires tried { Tried (plan_in (lent checked.now.plan)) checked.now.plan.size.n (known_in scratch.old) tried.old }
    ensures past { Past checked.now.plan.size.n commands.old commands.new }
    ensures past_2 { Past checked.now.plan.size.n scratch.old scratch.new }
    ensures queued_2 { Queued checked.now.plan.size.n result.reached scratch.new queue.new }
    ensures tried_2 { Tried (plan_in (lent checked.now.plan)) checked.now.plan.size.n (known_in scratch.new) tried.new }
    ensures by_index { let P = plan_in (lent checked.now.plan) in let n = checked.now.plan.size.n in
        (K : ℕ → Bool) (a : ℕ)
        → Underway P n K a from reached commands.old scratch.old queue.old
        → ((i : ℕ) → i < from → none_left P K (get_or queue.old i 0) ≡ false)
        → Walked P n K a result commands.new scratch.new queue.new }
{
    let mut q = reached;
    let mut low = None;
    let mut h = from;
    // the walk itself moves the end, so no `for` goes over these places
    while h < q {
        let s = at(queue, h);
        q = expand(checked, commands, scratch, queue, tried, q, s, h + 2);
        low = lower(checked, commands, scratch, s, low);
        h += 1;
    }
    Progress { reached: q, low }
}
