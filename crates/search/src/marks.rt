// The known states: those before the first round, and those that a round marks, which become known when it is over.
ghost use Rattle.std.specs.Prelude.{◌≡◌, cond, ℕ, ◌<◌, ◌≤◌, length, get_or, set};
ghost use Rattle.laws.specs.Entry.{FFFF};
ghost use Rattle.laws.specs.Filled.{Filled};
ghost use Rattle.tables.specs.Meaning.{lent};
ghost use Rattle.tables.specs.Spans.{span_at};
ghost use Rattle.walks.specs.Queued.{Queued};
ghost use Rattle.search.specs.Marks.{active_span, start_flag, marked_at};
ghost use Rattle.search.specs.Settled.{Cut, Settled};

use tables::entries::{NONE, at, put};
use tables::sound_plan::SoundPlan;
use tables::spans::{Span, is_failing};

// Whether the state is ordinary and has commands.
#[tactic(auto, unfolding(crate::specs::Marks::active_span))]
pub fn has_commands(span: Span) -> bool
    ensures { result ≡ active_span span }
{
    span.kind == 0 && span.first < span.end
}

// The flag of a state before the first round: 0 if it is known, 1 if it is not.
fn start_flag(span: Span) -> usize
    ensures { (result ≡ start_flag span) × (result < 65536) }
{
    usize::from(!is_failing(span))
}

// Makes the failing states known, and no others.
pub fn start_known(checked: &SoundPlan, scratch: &mut [u16])
    requires { checked.now.plan.size.n ≤ length scratch.old }
    ensures { let T = lent checked.now.plan in
        Filled T.size.n (λ s. start_flag (span_at T s)) scratch.old scratch.new }
{
    for s in 0..checked.plan.size.n {
        put(scratch, s, start_flag(checked.span(s)));
    }
}

// Whether state s is marked: the walk reached it and took none of the commands that it has.
#[tactic(auto, unfolding(crate::specs::Marks::marked_at, walks::specs::Flags::walked_in))]
pub fn is_marked(checked: &SoundPlan, commands: &[u16], scratch: &[u16], s: usize) -> bool
    requires { (s < checked.now.plan.size.n) × (s < length commands.now) × (s < length scratch.now) }
    ensures { result ≡ marked_at (span_at (lent checked.now.plan) s) commands.now scratch.now s }
{
    2 <= at(scratch, s) && has_commands(checked.span(s)) && at(commands, s) == NONE
}

// How many places of the queue stay when a round is over: the start's, and those of states that were reached from places before `low`.
pub fn kept(scratch: &[u16], queue: &[u16], reached: usize, low: usize) -> usize
    requires reached_nonzero { (0 < reached) × (reached ≤ length queue.now) × (low < 65536) }
    requires by_index { (i : ℕ) → i < reached → get_or queue.now i 0 < length scratch.now }
    ensures { Cut low result reached scratch.now queue.now }
{
    for q in (1..reached).rev() {
        if at(scratch, at(queue, q)) < low + 2 {
            return q + 1;
        }
    }
    1
}

// Ends the round at state s: it is not reached any more, has no command, and if it was marked it is known.
fn settle_one(checked: &SoundPlan, commands: &mut [u16], scratch: &mut [u16], s: usize)
    requires { (s < checked.now.plan.size.n) × (s < length commands.old) × (s < length scratch.old) }
    ensures commands_after { commands.new ≡ set commands.old s FFFF }
    ensures scratch_after { scratch.new
        ≡ set scratch.old s (cond (marked_at (span_at (lent checked.now.plan) s) commands.old scratch.old s) 0 1) }
{
    let marked = is_marked(checked, commands, scratch, s);
    put(commands, s, NONE);
    put(scratch, s, usize::from(!marked));
}

// Ends the round at the places of the queue from `from` up to `reached`.
pub fn settle(
    checked: &SoundPlan,
    commands: &mut [u16],
    scratch: &mut [u16],
    queue: &[u16],
    from: usize,
    reached: usize,
)
    requires n_in_bounds { let n = checked.now.plan.size.n in
        (n ≤ length commands.old) × (n ≤ length scratch.old) × (n ≤ length queue.now) }
    requires from_le_reached { from ≤ reached }
    requires queued { Queued checked.now.plan.size.n reached scratch.old queue.now }
    ensures { let T = lent checked.now.plan in
        Settled from reached (λ x. marked_at (span_at T x) commands.old scratch.old x) queue.now
        commands.old scratch.old commands.new scratch.new }
{
    for i in from..reached {
        settle_one(checked, commands, scratch, at(queue, i));
    }
}
