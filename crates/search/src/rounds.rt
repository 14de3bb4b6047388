// The rounds of the search.
ghost use Rattle.std.specs.Prelude.{Bool, ℕ, ◌<◌, ◌≤◌, length};
ghost use Rattle.model.specs.Held.{plan_in};
ghost use Rattle.tables.specs.Meaning.{lent};
ghost use Rattle.search.specs.Ends.{Rounded, Finished};

use crate::Found;
use crate::marks::{has_commands, kept, settle, start_known};
use crate::walk::walk;
use tables::Size;
use tables::entries::{NONE, at, fill};
use tables::sound_plan::SoundPlan;
use tables::spans::is_failing;
use walks::queue::reach;

// Clears what the answer does not need.
pub fn finish(n: usize, lost: bool, commands: &mut [u16], scratch: &mut [u16])
    requires { (n ≤ length commands.old) × (n ≤ length scratch.old) }
    ensures { Finished n lost commands.old scratch.old commands.new scratch.new }
{
    fill(scratch, n, 0);
    if lost {
        fill(commands, n, NONE);
    }
}

// Walks rounds from the start until one is the last: it has no marks, or the start is marked, which no command is then taken at. A round
// takes over from the one before what it would walk in the same way, and walks on from there; `tried` says which commands need not be tried
// again. Where the start counts as failing or is at rest there are no rounds.
pub fn walk_rounds(
    checked: &SoundPlan,
    start: usize,
    commands: &mut [u16],
    scratch: &mut [u16],
) -> Found
    requires { let n = checked.now.plan.size.n in (start < n) × (n ≤ length commands.old) × (n ≤ length scratch.old) }
    ensures { Rounded (plan_in (lent checked.now.plan)) checked.now.plan.size.n start commands.old scratch.old result
        commands.new scratch.new }
{
    let n = checked.plan.size.n;
    fill(commands, n, NONE);
    start_known(checked, scratch);
    let span = checked.span(start);
    if !has_commands(span) {
        return Found {
            lost: is_failing(span),
            rounds: 0,
        };
    }
    let mut queue = [0u16; Size::STATES];
    let mut tried = [0u16; Size::STATES];
    let mut q = reach(n, scratch, &mut queue, 0, start, 2);
    let mut h = 0;
    let mut rounds = 0;
    // No `for`: only a round itself says that it is the last.
    loop {
        let walked = walk(checked, commands, scratch, &mut queue, &mut tried, h, q);
        rounds += 1;
        let Some(low) = walked.low else {
            return Found {
                lost: false,
                rounds,
            };
        };
        if at(commands, start) == NONE {
            return Found { lost: true, rounds };
        }
        h = low;
        q = kept(scratch, &queue, walked.reached, h);
        settle(checked, commands, scratch, &queue, q, walked.reached);
    }
}
