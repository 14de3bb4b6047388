// Which states are kept: those that some run from the start comes to, whatever is commanded.
ghost use Rattle.std.specs.Prelude.{◌≡◌, ℕ, ◌<◌, ◌≤◌, length, get_or};
ghost use Rattle.laws.specs.Sets.{how_many};
ghost use Rattle.laws.specs.Passing.{passing};
ghost use Rattle.laws.specs.Writes.{put_all};
ghost use Rattle.model.specs.File.{max_states};
ghost use Rattle.model.specs.Held.{plan_in};
ghost use Rattle.model.specs.Trim.{entered};
ghost use Rattle.tables.specs.Meaning.{lent};
ghost use Rattle.walks.specs.Flags.{walked_in};

use crate::kept_states::KeptStates;
use crate::stretches::stretch_at;
use tables::Size;
use tables::entries::{at, fill, put};
use tables::sound_plan::SoundPlan;
use walks::queue::{UNREACHED, reach, spread};

// The one mark of all states that are reached: from where they were does not matter here.
// A number and no enum: flags are entries of the table that `walks` is lent, which is the caller's scratch in the search.
const REACHED: usize = 2;

// Walks from the start, on from each state to the outcomes of all its commands.
pub fn enter_all(checked: &SoundPlan, flags: &mut [u16], queue: &mut [u16])
    requires { (checked.now.plan.size.n ≤ length flags.old) × (checked.now.plan.size.n ≤ length queue.old)
        × ((x : ℕ) → x < checked.now.plan.size.n → get_or flags.old x 0 ≡ 1) }
    ensures { (s : ℕ) → s < checked.now.plan.size.n → walked_in flags.new s ≡ entered (plan_in (lent checked.now.plan)) s }
{
    let plan = &checked.plan;
    let mut q = reach(plan.size.n, flags, queue, 0, plan.size.start, REACHED);
    let mut h = 0;
    // The queue grows while it is gone through.
    while h < q {
        let stretch = stretch_at(checked, at(queue, h));
        q = spread(
            plan.size.n,
            plan.outcomes,
            flags,
            queue,
            q,
            stretch.from,
            stretch.to,
            REACHED,
        );
        h += 1;
    }
}

// Lists the reached states by their numbers; answers how many there are.
// It stays apart from `enqueue_seeds` of propagate: one function would take a closure, and its contract the test, for a loop of a few lines.
fn list(n: usize, flags: &[u16], kept: &mut [u16]) -> usize
    requires { (n ≤ max_states) × (n ≤ length flags.now) × (n ≤ length kept.old) }
    ensures value { result ≡ how_many (walked_in flags.now) n }
    ensures kept_after { kept.new ≡ put_all kept.old 0 (passing (walked_in flags.now) n) }
{
    let mut i = 0;
    for s in 0..n {
        let reached = REACHED <= at(flags, s);
        if reached {
            put(kept, i, s);
            i += 1;
        }
    }
    i
}

// The states that are kept: their old numbers go to the first places of `table`.
pub fn keep<'a>(checked: &'a SoundPlan<'a>, table: &'a mut [u16]) -> KeptStates<'a>
    requires { max_states ≤ length table.old }
    ensures { result.checked.now ≡ checked.now }
{
    let n = checked.plan.size.n;
    let mut flags = [0u16; Size::STATES];
    fill(&mut flags, n, UNREACHED);
    enter_all(checked, &mut flags, table);
    let count = list(n, &flags, table);
    KeptStates {
        checked,
        olds: &table[..count],
    }
}
