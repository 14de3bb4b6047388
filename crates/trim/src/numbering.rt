// The map, and the other way round the new number of each state that is kept.
ghost use Rattle.std.specs.Prelude.{◌≡◌, ◌≤◌, length};
ghost use Rattle.laws.specs.Lists.{overwrite};
ghost use Rattle.trim.specs.Kept.{Numbered};

use crate::kept_states::KeptStates;
use tables::entries::put;

// The old numbers of the states that are kept go to the first places of `olds`, the new ones to `scratch`, each at the state's place.
pub fn number(kept: &KeptStates, olds: &mut [u16], scratch: &mut [u16])
    requires { (length kept.now.olds.now ≤ length olds.old) × (kept.now.checked.now.plan.size.n ≤ length scratch.old) }
    ensures olds_after { olds.new ≡ overwrite kept.now.olds.now olds.old }
    ensures numbered { Numbered kept.now.olds.now scratch.old scratch.new }
{
    for (i, &old) in kept.olds.iter().enumerate() {
        let s = usize::from(old);
        put(olds, i, s);
        put(scratch, s, i);
    }
}
