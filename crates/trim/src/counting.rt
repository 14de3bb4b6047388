// The trimmed plan's size record, and whether there is room for it.
ghost use Rattle.std.specs.Prelude.{◌≡◌, not, ℕ, ◌<◌, eqb, length, get_or};
ghost use Rattle.laws.specs.First.{FirstNot};
ghost use Rattle.model.specs.Held.{tree_of};
ghost use Rattle.model.specs.Trim.{trimmed, trim_room};
ghost use Rattle.tables.specs.Meaning.{lent, numbers};

use crate::kept_states::KeptStates;
use crate::stretches::stretch_at;
use tables::Size;
use tables::lengths::long_enough;

// The first place of x, which has one.
fn place_of(kept: &[u16], x: usize) -> usize
    requires { (k : ℕ) × (k < length kept.now) × (get_or kept.now k 0 ≡ x) }
    ensures first_not { FirstNot (λ i. not (eqb (get_or kept.now i 0) x)) 0 (length kept.now) result }
    ensures upper_bound { result < length kept.now }
    ensures holds { get_or kept.now result 0 ≡ x }
{
    kept.iter().position(|&old| usize::from(old) == x).unwrap()
}

// Of the states that are kept: all their commands and outcomes, and the new number of the start.
pub fn count(kept: &KeptStates) -> Size
    ensures { numbers result ≡ (trimmed (tree_of (lent kept.now.checked.now.plan))).size }
{
    let mut m = 0;
    let mut t = 0;
    for &old in kept.olds {
        let stretch = stretch_at(kept.checked, usize::from(old));
        m += stretch.end - stretch.first;
        t += stretch.to - stretch.from;
    }
    Size::new(
        kept.olds.len(),
        m,
        t,
        place_of(kept.olds, kept.checked.plan.size.start),
    )
}

// Whether tables of these lengths hold a plan of this size and the map of its states, and scratch the `old` states. The parameters are
// those of `trim_room`, of which the refusals speak.
pub fn has_room(
    size: Size,
    old: usize,
    rows: usize,
    firsts: usize,
    outcomes: usize,
    olds: usize,
    scratch: usize,
) -> bool
    ensures { result ≡ trim_room (numbers size) old rows firsts outcomes olds scratch }
{
    long_enough(size, rows, firsts, outcomes) && size.n <= olds && old <= scratch
}
