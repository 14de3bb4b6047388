// The keeper's turn and the works' turn, which call one another, with one move fewer left after each command (rule N7). Plain recursion
// would work a turn out again wherever it is met, which no controller lives to see the end of; the memo has each turn of the keeper once it
// is worked out.
ghost use Rattle.std.specs.Prelude.{◌≡◌, None, ◌-◌, ◌<◌, ◌≤◌, get_or};
ghost use Rattle.model.specs.Contest.{works_turn, keeper_turn, max_moves};
ghost use Rattle.contest.specs.LaidPlans.{laid_as};
ghost use Rattle.contest.specs.Memo.{memo_place, Told, Known, Remembers, Knows};

use crate::laid::LaidPlan;
use crate::memo::memo_place;
use tables::entries::at;

// Whether the keeper's turn at s is held with k moves left, where no command has to be tried for it.
fn sure_turn(laid: &LaidPlan, s: usize, k: usize) -> Option<bool>
    requires { s < laid.now.checked.plan.size.n }
    ensures { Known (laid_as laid.now) k s result }
{
    if at(laid.seeds, s) == 0 {
        return Some(false);
    }
    if at(laid.tos, s) <= at(laid.froms, s) {
        return Some(true);
    }
    if k == 0 {
        return Some(true);
    }
    None
}

// Whether the keeper's turn at s is held with k moves left. It is only called where the memo does not know, and then the memo does, and
// nothing that the memo knew is forgotten: so no turn is worked out twice. Free is which turns the memo has learnt beside it; what it has
// of any is true.
#[cycle(keeper_turn_works_turn)]
pub fn keeper_turn(laid: &LaidPlan, memo: &mut [Option<bool>], s: usize, k: usize) -> bool
    requires inside { (s < laid.now.checked.plan.size.n) × (k ≤ max_moves) }
    requires told { Told (laid_as laid.now) laid.now.checked.plan.size.n memo.old }
    requires unknown { get_or memo.old (memo_place s k) None ≡ None }
    ensures turn { result ≡ keeper_turn (laid_as laid.now) k s }
    ensures remembers { Remembers (laid_as laid.now) laid.now.checked.plan.size.n memo.old memo.new }
    ensures knows { Knows (laid_as laid.now) memo.new s k }
{
    let sure = sure_turn(laid, s, k);
    if let Some(held) = sure {
        memo[memo_place(s, k)] = sure;
        return held;
    }
    for c in 0..at(laid.tos, s) - at(laid.froms, s) {
        if works_turn(laid, memo, s, c, k - 1) {
            memo[memo_place(s, k)] = Some(true);
            return true;
        }
    }
    memo[memo_place(s, k)] = Some(false);
    false
}

// Whether each outcome of command c of s gives the keeper a held turn with k moves left. The memo is asked first, and the keeper's turn
// called where it does not know.
#[cycle(keeper_turn_works_turn)]
fn works_turn(laid: &LaidPlan, memo: &mut [Option<bool>], s: usize, c: usize, k: usize) -> bool
    requires inside { (s < laid.now.checked.plan.size.n)
        × ((c < get_or laid.now.tos.now s 0 - get_or laid.now.froms.now s 0) × (k ≤ max_moves)) }
    requires told { Told (laid_as laid.now) laid.now.checked.plan.size.n memo.old }
    ensures turn { result ≡ works_turn (laid_as laid.now) (keeper_turn (laid_as laid.now) k) s c }
    ensures remembers { Remembers (laid_as laid.now) laid.now.checked.plan.size.n memo.old memo.new }
{
    let place = at(laid.froms, s) + c;
    let first = laid.checked.first_outcome(place);
    let end = laid.checked.first_outcome(place + 1);
    let outcomes = laid.checked.plan.outcomes;
    for i in first..end {
        let next = at(outcomes, i);
        let held = match memo[memo_place(next, k)] {
            Some(known) => known,
            None => keeper_turn(laid, memo, next, k),
        };
        if !held {
            return false;
        }
    }
    true
}
