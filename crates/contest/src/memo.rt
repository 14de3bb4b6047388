// The memo: whether the keeper's turn is held, as far as it is known, at each state with each number of moves left.
ghost use Rattle.std.specs.Prelude.{◌≡◌, ◌<◌, ◌≤◌};
ghost use Rattle.model.specs.File.{max_states};
ghost use Rattle.model.specs.Contest.{max_moves};
ghost use Rattle.contest.specs.Memo.{memo_place};

use tables::Size;

// The most moves that a contest goes over.
pub const MOVES: usize = 8;

// How many turns the keeper has at a state: one for each number of moves left, 0 to 8.
const TURNS: usize = MOVES + 1;

// How many places the memo has.
pub const PLACES: usize = Size::STATES * TURNS;

// The place of the turn at s with k moves left.
pub fn memo_place(s: usize, k: usize) -> usize
    requires { (s < max_states) × (k ≤ max_moves) }
    ensures { result ≡ memo_place s k }
{
    TURNS * s + k
}
