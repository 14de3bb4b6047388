// A rank as a time.
ghost use Rattle.std.specs.Prelude.{◌≡◌, ℕ, ◌*◌, ◌<◌, ◌≤◌, length, get_or};
ghost use Rattle.std.proofs.Math.Option.{some};
ghost use Rattle.laws.specs.Entry.{from_entry};
ghost use Rattle.model.specs.File.{max_states};
ghost use Rattle.model.specs.Warning.{time_of, warning as modelWarning, longest_move};
ghost use Rattle.warning.specs.Answers.{meant, limit_of};

use crate::Time;
use tables::entries::{NONE, at};

// The most seconds that a move may take.
pub const LONGEST_MOVE: usize = 3600;

// In seconds.
const MINUTE: usize = 60;

// The rank times the length of a move. It is 3,682,800 seconds at most, which 16 bits do not hold, but its minutes, 61,380, are an entry.
#[tactic(auto, unfolding(model::specs::Warning::time_of))]
fn rank_time(rank: usize, seconds: usize) -> Time
    requires { (rank < max_states) × (seconds ≤ longest_move) }
    ensures { meant result ≡ time_of (rank * seconds) }
{
    let all = rank * seconds;
    // These casts lose nothing, which is proved; `try_from` and `unwrap` would say the same in more words.
    Time {
        minutes: (all / MINUTE) as u16,
        seconds: (all % MINUTE) as u16,
    }
}

// The warning time of a state, by its entry in the ranks.
#[tactic(auto, using(crate::proofs::RankTimes::reading))]
pub fn warning(ranks: &[u16], state: usize, seconds: usize) -> Option<Time>
    requires state_in_bounds { (state < length ranks.now) × (seconds ≤ longest_move) }
    requires by_index { (r : ℕ) → from_entry (get_or ranks.now state 0) ≡ some r → r < max_states }
    ensures { limit_of result ≡ modelWarning (from_entry (get_or ranks.now state 0)) seconds }
{
    let rank = at(ranks, state);
    if rank == NONE {
        return None;
    }
    Some(rank_time(rank, seconds))
}
