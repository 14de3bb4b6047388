// The search from one start: the start's verdict, and the commands that hold it, without deciding the whole plan.
#![tactic(auto)]

ghost use Rattle.std.specs.Prelude.{◌≡◌, Bool, ℕ};
ghost use Rattle.model.specs.Refusal.{given};
ghost use Rattle.model.specs.Calls.{search_call};
ghost use Rattle.model.specs.Demand3.{SearchDemand3};
ghost use Rattle.tables.specs.Meaning.{lent};
ghost use Rattle.search.specs.Answers.{answer_of, after_search};

use rounds::{finish, walk_rounds};
use tables::{Plan, Refusal};

mod marks;
mod rounds;
mod walk;

// The verdict on the start, and how many rounds were walked, the last included.
#[derive(Clone, Copy, Debug, PartialEq, Eq)]
pub struct Found {
    pub lost: bool,
    pub rounds: usize,
}

// The search from `start`, which leaves its commands in the first n places of `commands` and zero in the first n places of `scratch`.
// Refused with 10, then 11, then 9, before a table is written. Free is the order in which a round walks, and what commands and scratch hold
// during the call: when it is over neither the answer nor a table shows it. Ruled out: a start called safe before all that its commands
// lead to is walked, and a count of rounds that were not walked.
// The tables that are written stay parameters of their own, and each is asked to be long enough (decision 69).
pub fn search(
    plan: &Plan,
    start: usize,
    commands: &mut [u16],
    scratch: &mut [u16],
) -> Result<Found, Refusal>
    ensures call { after_search result commands.new scratch.new
        ≡ search_call (lent plan.now) start commands.old scratch.old }
    ensures demand3 { (lost : Bool) (rounds : ℕ) → answer_of result ≡ given (lost, rounds)
        → SearchDemand3 (lent plan.now) start lost rounds commands.new }
{
    let checked = plan.sound()?;
    let n = plan.size.n;
    if n <= start {
        return Err(Refusal::Stranger);
    }
    if commands.len() < n || scratch.len() < n {
        return Err(Refusal::Cramped);
    }
    let found = walk_rounds(&checked, start, commands, scratch);
    finish(n, found.lost, commands, scratch);
    Ok(found)
}
