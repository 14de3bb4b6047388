// Lists of states with what the propagations read beside them. What is read of them is in range. Only the planner's own crates use this.
ghost use Rattle.std.specs.Prelude.{◌≡◌, ◌+◌, ◌≤◌, ◌<◌, get_or};
ghost use Rattle.laws.specs.Starts.{start_of};
ghost use Rattle.tables.specs.Listed.{lists_of};
ghost use Rattle.propagate.specs.Net.{Indexed, Ranges};

use tables::entries::{at, start_of};
use tables::lists::StateLists;

// A list of states for each command, its outcomes, and their reverse index: `users` has the commands that have each state as an outcome, one
// state's after another's, `offsets` where each state's begin, and `owner` the state of each command. The lifetimes are apart, since the lists
// outlive their index, and the index the ranges of one propagation.
#[derive(Clone, Copy)]
pub struct IndexedLists<'p, 'a> {
    pub lists: StateLists<'p>,
    pub offsets: &'a [u16],
    pub users: &'a [u16],
    pub owner: &'a [u16],
    pub ghost indexed: { ∥ Indexed lists.n (lists_of lists) offsets.now users.now owner.now ∥₁ },
}

// Indexed lists, and where the commands that count at each state end.
#[derive(Clone, Copy)]
pub struct RangedLists<'p, 'a, 't> {
    pub indexed: IndexedLists<'p, 'a>,
    pub tos: &'t [u16],
    pub ghost ranges: { Ranges indexed.lists.n indexed.lists.table.count tos.now },
}

impl IndexedLists<'_, '_> {
    // Where the commands that have the outcome o begin; for o = n, where the last ones end.
    pub fn first_user(&self, o: usize) -> usize
        ensures { result ≡ start_of self.now.offsets.now self.now.lists.n self.now.lists.table.end o }
    {
        start_of(self.offsets, self.lists.n, self.lists.table.end, o)
    }

    // The command at place p of those that have some outcome.
    pub fn user(&self, p: usize) -> usize
        requires { p < self.now.lists.table.end }
        ensures { result ≡ get_or self.now.users.now p 0 }
    {
        at(self.users, p)
    }

    // The state of command c.
    pub fn owner_of(&self, c: usize) -> usize
        requires { c < self.now.lists.table.count }
        ensures read { result ≡ get_or self.now.owner.now c 0 }
        ensures inside { result < self.now.lists.n }
    {
        at(self.owner, c)
    }
}

impl RangedLists<'_, '_, '_> {
    // Where the commands that count at state s end.
    pub fn end_of(&self, s: usize) -> usize
        requires { s < self.now.indexed.lists.n }
        ensures read { result ≡ get_or self.now.tos.now s 0 }
        ensures inside { result ≤ self.now.indexed.lists.table.count }
    {
        at(self.tos, s)
    }
}
