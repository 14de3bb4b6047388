// A set of states that a table holds: those whose entry is at most a limit. So one test serves the layers (ranks up to k), the lost (ranks
// up to 65534) and the known. Only the planner's own crates call this.
use tables::entries::at;

// How long the table must be depends on the lists that are asked, so the functions that take both ask for it; a value of both would be made
// anew at each call.
#[derive(Clone, Copy)]
pub struct StateSet<'a> {
    pub table: &'a [u16],
    pub limit: usize,
}

impl StateSet<'_> {
    ghost use Rattle.std.specs.Prelude.{◌≡◌, ◌<◌, length};
    ghost use Rattle.choice.specs.Within.{members};

    pub fn contains(&self, s: usize) -> bool
        requires { s < length self.now.table.now }
        ensures { result ≡ members self.now s }
    {
        at(self.table, s) <= self.limit
    }
}
