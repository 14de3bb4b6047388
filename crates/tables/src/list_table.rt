// A table that is cut into lists. Only the planner's own crates call this.
ghost use Rattle.std.specs.Prelude.{◌≤◌, length};

use crate::entries::start_of;

// `count` lists that lie one behind another and end at `end` together; `firsts` has where each begins.
#[derive(Clone, Copy)]
pub struct ListTable<'a> {
    pub count: usize,
    pub end: usize,
    pub firsts: &'a [u16],
    pub entries: &'a [u16],
    pub ghost long: { (count ≤ length firsts.now) × (end ≤ length entries.now) },
}

impl ListTable<'_> {
    ghost use Rattle.std.specs.Prelude.{◌≡◌};
    ghost use Rattle.model.specs.Places.{start_in};
    ghost use Rattle.tables.specs.ListTables.{table_of};

    // Where list i begins, and the list before it ends.
    pub fn start(&self, i: usize) -> usize
        ensures { result ≡ start_in (table_of self.now) i }
    {
        start_of(self.firsts, self.count, self.end, i)
    }
}
