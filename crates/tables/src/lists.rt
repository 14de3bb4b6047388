// Lists of states. Only the planner's own crates call this.
ghost use Rattle.tables.specs.Ready.{Ready};
ghost use Rattle.tables.specs.ListTables.{table_of};

use crate::list_table::ListTable;
use crate::sound_plan::SoundPlan;

// A table that is cut into lists of states below n. What is read of it is in range, so the functions that take one ask for nothing else.
#[derive(Clone, Copy)]
pub struct StateLists<'a> {
    pub n: usize,
    pub table: ListTable<'a>,
    pub ghost ready: { Ready n (table_of table) },
}

impl<'a> SoundPlan<'a> {
    ghost use Rattle.std.specs.Prelude.{◌≡◌};
    ghost use Rattle.model.specs.Tables.{lists_in};
    ghost use Rattle.tables.specs.Meaning.{lent};
    ghost use Rattle.tables.specs.Listed.{lists_of};

    // The outcomes of the plan's commands, a list for each.
    pub fn outcome_lists(&self) -> StateLists<'a>
        ensures states { result.n ≡ self.now.plan.size.n }
        ensures lists { lists_of result ≡ lists_in (lent self.now.plan) }
    {
        StateLists {
            n: self.plan.size.n,
            table: ListTable {
                count: self.plan.size.m,
                end: self.plan.size.t,
                firsts: self.plan.firsts,
                entries: self.plan.outcomes,
            },
        }
    }
}
