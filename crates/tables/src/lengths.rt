// Whether tables are long enough for a plan. Only the planner's own crates use this.
ghost use Rattle.std.specs.Prelude.{◌≡◌};
ghost use Rattle.model.specs.Tables.{enough};
ghost use Rattle.tables.specs.Meaning.{numbers};

use crate::Size;

// Whether tables of these lengths have a place for each state, command and outcome.
// Lengths are parameters and no slices: the tables that callers ask about are of rows, of entries or of bytes.
pub fn long_enough(size: Size, rows: usize, firsts: usize, outcomes: usize) -> bool
    ensures { result ≡ enough (numbers size) rows firsts outcomes }
{
    size.n <= rows && size.m <= firsts && size.t <= outcomes
}
