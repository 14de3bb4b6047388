// Carrying back: a table of a trimmed plan under the old numbers.
#![tactic(auto)]

ghost use Rattle.std.specs.Prelude.{◌≡◌};
ghost use Rattle.model.specs.Refusal.{given};
ghost use Rattle.model.specs.Carry.{carry_call};
ghost use Rattle.model.specs.Carried.{Carried};
ghost use Rattle.carry.specs.Answers.{answer_of, after_carry};

use tables::Refusal;
use tables::entries::{NONE, fill};

mod admission;
mod placing;

// Carries a table of a trimmed plan back to the n states of the old one: entry i goes to the place that entry i of the map `olds` names,
// and FFFF to every other of the first n places. The map is the whole slice, as long as the trimmed plan has states. Refused with 10,
// then 9: n, map and table must be sound (rule Y4), and `places` must have a place for each old state. What the table's entries are does
// not matter, and FFFF also stands where no state was kept: of ranks it would say that such a state is safe. Linear in n and the map's
// length: the map is gone over once to be tested and once to be used, and each of the first n places is stored to once or twice. It has
// no local table. docs/PERFORMANCE.md has the times and the stack. Free is the order in which places are stored to, and which of several
// reasons for 10 is looked at first (rules U2 and U3). Ruled out: 0 in place of FFFF, and a map with equal entries that is let through.
pub fn carry_back(n: usize, olds: &[u16], table: &[u16], places: &mut [u16]) -> Result<(), Refusal>
    ensures call { after_carry result places.new ≡ carry_call n olds.now table.now places.old }
    ensures carried { answer_of result ≡ given tt → Carried n olds.now table.now places.new }
{
    admission::admit(n, olds, table, places.len())?;
    fill(places, n, NONE);
    placing::place_all(olds, table, places);
    Ok(())
}
