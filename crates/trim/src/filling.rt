// All that the call writes once there is room: the trimmed plan's tables, the map, and zero in scratch.
ghost use Rattle.std.specs.Prelude.{◌≡◌, true, ◌≤◌, length};
ghost use Rattle.laws.specs.Lists.{overwrite};
ghost use Rattle.model.specs.Tables.{enough};
ghost use Rattle.model.specs.Held.{tree_of};
ghost use Rattle.model.specs.Calls.{cleared};
ghost use Rattle.model.specs.Trim.{map_of, trimmed};
ghost use Rattle.tables.specs.Meaning.{lent, rows_of};

use crate::copying::copy_states;
use crate::kept_states::KeptStates;
use crate::numbering::number;
use tables::Row;
use tables::entries::fill;

#[tactic(auto, using(crate::proofs::FilledTables::filling))]
pub fn fill_trimmed(
    kept: &KeptStates,
    rows2: &mut [Row],
    firsts2: &mut [u16],
    outcomes2: &mut [u16],
    olds: &mut [u16],
    scratch: &mut [u16],
)
    requires outcomes2_value { enough (trimmed (tree_of (lent kept.now.checked.now.plan))).size (length rows2.old)
        (length firsts2.old)
        (length outcomes2.old) ≡ true }
    requires n_in_bounds { (length kept.now.olds.now ≤ length olds.old) × (kept.now.checked.now.plan.size.n ≤ length scratch.old) }
    ensures rows { let p = tree_of (lent kept.now.checked.now.plan) in
        rows_of rows2.new ≡ overwrite (trimmed p).rows (rows_of rows2.old) }
    ensures firsts { let p = tree_of (lent kept.now.checked.now.plan) in
        firsts2.new ≡ overwrite (trimmed p).firsts firsts2.old }
    ensures outcomes { let p = tree_of (lent kept.now.checked.now.plan) in
        outcomes2.new ≡ overwrite (trimmed p).outcomes outcomes2.old }
    ensures olds { let p = tree_of (lent kept.now.checked.now.plan) in
        olds.new ≡ overwrite (map_of p) olds.old }
    ensures scratch { scratch.new ≡ overwrite (cleared kept.now.checked.now.plan.size.n) scratch.old }
{
    number(kept, olds, scratch);
    copy_states(kept, rows2, firsts2, outcomes2, scratch);
    fill(scratch, kept.checked.plan.size.n, 0);
}
