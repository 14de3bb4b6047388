// The trimmed plan's tables: the rows, first outcomes and outcomes of the states that are kept, under their new numbers.
ghost use Rattle.std.specs.Prelude.{◌≡◌, true, ℕ, ◌+◌, ◌-◌, ◌<◌, ◌≤◌, length, get_or, map};
ghost use Rattle.std.proofs.Math.Seq.{slice};
ghost use Rattle.laws.specs.Wrote.{Wrote};
ghost use Rattle.laws.specs.Writes.{put_all};
ghost use Rattle.model.specs.Tables.{enough};
ghost use Rattle.model.specs.Held.{tree_of};
ghost use Rattle.model.specs.Trim.{trimmed};
ghost use Rattle.tables.specs.Meaning.{lent, rows_of};
ghost use Rattle.trim.specs.Kept.{row_after};

use crate::kept_states::KeptStates;
use crate::stretches::{Stretch, stretch_at};
use tables::Row;
use tables::entries::put;
use tables::rows::{put_row, row_at};

// The row of a state, before which m commands are kept.
// The cast loses nothing, which is proved; `try_from` and `unwrap` would say the same in more words.
fn row_after(row: Row, m: usize) -> Row
    requires { m < 65536 }
    ensures { result ≡ row_after row m }
{
    Row {
        first: m as u16,
        ..row
    }
}

// The first outcomes of the stretch's commands, to the places from m on: their outcomes begin at t now.
// One table is lent and not the plan, here and below: nothing else of it is read.
fn copy_firsts(firsts: &[u16], stretch: Stretch, firsts2: &mut [u16], m: usize, t: usize) -> usize
    requires first_le_end { (stretch.first ≤ stretch.end) × (stretch.end ≤ length firsts.now)
        × (m + (stretch.end - stretch.first) ≤ length firsts2.old) }
    requires by_index { (c : ℕ) → stretch.first ≤ c → c < stretch.end
        → (stretch.from ≤ get_or firsts.now c 0) × (get_or firsts.now c 0 - stretch.from + t < 65536) }
    ensures { Wrote firsts2.old m (map (λ x. x - stretch.from + t) (slice stretch.first stretch.end firsts.now)) firsts2.new
        result }
{
    let copied = &firsts[stretch.first..stretch.end];
    for (i, &first) in copied.iter().enumerate() {
        put(firsts2, m + i, usize::from(first) - stretch.from + t);
    }
    m + copied.len()
}

// The outcomes of the stretch, under their new numbers, to the places from t on.
fn copy_outcomes(
    outcomes: &[u16],
    stretch: Stretch,
    outcomes2: &mut [u16],
    t: usize,
    numbers: &[u16],
) -> usize
    requires from_le_to { (stretch.from ≤ stretch.to) × (stretch.to ≤ length outcomes.now)
        × (t + (stretch.to - stretch.from) ≤ length outcomes2.old) }
    requires by_index { (j : ℕ) → j < stretch.to → get_or outcomes.now j 0 < length numbers.now }
    ensures { Wrote outcomes2.old t (map (λ x. get_or numbers.now x 0) (slice stretch.from stretch.to outcomes.now))
        outcomes2.new result }
{
    let copied = &outcomes[stretch.from..stretch.to];
    for (i, &outcome) in copied.iter().enumerate() {
        outcomes2[t + i] = numbers[usize::from(outcome)];
    }
    t + copied.len()
}

// The tables of the states that are kept.
pub fn copy_states(
    kept: &KeptStates,
    rows2: &mut [Row],
    firsts2: &mut [u16],
    outcomes2: &mut [u16],
    numbers: &[u16],
)
    requires n_in_bounds { (kept.now.checked.now.plan.size.n ≤ length numbers.now)
        × ((i : ℕ) → i < length kept.now.olds.now → get_or numbers.now (get_or kept.now.olds.now i 0) 0 ≡ i) }
    requires outcomes2_value { enough (trimmed (tree_of (lent kept.now.checked.now.plan))).size (length rows2.old)
        (length firsts2.old)
        (length outcomes2.old) ≡ true }
    ensures rows { rows_of rows2.new ≡ put_all (rows_of rows2.old) 0
        (trimmed (tree_of (lent kept.now.checked.now.plan))).rows }
    ensures firsts { firsts2.new ≡ put_all firsts2.old 0
        (trimmed (tree_of (lent kept.now.checked.now.plan))).firsts }
    ensures outcomes { outcomes2.new ≡ put_all outcomes2.old 0
        (trimmed (tree_of (lent kept.now.checked.now.plan))).outcomes }
{
    let plan = &kept.checked.plan;
    let mut m = 0;
    let mut t = 0;
    for (i, &old) in kept.olds.iter().enumerate() {
        let s = usize::from(old);
        put_row(rows2, i, row_after(row_at(plan.rows, s), m));
        let stretch = stretch_at(kept.checked, s);
        m = copy_firsts(plan.firsts, stretch, firsts2, m, t);
        t = copy_outcomes(plan.outcomes, stretch, outcomes2, t, numbers);
    }
}
