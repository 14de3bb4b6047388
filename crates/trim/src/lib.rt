// Trimming: a plan without the states that no run from its start comes to, and the old number of each state that is kept.
#![tactic(auto)]

ghost use Rattle.std.specs.Prelude.{◌≡◌};
ghost use Rattle.model.specs.Refusal.{given};
ghost use Rattle.model.specs.Tables.{Size as ModelSize};
ghost use Rattle.model.specs.Trim.{trim_call};
ghost use Rattle.model.specs.Trimmed.{Trimmed};
ghost use Rattle.tables.specs.Meaning.{lent, rows_of};
ghost use Rattle.trim.specs.Answers.{answer_of, after_trim, leaves};

use tables::{Plan, Refusal, Row, Size};

mod copying;
mod counting;
mod entering;
mod filling;
mod kept_states;
mod numbering;
mod stretches;

// Trims a plan into lent tables, with the old number of each new one in `olds`. Refused with 10, then 9: the trimmed counts are what the
// tables must hold, and scratch must have a place for each old state. So the kept states are found and counted in local tables, of 4,096
// bytes whatever the plan is; scratch is used when there is room, and its first n places are zero then. Linear in n + m + t, as the
// soundness test is: after it each kept state is walked from, counted and copied once, each of its outcomes is looked at once in the walk
// and once to be copied, and flags, kept states and scratch are gone over a fixed number of times. docs/PERFORMANCE.md has the times and
// the stack. Free is the order of the walk: neither the answer nor a table shows it. Ruled out: scratch that is cleared as far as the
// trimmed plan has states only, and 9 for tables that hold the trimmed plan but not the old one.
// The tables that are written stay parameters of their own (decision 69).
pub fn trim(
    plan: &Plan,
    rows2: &mut [Row],
    firsts2: &mut [u16],
    outcomes2: &mut [u16],
    olds: &mut [u16],
    scratch: &mut [u16],
) -> Result<Size, Refusal>
    ensures call { after_trim result rows2.new firsts2.new outcomes2.new olds.new scratch.new
        ≡ trim_call (lent plan.now) (rows_of rows2.old) firsts2.old outcomes2.old olds.old
        scratch.old }
    ensures trimmed { (z : ModelSize) → answer_of result ≡ given z
        → Trimmed (lent plan.now) (leaves z rows2.new firsts2.new outcomes2.new) olds.new }
{
    let checked = plan.sound()?;
    let mut table = [0u16; Size::STATES];
    let kept = entering::keep(&checked, &mut table);
    let size = counting::count(&kept);
    let room = counting::has_room(
        size,
        kept.checked.plan.size.n,
        rows2.len(),
        firsts2.len(),
        outcomes2.len(),
        olds.len(),
        scratch.len(),
    );
    if !room {
        return Err(Refusal::Cramped);
    }
    filling::fill_trimmed(&kept, rows2, firsts2, outcomes2, olds, scratch);
    Ok(size)
}
