// What only the planner's own crates call: deciding, on bytes. The slices are parameters one by one, as the C interface lends them.
ghost use Rattle.std.specs.Prelude.{◌≡◌};
ghost use Rattle.model.specs.Refusal.{given};
ghost use Rattle.model.specs.Boundary.{tables_in, gate_decide_call};
ghost use Rattle.tables.specs.Meaning.{lent};
ghost use Rattle.gate_deciding.specs.Delivery.{after_gate_decide};
ghost use Rattle.store.specs.Codes.{code_of};

use crate::answers::deliver;
use decide::decide;
use load::decoding::load_plan;
use store::codes::code;
use tables::{Plan, Refusal, Row, Size};

// The call, on a plan that was read into tables.
pub fn decide_loaded(
    plan: &Plan,
    ranks: &mut [u8],
    commands: &mut [u8],
    marks: &mut [u8],
    scratch: &mut [u8],
    tally: &mut [u8],
) -> Result<(), Refusal>
    ensures call { after_gate_decide (code_of result) ranks.new commands.new marks.new scratch.new tally.new
        ≡ gate_decide_call (given (lent plan.now)) ranks.old commands.old marks.old scratch.old
        tally.old }
{
    let mut ranked = [0; Size::STATES];
    let mut chosen = [0; Size::STATES];
    let mut marked = [0; Size::STATES];
    let mut clean = [0; Size::STATES];
    let counts = decide(plan, &mut ranked, &mut chosen, &mut marked, &mut clean)?;
    deliver(
        counts,
        plan.size.n,
        &ranked,
        &chosen,
        &marked,
        &clean,
        ranks,
        commands,
        marks,
        scratch,
        tally,
    )
}

// The call, on a plan lent as bytes.
// It loads the plan itself, as `search_lent` does: the tables are the call's own, and one function for both would take a closure over the
// call's slices, of which no clause could say what they hold afterwards.
fn decide_lent(
    size: &[u8],
    rows: &[u8],
    firsts: &[u8],
    outcomes: &[u8],
    ranks: &mut [u8],
    commands: &mut [u8],
    marks: &mut [u8],
    scratch: &mut [u8],
    tally: &mut [u8],
) -> Result<(), Refusal>
    ensures call { let lent = tables_in size.now rows.now firsts.now outcomes.now in
        after_gate_decide (code_of result) ranks.new commands.new marks.new scratch.new tally.new
        ≡ gate_decide_call lent ranks.old commands.old marks.old scratch.old tally.old }
{
    let mut states = [Row::BLANK; Size::STATES];
    let mut heads = [0; Size::COMMANDS];
    let mut entries = [0; Size::OUTCOMES];
    let read = load_plan(
        size,
        rows,
        firsts,
        outcomes,
        &mut states,
        &mut heads,
        &mut entries,
    )?;
    let plan = Plan {
        size: read,
        rows: &states,
        firsts: &heads,
        outcomes: &entries,
    };
    decide_loaded(&plan, ranks, commands, marks, scratch, tally)
}

// Deciding a plan lent as bytes. Refused with 10, then 9, before a slice is written.
pub fn decide_call(
    size: &[u8],
    rows: &[u8],
    firsts: &[u8],
    outcomes: &[u8],
    ranks: &mut [u8],
    commands: &mut [u8],
    marks: &mut [u8],
    scratch: &mut [u8],
    tally: &mut [u8],
) -> u32
    ensures call { let lent = tables_in size.now rows.now firsts.now outcomes.now in
        after_gate_decide result ranks.new commands.new marks.new scratch.new tally.new
        ≡ gate_decide_call lent ranks.old commands.old marks.old scratch.old tally.old }
{
    let answered = decide_lent(
        size, rows, firsts, outcomes, ranks, commands, marks, scratch, tally,
    );
    code(answered)
}
