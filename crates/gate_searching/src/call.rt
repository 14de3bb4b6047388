// What only the planner's own crates call: the search, on bytes. The slices are parameters one by one, as the C interface lends them.
ghost use Rattle.std.specs.Prelude.{◌≡◌};
ghost use Rattle.model.specs.Refusal.{given};
ghost use Rattle.model.specs.Boundary.{tables_in, gate_search_call};
ghost use Rattle.tables.specs.Meaning.{lent};
ghost use Rattle.gate_searching.specs.Delivery.{after_gate_search};
ghost use Rattle.store.specs.Codes.{code_of};

use crate::answers::deliver;
use load::decoding::load_plan;
use search::search;
use store::codes::code;
use tables::{Plan, Refusal, Row, Size};

// The call, on a plan that was read into tables.
pub fn search_loaded(
    plan: &Plan,
    start: usize,
    commands: &mut [u8],
    scratch: &mut [u8],
    answer: &mut [u8],
) -> Result<(), Refusal>
    ensures call { after_gate_search (code_of result) commands.new scratch.new answer.new
        ≡ gate_search_call (given (lent plan.now)) start commands.old scratch.old answer.old }
{
    let mut takes = [0u16; Size::STATES];
    let mut clean = [0u16; Size::STATES];
    let found = search(plan, start, &mut takes, &mut clean)?;
    deliver(
        found,
        plan.size.n,
        &takes,
        &clean,
        commands,
        scratch,
        answer,
    )
}

// The call, on the plan that is lent.
// It loads the plan itself, as `decide_lent` does: the tables are the call's own, and one function for both would take a closure over the
// call's slices, of which no clause could say what they hold afterwards.
fn search_lent(
    size: &[u8],
    rows: &[u8],
    firsts: &[u8],
    outcomes: &[u8],
    start: usize,
    commands: &mut [u8],
    scratch: &mut [u8],
    answer: &mut [u8],
) -> Result<(), Refusal>
    ensures call { let lent = tables_in size.now rows.now firsts.now outcomes.now in
        after_gate_search (code_of result) commands.new scratch.new answer.new
        ≡ gate_search_call lent start commands.old scratch.old answer.old }
{
    let mut states = [Row::BLANK; Size::STATES];
    let mut heads = [0u16; Size::COMMANDS];
    let mut entries = [0u16; Size::OUTCOMES];
    let read = load_plan(
        size,
        rows,
        firsts,
        outcomes,
        &mut states[..],
        &mut heads,
        &mut entries,
    )?;
    let plan = Plan {
        size: read,
        rows: &states[..],
        firsts: &heads,
        outcomes: &entries,
    };
    search_loaded(&plan, start, commands, scratch, answer)
}

// The search from one start, on a plan lent as bytes. Refused with 10, then 11, then 9, before a slice is written. Any
// number may be the start: one that is no state is 11, also where no entry holds it.
#[tactic(auto, unfolding(model::specs::Boundary::code))]
pub fn search_call(
    size: &[u8],
    rows: &[u8],
    firsts: &[u8],
    outcomes: &[u8],
    start: usize,
    commands: &mut [u8],
    scratch: &mut [u8],
    answer: &mut [u8],
) -> u32
    ensures call { let lent = tables_in size.now rows.now firsts.now outcomes.now in
        after_gate_search result commands.new scratch.new answer.new
        ≡ gate_search_call lent start commands.old scratch.old answer.old }
{
    let answered = search_lent(
        size, rows, firsts, outcomes, start, commands, scratch, answer,
    );
    code(answered)
}
