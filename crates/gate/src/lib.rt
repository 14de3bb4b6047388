// The calls of the gate controller's C program, on numbers and byte slices (include/gate.h). An entry is two bytes, highest first. The
// slices are parameters one by one, and a number is returned: that is the C interface.
#![tactic(auto)]

ghost use Rattle.std.specs.Prelude.{◌≡◌};
ghost use Rattle.model.specs.Refusal.{given};
ghost use Rattle.model.specs.Tables.{Tables};
ghost use Rattle.model.specs.Demand3.{DecidingDemand3, SearchDemand3};
ghost use Rattle.model.specs.Boundary.{entries_in, verdict_in, rounds_in, tables_in, gate_read_call, gate_decide_call, gate_search_call};

// Reads a plan file. Ruled out: 0 for a file that is not all written, and a slice altered by a refusal.
#[unsafe(no_mangle)]
pub extern "C" fn gate_read(
    file: &[u8],
    size: &mut [u8],
    rows: &mut [u8],
    firsts: &mut [u8],
    outcomes: &mut [u8],
) -> u32
    ensures call { gate_read_call file.now size.old rows.old firsts.old outcomes.old
        ≡ record {
          returns = result;
          size = size.new;
          rows = rows.new;
          firsts = firsts.new;
          outcomes = outcomes.new;
        } }
{
    gate_reading::call::read_call(file, size, rows, firsts, outcomes)
}

// Decides a whole plan. Ruled out: a leaking ring called safe, and a verdict where room was lacking.
#[unsafe(no_mangle)]
pub extern "C" fn gate_decide(
    size: &[u8],
    rows: &[u8],
    firsts: &[u8],
    outcomes: &[u8],
    ranks: &mut [u8],
    commands: &mut [u8],
    marks: &mut [u8],
    scratch: &mut [u8],
    tally: &mut [u8],
) -> u32
    ensures call { let lent = tables_in size.now rows.now firsts.now outcomes.now in
        gate_decide_call lent ranks.old commands.old marks.old scratch.old tally.old
        ≡ record {
          returns = result;
          ranks = ranks.new;
          commands = commands.new;
          marks = marks.new;
          scratch = scratch.new;
          tally = tally.new;
        } }
    ensures demand3 { let lent = tables_in size.now rows.now firsts.now outcomes.now in
        (T : Tables) → lent ≡ given T → result ≡ 0 → DecidingDemand3 T (entries_in ranks.new) (entries_in commands.new) }
{
    gate_deciding::call::decide_call(
        size, rows, firsts, outcomes, ranks, commands, marks, scratch, tally,
    )
}

// Searches from one start, any number. Ruled out: a verdict for want of room, and a count of rounds that were not walked.
#[unsafe(no_mangle)]
pub extern "C" fn gate_search(
    size: &[u8],
    rows: &[u8],
    firsts: &[u8],
    outcomes: &[u8],
    start: usize,
    commands: &mut [u8],
    scratch: &mut [u8],
    answer: &mut [u8],
) -> u32
    ensures call { let lent = tables_in size.now rows.now firsts.now outcomes.now in
        gate_search_call lent start commands.old scratch.old answer.old
        ≡ record { returns = result; commands = commands.new; scratch = scratch.new; answer = answer.new } }
    ensures demand3 { let lent = tables_in size.now rows.now firsts.now outcomes.now in
        (T : Tables) → lent ≡ given T → result ≡ 0
        → SearchDemand3 T start (verdict_in answer.new) (rounds_in answer.new) (entries_in commands.new) }
{
    gate_searching::call::search_call(
        size, rows, firsts, outcomes, start, commands, scratch, answer,
    )
}
