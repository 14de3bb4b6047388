// Trimming: what is answered, all that is lent, whether the trimmed plan comes back when it is written and read, or trimmed again, and its
// commands under the old numbers.
ghost use Rattle.std.specs.Prelude.{◌≤◌};
ghost use Rattle.model.specs.File.{max_states, max_commands, max_outcomes};

use crate::carries::carry_commands;
use crate::files::{print_again, print_size, read_again};
use crate::numbers::{next, next_entry};
use crate::print::{print_entry, print_refusal, print_table};
use crate::same::same_plans;
use crate::verdicts::ask_decision;
use tables::{Plan, Refusal, Row, Size};

// How many places are lent of each table, no more than it has, and what every one of them holds: so it is seen which ones a call has
// written.
#[derive(Clone, Copy)]
pub struct Places {
    rows: usize,
    firsts: usize,
    outcomes: usize,
    olds: usize,
    scratch: usize,
    holding: u16,
    ghost bounded: { (rows ≤ max_states) × (firsts ≤ max_commands) × (outcomes ≤ max_outcomes) × (olds ≤ max_states)
        × (scratch ≤ max_states) },
}

impl Places {
    // The next six numbers of the input. Two more are passed over: a question is as long as any other.
    pub fn next() -> Places {
        let places = Places {
            rows: next().min(Size::STATES),
            firsts: next().min(Size::COMMANDS),
            outcomes: next().min(Size::OUTCOMES),
            olds: next().min(Size::STATES),
            scratch: next().min(Size::STATES),
            holding: next_entry(),
        };
        next();
        next();
        places
    }
}

// Whether each of the first n entries is the number of its place.
fn own_numbers(olds: &[u16], n: usize) -> bool {
    n <= olds.len()
        && olds
            .iter()
            .take(n)
            .enumerate()
            .all(|(i, old)| usize::from(*old) == i)
}

// Whether trimming once more gives the plan back, with every state's own number in the map.
fn trim_again(plan: &Plan) -> bool {
    let mut rows = [Row::BLANK; Size::STATES];
    let mut firsts = [0u16; Size::COMMANDS];
    let mut outcomes = [0u16; Size::OUTCOMES];
    let mut olds = [0u16; Size::STATES];
    let mut scratch = [0u16; Size::STATES];
    let answer = trim::trim(
        plan,
        &mut rows,
        &mut firsts,
        &mut outcomes,
        &mut olds,
        &mut scratch,
    );
    let Ok(size) = answer else {
        return false;
    };
    let again = Plan {
        size,
        rows: &rows,
        firsts: &firsts,
        outcomes: &outcomes,
    };
    own_numbers(&olds, plan.size.n) && same_plans(plan, &again)
}

// The commands that deciding leaves of the trimmed plan, carried back to the n old numbers.
fn carry_decided(n: usize, plan: &Plan, olds: &[u16]) {
    let mut ranks = [0u16; Size::STATES];
    let mut commands = [0u16; Size::STATES];
    let mut marks = [0u16; Size::STATES];
    let mut scratch = [0u16; Size::STATES];
    let _ = decide::decide(plan, &mut ranks, &mut commands, &mut marks, &mut scratch);
    carry_commands(n, olds, plan.size.n, &commands);
}

// What comes of the trimmed plan: written and read, trimmed again, decided, and its commands carried back to the n old numbers.
fn go_on(n: usize, plan: &Plan, olds: &[u16]) {
    let written = read_again(plan);
    let trimmed = trim_again(plan);
    io::write_all(1, b"again");
    print_again(written, trimmed);
    ask_decision(plan, Size::STATES);
    carry_decided(n, plan, olds);
}

fn print_answer(answer: Result<Size, Refusal>) {
    match answer {
        Ok(size) => {
            io::write_all(1, b"trimmed");
            print_size(size);
            io::write_all(1, b"\n");
        }
        Err(refusal) => print_refusal(refusal),
    }
}

fn print_rows(rows: &[Row]) {
    io::write_all(1, b"rows");
    for row in rows {
        print_entry(row.kind);
        print_entry(row.first);
        print_entry(row.practice);
    }
    io::write_all(1, b"\n");
}

// The tables that a trimming writes, each as far as it is lent.
struct Lent<'a> {
    rows: &'a mut [Row],
    firsts: &'a mut [u16],
    outcomes: &'a mut [u16],
    olds: &'a mut [u16],
    scratch: &'a mut [u16],
}

impl Lent<'_> {
    // Prints the answer, and where `all` is true every table to its last place as well, and what comes of the trimmed plan if there is one.
    fn ask(self, plan: &Plan, all: bool) {
        let Lent {
            rows,
            firsts,
            outcomes,
            olds,
            scratch,
        } = self;
        let answer = trim::trim(plan, rows, firsts, outcomes, olds, scratch);
        print_answer(answer);
        if !all {
            return;
        }
        print_rows(rows);
        print_table(b"firsts", firsts);
        print_table(b"outcomes", outcomes);
        print_table(b"map", olds);
        print_table(b"scratch", scratch);
        if let Ok(size) = answer {
            let trimmed = Plan {
                size,
                rows,
                firsts,
                outcomes,
            };
            go_on(plan.size.n, &trimmed, olds);
        }
    }
}

// Lends as many places as are asked for.
pub fn ask_trim(plan: &Plan, places: &Places, all: bool) {
    let x = places.holding;
    let blank = Row {
        kind: x,
        first: x,
        practice: x,
    };
    let mut rows = [blank; Size::STATES];
    let mut firsts = [x; Size::COMMANDS];
    let mut outcomes = [x; Size::OUTCOMES];
    let mut olds = [x; Size::STATES];
    let mut scratch = [x; Size::STATES];
    let lent = Lent {
        rows: &mut rows[..places.rows],
        firsts: &mut firsts[..places.firsts],
        outcomes: &mut outcomes[..places.outcomes],
        olds: &mut olds[..places.olds],
        scratch: &mut scratch[..places.scratch],
    };
    lent.ask(plan, all);
}
