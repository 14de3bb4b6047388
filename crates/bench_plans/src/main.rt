// Reads plan files and questions on them from standard input, and prints of each file what reading answers and whether both round trips
// give the same again, and of each question what the call answers.
//
// The input is numbers of two bytes, highest first, and files: how many cases there are, and then the cases. A case is the length of its
// file; how many rows, first outcomes and outcomes are lent for it; how many questions there are; the file; and the questions. A question
// is the call, and then, of eight bytes each, a state and a number: for 0, deciding, and 1, the search, how many places are lent of each
// table that the call writes, for 2, the contest, how many moves, for 3, the warning time, how many seconds a move takes. For 4 and 5,
// trimming, it is the call and, of two bytes each, how many places are lent of rows, first outcomes, outcomes, map and scratch, what
// every place of these holds, and two numbers that are passed over; for 5 the answer alone is printed, for 4 every table lent as well and
// what comes of the trimmed plan. For 6 and 7, carrying back, it is the call, of eight bytes the old n, and of two bytes each how many
// entries map and table have, how many places are lent, and what every one of these holds; map and table are the entries that the file's
// bytes are, plan or not, and for 7 the answer alone is printed. Other calls are passed over. On a file that is refused the questions are
// asked of a plan that is not sound: it has a state for each row that is lent, and its start is none of them. Past the end of the input
// every byte is 0.
#![tactic(auto)]

use crate::files::{print_again, print_size, read_again, write_again};
use crate::numbers::next;
use crate::print::print_refusal;
use crate::questions::ask;
use tables::{Plan, Row, Size};

mod carries;
mod contests;
mod files;
mod numbers;
mod print;
mod questions;
mod same;
mod trims;
mod verdicts;
mod warnings;

// What the file is read as, and what is asked on it.
fn try_file(
    file: &[u8],
    rows: &mut [Row],
    firsts: &mut [u16],
    outcomes: &mut [u16],
    questions: usize,
) {
    let size = match reading::read(file, rows, firsts, outcomes) {
        Ok(size) => {
            let bytes = write_again(file, rows, firsts, outcomes);
            let tables = read_again(&Plan {
                size,
                rows,
                firsts,
                outcomes,
            });
            io::write_all(1, b"read");
            print_size(size);
            print_again(bytes, tables);
            size
        }
        Err(refusal) => {
            print_refusal(refusal);
            Size::new(rows.len(), 0, 0, rows.len())
        }
    };
    let plan = Plan {
        size,
        rows,
        firsts,
        outcomes,
    };
    for _ in 0..questions {
        ask(file, &plan);
    }
}

// Lends as many places as are asked for.
fn try_case() {
    let length = next();
    let rows = next().min(Size::STATES);
    let firsts = next().min(Size::COMMANDS);
    let outcomes = next().min(Size::OUTCOMES);
    let questions = next();
    let mut bytes = io::large_buffer();
    let n = io::read_full(0, &mut bytes[..length]);
    let mut row_table = [Row::BLANK; Size::STATES];
    let mut first_table = [0u16; Size::COMMANDS];
    let mut outcome_table = [0u16; Size::OUTCOMES];
    try_file(
        &bytes[..n],
        &mut row_table[..rows],
        &mut first_table[..firsts],
        &mut outcome_table[..outcomes],
        questions,
    );
}

fn main() {
    for _ in 0..next() {
        try_case();
    }
}
