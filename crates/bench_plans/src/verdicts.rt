// Deciding and the search: all that is answered and left in the tables.
use crate::print::{print_entries, print_number, print_refusal};
use decide::Tally;
use search::Found;
use tables::{Plan, Size};

fn print_tally(tally: Tally) {
    io::write_all(1, b"tally");
    for row in &tally {
        for count in row {
            print_number(usize::from(*count));
        }
    }
    io::write_all(1, b"\n");
}

// Lends as many places of each table as are asked for.
pub fn ask_decision(plan: &Plan, places: usize) {
    let places = places.min(Size::STATES);
    let mut ranks = [0u16; Size::STATES];
    let mut commands = [0u16; Size::STATES];
    let mut marks = [0u16; Size::STATES];
    let mut scratch = [0u16; Size::STATES];
    let answer = decide::decide(
        plan,
        &mut ranks[..places],
        &mut commands[..places],
        &mut marks[..places],
        &mut scratch[..places],
    );
    match answer {
        Ok(tally) => {
            print_entries(b"ranks", &ranks[..places], plan.size.n);
            print_entries(b"commands", &commands[..places], plan.size.n);
            print_entries(b"marks", &marks[..places], plan.size.n);
            print_tally(tally);
        }
        Err(refusal) => print_refusal(refusal),
    }
}

fn print_found(found: Found) {
    if found.lost {
        io::write_all(1, b"lost");
    } else {
        io::write_all(1, b"safe");
    }
    print_number(found.rounds);
}

// Lends as many places of each table as are asked for.
pub fn ask_search(plan: &Plan, start: usize, places: usize) {
    let places = places.min(Size::STATES);
    let mut commands = [0u16; Size::STATES];
    let mut scratch = [0u16; Size::STATES];
    match search::search(plan, start, &mut commands[..places], &mut scratch[..places]) {
        Ok(found) => {
            print_found(found);
            print_entries(b"", &commands[..places], plan.size.n);
        }
        Err(refusal) => print_refusal(refusal),
    }
}
