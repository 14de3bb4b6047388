// Carrying back: what is answered, and all that is lent.
use crate::numbers::{next, next_entry, next_wide};
use crate::print::{print_entries, print_refusal, print_table};
use tables::{Refusal, Size};

// The most entries of a map and of a table, and the most places that are lent: more than any plan has states.
const MOST: usize = 2048;

// As many entries of the file, from entry `from` on, as the table has; where the file is at its end the table keeps its own.
fn copy_entries(file: &[u8], from: usize, table: &mut [u16]) {
    for (entry, pair) in table.iter_mut().zip(file.chunks_exact(2).skip(from)) {
        if let [high, low] = pair {
            *entry = u16::from_be_bytes([*high, *low]);
        }
    }
}

fn print_answer(answer: Result<(), Refusal>) {
    match answer {
        Ok(()) => {
            io::write_all(1, b"carried\n");
        }
        Err(refusal) => print_refusal(refusal),
    }
}

// The next numbers of the input: the old n, how many entries the map has and how many the table, how many places are lent, and what each
// of them holds. The map is the first entries of the file, and the table those after it.
pub fn ask_carry(file: &[u8], all: bool) {
    let n = next_wide();
    let nolds = next().min(MOST);
    let ntable = next().min(MOST);
    let nplaces = next().min(MOST);
    let holding = next_entry();
    let mut olds = [0u16; MOST];
    let mut table = [0u16; MOST];
    let mut places = [holding; MOST];
    copy_entries(file, 0, &mut olds);
    copy_entries(file, nolds, &mut table);
    print_answer(carry::carry_back(n, &olds[..nolds], &table[..ntable], &mut places[..nplaces]));
    if all {
        print_table(b"places", &places[..nplaces]);
    }
}

// The commands of a trimmed plan of so many states, under the n old numbers.
pub fn carry_commands(n: usize, olds: &[u16], states: usize, commands: &[u16]) {
    let mut back = [0u16; Size::STATES];
    print_answer(carry::carry_back(n, &olds[..states.min(olds.len())], commands, &mut back));
    print_entries(b"commands", &back, n);
}
