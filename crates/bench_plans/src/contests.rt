// The contest: whether it is held.
use crate::print::print_refusal;
use tables::Plan;

pub fn ask_contest(plan: &Plan, state: usize, moves: usize) {
    match contest::contest(plan, state, moves) {
        Ok(true) => {
            io::write_all(1, b"held\n");
        }
        Ok(false) => {
            io::write_all(1, b"not held\n");
        }
        Err(refusal) => print_refusal(refusal),
    }
}
