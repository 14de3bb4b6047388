// The warning time: minutes and seconds, or no limit.
use crate::print::{print_number, print_refusal};
use tables::Plan;

pub fn ask_warning(plan: &Plan, state: usize, seconds: usize) {
    match warning::warning_time(plan, state, seconds) {
        Ok(Some(time)) => {
            io::write_all(1, b"time");
            print_number(usize::from(time.minutes));
            print_number(usize::from(time.seconds));
            io::write_all(1, b"\n");
        }
        Ok(None) => {
            io::write_all(1, b"no limit\n");
        }
        Err(refusal) => print_refusal(refusal),
    }
}
