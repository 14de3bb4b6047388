// The questions on a plan.
use crate::carries::ask_carry;
use crate::contests::ask_contest;
use crate::numbers::{next, next_wide};
use crate::trims::{Places, ask_trim};
use crate::verdicts::{ask_decision, ask_search};
use crate::warnings::ask_warning;
use tables::Plan;

// What is asked. Where `all` is false, the answer alone is printed.
#[derive(Clone, Copy, Debug, PartialEq, Eq)]
enum Call {
    Decide,
    Search,
    Contest,
    Warning,
    Trim { all: bool },
    Carry { all: bool },
}

// The call that a question names.
impl TryFrom<usize> for Call {
    type Error = usize;

    fn try_from(number: usize) -> Result<Call, usize> {
        match number {
            0 => Ok(Call::Decide),
            1 => Ok(Call::Search),
            2 => Ok(Call::Contest),
            3 => Ok(Call::Warning),
            4 => Ok(Call::Trim { all: true }),
            5 => Ok(Call::Trim { all: false }),
            6 => Ok(Call::Carry { all: true }),
            7 => Ok(Call::Carry { all: false }),
            other => Err(other),
        }
    }
}

// A state, and a number that goes with it.
fn next_state() -> (usize, usize) {
    let state = next_wide();
    (state, next_wide())
}

// The next question of the input, on this plan or on the file that was to give it.
pub fn ask(file: &[u8], plan: &Plan) {
    match Call::try_from(next()) {
        Ok(Call::Decide) => {
            let (_, places) = next_state();
            ask_decision(plan, places);
        }
        Ok(Call::Search) => {
            let (start, places) = next_state();
            ask_search(plan, start, places);
        }
        Ok(Call::Contest) => {
            let (state, moves) = next_state();
            ask_contest(plan, state, moves);
        }
        Ok(Call::Warning) => {
            let (state, seconds) = next_state();
            ask_warning(plan, state, seconds);
        }
        Ok(Call::Trim { all }) => ask_trim(plan, &Places::next(), all),
        Ok(Call::Carry { all }) => ask_carry(file, all),
        Err(_) => {
            next_state();
        }
    }
}
