// Each field from a mark on, in the order of rules E13 to E15: the mark past the field, or the refusal.
ghost use Rattle.std.specs.Prelude.{◌+◌, ◌*◌, ◌<◌, ◌≤◌, length, drop};
ghost use Rattle.model.specs.Refusal.{answer};
ghost use Rattle.model.specs.File.{max_commands, head, state, entries, rising, command};
ghost use Rattle.reading.specs.Meaning.{Within, Walks, bytes_from, head_mark, after_field, after_command};

use crate::bytes::{Mark, byte, number};
use crate::walker::FieldWalker;
use tables::spans::not_idle;
use tables::tags::{COMMAND, HEAD, STATE};
use tables::{Refusal, Size};

pub fn read_head(file: &[u8]) -> Result<Mark, Refusal>
    ensures { Walks file.now result (answer (λ x. after_field file.now head_mark 4) (head file.now)) }
{
    let mark = Mark { at: 0, m: 0, t: 0 };
    let f = FieldWalker { file, mark }.next(HEAD);
    let Ok(next) = f else {
        return f;
    };
    let n = number(file, 0, 3);
    if n < 1 || Size::STATES < n || n <= number(file, 0, 5) {
        return Err(Refusal::Beyond);
    }
    Ok(next)
}

pub fn read_state(file: &[u8], k: Mark) -> Result<Mark, Refusal>
    requires { Within file.now k }
    ensures { Walks file.now result
        (answer (λ x. after_field file.now k 5) (state k.m (bytes_from file.now k))) }
{
    let f = FieldWalker { file, mark: k }.next(STATE);
    let Ok(next) = f else {
        return f;
    };
    let kind = usize::from(byte(file, k.at, 3));
    let count = number(file, k.at, 4);
    if 2 < kind {
        return Err(Refusal::Beyond);
    }
    if !not_idle(kind, count, number(file, k.at, 6)) {
        return Err(Refusal::Idle);
    }
    if Size::COMMANDS - k.m < count {
        return Err(Refusal::Limit);
    }
    Ok(next)
}

// The outcomes from place `at` on, each in turn, and then the mark past them.
fn check_outcomes(
    file: &[u8],
    at: usize,
    n: usize,
    count: usize,
    past: Mark,
) -> Result<Mark, Refusal>
    requires { Within file.now past × (count * 2 ≤ length (drop at file.now)) }
    ensures { Walks file.now result
        (answer (λ x. (past.m, past.t, bytes_from file.now past))
        (rising n 0 (entries count (drop at file.now)))) }
{
    let mut low = 0;
    for i in 0..count {
        let o = number(file, at, i * 2);
        if n <= o {
            return Err(Refusal::Beyond);
        }
        if o < low {
            return Err(Refusal::Unsorted);
        }
        low = o + 1;
    }
    Ok(past)
}

pub fn read_command(file: &[u8], n: usize, k: Mark) -> Result<Mark, Refusal>
    requires { Within file.now k × (k.m < max_commands) }
    ensures { Walks file.now result
        (answer (after_command file.now k) (command n k.t (bytes_from file.now k))) }
{
    let f = FieldWalker { file, mark: k }.next(COMMAND);
    let Ok(next) = f else {
        return f;
    };
    let count = number(file, k.at, 1) / 2;
    if Size::OUTCOMES - k.t < count {
        return Err(Refusal::Limit);
    }
    let past = Mark {
        at: next.at,
        m: k.m + 1,
        t: k.t + count,
    };
    check_outcomes(file, k.at + 3, n, count, past)
}
