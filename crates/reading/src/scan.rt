// The judging pass: it writes nothing.
ghost use Rattle.std.specs.Prelude.{◌≡◌, ◌+◌, ◌≤◌};
ghost use Rattle.model.specs.Refusal.{answer};
ghost use Rattle.model.specs.File.{max_commands, commands, states, read};
ghost use Rattle.model.specs.Tables.{tables_of};
ghost use Rattle.reading.specs.Meaning.{Within, Walks, bytes_from, after_commands, after_states, after_file};
ghost use Rattle.reading.specs.Answers.{answer_of};

use crate::bytes::{Mark, number, remaining};
use crate::fields::{read_command, read_head, read_state};
use crate::walker::FieldWalker;
use tables::tags::END;
use tables::{Refusal, Size};

fn scan_commands(file: &[u8], n: usize, count: usize, from: Mark) -> Result<Mark, Refusal>
    requires { Within file.now from × (from.m + count ≤ max_commands) }
    ensures { Walks file.now result
        (answer (after_commands from.m) (commands n count from.t (bytes_from file.now from))) }
{
    let mut k = from;
    for _ in 0..count {
        let f = read_command(file, n, k);
        let Ok(next) = f else {
            return f;
        };
        k = next;
    }
    Ok(k)
}

fn scan_states(file: &[u8], n: usize, from: Mark) -> Result<Mark, Refusal>
    requires { Within file.now from }
    ensures { Walks file.now result
        (answer (after_states from.m from.t) (states n n from.m from.t (bytes_from file.now from))) }
{
    let mut k = from;
    for _ in 0..n {
        let f = read_state(file, k);
        let Ok(next) = f else {
            return f;
        };
        let c = scan_commands(file, n, number(file, k.at, 4), next);
        let Ok(past) = c else {
            return c;
        };
        k = past;
    }
    Ok(k)
}

// The whole file.
fn judge(file: &[u8]) -> Result<Mark, Refusal>
    ensures { Walks file.now result (answer after_file (read file.now)) }
{
    let h = read_head(file);
    let Ok(first) = h else {
        return h;
    };
    let s = scan_states(file, number(file, 0, 3), first);
    let Ok(last) = s else {
        return s;
    };
    let e = FieldWalker { file, mark: last }.next(END);
    let Ok(end) = e else {
        return e;
    };
    if 0 < remaining(file, end.at) {
        return Err(Refusal::Surplus);
    }
    Ok(end)
}

// The size record of the plan that a file describes.
pub fn scan(file: &[u8]) -> Result<Size, Refusal>
    ensures { answer_of result ≡ answer (λ p. (tables_of p).size) (read file.now) }
{
    let k = judge(file)?;
    Ok(Size::new(number(file, 0, 3), k.m, k.t, number(file, 0, 5)))
}
