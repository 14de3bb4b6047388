// The frame of a field, in the order of rule E12: three bytes are there, the tag, the length, the whole value is there.
ghost use Rattle.std.specs.Prelude.{◌≡◌};
ghost use Rattle.model.specs.Refusal.{answer};
ghost use Rattle.model.specs.File.{fixed_length, allowed, field};
ghost use Rattle.reading.specs.Meaning.{Within, Walks, bytes_from, after_field};

use crate::bytes::{Mark, byte, number, remaining};
use tables::Refusal;
use tables::tags::{COMMAND, HEAD, STATE};

fn fixed_length(tag: u8) -> usize
    ensures { result ≡ fixed_length tag }
{
    match tag {
        HEAD => 4,
        STATE => 5,
        _ => 0,
    }
}

fn allowed(tag: u8, len: usize) -> bool
    ensures { result ≡ allowed tag len }
{
    if tag == COMMAND {
        return len % 2 == 0 && 2 <= len;
    }
    len == fixed_length(tag)
}

// The field at a mark, with the tag that is due.
pub fn check_frame(file: &[u8], k: Mark, due: u8) -> Result<Mark, Refusal>
    requires { Within file.now k }
    ensures { Walks file.now result
        (answer (after_field file.now k) (field due (bytes_from file.now k))) }
{
    let left = remaining(file, k.at);
    if left < 3 {
        return Err(Refusal::Cut);
    }
    if byte(file, k.at, 0) != due {
        return Err(Refusal::Tag);
    }
    let len = number(file, k.at, 1);
    if !allowed(due, len) {
        return Err(Refusal::Length);
    }
    if left - 3 < len {
        return Err(Refusal::Cut);
    }
    Ok(k.moved(3 + len))
}
