// A place in the file, and the bytes from it on. No other module looks at the file.
ghost use Rattle.std.specs.Prelude.{◌≡◌, ◌+◌, ◌^◌, ◌<◌, ◌≤◌, length, get_or, drop};
ghost use Rattle.laws.specs.Entry.{be16};
ghost use Rattle.reading.specs.Meaning.{moved};

// How far a reading has come: a place in the file, and the commands and the outcomes before it.
#[derive(Clone, Copy, Debug, PartialEq, Eq)]
pub struct Mark {
    pub at: usize,
    pub m: usize,
    pub t: usize,
}

impl Mark {
    pub fn moved(self, bytes: usize) -> Mark
        requires { self.at + bytes < 2 ^ 64 }
        ensures { result ≡ moved self bytes }
    {
        Mark {
            at: self.at + bytes,
            ..self
        }
    }
}

// File and place stay two parameters: a field answers the mark alone (decisions 29 and 40), so a value of both would be made, and shown to
// fit, anew at every field.
pub fn remaining(file: &[u8], at: usize) -> usize
    requires { at ≤ length file.now }
    ensures { result ≡ length (drop at file.now) }
{
    file.len() - at
}

pub fn byte(file: &[u8], at: usize, i: usize) -> u8
    requires { i < length (drop at file.now) }
    ensures { result ≡ get_or (drop at file.now) i 0 }
{
    file[at + i]
}

// Two bytes, as an entry of a table.
pub fn entry(file: &[u8], at: usize, i: usize) -> u16
    requires { i + 1 < length (drop at file.now) }
    ensures { result ≡ be16 (drop at file.now) i }
{
    u16::from_be_bytes([byte(file, at, i), byte(file, at, i + 1)])
}

// Two bytes, as a number.
pub fn number(file: &[u8], at: usize, i: usize) -> usize
    requires { i + 1 < length (drop at file.now) }
    ensures { result ≡ be16 (drop at file.now) i }
{
    usize::from(entry(file, at, i))
}
