// The numbers of the input, of two bytes and of eight, highest first. Past the input's end every byte is 0.
ghost use Rattle.std.specs.Prelude.{◌^◌, ◌<◌};

// The next number of two bytes, as an entry.
pub fn next_entry() -> u16 {
    let mut bytes = [0u8; 2];
    io::read_full(0, &mut bytes);
    u16::from_be_bytes(bytes)
}

// The next number of two bytes.
pub fn next() -> usize
    ensures { result < 2 ^ 16 }
{
    usize::from(next_entry())
}

// The next number of eight bytes.
pub fn next_wide() -> usize {
    let mut bytes = [0u8; 8];
    io::read_full(0, &mut bytes);
    usize::from_be_bytes(bytes)
}
