// Numbers, refusals and table entries, printed.
use tables::Refusal;
use tables::entries::NONE;

// A space and a number.
pub fn print_number(x: usize) {
    io::write_all(1, b" ");
    io::print_decimal(1, x as u64);
}

// The line of a refusal.
pub fn print_refusal(refusal: Refusal) {
    io::write_all(1, b"refused");
    print_number(u32::from(refusal) as usize);
    io::write_all(1, b"\n");
}

// A space and an entry, FFFF as -.
pub fn print_entry(x: u16) {
    match usize::from(x) {
        NONE => {
            io::write_all(1, b" -");
        }
        number => print_number(number),
    }
}

// A table's name, its first n entries, and the line's end.
pub fn print_entries(name: &[u8], table: &[u16], n: usize) {
    io::write_all(1, name);
    for entry in table.iter().take(n) {
        print_entry(*entry);
    }
    io::write_all(1, b"\n");
}

// A table's name, all of its entries, and the line's end.
pub fn print_table(name: &[u8], table: &[u16]) {
    print_entries(name, table, table.len());
}
