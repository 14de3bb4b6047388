// What was read of a file, and whether both round trips give the same again.
use crate::print::print_number;
use crate::same::same_plans;
use tables::{Plan, Row, Size};

// The numbers of a size record, each after a space.
pub fn print_size(size: Size) {
    print_number(size.n);
    print_number(size.m);
    print_number(size.t);
    print_number(size.start);
}

pub fn print_again(bytes: bool, tables: bool) {
    let text: &[u8] = match (bytes, tables) {
        (false, _) => b" other bytes\n",
        (true, false) => b" other tables\n",
        (true, true) => b" same\n",
    };
    io::write_all(1, text);
}

// The file is read and written again, and its bytes compared.
pub fn write_again(
    file: &[u8],
    rows: &mut [Row],
    firsts: &mut [u16],
    outcomes: &mut [u16],
) -> bool {
    let mut bytes = [0u8; Size::FILE];
    match format::read_write(file, rows, firsts, outcomes, &mut bytes) {
        Ok(length) => file == &bytes[..length.min(Size::FILE)],
        Err(_) => false,
    }
}

// The plan is written and read again, and compared.
pub fn read_again(plan: &Plan) -> bool {
    let mut bytes = [0u8; Size::FILE];
    let mut rows = [Row::BLANK; Size::STATES];
    let mut firsts = [0u16; Size::COMMANDS];
    let mut outcomes = [0u16; Size::OUTCOMES];
    let Ok(size) = format::write_read(plan, &mut bytes, &mut rows, &mut firsts, &mut outcomes)
    else {
        return false;
    };
    let again = Plan {
        size,
        rows: &rows,
        firsts: &firsts,
        outcomes: &outcomes,
    };
    same_plans(plan, &again)
}
