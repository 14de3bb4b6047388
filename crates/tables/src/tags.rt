// The tags of a file's fields, as the bytes that they are in it: a file may have any other in their place. Only the planner's own crates
// use this.
pub const HEAD: u8 = 1;

pub const STATE: u8 = 2;

pub const COMMAND: u8 = 3;

pub const END: u8 = 4;
