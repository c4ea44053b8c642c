// Texts of lines: their lines, fields and numbers, read from bytes of any kind, and numbers and fields written into a lent buffer.
#![tactic(auto)]

pub mod find;
pub mod line;
pub mod number;
pub mod row;
pub mod writer;

// What ends a field, and what ends a line.
pub const TAB: u8 = b'\t';

pub const LF: u8 = b'\n';

// The most digits of a number in a network file or a sighting book.
pub const MOST_DIGITS: usize = 11;

// The longest file of lines.
pub const MOST_BYTES: usize = 65_535;
