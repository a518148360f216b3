// The limits that several crates hold a file or a list to: numbers are below the first two, and expressions are nested no
// deeper than the third. A file has at most so many names and macros as the last two say.
pub const SIZES: u64 = 1025;

pub const STATEMENTS: u64 = 1025;

pub const DEPTH: u64 = 32;

pub const NAMES: u64 = 1024;

pub const MACROS: u64 = 128;
