// The parts of the table that the reader fills (`read_stream` says what each holds): where each begins, and its length.
pub const NAMES: usize = 0;

pub const GLOBALS: usize = 1024;

pub const LOCALS: usize = 2048;

pub const MACROS: usize = 3072;

pub const MACRO_ORDINALS: usize = 3200;

// The lists, in the order of `List`.
pub const LISTS: usize = 3328;

pub const STATEMENTS: usize = 3337;

pub const FIRST_ORDINAL: usize = 3338;

pub const LENGTH: usize = 3344;
