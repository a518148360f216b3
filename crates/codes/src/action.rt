// The words of an action: where each stands, and how many there are. A value has two words, its number first.
pub const WORDS: usize = 24;

pub const KIND: usize = 0;

pub const OPERATION: usize = 1;

pub const NUMBER: usize = 2;

pub const INPUT_COUNT: usize = 3;

pub const OUTPUT: usize = 4;

// The second word of an output, and what stands there where an operation has none.
pub const OUTPUT_WORD: usize = OUTPUT + 1;

pub const NO_OUTPUT: u64 = 255;

pub const INPUT_0: usize = 6;

pub const INPUT_1: usize = 8;

// The size stands in a value's second word from bit 24 on.
pub const SIZE_PLACE: u64 = 16777216;
