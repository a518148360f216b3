// The kinds of a global, in the order of the file's lists.

pub const SPACE: u64 = 0;

pub const REGISTER: u64 = 1;

pub const BIT_RANGE: u64 = 2;

pub const TABLE: u64 = 3;

pub const USER_OP: u64 = 4;

pub const MACRO: u64 = 5;

pub const OTHER: u64 = 6;
