// The kinds of an export; 0 is none.

pub const VALUE: u64 = 1;

pub const RAM_REF: u64 = 2;

pub const REGISTER_REF: u64 = 3;
