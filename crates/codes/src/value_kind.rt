// The kinds of a value, in the order of `Local`.

pub const INST_START: u64 = 0;

pub const INST_NEXT: u64 = 1;

pub const REGISTER: u64 = 2;

pub const FIELD: u64 = 3;

pub const SUBTABLE: u64 = 4;

pub const SUBTABLE_REF: u64 = 5;

pub const PCODE_TMP: u64 = 6;

pub const CONSTANT: u64 = 7;
