// The kinds of an action, in the order of `SemanticAction`.

pub const OP: u64 = 0;

pub const ADDRESS_OF: u64 = 1;

pub const LOAD_REGISTER: u64 = 2;

pub const STORE_REGISTER: u64 = 3;

pub const DELAY_SLOT: u64 = 4;

pub const BUILD: u64 = 5;
