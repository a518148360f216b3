// The codes of statements, in the order of `Statement` in ast.rs; of what a branch goes to; of a jump's target.
pub const UNIMPLEMENTED: u64 = 0;

pub const EXPORT: u64 = 1;

pub const LOCAL: u64 = 2;

pub const LOCAL_ASSIGNMENT: u64 = 3;

pub const BUILD: u64 = 4;

pub const COPY: u64 = 5;

pub const STORE: u64 = 6;

pub const CALL: u64 = 7;

pub const BRANCH: u64 = 8;

pub const COND_BRANCH: u64 = 9;

pub const LABEL: u64 = 10;

pub const DST_DIRECT: u64 = 0;

pub const DST_INDIRECT: u64 = 1;

pub const DST_LABEL: u64 = 2;

pub const JUMP_IDENT: u64 = 0;
