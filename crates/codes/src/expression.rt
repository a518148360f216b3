// The codes of expressions, in the order of `PcodeExpr` in ast.rs, and those of the six greater operators.
pub const IDENT: u64 = 0;

pub const INTEGER: u64 = 1;

pub const ADDRESS_OF: u64 = 2;

pub const TRUNCATE: u64 = 3;

pub const SLICE_BITS: u64 = 4;

pub const OP: u64 = 5;

pub const DEREF: u64 = 6;

pub const CONSTANT_POOL_REF: u64 = 7;

pub const CALL: u64 = 8;

pub const INT_GREATER: u64 = 33;

pub const INT_GREATER_EQUAL: u64 = 34;

pub const INT_SIGNED_GREATER: u64 = 35;

pub const INT_SIGNED_GREATER_EQUAL: u64 = 36;

pub const FLOAT_GREATER: u64 = 37;

pub const FLOAT_GREATER_EQUAL: u64 = 38;
