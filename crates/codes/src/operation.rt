// The operations, by their numbers in the action list; the subpiece, which becomes a Copy, has one here alone.

pub const INT_MUL: u64 = 0;

pub const INT_DIV: u64 = 1;

pub const INT_SIGNED_DIV: u64 = 2;

pub const INT_REM: u64 = 3;

pub const INT_SIGNED_REM: u64 = 4;

pub const INT_ADD: u64 = 5;

pub const INT_SUB: u64 = 6;

pub const INT_LEFT: u64 = 7;

pub const INT_RIGHT: u64 = 8;

pub const INT_SIGNED_RIGHT: u64 = 9;

pub const INT_SIGNED_LESS: u64 = 10;

pub const INT_SIGNED_LESS_EQUAL: u64 = 11;

pub const INT_LESS: u64 = 12;

pub const INT_LESS_EQUAL: u64 = 13;

pub const INT_EQUAL: u64 = 14;

pub const INT_NOT_EQUAL: u64 = 15;

pub const FLOAT_DIV: u64 = 16;

pub const FLOAT_MUL: u64 = 17;

pub const FLOAT_ADD: u64 = 18;

pub const FLOAT_SUB: u64 = 19;

pub const FLOAT_LESS: u64 = 20;

pub const FLOAT_LESS_EQUAL: u64 = 21;

pub const FLOAT_EQUAL: u64 = 22;

pub const FLOAT_NOT_EQUAL: u64 = 23;

pub const INT_AND: u64 = 24;

pub const INT_XOR: u64 = 25;

pub const INT_OR: u64 = 26;

pub const BOOL_XOR: u64 = 27;

pub const BOOL_AND: u64 = 28;

pub const BOOL_OR: u64 = 29;

pub const INT_CARRY: u64 = 30;

pub const INT_SIGNED_CARRY: u64 = 31;

pub const INT_SIGNED_BORROW: u64 = 32;

pub const BOOL_NOT: u64 = 39;

pub const INT_NOT: u64 = 40;

pub const INT_NEGATE: u64 = 41;

pub const FLOAT_IS_NAN: u64 = 42;

pub const ZERO_EXTEND: u64 = 43;

pub const SIGN_EXTEND: u64 = 44;

pub const FLOAT_NEGATE: u64 = 45;

pub const FLOAT_ABS: u64 = 46;

pub const FLOAT_SQRT: u64 = 47;

pub const FLOAT_CEIL: u64 = 48;

pub const FLOAT_FLOOR: u64 = 49;

pub const FLOAT_ROUND: u64 = 50;

pub const FLOAT_TO_INT: u64 = 51;

pub const INT_TO_FLOAT: u64 = 52;

pub const UINT_TO_FLOAT: u64 = 53;

pub const FLOAT_TO_FLOAT: u64 = 54;

pub const INT_COUNT_ONES: u64 = 55;

pub const INT_COUNT_LEADING_ZEROES: u64 = 56;

pub const COPY: u64 = 57;

pub const LOAD: u64 = 58;

pub const STORE: u64 = 59;

pub const BRANCH: u64 = 60;

pub const PCODE_BRANCH: u64 = 61;

pub const PCODE_LABEL: u64 = 62;

pub const PCODE_OP: u64 = 63;

pub const ARG: u64 = 64;

pub const INVALID: u64 = 65;

pub const SUBPIECE: u64 = 66;
