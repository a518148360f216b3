// The header's fields: at which byte of the stream each begins, and how many bytes they have together.
pub const RULE_SET: usize = 0;

pub const NAMES: usize = 2;

pub const SPACES: usize = 4;

pub const REGISTERS: usize = 6;

pub const BIT_RANGES: usize = 8;

pub const TABLES: usize = 10;

pub const USER_OPS: usize = 12;

pub const MACROS: usize = 14;

pub const OTHERS: usize = 16;

pub const FIELDS: usize = 18;

pub const SUBTABLES: usize = 20;

pub const STATEMENTS: usize = 22;

pub const DEFAULT_SPACE: usize = 24;

pub const INST_START: usize = 26;

pub const INST_NEXT: usize = 28;

pub const CONST: usize = 30;

pub const DELAY_SLOT: usize = 32;

pub const LENGTH: usize = 34;
