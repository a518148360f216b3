// The operations by the names that the field gives them (Ghidra's p-code reference).
ghost use Rattle.std.specs.Prelude.{◌≡◌, ◌≤◌, length};
ghost use Rattle.listing_names.specs.Words.{word};
ghost use Rattle.listing_names.specs.Operations.{operation_text};

// The word of a number, of words with a space between them; empty past the last.
fn word(words: &str, number: u64) -> &str
    ensures { result.now ≡ word number words.now }
{
    words.split(' ').nth(number as usize).unwrap_or("")
}

// The name of an operation. One string and no array, which would be as many lines as there are names, more than a function has.
// A dash stands for a number that no operation has; past the last there is none. A name has 32 bytes at most.
pub fn operation(op: u64) -> &'static str
    ensures text { result.now ≡ operation_text op }
    ensures within { length result.now ≤ 32 }
{
    let names =
        "INT_MULT INT_DIV INT_SDIV INT_REM INT_SREM INT_ADD INT_SUB INT_LEFT INT_RIGHT INT_SRIGHT \
        INT_SLESS INT_SLESSEQUAL INT_LESS INT_LESSEQUAL INT_EQUAL INT_NOTEQUAL \
        FLOAT_DIV FLOAT_MULT FLOAT_ADD FLOAT_SUB FLOAT_LESS FLOAT_LESSEQUAL FLOAT_EQUAL FLOAT_NOTEQUAL \
        INT_AND INT_XOR INT_OR BOOL_XOR BOOL_AND BOOL_OR INT_CARRY INT_SCARRY INT_SBORROW - - - - - - \
        BOOL_NEGATE INT_NEGATE INT_2COMP FLOAT_NAN INT_ZEXT INT_SEXT FLOAT_NEG FLOAT_ABS FLOAT_SQRT \
        FLOAT_CEIL FLOAT_FLOOR FLOAT_ROUND TRUNC INT2FLOAT UINT2FLOAT FLOAT2FLOAT POPCOUNT LZCOUNT \
        COPY LOAD STORE BRANCH BRANCH LABEL CALLOTHER ARG UNIMPLEMENTED";
    word(names, op)
}
