// The spellings of `translate_inbuilt_func`, compared byte for byte with a name of the stream.
ghost use Rattle.std.specs.Prelude.{◌≡◌, ◌+◌, map, get_or, take, drop};
ghost use Rattle.expr_inbuilts.specs.Outcomes.{to_inbuilt};
ghost use Rattle.expr_inbuilts.specs.Inbuilts.{among, inbuilt_of, inbuilt_at};

use crate::function::Inbuilt;
use codes::operation;

// The spelling of each.
const INBUILTS: [(&[u8], Inbuilt); 22] = [
    (b"!", Inbuilt::Unary(operation::BOOL_NOT)),
    (b"~", Inbuilt::Unary(operation::INT_NOT)),
    (b"-", Inbuilt::Unary(operation::INT_NEGATE)),
    (b"nan", Inbuilt::Unary(operation::FLOAT_IS_NAN)),
    (b"carry", Inbuilt::Binary(operation::INT_CARRY)),
    (b"scarry", Inbuilt::Binary(operation::INT_SIGNED_CARRY)),
    (b"sborrow", Inbuilt::Binary(operation::INT_SIGNED_BORROW)),
    (b"zext", Inbuilt::Unary(operation::ZERO_EXTEND)),
    (b"zxt", Inbuilt::Unary(operation::ZERO_EXTEND)),
    (b"sext", Inbuilt::Unary(operation::SIGN_EXTEND)),
    (b"f-", Inbuilt::Unary(operation::FLOAT_NEGATE)),
    (b"abs", Inbuilt::Unary(operation::FLOAT_ABS)),
    (b"sqrt", Inbuilt::Unary(operation::FLOAT_SQRT)),
    (b"ceil", Inbuilt::Unary(operation::FLOAT_CEIL)),
    (b"floor", Inbuilt::Unary(operation::FLOAT_FLOOR)),
    (b"round", Inbuilt::Unary(operation::FLOAT_ROUND)),
    (b"trunc", Inbuilt::Unary(operation::FLOAT_TO_INT)),
    (b"int2float", Inbuilt::Unary(operation::INT_TO_FLOAT)),
    (b"uint2float", Inbuilt::Unary(operation::UINT_TO_FLOAT)),
    (b"float2float", Inbuilt::Unary(operation::FLOAT_TO_FLOAT)),
    (b"popcount", Inbuilt::Unary(operation::INT_COUNT_ONES)),
    (
        b"lzcount",
        Inbuilt::Unary(operation::INT_COUNT_LEADING_ZEROES),
    ),
];

// The first of some rows that has the spelling.
fn among(rows: &[(&[u8], Inbuilt)], word: &[u8]) -> Option<Inbuilt>
    ensures { to_inbuilt result ≡ among (map (λ row. (row.0.now, row.1)) rows.now) word.now }
{
    let row = rows.iter().find(|row| word == row.0)?;
    Some(row.1)
}

// The built-in function of a name.
#[tactic(auto, unfolding(crate::specs::Inbuilts::among, crate::specs::Inbuilts::attempt, crate::specs::Inbuilts::inbuilt_of, crate::specs::Inbuilts::logical, crate::specs::Inbuilts::carries, crate::specs::Inbuilts::extensions, crate::specs::Inbuilts::roundings, crate::specs::Inbuilts::conversions))]
fn inbuilt_of(word: &[u8]) -> Option<Inbuilt>
    ensures { to_inbuilt result ≡ inbuilt_of word.now }
{
    among(&INBUILTS, word)
}

// The name whose length byte stands at a position, as far as the stream goes.
fn spelled(stream: &[u8], at: usize) -> &[u8]
    ensures { result.now ≡ take (get_or stream.now at 0) (drop (at + 1) stream.now) }
{
    let Some(rest) = stream.get(at..) else {
        return &[];
    };
    let Some((length, name)) = rest.split_first() else {
        return &[];
    };
    name.get(..usize::from(*length)).unwrap_or(name)
}

// The built-in function of that name.
#[tactic(auto, unfolding(crate::specs::Inbuilts::inbuilt_at))]
pub fn translate_inbuilt_func(stream: &[u8], at: usize) -> Option<Inbuilt>
    ensures { to_inbuilt result ≡ inbuilt_at stream.now at }
{
    inbuilt_of(spelled(stream, at))
}
