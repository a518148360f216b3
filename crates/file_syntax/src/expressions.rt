// Expressions, each ahead of its parts. The walk over a prefix-coded expression calls itself on each part, depth left
// falling. Names and integers, which are the most and have no parts, are read at once: without that a small section takes 4 of 100
// longer, which misses the bar of four times the original with reading.
ghost use Rattle.std.specs.Prelude.{◌≡◌};
ghost use Rattle.file_syntax.specs.Expressions.{address_of, space, call, expr, exprs};
ghost use Rattle.file_syntax.specs.Reads.{good, to_cursor};

use crate::cursor::{
    Cursor, OUTSIDE_LIMIT, Refused, Source, bits, code, name, name_or, refuse, size, size_or, skip,
    small_count,
};
use codes::expression;

#[inline(always)]
fn address_of(source: &Source<'_>, reading: Result<Cursor, Refused>) -> Result<Cursor, Refused>
    ensures { to_cursor result ≡ address_of source.entry.now.stream.now source.entry.now.names (to_cursor reading) }
{
    name(source, size_or(source.stream, reading))
}

// The space and the size of a dereference or a store.
#[inline(always)]
pub fn space(source: &Source<'_>, reading: Result<Cursor, Refused>) -> Result<Cursor, Refused>
    ensures { to_cursor result ≡ space source.entry.now.stream.now source.entry.now.names (to_cursor reading) }
{
    size_or(source.stream, name_or(source, reading))
}

// The name and the count of arguments of a call.
#[inline(always)]
pub fn call(source: &Source<'_>, reading: Result<Cursor, Refused>) -> Result<Cursor, Refused>
    ensures { to_cursor result ≡ call source.entry.now.stream.now source.entry.now.names (to_cursor reading) }
{
    small_count(source.stream, name(source, reading))
}

// An expression that is nested at most `depth` deep.
#[tactic(auto, using(crate::proofs::RefusedLaws::passing))]
#[inline(always)]
pub fn expr(
    depth: u64,
    source: &Source<'_>,
    reading: Result<Cursor, Refused>,
) -> Result<Cursor, Refused>
    ensures { to_cursor result ≡ expr depth source.entry.now.stream.now source.entry.now.names (to_cursor reading) }
{
    expr_at(depth, source, reading?)
}

// As many expressions as the reading's number says; nothing is indexed by it.
#[tactic(auto, using(crate::proofs::RefusedLaws::passing))]
#[inline(always)]
pub fn exprs(
    depth: u64,
    source: &Source<'_>,
    reading: Result<Cursor, Refused>,
) -> Result<Cursor, Refused>
    ensures { to_cursor result ≡ exprs depth source.entry.now.stream.now source.entry.now.names (to_cursor reading) }
{
    exprs_at(depth, source, reading?)
}

// The same for a reading that is not refused.
#[tactic(auto, using(crate::proofs::CodeLaws::expr_laws), unfolding(crate::specs::Expressions::after_code, crate::specs::Expressions::kind_of, crate::specs::Cursors::u8, crate::specs::Cursors::number))]
#[cycle(expr_at_exprs_at_longer)]
fn expr_at(depth: u64, source: &Source<'_>, cursor: Cursor) -> Result<Cursor, Refused>
    ensures { to_cursor result ≡ expr depth source.entry.now.stream.now source.entry.now.names (good cursor) }
{
    let at = cursor.at;
    if at < source.stream.len() && depth != 0 {
        let kind = u64::from(source.stream[at]);
        if kind == expression::IDENT {
            return name(source, Ok(Cursor { at: at + 1, val: 0 }));
        }
        if kind == expression::INTEGER {
            return skip(source.stream, 8, Ok(Cursor { at: at + 1, val: 1 }));
        }
    }
    longer(depth, source, cursor)
}

// An expression of any kind, read by the cursor.
#[tactic(auto, using(crate::proofs::CodeLaws::expr_laws), unfolding(crate::specs::Expressions::after_code, crate::specs::Expressions::kind_of))]
#[cycle(expr_at_exprs_at_longer)]
fn longer(depth: u64, source: &Source<'_>, cursor: Cursor) -> Result<Cursor, Refused>
    ensures { to_cursor result ≡ expr depth source.entry.now.stream.now source.entry.now.names (good cursor) }
{
    let k = code(source.stream, 9, Ok(cursor))?;
    if depth == 0 {
        return refuse(OUTSIDE_LIMIT, Ok(k));
    }
    let d = depth - 1;
    match k.val {
        expression::IDENT => name(source, Ok(k)),
        expression::INTEGER => skip(source.stream, 8, Ok(k)),
        expression::ADDRESS_OF => address_of(source, Ok(k)),
        expression::TRUNCATE => size(source.stream, expr_at(d, source, k)),
        expression::SLICE_BITS => bits(source.stream, expr_at(d, source, k)),
        expression::OP => {
            let left = expr_at(d, source, k);
            expr_at(d, source, code(source.stream, 39, left)?)
        }
        expression::DEREF => expr_at(d, source, space(source, Ok(k))?),
        expression::CONSTANT_POOL_REF => { exprs_at(d, source, small_count(source.stream, Ok(k))?) }
        _ => exprs_at(d, source, call(source, Ok(k))?),
    }
}

// The same for a reading that is not refused.
#[tactic(auto, using(crate::proofs::RefusedLaws::body_laws), unfolding(crate::specs::Expressions::counted))]
#[cycle(expr_at_exprs_at_longer)]
fn exprs_at(depth: u64, source: &Source<'_>, cursor: Cursor) -> Result<Cursor, Refused>
    ensures { to_cursor result ≡ exprs depth source.entry.now.stream.now source.entry.now.names (good cursor) }
{
    let n = cursor.val;
    let mut cursor = cursor;
    for i in 0..n {
        cursor = expr_at(depth, source, cursor)?;
    }
    Ok(cursor)
}
