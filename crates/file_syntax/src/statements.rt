// Statements, and what only they hold: jump labels, branch destinations and hints.
ghost use Rattle.std.specs.Prelude.{◌≡◌};
ghost use Rattle.file_syntax.specs.Reads.{to_cursor};
ghost use Rattle.file_syntax.specs.Statements.{jump_label, branch_dst, statement, body};

use crate::cursor::{Cursor, Refused, Source, code, name, size, size_or, skip};
use crate::expressions::{call, expr, exprs, space};
use codes::limit::DEPTH;
use codes::statement;

#[tactic(auto, using(crate::proofs::RefusedLaws::passing), unfolding(crate::specs::Statements::jump_label, crate::specs::Statements::after_jump, crate::specs::Statements::jump_of))]
fn jump_label(source: &Source<'_>, reading: Result<Cursor, Refused>) -> Result<Cursor, Refused>
    ensures { to_cursor result ≡ jump_label source.entry.now.stream.now source.entry.now.names (to_cursor reading) }
{
    let k = code(source.stream, 2, reading)?;
    match k.val {
        statement::JUMP_IDENT => name(source, Ok(k)),
        _ => size(source.stream, skip(source.stream, 8, Ok(k))),
    }
}

#[tactic(auto, using(crate::proofs::RefusedLaws::passing), unfolding(crate::specs::Statements::branch_dst, crate::specs::Statements::after_target, crate::specs::Statements::target_of))]
fn branch_dst(source: &Source<'_>, reading: Result<Cursor, Refused>) -> Result<Cursor, Refused>
    ensures { to_cursor result ≡ branch_dst source.entry.now.stream.now source.entry.now.names (to_cursor reading) }
{
    let k = code(source.stream, 3, reading)?;
    match k.val {
        statement::DST_DIRECT..=statement::DST_INDIRECT => jump_label(source, Ok(k)),
        _ => name(source, Ok(k)),
    }
}

#[tactic(auto, using(crate::proofs::RefusedLaws::passing), unfolding(crate::specs::Statements::statement, crate::specs::Statements::after_form, crate::specs::Statements::form_of))]
pub fn statement(source: &Source<'_>, reading: Result<Cursor, Refused>) -> Result<Cursor, Refused>
    ensures { to_cursor result ≡ statement source.entry.now.stream.now source.entry.now.names (to_cursor reading) }
{
    let k = code(source.stream, 11, reading)?;
    match k.val {
        statement::UNIMPLEMENTED => Ok(k),
        statement::EXPORT => expr(DEPTH, source, Ok(k)),
        statement::LOCAL => size_or(source.stream, name(source, Ok(k))),
        statement::LOCAL_ASSIGNMENT => {
            expr(DEPTH, source, size_or(source.stream, name(source, Ok(k))))
        }
        statement::BUILD => name(source, Ok(k)),
        statement::COPY => expr(DEPTH, source, expr(DEPTH, source, Ok(k))),
        statement::STORE => expr(DEPTH, source, expr(DEPTH, source, space(source, Ok(k)))),
        statement::CALL => exprs(DEPTH, source, call(source, Ok(k))),
        statement::BRANCH => code(source.stream, 3, branch_dst(source, Ok(k))),
        statement::COND_BRANCH => {
            let condition = expr(DEPTH, source, Ok(k));
            code(source.stream, 3, branch_dst(source, condition))
        }
        _ => name(source, Ok(k)),
    }
}

// As many statements as the count says; nothing is indexed by it.
#[tactic(auto, using(crate::proofs::RefusedLaws::body_laws), unfolding(crate::specs::Statements::body))]
pub fn body(
    source: &Source<'_>,
    count: u64,
    reading: Result<Cursor, Refused>,
) -> Result<Cursor, Refused>
    ensures { to_cursor result ≡ body source.entry.now.stream.now source.entry.now.names count (to_cursor reading) }
{
    let mut cursor = reading?;
    for i in 0..count {
        cursor = statement(source, Ok(cursor))?;
    }
    Ok(cursor)
}
