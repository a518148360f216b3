// The stream's syntax: a cursor that reads fields, and the expressions and statements that it reads, in prefix code.
#![tactic(auto)]

pub mod cursor;
pub mod expressions;
pub mod statements;

#[cfg(test)]
mod tests {
    use super::cursor::{
        Cursor, Refused, Source, below, bits, code, name, name_or, refuse, size, size_or, skip,
        small_count, u16_or,
    };
    use super::expressions::{call, expr, exprs, space};
    use super::statements::{body, statement};
    use codes::refusal::Refusal;

    // By which refusal a reading is refused, and where it stands.
    fn refused(reading: Result<Cursor, Refused>) -> Option<(Refusal, usize)> {
        match reading {
            Ok(_) => None,
            Err(refused) => Some((Refusal::from(refused), refused.at)),
        }
    }

    #[test]
    fn any_refusal_is_named(rt: HostRuntime) {
        let start = Ok(Cursor { at: 0, val: 1 });
        let wrong_kind = u64::from(Refusal::WrongKind);
        let wrong = refuse(wrong_kind, start);
        assert_eq!(rt; refused(wrong), Some((Refusal::WrongKind, 0)));
        assert_eq!(rt;
            refused(skip(b"\x01", 1, wrong)),
            Some((Refusal::WrongKind, 0))
        );
        assert_eq!(rt; refused(refuse(7, start)), Some((Refusal::Malformed, 0)));
        assert_eq!(rt; refused(below::<u8>(b"\x08", 9, wrong_kind, start)), None);
        assert_eq!(rt;
            refused(below::<u8>(b"\x09", 9, wrong_kind, start)),
            Some((Refusal::WrongKind, 0))
        );
        assert_eq!(rt;
            refused(below::<u16>(b"\x09", 9, wrong_kind, start)),
            Some((Refusal::Malformed, 0))
        );
        assert_eq!(rt; refused(u16_or(b"\xff\xff", 9, wrong_kind, start)), None);
        assert_eq!(rt;
            refused(u16_or(b"\xfe\xff", 9, wrong_kind, start)),
            Some((Refusal::WrongKind, 0))
        );
    }

    #[test]
    fn fields_are_refused_by_name(rt: HostRuntime) {
        let start = Ok(Cursor { at: 0, val: 1 });
        let stream = b"\x09\x04\x00";
        let source = Source {
            stream,
            names: 1025,
        };
        assert_eq!(rt; refused(skip(stream, 3, start)), None);
        assert_eq!(rt;
            refused(skip(stream, 4, start)),
            Some((Refusal::Malformed, 0))
        );
        assert_eq!(rt; refused(code(stream, 10, start)), None);
        assert_eq!(rt;
            refused(code(stream, 9, start)),
            Some((Refusal::Malformed, 0))
        );
        assert_eq!(rt; refused(small_count(b"\x08", start)), None);
        assert_eq!(rt;
            refused(small_count(stream, start)),
            Some((Refusal::OutsideLimit, 0))
        );
        assert_eq!(rt;
            refused(name(&source, start)),
            Some((Refusal::NamesNothing, 0))
        );
        assert_eq!(rt;
            refused(name_or(&source, start)),
            Some((Refusal::NamesNothing, 0))
        );
        assert_eq!(rt;
            refused(size(stream, start)),
            Some((Refusal::OutsideLimit, 0))
        );
        assert_eq!(rt;
            refused(size_or(stream, start)),
            Some((Refusal::OutsideLimit, 0))
        );
        let behind = code(stream, 10, start);
        assert_eq!(rt; refused(name(&source, behind)), None);
        assert_eq!(rt; refused(size(stream, behind)), None);
        assert_eq!(rt;
            refused(bits(stream, behind)),
            Some((Refusal::Malformed, 3))
        );
        assert_eq!(rt;
            refused(bits(b"\x00\x20\x01\x20", start)),
            Some((Refusal::OutsideLimit, 2))
        );
    }

    #[test]
    fn parts_are_refused_by_name(rt: HostRuntime) {
        let start = Ok(Cursor { at: 0, val: 2 });
        let source = Source {
            stream: b"\x00\x00\x00\x00\x01\x00",
            names: 1,
        };
        assert_eq!(rt; refused(expr(1, &source, start)), None);
        assert_eq!(rt;
            refused(expr(0, &source, start)),
            Some((Refusal::OutsideLimit, 1))
        );
        assert_eq!(rt;
            refused(exprs(1, &source, start)),
            Some((Refusal::NamesNothing, 4))
        );
        assert_eq!(rt; refused(space(&source, start)), None);
        assert_eq!(rt; refused(call(&source, start)), None);
        assert_eq!(rt; refused(statement(&source, start)), None);
        assert_eq!(rt; refused(body(&source, 4, start)), None);
        assert_eq!(rt;
            refused(body(&source, 5, start)),
            Some((Refusal::Malformed, 6))
        );
        let wrong = Source {
            stream: b"\x0b\x00\x09",
            names: 12,
        };
        assert_eq!(rt;
            refused(space(&wrong, start)),
            Some((Refusal::Malformed, 2))
        );
        assert_eq!(rt;
            refused(call(&wrong, start)),
            Some((Refusal::OutsideLimit, 2))
        );
        assert_eq!(rt;
            refused(statement(&wrong, start)),
            Some((Refusal::Malformed, 0))
        );
    }
}
