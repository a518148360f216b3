// A value: what it is by the file's name, its byte offset after a plus, its size after a colon: `r1+2:4`.
use crate::names::{Name, Names, Temporary};
use codes::{header, value_kind};
use expr_terms::answers::given;
use list_values::value::value_at;
use listing_names::names::Symbol;
use std::fmt;

// A size in bytes, if it is known.
#[derive(Clone, Copy)]
pub(crate) struct Size(Option<u64>);

impl From<u64> for Size {
    fn from(number: u64) -> Size {
        Size(given(number))
    }
}

impl fmt::Display for Size {
    fn fmt<W: fmt::Write>(&self, f: &mut fmt::Formatter<W>) -> fmt::Result {
        match self.0 {
            Some(bytes) => write!(f, ":{bytes}"),
            None => Ok(()),
        }
    }
}

// What a value stands for.
#[derive(Clone, Copy)]
enum Base<'a> {
    Named(Name<'a>),
    // What a direct jump to a subtable goes to.
    Reference(Name<'a>),
    Temporary(Temporary<'a>),
    Constant(u64),
}

impl fmt::Display for Base<'_> {
    fn fmt<W: fmt::Write>(&self, f: &mut fmt::Formatter<W>) -> fmt::Result {
        match *self {
            Base::Named(name) => name.fmt(f),
            Base::Reference(name) => write!(f, "&{name}"),
            Base::Temporary(temporary) => temporary.fmt(f),
            Base::Constant(number) => write!(f, "{number:#x}"),
        }
    }
}

#[derive(Clone, Copy)]
pub(crate) struct Value<'a> {
    base: Base<'a>,
    offset: u64,
    size: Size,
}

impl<'a> Names<'a> {
    fn base(&self, kind: u64, index: u64) -> Base<'a> {
        match kind {
            value_kind::INST_START => Base::Named(self.at(header::INST_START)),
            value_kind::INST_NEXT => Base::Named(self.at(header::INST_NEXT)),
            value_kind::REGISTER => Base::Named(self.symbol(Symbol::Register, index)),
            value_kind::FIELD => Base::Named(self.symbol(Symbol::Field, index)),
            value_kind::SUBTABLE => Base::Named(self.symbol(Symbol::Subtable, index)),
            value_kind::SUBTABLE_REF => Base::Reference(self.symbol(Symbol::Subtable, index)),
            value_kind::PCODE_TMP => Base::Temporary(self.temporary(index)),
            _ => Base::Constant(index),
        }
    }

    // The value of two words.
    pub(crate) fn value(&self, number: u64, word: u64) -> Value<'a> {
        let value = value_at(&[number, word], 0, 0);
        Value {
            base: self.base(value.kind, value.number),
            offset: value.offset,
            size: Size::from(value.size),
        }
    }
}

impl fmt::Display for Value<'_> {
    fn fmt<W: fmt::Write>(&self, f: &mut fmt::Formatter<W>) -> fmt::Result {
        let Value { base, offset, size } = *self;
        base.fmt(f)?;
        if offset != 0 {
            write!(f, "+{offset}")?;
        }
        size.fmt(f)
    }
}
