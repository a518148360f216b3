// The names of a section's file and its temporaries, as a listing has them, and counts of things.
use expr_terms::answers::given;
use list_values::section::Section;
use listing_names::names::{Symbol, name_of, symbol_name};
use std::fmt;

// A file's name may have any bytes: those that are not visible ASCII are written by their numbers.
#[derive(Clone, Copy)]
pub(crate) struct Name<'a>(pub(crate) &'a [u8]);

impl<'a> Name<'a> {
    // The whole name as text, where all of it is visible ASCII: one piece is written faster than a piece for each byte. By
    // `fold`, which takes several bytes at a time where `all` may stop at each.
    fn visible(&self) -> Option<&'a str> {
        let bytes = self.0.iter();
        if bytes.fold(true, |visible, byte| visible & byte.is_ascii_graphic()) {
            return str::from_utf8(self.0).ok();
        }
        None
    }
}

impl fmt::Display for Name<'_> {
    fn fmt<W: fmt::Write>(&self, f: &mut fmt::Formatter<W>) -> fmt::Result {
        if let Some(name) = self.visible() {
            return f.write_str(name);
        }
        for byte in self.0.iter().copied() {
            if byte.is_ascii_graphic() {
                write!(f, "{}", char::from(byte))?;
            } else {
                write!(f, "\\x{byte:02x}")?;
            }
        }
        Ok(())
    }
}

// So many of a thing: `1 label`, `2 labels`.
#[derive(Clone, Copy)]
pub(crate) struct Count(
    pub(crate) u64,
    pub(crate) &'static str,
    pub(crate) &'static str,
);

impl fmt::Display for Count {
    fn fmt<W: fmt::Write>(&self, f: &mut fmt::Formatter<W>) -> fmt::Result {
        let Count(number, one, more) = *self;
        write!(f, "{number} {}", if number == 1 { one } else { more })
    }
}

// A temporary by its name, and by its number where another has that name too or it has none.
#[derive(Clone, Copy)]
pub(crate) enum Temporary<'a> {
    Named(Name<'a>),
    Shared(Name<'a>, u64),
    Unnamed(u64),
}

impl fmt::Display for Temporary<'_> {
    fn fmt<W: fmt::Write>(&self, f: &mut fmt::Formatter<W>) -> fmt::Result {
        match *self {
            Temporary::Named(name) => name.fmt(f),
            Temporary::Shared(name, number) => write!(f, "{name}#{number}"),
            Temporary::Unnamed(number) => write!(f, "t{number}"),
        }
    }
}

// What all things of a listing are called by: a section, and the temporaries of its list.
#[derive(Clone, Copy)]
pub(crate) struct Names<'a> {
    pub(crate) section: Section<'a>,
    pub(crate) temporaries: &'a [u64],
}

impl<'a> Names<'a> {
    // The name whose number stands at a place of the stream.
    pub(crate) fn at(&self, place: usize) -> Name<'a> {
        let section = self.section;
        Name(name_of(section, access::u16_at(section.stream, place)))
    }

    pub(crate) fn symbol(&self, symbol: Symbol, index: u64) -> Name<'a> {
        Name(symbol_name(self.section, symbol, index))
    }

    // Whether another temporary has that name, as where a macro that declares it is called twice.
    fn is_shared(&self, index: u64, name: u64) -> bool {
        self.temporaries.iter().enumerate().any(|(other, word)| other as u64 != index
            && *word % 65536 == name)
    }

    pub(crate) fn temporary(&self, index: u64) -> Temporary<'a> {
        let Some(number) = given(access::get(self.temporaries, index as usize) % 65536) else {
            return Temporary::Unnamed(index);
        };
        let name = Name(name_of(self.section, number));
        if self.is_shared(index, number) {
            return Temporary::Shared(name, index);
        }
        Temporary::Named(name)
    }
}
