// Why the cases are not replayed to the end.
use std::alloc::{AllocError, AllocFailed};
use std::{fmt, io};

#[derive(Debug, Drop)]
pub(crate) enum Problem {
    NoData,
    TooLong,
    // At the case of that number.
    IllFormed(u64),
    GoesOn,
    // Of memory, of the input or of the output.
    Failed(io::Error),
}

impl fmt::Display for Problem {
    fn fmt<W: fmt::Write>(&self, f: &mut fmt::Formatter<W>) -> fmt::Result {
        match self {
            Problem::NoData => write!(f, "there is no data on standard input"),
            Problem::TooLong => write!(f, "the data is too long"),
            Problem::IllFormed(case) => {
                write!(
                    f,
                    "the data is cut off, ill-formed or too large at case {case}"
                )
            }
            Problem::GoesOn => write!(f, "the data does not end with its last case"),
            Problem::Failed(error) => write!(f, "{error}"),
        }
    }
}

// `section_argument::Problem` has the same three conversions: each enum writes its own, since the gate refuses an impl that a
// macro of the repository writes.
impl From<io::Error> for Problem {
    fn from(error: io::Error) -> Problem {
        Problem::Failed(error)
    }
}

impl From<AllocError> for Problem {
    fn from(error: AllocError) -> Problem {
        Problem::Failed(io::Error::from(error))
    }
}

impl<T: Drop> From<AllocFailed<T>> for Problem {
    fn from(error: AllocFailed<T>) -> Problem {
        Problem::from(AllocError::from(error))
    }
}
