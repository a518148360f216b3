// A refusal in plain words: its number, what it means, the statement where it was met.
use crate::names::Count;
use crate::statements::Statement;
use codes::refusal::Refusal;
use std::fmt;

// A table and no `match`: one from numbers and one to meanings would have an arm for each refusal, and the project's rule is that
// functions have fewer than 40 lines.
static MEANINGS: [(Refusal, &str); 36] = [
    (
        Refusal::BadLength,
        "the file is empty, has more than 65,536 bytes, or is not made of whole blocks of 512 bytes",
    ),
    (
        Refusal::BlockCheck,
        "the check of a block does not fit its bytes",
    ),
    (
        Refusal::Malformed,
        "the stream is cut short, has an unknown code, or goes on after its end",
    ),
    (Refusal::OutsideLimit, "a number is outside its limit"),
    (Refusal::NamesNothing, "an index names nothing"),
    (
        Refusal::SpelledTwice,
        "a name stands twice: a spelling, two globals, or two of the fields and subtables",
    ),
    (
        Refusal::TooManyStatements,
        "more than 4,096 statements are to be resolved",
    ),
    (Refusal::MacroTooDeep, "macro calls are more than 16 deep"),
    (Refusal::ListFull, "the list has no room for another action"),
    (
        Refusal::TooManyTemporaries,
        "there are more than 512 temporaries",
    ),
    (Refusal::TooManyLabels, "there are more than 256 labels"),
    (Refusal::AfterExport, "a statement follows an export"),
    (Refusal::Redeclared, "a name is declared again"),
    (Refusal::Undefined, "a name is not defined"),
    (
        Refusal::WrongKind,
        "a name stands for something of the wrong kind",
    ),
    (
        Refusal::AbsentTable,
        "the table to build is none of the section's subtables",
    ),
    (
        Refusal::DelaySlotArgument,
        "the argument of the delay slot is not 1",
    ),
    (
        Refusal::MacroArguments,
        "a macro is called with the wrong number of arguments",
    ),
    (Refusal::LabelTwice, "a label is placed twice"),
    (Refusal::StoreToNoAddress, "a store goes to no address"),
    (
        Refusal::JumpToNonLocal,
        "a direct jump goes to something that is no variable",
    ),
    (
        Refusal::AddressOfNonLocal,
        "the address is taken of something that is no variable",
    ),
    (
        Refusal::AddressOfOffset,
        "the address is taken of a variable at an offset",
    ),
    (Refusal::ConstantPool, "the constant pool is referred to"),
    (
        Refusal::ArgumentCount,
        "a built-in function is called with the wrong number of arguments",
    ),
    (
        Refusal::MacroInExpression,
        "a macro is called in an expression",
    ),
    (
        Refusal::SubpieceArgument,
        "the argument of a subpiece is not one number up to 255",
    ),
    (
        Refusal::SlicePastEnd,
        "a slice goes past the end of its value",
    ),
    (
        Refusal::NotAssignable,
        "the target of an assignment cannot be assigned to",
    ),
    (
        Refusal::ConstSpace,
        "the const space is given something that is no constant or variable",
    ),
    (
        Refusal::NoDefaultSpace,
        "no space is named, and there is no default space",
    ),
    (Refusal::OtherSpace, "a space is neither RAM nor registers"),
    (
        Refusal::ShiftTooFar,
        "a constant, or the mask of a bit write, is shifted by 64 bits or more",
    ),
    (Refusal::OffsetTooFar, "an offset is past 65,535 bytes"),
    (
        Refusal::SubpieceSize,
        "the size of a subpiece stays unknown",
    ),
    (
        Refusal::ErrorsRecorded,
        "sizes do not agree, or stay unknown",
    ),
];

// Why a section is refused, and what that means.
#[derive(Clone, Copy)]
pub(crate) struct Reason {
    refusal: Refusal,
    meaning: &'static str,
}

// A number that no refusal has, as that of an accepted section.
#[derive(Clone, Copy, Debug)]
pub(crate) struct NoRefusal(pub(crate) u64);

impl TryFrom<u64> for Reason {
    type Error = NoRefusal;

    fn try_from(number: u64) -> Result<Reason, NoRefusal> {
        let mut meanings = MEANINGS.iter().copied();
        match meanings.find(|(refusal, _)| u64::from(*refusal) == number) {
            Some((refusal, meaning)) => Ok(Reason { refusal, meaning }),
            None => Err(NoRefusal(number)),
        }
    }
}

impl fmt::Display for Reason {
    fn fmt<W: fmt::Write>(&self, f: &mut fmt::Formatter<W>) -> fmt::Result {
        write!(f, "refused {}: {}", u64::from(self.refusal), self.meaning)
    }
}

// The reason, the errors that refusal 51 counts, and the statement, if it is known.
#[derive(Clone, Copy)]
pub(crate) struct Refused<'a> {
    pub(crate) reason: Reason,
    pub(crate) errors: u64,
    pub(crate) statement: Option<Statement<'a>>,
}

impl fmt::Display for Refused<'_> {
    fn fmt<W: fmt::Write>(&self, f: &mut fmt::Formatter<W>) -> fmt::Result {
        write!(f, "{}", self.reason)?;
        if self.errors != 0 {
            write!(f, " ({})", Count(self.errors, "error", "errors"))?;
        }
        writeln!(f)?;
        if let Some(statement) = self.statement {
            writeln!(f, "{statement}")?;
        }
        Ok(())
    }
}
