// The refusals.
ghost use Rattle.std.specs.Prelude.{◌≡◌};
ghost use Rattle.codes.specs.Refusals.{number, among, numbered};

// Why a file is refused, by the number that the answer gives it.
#[derive(Clone, Copy, Debug, PartialEq, Eq)]
pub enum Refusal {
    BadLength = 1,
    BlockCheck = 2,
    Malformed = 3,
    OutsideLimit = 4,
    NamesNothing = 5,
    SpelledTwice = 6,
    TooManyStatements = 10,
    MacroTooDeep = 11,
    ListFull = 12,
    TooManyTemporaries = 13,
    TooManyLabels = 14,
    AfterExport = 20,
    Redeclared = 21,
    Undefined = 22,
    WrongKind = 23,
    AbsentTable = 24,
    DelaySlotArgument = 25,
    MacroArguments = 26,
    LabelTwice = 27,
    StoreToNoAddress = 28,
    JumpToNonLocal = 29,
    AddressOfNonLocal = 30,
    AddressOfOffset = 31,
    ConstantPool = 32,
    ArgumentCount = 33,
    MacroInExpression = 34,
    SubpieceArgument = 35,
    SlicePastEnd = 36,
    NotAssignable = 37,
    ConstSpace = 38,
    NoDefaultSpace = 39,
    OtherSpace = 40,
    ShiftTooFar = 41,
    OffsetTooFar = 42,
    SubpieceSize = 50,
    ErrorsRecorded = 51,
}

impl From<Refusal> for u64 {
    ghost from_gives = { λ refusal code. code ≡ number refusal };

    fn from(refusal: Refusal) -> u64 {
        refusal as u64
    }
}

// All of them, in the order of their numbers.
const REFUSALS: [Refusal; 36] = [
    Refusal::BadLength,
    Refusal::BlockCheck,
    Refusal::Malformed,
    Refusal::OutsideLimit,
    Refusal::NamesNothing,
    Refusal::SpelledTwice,
    Refusal::TooManyStatements,
    Refusal::MacroTooDeep,
    Refusal::ListFull,
    Refusal::TooManyTemporaries,
    Refusal::TooManyLabels,
    Refusal::AfterExport,
    Refusal::Redeclared,
    Refusal::Undefined,
    Refusal::WrongKind,
    Refusal::AbsentTable,
    Refusal::DelaySlotArgument,
    Refusal::MacroArguments,
    Refusal::LabelTwice,
    Refusal::StoreToNoAddress,
    Refusal::JumpToNonLocal,
    Refusal::AddressOfNonLocal,
    Refusal::AddressOfOffset,
    Refusal::ConstantPool,
    Refusal::ArgumentCount,
    Refusal::MacroInExpression,
    Refusal::SubpieceArgument,
    Refusal::SlicePastEnd,
    Refusal::NotAssignable,
    Refusal::ConstSpace,
    Refusal::NoDefaultSpace,
    Refusal::OtherSpace,
    Refusal::ShiftTooFar,
    Refusal::OffsetTooFar,
    Refusal::SubpieceSize,
    Refusal::ErrorsRecorded,
];

// The first of some refusals that has the number.
fn among(refusals: &[Refusal], number: u64) -> Option<Refusal>
    ensures { result ≡ among refusals.now number }
{
    refusals
        .iter()
        .find(|refusal| u64::from(**refusal) == number)
        .copied()
}

impl Refusal {
    // The refusal that has the number, if one has it.
    #[tactic(auto, unfolding(crate::specs::Refusals::numbered, crate::specs::Refusals::refusals))]
    pub fn numbered(number: u64) -> Option<Refusal>
        ensures { result ≡ numbered number }
    {
        among(&REFUSALS, number)
    }
}

#[cfg(test)]
mod tests {
    use super::*;

    #[test]
    fn a_number_names_its_refusal(rt: HostRuntime) {
        assert_eq!(rt; Refusal::numbered(1), Some(Refusal::BadLength));
        assert_eq!(rt; Refusal::numbered(10), Some(Refusal::TooManyStatements));
        assert_eq!(rt; Refusal::numbered(51), Some(Refusal::ErrorsRecorded));
        for number in [0, 7, 43, 52, u64::MAX] {
            assert_eq!(rt; Refusal::numbered(number), None, "at {number}");
        }
    }
}
