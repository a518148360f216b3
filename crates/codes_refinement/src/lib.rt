// The numbers that the code has by name are the definition's: each function lists the constants of one module, and its promise
// says that they are the numbers of the definition's things, in order.
#![tactic(auto)]

ghost use Rattle.std.specs.Prelude.{◌≡◌, map};
ghost use Rattle.definition.specs.Operations.{operation_number, operations};
ghost use Rattle.definition.specs.Refusals.{refusal_number};
ghost use Rattle.definition.specs.Value.{kind_number};
ghost use Rattle.definition.specs.ActionList.{action_kind_number, export_kind_number};
ghost use Rattle.codes_refinement.specs.Lists.{refusals, value_kinds, action_kinds, export_kinds};

use codes::refusal::Refusal;
use codes::{action_kind, export_kind, operation, value_kind};

#[tactic(auto, unfolding(definition::proofs::Openers::operations_opens))]
fn operations() -> [u64; 61]
    ensures { result ≡ map operation_number operations }
{
    [
        operation::INT_MUL,
        operation::INT_DIV,
        operation::INT_SIGNED_DIV,
        operation::INT_REM,
        operation::INT_SIGNED_REM,
        operation::INT_ADD,
        operation::INT_SUB,
        operation::INT_LEFT,
        operation::INT_RIGHT,
        operation::INT_SIGNED_RIGHT,
        operation::INT_SIGNED_LESS,
        operation::INT_SIGNED_LESS_EQUAL,
        operation::INT_LESS,
        operation::INT_LESS_EQUAL,
        operation::INT_EQUAL,
        operation::INT_NOT_EQUAL,
        operation::FLOAT_DIV,
        operation::FLOAT_MUL,
        operation::FLOAT_ADD,
        operation::FLOAT_SUB,
        operation::FLOAT_LESS,
        operation::FLOAT_LESS_EQUAL,
        operation::FLOAT_EQUAL,
        operation::FLOAT_NOT_EQUAL,
        operation::INT_AND,
        operation::INT_XOR,
        operation::INT_OR,
        operation::BOOL_XOR,
        operation::BOOL_AND,
        operation::BOOL_OR,
        operation::INT_CARRY,
        operation::INT_SIGNED_CARRY,
        operation::INT_SIGNED_BORROW,
        operation::BOOL_NOT,
        operation::INT_NOT,
        operation::INT_NEGATE,
        operation::FLOAT_IS_NAN,
        operation::ZERO_EXTEND,
        operation::SIGN_EXTEND,
        operation::FLOAT_NEGATE,
        operation::FLOAT_ABS,
        operation::FLOAT_SQRT,
        operation::FLOAT_CEIL,
        operation::FLOAT_FLOOR,
        operation::FLOAT_ROUND,
        operation::FLOAT_TO_INT,
        operation::INT_TO_FLOAT,
        operation::UINT_TO_FLOAT,
        operation::FLOAT_TO_FLOAT,
        operation::INT_COUNT_ONES,
        operation::INT_COUNT_LEADING_ZEROES,
        operation::COPY,
        operation::LOAD,
        operation::STORE,
        operation::BRANCH,
        operation::PCODE_BRANCH,
        operation::PCODE_LABEL,
        operation::PCODE_OP,
        operation::ARG,
        operation::INVALID,
        operation::SUBPIECE,
    ]
}

#[tactic(auto, unfolding(definition::specs::Refusals::refusal_number, crate::specs::Lists::refusals))]
fn refusals() -> [u64; 36]
    ensures { result ≡ map refusal_number refusals }
{
    [
        Refusal::BadLength,
        Refusal::BlockCheck,
        Refusal::Malformed,
        Refusal::OutsideLimit,
        Refusal::NamesNothing,
        Refusal::SpelledTwice,
        Refusal::TooManyStatements,
        Refusal::MacroTooDeep,
        Refusal::ListFull,
        Refusal::TooManyTemporaries,
        Refusal::TooManyLabels,
        Refusal::AfterExport,
        Refusal::Redeclared,
        Refusal::Undefined,
        Refusal::WrongKind,
        Refusal::AbsentTable,
        Refusal::DelaySlotArgument,
        Refusal::MacroArguments,
        Refusal::LabelTwice,
        Refusal::StoreToNoAddress,
        Refusal::JumpToNonLocal,
        Refusal::AddressOfNonLocal,
        Refusal::AddressOfOffset,
        Refusal::ConstantPool,
        Refusal::ArgumentCount,
        Refusal::MacroInExpression,
        Refusal::SubpieceArgument,
        Refusal::SlicePastEnd,
        Refusal::NotAssignable,
        Refusal::ConstSpace,
        Refusal::NoDefaultSpace,
        Refusal::OtherSpace,
        Refusal::ShiftTooFar,
        Refusal::OffsetTooFar,
        Refusal::SubpieceSize,
        Refusal::ErrorsRecorded,
    ]
    .map(|refusal| u64::from(refusal))
}

#[tactic(auto, unfolding(definition::specs::Value::kind_number, crate::specs::Lists::value_kinds))]
fn value_kinds() -> [u64; 8]
    ensures { result ≡ map kind_number value_kinds }
{
    [
        value_kind::INST_START,
        value_kind::INST_NEXT,
        value_kind::REGISTER,
        value_kind::FIELD,
        value_kind::SUBTABLE,
        value_kind::SUBTABLE_REF,
        value_kind::PCODE_TMP,
        value_kind::CONSTANT,
    ]
}

#[tactic(auto, unfolding(definition::specs::ActionList::action_kind_number, crate::specs::Lists::action_kinds))]
fn action_kinds() -> [u64; 6]
    ensures { result ≡ map action_kind_number action_kinds }
{
    [
        action_kind::OP,
        action_kind::ADDRESS_OF,
        action_kind::LOAD_REGISTER,
        action_kind::STORE_REGISTER,
        action_kind::DELAY_SLOT,
        action_kind::BUILD,
    ]
}

#[tactic(auto, unfolding(definition::specs::ActionList::export_kind_number, crate::specs::Lists::export_kinds))]
fn export_kinds() -> [u64; 3]
    ensures { result ≡ map export_kind_number export_kinds }
{
    [
        export_kind::VALUE,
        export_kind::RAM_REF,
        export_kind::REGISTER_REF,
    ]
}
