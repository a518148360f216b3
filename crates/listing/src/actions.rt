// An action on a line, as the field prints p-code; a label stands on its own line, further left.
ghost use Rattle.std.specs.Prelude.{◌<◌};

use crate::names::{Name, Names};
use crate::values::{Size, Value};
use codes::action::NO_OUTPUT;
use codes::{NONE, action, action_kind, operation, value_kind};
use listing_names::names::Symbol;
use listing_names::operations::operation as operation_name;
use std::fmt;

// What a pointer points into.
#[derive(Clone, Copy)]
pub(crate) enum Space {
    Ram,
    Register,
}

impl fmt::Display for Space {
    fn fmt<W: fmt::Write>(&self, f: &mut fmt::Formatter<W>) -> fmt::Result {
        f.write_str(match self {
            Space::Ram => "ram",
            Space::Register => "register",
        })
    }
}

// What a branch is told to be.
#[derive(Clone, Copy)]
enum Hint {
    Jump,
    Call,
    Return,
}

// The reader passes no hint above the third, so that each number has an answer.
impl From<u64> for Hint {
    fn from(number: u64) -> Hint {
        match number {
            0 => Hint::Jump,
            1 => Hint::Call,
            _ => Hint::Return,
        }
    }
}

impl fmt::Display for Hint {
    fn fmt<W: fmt::Write>(&self, f: &mut fmt::Formatter<W>) -> fmt::Result {
        f.write_str(match self {
            Hint::Jump => "jump",
            Hint::Call => "call",
            Hint::Return => "return",
        })
    }
}

#[derive(Clone, Copy)]
struct Label(u64);

impl fmt::Display for Label {
    fn fmt<W: fmt::Write>(&self, f: &mut fmt::Formatter<W>) -> fmt::Result {
        write!(f, "<{}>", self.0)
    }
}

// The output and an equals sign, where there is an output.
#[derive(Clone, Copy)]
struct Output<'a>(Option<Value<'a>>);

impl fmt::Display for Output<'_> {
    fn fmt<W: fmt::Write>(&self, f: &mut fmt::Formatter<W>) -> fmt::Result {
        match self.0 {
            Some(value) => write!(f, "{value} = "),
            None => Ok(()),
        }
    }
}

// The condition that follows what a branch goes to, where there is one; the branch's name has a letter for it.
#[derive(Clone, Copy)]
struct Condition<'a>(Option<Value<'a>>);

impl Condition<'_> {
    fn letter(&self) -> &'static str {
        if self.0.is_some() { "C" } else { "" }
    }
}

impl fmt::Display for Condition<'_> {
    fn fmt<W: fmt::Write>(&self, f: &mut fmt::Formatter<W>) -> fmt::Result {
        match self.0 {
            Some(value) => write!(f, ", {value}"),
            None => Ok(()),
        }
    }
}

// A pointer in round brackets, behind the space that it points into; a register access has a size of its own.
#[derive(Clone, Copy)]
struct Access<'a> {
    space: Space,
    pointer: Value<'a>,
    size: Size,
}

impl fmt::Display for Access<'_> {
    fn fmt<W: fmt::Write>(&self, f: &mut fmt::Formatter<W>) -> fmt::Result {
        write!(f, "{}({}){}", self.space, self.pointer, self.size)
    }
}

// The inputs, with a comma ahead of each but the first.
#[derive(Clone, Copy)]
struct Inputs<'a> {
    first: &'static str,
    names: Names<'a>,
    words: &'a [[u64; 2]],
}

impl fmt::Display for Inputs<'_> {
    fn fmt<W: fmt::Write>(&self, f: &mut fmt::Formatter<W>) -> fmt::Result {
        for (index, [number, word]) in self.words.iter().copied().enumerate() {
            let ahead = if index == 0 { self.first } else { ", " };
            f.write_str(ahead)?;
            self.names.value(number, word).fmt(f)?;
        }
        Ok(())
    }
}

#[derive(Clone, Copy)]
enum Action<'a> {
    Plain(Output<'a>, &'static str, Inputs<'a>),
    UserOp(Output<'a>, Name<'a>, Inputs<'a>),
    // An operand of the user op that follows.
    Argument(u64, Inputs<'a>),
    Load(Output<'a>, Access<'a>),
    Store(Access<'a>, Value<'a>),
    Branch(Condition<'a>, Hint, Value<'a>),
    LabelBranch(Condition<'a>, Label),
    Label(Label),
    AddressOf(Output<'a>, Value<'a>),
    DelaySlot,
    Build(Name<'a>),
}

impl fmt::Display for Action<'_> {
    fn fmt<W: fmt::Write>(&self, f: &mut fmt::Formatter<W>) -> fmt::Result {
        match *self {
            Action::Plain(output, name, inputs) => write!(f, "  {output}{name}{inputs}"),
            Action::UserOp(output, called, inputs) => {
                write!(
                    f,
                    "  {output}{} {called}{inputs}",
                    operation_name(operation::PCODE_OP)
                )
            }
            Action::Argument(number, inputs) => {
                write!(f, "  {} {number}{inputs}", operation_name(operation::ARG))
            }
            Action::Load(output, access) => {
                write!(f, "  {output}{} {access}", operation_name(operation::LOAD))
            }
            Action::Store(access, value) => {
                write!(
                    f,
                    "  {} {access}, {value}",
                    operation_name(operation::STORE)
                )
            }
            Action::Branch(condition, hint, target) => {
                let name = operation_name(operation::BRANCH);
                write!(
                    f,
                    "  {}{name} {hint} {target}{condition}",
                    condition.letter()
                )
            }
            Action::LabelBranch(condition, label) => {
                let name = operation_name(operation::PCODE_BRANCH);
                write!(f, "  {}{name} {label}{condition}", condition.letter())
            }
            Action::Label(label) => write!(f, "{label}"),
            Action::AddressOf(output, value) => write!(f, "  {output}ADDRESS_OF {value}"),
            Action::DelaySlot => write!(f, "  DELAYSLOT"),
            Action::Build(subtable) => write!(f, "  BUILD {subtable}"),
        }
    }
}

// The words of an action, and what its values are called.
#[derive(Clone, Copy)]
struct Words<'a> {
    words: &'a [u64; action::WORDS],
    names: Names<'a>,
}

impl<'a> Words<'a> {
    fn number(&self) -> u64 {
        self.words[action::NUMBER]
    }

    // The value whose words stand at a place.
    fn value(&self, place: usize) -> Value<'a>
        requires { place < 23 }
    {
        self.names.value(self.words[place], self.words[place + 1])
    }

    fn output(&self) -> Output<'a> {
        Output(Some(self.value(action::OUTPUT)))
    }

    // An operation without output has 0 and 255.
    fn maybe_output(&self) -> Output<'a> {
        let number = self.words[action::OUTPUT];
        let word = self.words[action::OUTPUT_WORD];
        if number == 0 && word == NO_OUTPUT {
            return Output(None);
        }
        self.output()
    }

    // The condition of a branch stands in input 0, and is the constant 1 where there is none.
    fn condition(&self) -> Condition<'a> {
        let number = self.words[action::INPUT_0];
        let word = self.words[action::INPUT_0 + 1];
        if number == 1 && word % 256 == value_kind::CONSTANT {
            return Condition(None);
        }
        Condition(Some(self.value(action::INPUT_0)))
    }

    // The inputs, behind what stands ahead of the first.
    fn inputs(&self, first: &'static str) -> Inputs<'a> {
        let words = self.words;
        let count = (words[action::INPUT_COUNT] % 9) as usize;
        let (inputs, _) = words[action::INPUT_0..].as_chunks::<2>();
        Inputs {
            first,
            names: self.names,
            words: &inputs[..count],
        }
    }

    fn access(&self, space: Space, size: u64) -> Access<'a> {
        Access {
            space,
            pointer: self.value(action::INPUT_0),
            size: Size::from(size),
        }
    }

    fn operation(&self, number: u64) -> Action<'a> {
        match number {
            operation::LOAD => Action::Load(self.output(), self.access(Space::Ram, NONE)),
            operation::STORE => {
                Action::Store(self.access(Space::Ram, NONE), self.value(action::INPUT_1))
            }
            operation::BRANCH => Action::Branch(
                self.condition(),
                Hint::from(self.number()),
                self.value(action::INPUT_1),
            ),
            operation::PCODE_BRANCH => Action::LabelBranch(self.condition(), Label(self.number())),
            operation::PCODE_LABEL => Action::Label(Label(self.number())),
            operation::PCODE_OP => Action::UserOp(
                self.maybe_output(),
                self.names.symbol(Symbol::UserOp, self.number()),
                self.inputs(", "),
            ),
            operation::ARG => Action::Argument(self.number(), self.inputs(", ")),
            _ => Action::Plain(
                self.maybe_output(),
                operation_name(number),
                self.inputs(" "),
            ),
        }
    }

    fn action(&self) -> Action<'a> {
        match self.words[action::KIND] {
            action_kind::OP => self.operation(self.words[action::OPERATION]),
            action_kind::ADDRESS_OF => {
                Action::AddressOf(self.output(), self.value(action::INPUT_0))
            }
            action_kind::LOAD_REGISTER => {
                Action::Load(self.output(), self.access(Space::Register, self.number()))
            }
            action_kind::STORE_REGISTER => Action::Store(
                self.access(Space::Register, self.number()),
                self.value(action::INPUT_1),
            ),
            action_kind::DELAY_SLOT => Action::DelaySlot,
            _ => Action::Build(self.names.symbol(Symbol::Subtable, self.number())),
        }
    }
}

// The actions of a list, a line for each.
#[derive(Clone, Copy)]
pub(crate) struct Actions<'a> {
    pub(crate) actions: &'a [[u64; action::WORDS]],
    pub(crate) names: Names<'a>,
}

impl fmt::Display for Actions<'_> {
    fn fmt<W: fmt::Write>(&self, f: &mut fmt::Formatter<W>) -> fmt::Result {
        for words in self.actions {
            let words = Words {
                words,
                names: self.names,
            };
            writeln!(f, "{}", words.action())?;
        }
        Ok(())
    }
}
