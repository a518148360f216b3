// What is printed of an accepted section: its actions, its export, the counts, and what the checker says.
use crate::actions::{Actions, Space};
use crate::names::{Count, Names};
use crate::values::{Size, Value};
use codes::{action, export_kind};
use mizgalon::Checked;
use resolve_answer::answer::Answer;
use std::fmt;

// An exported value, or the space and the size of what stands behind a pointer to it.
#[derive(Clone, Copy)]
struct Export<'a> {
    value: Value<'a>,
    behind: Option<(Space, Size)>,
}

impl<'a> Export<'a> {
    fn new(names: Names<'a>, answer: Answer) -> Option<Export<'a>> {
        let size = Size::from(answer.size);
        let behind = match answer.kind {
            0 => return None,
            export_kind::VALUE => None,
            export_kind::RAM_REF => Some((Space::Ram, size)),
            _ => Some((Space::Register, size)),
        };
        let value = names.value(answer.number, answer.word);
        Some(Export { value, behind })
    }
}

impl fmt::Display for Export<'_> {
    fn fmt<W: fmt::Write>(&self, f: &mut fmt::Formatter<W>) -> fmt::Result {
        write!(f, "  export ")?;
        if let Some((space, size)) = self.behind {
            write!(f, "*[{space}]{size} ")?;
        }
        write!(f, "{}", self.value)
    }
}

// How many there are of each thing.
#[derive(Clone, Copy)]
struct Counts(Answer);

impl fmt::Display for Counts {
    fn fmt<W: fmt::Write>(&self, f: &mut fmt::Formatter<W>) -> fmt::Result {
        let answer = self.0;
        let counts = [
            Count(answer.actions, "action", "actions"),
            Count(answer.temporaries, "temporary", "temporaries"),
            Count(answer.labels, "label", "labels"),
            Count(answer.statements, "statement", "statements"),
        ];
        for count in counts {
            write!(f, "{count}, ")?;
        }
        write!(f, "{}", Count(answer.points, "point", "points"))
    }
}

// An accepted section's list, what it is called by, and what the checker says of it.
#[derive(Clone, Copy)]
pub(crate) struct Accepted<'a> {
    pub(crate) names: Names<'a>,
    pub(crate) list: &'a [u64],
    pub(crate) checked: Checked,
}

impl fmt::Display for Accepted<'_> {
    fn fmt<W: fmt::Write>(&self, f: &mut fmt::Formatter<W>) -> fmt::Result {
        let Accepted {
            names,
            list,
            checked,
        } = *self;
        let Checked { answer, passes } = checked;
        let (actions, _) = list.as_chunks::<{ action::WORDS }>();
        let actions = &actions[..actions.len().min(answer.actions as usize)];
        write!(f, "{}", Actions { actions, names })?;
        if let Some(export) = Export::new(names, answer) {
            writeln!(f, "{export}")?;
        }
        let verdict = if passes { "accepts" } else { "does not accept" };
        writeln!(f, "{}; the checker {verdict} the list", Counts(answer))
    }
}
