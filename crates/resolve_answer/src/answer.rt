// The answer, its twelve numbers, and what the two lent lists hold with it: zeros after a refusal, else the actions in their
// final order and the temporaries.
ghost use Rattle.std.specs.Prelude.{◌≡◌, ◌==◌, unwrap_or};
ghost use Rattle.codes.specs.Refusals.{number};
ghost use Rattle.stmt_walk.specs.Outcomes.{to_walk, to_export};
ghost use Rattle.resolve_answer.specs.Answers.{resolved_to, refused, points_of, accepted};
ghost use Rattle.resolve_answer.specs.Outcomes.{of_file, of_statement, of_end, export_numbers};

use codes::NONE;
use codes::refusal::Refusal;
use list_end::end::Unfinished;
use list_values::value::word;
use stmt_walk::walk::{Export, Stopped, Walk};

const WORDS_BOUND: u64 = 1 << 62;

// The twelve numbers of document 01, in its order, which a call from C is given word for word: so a refusal is a number here, 0
// where there is none, and an ordinal is 65,535 where there is none. The last four are the export's:
// 0 none, 1 value, 2 RAM, 3 register; its two value words; its access size.
#[derive(Clone, Copy, Default)]
pub struct Answer {
    pub refusal: u64,
    pub ordinal: u64,
    pub statements: u64,
    pub actions: u64,
    pub temporaries: u64,
    pub labels: u64,
    pub points: u64,
    pub errors: u64,
    pub kind: u64,
    pub number: u64,
    pub word: u64,
    pub size: u64,
}

impl Answer {
    // Whether the section is refused for this reason.
    pub fn is(&self, refusal: Refusal) -> bool
        ensures { result ≡ (self.now.refusal == number refusal) }
    {
        self.refusal == u64::from(refusal)
    }
}

// Why a section is refused, at which statement, and the size errors that were counted. The refusal is its number, as in the
// answer: what `refused` promises holds of any number, and a `Refusal` would ask more.
#[derive(Clone, Copy, Default)]
pub struct Rejected {
    pub refusal: u64,
    pub ordinal: Option<u64>,
    pub errors: u64,
}

impl From<Refusal> for Rejected {
    ghost from_gives = { λ refusal e. e ≡ of_file refusal };

    fn from(refusal: Refusal) -> Rejected {
        Rejected {
            refusal: u64::from(refusal),
            ordinal: None,
            errors: 0,
        }
    }
}

impl From<Stopped> for Rejected {
    ghost from_gives = { λ stopped e. e ≡ of_statement stopped };

    fn from(stopped: Stopped) -> Rejected {
        Rejected {
            refusal: stopped.refusal,
            ordinal: Some(stopped.ordinal),
            ..Rejected::default()
        }
    }
}

impl From<Unfinished> for Rejected {
    ghost from_gives = { λ unfinished e. e ≡ of_end unfinished };

    fn from(unfinished: Unfinished) -> Rejected {
        Rejected {
            ordinal: Some(unfinished.sizing.begun),
            ..Rejected::from(unfinished.refusal)
        }
    }
}

#[tactic(auto, unfolding(crate::specs::Answers::refused, list_end::specs::End::zero_from))]
pub fn refused(actions: &mut [u64], temporaries: &mut [u64], why: Rejected) -> Answer
    ensures { resolved_to result actions.new temporaries.new ≡ refused actions.old temporaries.old why.refusal (unwrap_or why.ordinal 65535) why.errors }
{
    access::zero_from(actions, 0);
    access::zero_from(temporaries, 0);
    Answer {
        refusal: why.refusal,
        ordinal: why.ordinal.unwrap_or(NONE),
        errors: why.errors,
        ..Answer::default()
    }
}

// Two for an action and one for a temporary, in tens, to the nearest, a half up. No list has as many words as the bound.
#[tactic(auto, unfolding(crate::specs::Answers::points_of))]
fn points(actions: u64, temporaries: u64) -> u64
    ensures { result ≡ points_of actions temporaries }
{
    if actions < WORDS_BOUND && temporaries < WORDS_BOUND {
        return (2 * actions + temporaries + 5) / 10;
    }
    0
}

// An answer with the export's four numbers, of which the value's are 0 where there is none, and with zeros elsewhere.
#[tactic(auto, unfolding(crate::specs::Answers::export_words))]
fn export_words(export: Export) -> Answer
    ensures { result ≡ export_numbers (to_export export) }
{
    let Export { kind, to } = export;
    let answer = Answer {
        kind,
        size: to.size,
        ..Answer::default()
    };
    if kind == 0 {
        return answer;
    }
    Answer {
        number: to.pointer.number,
        word: word(to.pointer),
        ..answer
    }
}

#[tactic(auto, unfolding(crate::specs::Answers::accepted, list_values::specs::Base::then_l, list_end::specs::End::zero_from))]
pub fn accepted(
    actions: &mut [u64],
    temporaries: &mut [u64],
    subtables: usize,
    count: usize,
    walk: Walk,
    export: Export,
) -> Answer
    ensures { resolved_to result actions.new temporaries.new ≡ accepted actions.old temporaries.old subtables count (to_walk walk) (to_export export) }
{
    let k = list_end::end::assemble(actions, subtables, count);
    let made = walk.st.temporaries;
    access::zero_from(temporaries, made);
    Answer {
        ordinal: NONE,
        statements: walk.statements,
        actions: k as u64,
        temporaries: made as u64,
        labels: walk.placed,
        points: points(k as u64, made as u64),
        ..export_words(export)
    }
}
