// The public face: a section file resolved into lent lists, and the checker of such lists. The crate mizgalon_c exports to C
// the two functions whose names begin with mizgalon_.
#![tactic(auto)]

ghost use Rattle.std.specs.Prelude.{◌≡◌, length, true};
ghost use Rattle.definition.specs.ActionList.{numbers, resolve};
ghost use Rattle.definition.specs.Checker.{check};
ghost use Rattle.definition.specs.Premise.{premise};
ghost use Rattle.definition.specs.Passing.{checked};
ghost use Rattle.resolve_refinement.specs.Answers.{result_of, answer};

use resolve_answer::answer::Answer;
use resolve_file::resolve_words;

// An answer, and whether its list passes the checker; a refused section's does not. A flag beside the answer, since both are
// told of each file.
#[derive(Clone, Copy)]
pub struct Checked {
    pub answer: Answer,
    pub passes: bool,
}

// Every file and every pair of lists: an accepted section, or one refusal after which both lists are zero.
#[tactic(auto, using(crate::proofs::Laws::resolved))]
pub fn resolve(file: &[u8], actions: &mut [u64], temporaries: &mut [u64]) -> Answer
    ensures { answer (result_of result) actions.new temporaries.new ≡ resolve file.now (length actions.old) (length temporaries.old) }
{
    resolve_words(file, actions, temporaries)
}

// No `From`, which would have to stand in the crate of `Answer`: the definition's word of its promise stands above that.
fn numbers(answer: Answer) -> [u64; 12]
    ensures { result ≡ numbers (result_of answer) }
{
    [
        answer.refusal,
        answer.ordinal,
        answer.statements,
        answer.actions,
        answer.temporaries,
        answer.labels,
        answer.points,
        answer.errors,
        answer.kind,
        answer.number,
        answer.word,
        answer.size,
    ]
}

// The same, with the twelve numbers in a lent array, as C has them.
#[tactic(auto, using(crate::proofs::Laws::parts))]
pub fn mizgalon_resolve(
    file: &[u8],
    actions: &mut [u64],
    temporaries: &mut [u64],
    res: &mut [u64; 12],
)
    ensures res_after { res.new ≡ numbers (resolve file.now (length actions.old) (length temporaries.old)).result }
    ensures actions_after { actions.new ≡ (resolve file.now (length actions.old) (length temporaries.old)).actions }
    ensures temporaries_after { temporaries.new ≡ (resolve file.now (length actions.old) (length temporaries.old)).temporaries }
{
    let r = resolve(file, actions, temporaries);
    *res = numbers(r);
}

// Resolves and checks the outcome. Under the premise every accepted list passes.
pub fn resolve_checked(file: &[u8], actions: &mut [u64], temporaries: &mut [u64]) -> Checked
    ensures resolved { answer (result_of result.answer) actions.new temporaries.new ≡ resolve file.now (length actions.old) (length temporaries.old) }
    ensures passes_value { result.passes ≡ checked file.now (length actions.old) (length temporaries.old) }
    ensures premise_passes { premise file.now (length actions.old) (length temporaries.old) ≡ true → result.answer.refusal ≡ 0 → result.passes ≡ true }
{
    let answer = resolve(file, actions, temporaries);
    if answer.refusal != 0 {
        return Checked {
            answer,
            passes: false,
        };
    }
    let c = resolve_counts::section_counts(file);
    let passes = list_checker::check(
        actions,
        answer.actions,
        answer.temporaries,
        c.subtables,
        c.pointer,
    );
    Checked { answer, passes }
}

// Whether a list is one that passes, whoever made it. Numbers and no struct, since C calls it (include/mizgalon.h).
pub fn mizgalon_check(
    list: &[u64],
    actions: u64,
    temporaries: u64,
    subtables: u64,
    pointer_size: u64,
) -> bool
    ensures { result ≡ check list.now actions temporaries subtables pointer_size }
{
    list_checker::check(list, actions, temporaries, subtables, pointer_size)
}
