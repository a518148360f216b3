// The size rule of each operation, applied in place to an action of the list, and how many errors that gives. Kinds and
// operations are numbers here: they are words of the list, which may hold any, and a rule holds for runs of them.
ghost use Rattle.std.specs.Prelude.{◌≡◌};
ghost use Rattle.list_values.specs.Directions.{forwards};
ghost use Rattle.list_values.specs.Sizes.{Counted};
ghost use Rattle.list_pushes.specs.RuleNumbers.{rule_number, partner, pair_rule};
ghost use Rattle.list_pushes.specs.Rules.{rule_of_operator, rule_of_one_input, rule_of_other, rule_of, bool_not, branch, apply_rule, update_operand_sizes};

use codes::{action, action_kind, operation};
use list_values::section::Section;
use list_values::sizes::{
    Rules, Sources, set_operand, set_size_of_pair, set_size_of_triple, set_three, set_two,
    set_unsized, sum_of_errors,
};
use list_values::value::{INPUT_0, INPUT_1, OUTPUT, get};

// The operators have the numbers below this.
const OPERATORS: u64 = 33;

// The rules that begin with a pair of operands of one size: of that pair alone, of a shift, of a comparison.
#[derive(Clone, Copy)]
enum Paired {
    Alone,
    Shift,
    Comparison,
}

// How the operands of an operation are sized.
#[derive(Clone, Copy)]
enum Rule {
    Unsized,
    Paired(Paired),
    Triple,
    Boolean,
    Not,
    Nan,
    Pointer,
    Branch,
    Condition,
}

// Which rule an operation has. Operators first, in the order of their numbers.
#[tactic(auto, unfolding(crate::specs::Rules::rule_of_operator))]
fn rule_of_operator(op: u64) -> Rule
    ensures { rule_number result ≡ rule_of_operator op }
{
    match op {
        operation::INT_MUL..=operation::INT_SUB => Rule::Triple,
        operation::INT_LEFT..=operation::INT_SIGNED_RIGHT => Rule::Paired(Paired::Shift),
        operation::INT_SIGNED_LESS..=operation::INT_NOT_EQUAL => Rule::Paired(Paired::Comparison),
        operation::FLOAT_DIV..=operation::FLOAT_SUB => Rule::Triple,
        operation::FLOAT_LESS..=operation::FLOAT_NOT_EQUAL => Rule::Paired(Paired::Comparison),
        operation::INT_AND..=operation::INT_OR => Rule::Triple,
        operation::BOOL_XOR..=operation::BOOL_OR => Rule::Boolean,
        _ => Rule::Paired(Paired::Comparison),
    }
}

#[tactic(auto, unfolding(crate::specs::Rules::rule_of_one_input))]
fn rule_of_one_input(op: u64) -> Rule
    ensures { rule_number result ≡ rule_of_one_input op }
{
    match op {
        operation::BOOL_NOT => Rule::Not,
        operation::INT_NOT..=operation::INT_NEGATE => Rule::Paired(Paired::Alone),
        operation::FLOAT_IS_NAN => Rule::Nan,
        operation::FLOAT_NEGATE..=operation::FLOAT_ROUND => Rule::Paired(Paired::Alone),
        _ => Rule::Unsized,
    }
}

#[tactic(auto, unfolding(crate::specs::Rules::rule_of_other))]
fn rule_of_other(op: u64) -> Rule
    ensures { rule_number result ≡ rule_of_other op }
{
    match op {
        operation::COPY => Rule::Paired(Paired::Alone),
        operation::LOAD | operation::STORE => Rule::Pointer,
        operation::BRANCH => Rule::Branch,
        operation::PCODE_BRANCH => Rule::Condition,
        _ => Rule::Unsized,
    }
}

#[tactic(auto, unfolding(crate::specs::Rules::rule_of))]
fn rule_of(op: u64) -> Rule
    ensures { rule_number result ≡ rule_of op }
{
    if op < OPERATORS {
        return rule_of_operator(op);
    }
    if op < operation::COPY {
        return rule_of_one_input(op);
    }
    rule_of_other(op)
}

// The operand that has the size of the first input: the second input of a comparison, else the output.
fn partner(paired: Paired) -> u8
    ensures { result ≡ partner paired }
{
    match paired {
        Paired::Alone | Paired::Shift => OUTPUT,
        Paired::Comparison => INPUT_1,
    }
}

// The three call `set_size_of_pair` from one place, and are called from one, so that all is compiled into the pass: with a call of
// its own each, a push takes longer.
#[tactic(auto, using(list_values::proofs::SizeLaws::record_sum), unfolding(crate::specs::Rules::shift, crate::specs::Rules::comparison, list_values::specs::Sizes::then_s))]
fn pair_rule(
    rules: &Rules<'_>,
    paired: Paired,
    actions: &mut [u64],
    temporaries: &mut [u64],
    at: usize,
) -> u64
    ensures { Counted result actions.new temporaries.new (pair_rule rules.entry.now.sources.section.stream.now rules.entry.now.sources.section.table.now paired (forwards rules.entry.now.direction) actions.old temporaries.old at rules.entry.now.sources.pointer) }
{
    let sources = &rules.sources;
    let x = set_size_of_pair(rules, actions, temporaries, at, INPUT_0, partner(paired));
    match paired {
        Paired::Alone => x,
        Paired::Shift => {
            let more = set_unsized(sources, actions, temporaries, at, INPUT_1);
            sum_of_errors(x, more)
        }
        Paired::Comparison => {
            let more = set_operand(sources.section, actions, temporaries, at, OUTPUT, 1);
            sum_of_errors(x, more)
        }
    }
}

#[tactic(auto, unfolding(crate::specs::Rules::bool_not, list_values::specs::Sizes::set_two))]
fn bool_not(section: Section<'_>, actions: &mut [u64], temporaries: &mut [u64], at: usize) -> u64
    ensures { Counted result actions.new temporaries.new (bool_not section.entry.stream.now section.entry.table.now actions.old temporaries.old at) }
{
    set_two(section, actions, temporaries, at, INPUT_0, OUTPUT, 1)
}

#[tactic(auto, using(list_values::proofs::SizeLaws::record_sum), unfolding(crate::specs::Rules::branch, list_values::specs::Sizes::then_s))]
fn branch(sources: &Sources<'_>, actions: &mut [u64], temporaries: &mut [u64], at: usize) -> u64
    ensures { Counted result actions.new temporaries.new (branch sources.entry.now.section.stream.now sources.entry.now.section.table.now actions.old temporaries.old at sources.entry.now.pointer) }
{
    let condition = set_operand(sources.section, actions, temporaries, at, INPUT_0, 1);
    let target = set_unsized(sources, actions, temporaries, at, INPUT_1);
    sum_of_errors(condition, target)
}

#[tactic(auto, unfolding(crate::specs::Rules::apply_rule, crate::specs::Rules::few_operands, list_values::specs::Sizes::recorded))]
fn apply_rule(
    rules: &Rules<'_>,
    rule: Rule,
    actions: &mut [u64],
    temporaries: &mut [u64],
    at: usize,
) -> u64
    ensures { Counted result actions.new temporaries.new (apply_rule rules.entry.now.sources.section.stream.now rules.entry.now.sources.section.table.now (rule_number rule) (forwards rules.entry.now.direction) actions.old temporaries.old at rules.entry.now.sources.pointer) }
{
    let Sources { section, pointer } = rules.sources;
    match rule {
        Rule::Unsized => 0,
        Rule::Paired(paired) => pair_rule(rules, paired, actions, temporaries, at),
        Rule::Triple => set_size_of_triple(rules, actions, temporaries, at),
        Rule::Boolean => set_three(section, actions, temporaries, at, 1),
        Rule::Not => bool_not(section, actions, temporaries, at),
        Rule::Nan => set_operand(section, actions, temporaries, at, OUTPUT, 1),
        Rule::Pointer => set_operand(section, actions, temporaries, at, INPUT_0, pointer),
        Rule::Branch => branch(&rules.sources, actions, temporaries, at),
        Rule::Condition => set_operand(section, actions, temporaries, at, INPUT_0, 1),
    }
}

// The rule of the Op at a position; other actions are not sized here.
#[tactic(auto, unfolding(crate::specs::Rules::update_operand_sizes, list_values::specs::Sizes::recorded))]
pub fn update_operand_sizes(
    rules: &Rules<'_>,
    actions: &mut [u64],
    temporaries: &mut [u64],
    at: usize,
) -> u64
    ensures { Counted result actions.new temporaries.new (update_operand_sizes rules.entry.now.sources.section.stream.now rules.entry.now.sources.section.table.now (forwards rules.entry.now.direction) actions.old temporaries.old at rules.entry.now.sources.pointer) }
{
    if get(actions, at, action::KIND) != action_kind::OP {
        return 0;
    }
    let rule = rule_of(get(actions, at, action::OPERATION));
    apply_rule(rules, rule, actions, temporaries, at)
}
