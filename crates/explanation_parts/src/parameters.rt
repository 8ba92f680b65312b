//! The parameters of a call of which a rule speaks: what each is, and what it is passed.
#![tactic(auto, unfolding(crate::proofs::Opening::parameters_opens))]

ghost use Rattle.std.specs.Prelude.{◌≡◌, ◌++◌, OnOk, string_bytes};
ghost use Rattle.module_format.specs.Contents.{contents_of, procedure_of};
ghost use Rattle.certificate.specs.Starts.{Entered, procedure_at};
ghost use Rattle.states.specs.Rows.{LoopFits};
ghost use Rattle.states.specs.Views.{state_of};
ghost use Rattle.explanation_parts.specs.Parameters.{callee_word, given, lends, is_near_fact, breaks_number, breaks_pointer};
ghost use Rattle.explanation_parts.specs.Parameters.{breaks_channel, breaks_alone, is_lent, is_channels, is_asked, is_told};
ghost use Rattle.explanation_parts.specs.Parameters.{is_broken, some_break, parameter_head, directions_text, kind_wanted};
ghost use Rattle.explanation_parts.specs.Parameters.{passed_text, channel_part, kind_part, told_text, parameter_part};
ghost use Rattle.explanation_parts.specs.Parameters.{parameters_from, callee_text, arguments_text, arguments_found};
ghost use Rattle.explanation_parts.specs.Parameters.{is_of_parameters, is_call, asks_parameters};

use crate::channels::push_named;
use certificate::Module;
use fact_texts::{FactText, context_text, range};
use machine_state::Instruction;
use module_format::{Direction, Ends, Fact, Parameter, ParameterKind, ProcedureRow, Step, Tables};
use rulings::channels::{channel_of, has_direction};
use rulings::pointers::are_near;
use states::{Rule, State, WordFact, implies};
use std::alloc::AllocError;

/// The caller's word that is a word of the callee's frame.
fn callee_word(depth: i32, word: i32) -> i64
    ensures { result ≡ callee_word depth word }
{
    i64::from(depth) - 4 + i64::from(word)
}

/// What is known of the word in which a parameter is passed: A, B and C come first.
fn given(state: &State, word: u16) -> WordFact
    ensures value { result ≡ given (state_of state.now) word }
    ensures fits { LoopFits result }
{
    match word {
        1 => WordFact::Alone(state.stack.a.fact),
        2 => WordFact::Alone(state.stack.b.fact),
        3 => WordFact::Alone(state.stack.c.fact),
        word => state.fact_of(callee_word(state.depth, i32::from(word))),
    }
}

/// Whether a fact is of an exact pointer with a step of words, which lends what it leads to.
fn lends(fact: WordFact) -> bool
    ensures { result ≡ lends fact }
{
    match fact {
        WordFact::Alone(
            Fact::Pointer {
                lo,
                hi,
                step: Step::Word,
                ..
            },
        ) => lo <= hi && hi <= lo,
        _ => false,
    }
}

/// Whether a pointer is near; what is no pointer is.
fn is_near_fact(fact: WordFact) -> bool
    ensures { result ≡ is_near_fact fact }
{
    match fact {
        WordFact::Alone(Fact::Pointer { lo, hi, .. }) => are_near(i64::from(lo), i64::from(hi)),
        _ => true,
    }
}

/// Whether what is passed is no number in the range.
fn breaks_number(kind: ParameterKind, fact: WordFact) -> bool
    requires { LoopFits fact }
    ensures { result ≡ breaks_number kind fact }
{
    match kind {
        ParameterKind::Value { lo, hi } => !implies(fact.plain(), Fact::Number { lo, hi }),
        _ => false,
    }
}

/// Whether what is passed is no pointer that lends, or is not near.
fn breaks_pointer(kind: ParameterKind, fact: WordFact) -> bool
    ensures { result ≡ breaks_pointer kind fact }
{
    match kind {
        ParameterKind::Value { .. } => false,
        ParameterKind::Channels { .. } => !is_near_fact(fact),
        _ => !(lends(fact) && is_near_fact(fact)),
    }
}

/// Whether what is passed names no channel.
fn breaks_channel(kind: ParameterKind, fact: WordFact) -> bool
    ensures { result ≡ breaks_channel kind fact }
{
    match kind {
        ParameterKind::Channels { .. } => !channel_of(fact).is_some(),
        _ => false,
    }
}

/// Whether what a parameter is passed breaks the rule by itself.
fn breaks_alone(rule: Rule, kind: ParameterKind, fact: WordFact) -> bool
    requires { LoopFits fact }
    ensures { result ≡ breaks_alone rule kind fact }
{
    match rule {
        Rule::Number => breaks_number(kind, fact),
        Rule::Pointer => breaks_pointer(kind, fact),
        Rule::Channel => breaks_channel(kind, fact),
        _ => false,
    }
}

/// Whether a region is lent.
fn is_lent(kind: ParameterKind, fact: WordFact) -> bool
    ensures { result ≡ is_lent kind fact }
{
    match kind {
        ParameterKind::Value { .. } | ParameterKind::Channels { .. } => false,
        _ => lends(fact),
    }
}

/// Whether a parameter brings channels.
fn is_channels(kind: ParameterKind) -> bool
    ensures { result ≡ is_channels kind }
{
    match kind {
        ParameterKind::Channels { .. } => true,
        _ => false,
    }
}

/// Whether the rule asks what is lent, or which channels are passed.
fn is_asked(rule: Rule, kind: ParameterKind, fact: WordFact) -> bool
    ensures { result ≡ is_asked rule kind fact }
{
    match rule {
        Rule::Channel | Rule::MessageLength => is_channels(kind),
        _ => is_lent(kind, fact),
    }
}

/// Whether a parameter is one of those that break the rule by themselves, or else of all that it asks.
fn is_told(rule: Rule, some_break: bool, kind: ParameterKind, fact: WordFact) -> bool
    requires { LoopFits fact }
    ensures { result ≡ is_told rule some_break kind fact }
{
    if some_break {
        return breaks_alone(rule, kind, fact);
    }
    is_asked(rule, kind, fact)
}

/// Whether what is passed breaks the rule by itself.
fn is_broken(rule: Rule, state: &State, parameter: &Parameter) -> bool
    ensures { result ≡ is_broken rule (state_of state.now) parameter.now }
{
    breaks_alone(rule, parameter.kind, given(state, parameter.word))
}

/// Whether some parameters break the rule by themselves.
fn some_break(rule: Rule, state: &State, parameters: &[Parameter]) -> bool
    ensures { result ≡ some_break rule (state_of state.now) parameters.now }
{
    let mut rest = parameters;
    while let Some((parameter, after)) = rest.split_first() {
        if is_broken(rule, state, parameter) {
            return true;
        }
        rest = after;
    }
    false
}

/// Appends the number of a parameter, and the word in which it is passed.
fn push_head(text: &mut String, number: usize, word: u16) -> Result<(), AllocError>
    ensures { OnOk result (string_bytes text.new ≡ string_bytes text.old ++ parameter_head number word) }
{
    write!(text, "; parameter {number} in word {word}")
}

/// The directions of the ends that a parameter takes.
fn directions_text(ends: Ends) -> &'static str
    ensures { result.now ≡ directions_text ends }
{
    if !has_direction(ends, Direction::Out) {
        return "in";
    }
    if !has_direction(ends, Direction::In) {
        return "out";
    }
    "in and out"
}

/// Appends what a parameter wants.
fn push_wanted(text: &mut String, kind: ParameterKind) -> Result<(), AllocError>
    ensures { OnOk result (string_bytes text.new ≡ string_bytes text.old ++ kind_wanted kind) }
{
    match kind {
        ParameterKind::Value { lo, hi } => write!(text, "{}", range(lo, hi)),
        ParameterKind::ReadRegion { size, lo, hi } => {
            write!(text, "{size} bytes of {} to read", range(lo, hi))
        }
        ParameterKind::WrittenRegion { size, lo, hi } => {
            write!(text, "{size} bytes of {} to write", range(lo, hi))
        }
        ParameterKind::Channels {
            count,
            length,
            ends,
        } => {
            let directions = directions_text(ends);
            write!(text, "{count} channels {directions} of {length} bytes")
        }
    }
}

/// Appends what a parameter wants, and what it is passed.
fn push_passed(text: &mut String, kind: ParameterKind, fact: Fact) -> Result<(), AllocError>
    ensures { OnOk result (string_bytes text.new ≡ string_bytes text.old ++ passed_text kind fact) }
{
    text.push_str(" wants ")?;
    push_wanted(text, kind)?;
    write!(text, " and is passed {}", FactText(fact))
}

/// Appends which channel that is.
fn push_channel_part(
    text: &mut String,
    kind: ParameterKind,
    fact: WordFact,
) -> Result<(), AllocError>
    ensures { OnOk result (string_bytes text.new ≡ string_bytes text.old ++ channel_part kind fact) }
{
    match kind {
        ParameterKind::Channels { .. } => push_named(text, channel_of(fact)),
        _ => text.push_str(""),
    }
}

/// Appends what a parameter wants, and what it is passed.
#[tactic(auto, unfolding(crate::specs::Parameters::kind_part))]
fn push_kind(text: &mut String, kind: ParameterKind, fact: WordFact) -> Result<(), AllocError>
    requires { LoopFits fact }
    ensures { OnOk result (string_bytes text.new ≡ string_bytes text.old ++ kind_part kind fact) }
{
    push_passed(text, kind, fact.plain())?;
    push_channel_part(text, kind, fact)?;
    Ok(())
}

/// Appends which parameter it is, what it wants, and what it is passed.
fn push_told(
    text: &mut String,
    number: usize,
    parameter: &Parameter,
    fact: WordFact,
) -> Result<(), AllocError>
    requires { LoopFits fact }
    ensures { OnOk result (string_bytes text.new ≡ string_bytes text.old ++ told_text number parameter.now fact) }
{
    push_head(text, number, parameter.word)?;
    push_kind(text, parameter.kind, fact)?;
    Ok(())
}

/// Appends the parameter of this number, if the rule speaks of it.
fn push_parameter(
    text: &mut String,
    rule: Rule,
    some_break: bool,
    state: &State,
    number: usize,
    parameter: &Parameter,
) -> Result<(), AllocError>
    ensures { OnOk result (string_bytes text.new ≡ string_bytes text.old
        ++ parameter_part rule some_break (state_of state.now) number parameter.now) }
{
    let fact = given(state, parameter.word);
    if is_told(rule, some_break, parameter.kind, fact) {
        return push_told(text, number, parameter, fact);
    }
    text.push_str("")
}

/// Appends the parameters of which the rule speaks.
fn push_parameters(
    text: &mut String,
    rule: Rule,
    state: &State,
    parameters: &[Parameter],
) -> Result<(), AllocError>
    ensures { let breaking = some_break rule (state_of state.now) parameters.now in
        OnOk result (string_bytes text.new ≡ string_bytes text.old
        ++ parameters_from rule breaking (state_of state.now) 0 parameters.now) }
{
    let breaking = some_break(rule, state, parameters);
    let mut number = 0;
    let mut rest = parameters;
    while let Some((parameter, after)) = rest.split_first() {
        push_parameter(text, rule, breaking, state, number, parameter)?;
        number += 1;
        rest = after;
    }
    Ok(())
}

/// Appends which procedure is called.
fn push_callee(text: &mut String, tables: &Tables<'_>, number: u32) -> Result<(), AllocError>
    ensures { OnOk result (string_bytes text.new
        ≡ string_bytes text.old ++ callee_text (contents_of tables.now) number) }
{
    let context = context_text(tables, number);
    write!(text, "it calls {context}")
}

/// Appends which procedure is called, and the parameters of which the rule speaks.
fn push_arguments_of(
    text: &mut String,
    module: &Module,
    rule: Rule,
    state: &State,
    context: u32,
    row: &ProcedureRow,
) -> Result<(), AllocError>
    ensures { let entered : Entered = record { context = context; procedure = procedure_of row.now } in
        OnOk result (string_bytes text.new
        ≡ string_bytes text.old ++ arguments_text «module».now rule (state_of state.now) entered) }
{
    push_callee(text, module.tables(), context)?;
    push_parameters(text, rule, state, &row.parameters)?;
    Ok(())
}

/// Appends the same of the procedure that begins at an offset.
pub fn push_arguments(
    text: &mut String,
    module: &Module,
    rule: Rule,
    state: &State,
    to: u32,
) -> Result<(), AllocError>
    ensures { OnOk result (string_bytes text.new ≡ string_bytes text.old
        ++ arguments_found «module».now rule (state_of state.now) (procedure_at «module».now to)) }
{
    match module.procedure_at(to) {
        Some((context, row)) => push_arguments_of(text, module, rule, state, context, row),
        None => text.push_str("no procedure begins there"),
    }
}

/// Whether the rule speaks of what parameters are passed.
fn is_of_parameters(rule: Rule) -> bool
    ensures { result ≡ is_of_parameters rule }
{
    match rule {
        Rule::Number | Rule::Pointer | Rule::RegionsMeet | Rule::Channel | Rule::MessageLength =>
            true,
        _ => false,
    }
}

/// Whether an instruction is a call.
fn is_call(instruction: Instruction) -> bool
    ensures { result ≡ is_call instruction }
{
    match instruction {
        Instruction::Call => true,
        _ => false,
    }
}

/// Whether a call breaks such a rule.
pub fn asks_parameters(rule: Rule, instruction: Instruction) -> bool
    ensures { result ≡ asks_parameters rule instruction }
{
    is_call(instruction) && is_of_parameters(rule)
}
