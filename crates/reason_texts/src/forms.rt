//! How far a line goes on as one of the forms that lines have.

ghost use Rattle.std.specs.Prelude.{◌≡◌};
ghost use Rattle.occam_parser.specs.Terminals.{terminal_of, terminals_of};
ghost use Rattle.occam_parser.specs.LineReading.{has_condition, is_guard_sign};
ghost use Rattle.reason_texts.specs.Stuck.{seen};
ghost use Rattle.reason_texts.specs.Forms.{past_whole, past_brackets, past_type, past_shape, past_formal, past_part};
ghost use Rattle.reason_texts.specs.Forms.{past_list, past_parentheses, past_value, past_step, past_all, past_constant};
ghost use Rattle.reason_texts.specs.Forms.{past_names, past_placed, past_named_action, past_replicator};
ghost use Rattle.reason_texts.specs.Forms.{past_marked_process, past_process, past_input, past_guard};
ghost use Rattle.reason_texts.specs.Forms.{past_procedure, past_item, past_form};

use crate::expressions::past_expression;
use crate::stuck::{
    Lack, Past, Wanted, behind, closed, first, lacking, past_end, past_mark, past_name,
};
use occam_layout::{Mark, Token, TokenKind};
use occam_parser::MAX_NESTING;

/// What a line has to be, by the lines above it.
#[derive(Clone, Copy)]
pub(crate) enum Form {
    /// A constant, or the head of a procedure.
    Item,
    /// The `:` that ends a procedure.
    Colon,
    /// A declaration, or what a construct begins with.
    Process,
    /// A condition of an `IF`.
    Choice,
    /// A guard of an `ALT`.
    Guard,
}

/// What comes several times, with commas between.
#[derive(Clone, Copy)]
enum Part {
    Expression,
    Name,
    Formal,
}

/// What a line goes on with.
#[derive(Clone, Copy)]
enum Step {
    Name,
    Mark(Mark),
    /// `INT` or `BYTE`.
    Type,
    /// A type, or `CHAN OF` and a type.
    Shape,
    Expression,
    /// An expression in brackets, if any.
    Brackets,
    /// What a constant denotes, which is a table or not.
    Value(bool),
    List(Part),
    End,
}

/// Steps by their names.
macro_rules! steps {
    ($($step:ident $(($which:expr))?)*) => {
        &[$(Step::$step $(($which))?),*]
    };
}

/// An expression has to come.
fn past_whole<'t, 'a>(tokens: &'t [Token<'a>]) -> Past<'t, 'a>
    ensures { seen result ≡ past_whole (terminals_of tokens.now) }
{
    past_expression(MAX_NESTING, tokens)
}

/// An expression in brackets may come.
#[tactic(auto, unfolding(crate::specs::Forms::past_brackets))]
fn past_brackets<'t, 'a>(tokens: &'t [Token<'a>]) -> Past<'t, 'a>
    ensures { seen result ≡ past_brackets (terminals_of tokens.now) }
{
    match behind(Mark::OpenBracket, tokens) {
        Some(after) => closed(Mark::CloseBracket, past_whole(after)),
        None => Ok(tokens),
    }
}

/// `INT` or `BYTE` has to come.
#[tactic(auto, unfolding(crate::specs::Forms::past_type))]
fn past_type<'t, 'a>(lack: Lack, tokens: &'t [Token<'a>]) -> Past<'t, 'a>
    ensures { seen result ≡ past_type lack (terminals_of tokens.now) }
{
    match first(tokens) {
        Some((TokenKind::Mark(Mark::Int | Mark::Byte), rest)) => Ok(rest),
        _ => lacking(lack, tokens),
    }
}

/// A type has to come, or `CHAN OF` and a type.
#[tactic(auto, unfolding(crate::specs::Forms::past_shape))]
fn past_shape<'t, 'a>(tokens: &'t [Token<'a>]) -> Past<'t, 'a>
    ensures { seen result ≡ past_shape (terminals_of tokens.now) }
{
    match behind(Mark::Chan, tokens) {
        Some(after) => {
            let rest = past_mark(Mark::Of, after)?;
            past_type(Lack::Token(Wanted::ValueType), rest)
        }
        None => past_type(Lack::Token(Wanted::Shape), tokens),
    }
}

/// A parameter of a procedure has to come.
#[tactic(auto, unfolding(crate::specs::Forms::past_formal))]
fn past_formal<'t, 'a>(tokens: &'t [Token<'a>]) -> Past<'t, 'a>
    ensures { seen result ≡ past_formal (terminals_of tokens.now) }
{
    match behind(Mark::Val, tokens) {
        Some(after) => {
            let rest = past_brackets(after)?;
            past_name(past_type(Lack::Token(Wanted::ValueType), rest)?)
        }
        None => {
            let rest = past_brackets(tokens)?;
            past_name(past_shape(rest)?)
        }
    }
}

/// One of the parts of a list has to come.
fn past_part<'t, 'a>(part: Part, tokens: &'t [Token<'a>]) -> Past<'t, 'a>
    ensures { seen result ≡ past_part part (terminals_of tokens.now) }
{
    match part {
        Part::Expression => past_whole(tokens),
        Part::Name => past_name(tokens),
        Part::Formal => past_formal(tokens),
    }
}

/// Parts with commas between them have to come. Each turn takes a token at least.
#[tactic(auto, using(crate::proofs::Turns::more_none, crate::proofs::Turns::more_ends, crate::proofs::Turns::more_fails, crate::proofs::Turns::more_step), unfolding(crate::specs::Expressions::past_chain))]
fn past_list<'t, 'a>(part: Part, tokens: &'t [Token<'a>]) -> Past<'t, 'a>
    ensures { seen result ≡ past_list part (terminals_of tokens.now) }
{
    let mut rest = past_part(part, tokens)?;
    let mut turns = rest.len();
    while turns > 0 {
        let Some(after) = behind(Mark::Comma, rest) else {
            return Ok(rest);
        };
        rest = past_part(part, after)?;
        turns -= 1;
    }
    Ok(rest)
}

/// What a constant denotes has to come.
#[tactic(auto, unfolding(crate::specs::Forms::past_value))]
fn past_value<'t, 'a>(is_table: bool, tokens: &'t [Token<'a>]) -> Past<'t, 'a>
    ensures { seen result ≡ past_value is_table (terminals_of tokens.now) }
{
    if !is_table {
        return past_whole(tokens);
    }
    match first(tokens) {
        Some((TokenKind::Text(_), rest)) => Ok(rest),
        Some((TokenKind::Mark(Mark::OpenBracket), after)) => {
            closed(Mark::CloseBracket, past_list(Part::Expression, after))
        }
        _ => lacking(Lack::Token(Wanted::Table), tokens),
    }
}

/// One step has to come.
fn past_step<'t, 'a>(step: Step, tokens: &'t [Token<'a>]) -> Past<'t, 'a>
    ensures { seen result ≡ past_step step (terminals_of tokens.now) }
{
    match step {
        Step::Name => past_name(tokens),
        Step::Mark(mark) => past_mark(mark, tokens),
        Step::Type => past_type(Lack::Token(Wanted::ValueType), tokens),
        Step::Shape => past_shape(tokens),
        Step::Expression => past_whole(tokens),
        Step::Brackets => past_brackets(tokens),
        Step::Value(is_table) => past_value(is_table, tokens),
        Step::List(part) => past_list(part, tokens),
        Step::End => past_end(tokens),
    }
}

/// These steps have to come, one after the other.
#[cycle(steps)]
#[tactic(auto, using(crate::proofs::Steps::stays))]
fn past_all<'t, 'a>(steps: &[Step], tokens: &'t [Token<'a>]) -> Past<'t, 'a>
    ensures { seen result ≡ past_all steps.now (terminals_of tokens.now) }
{
    match steps.split_first() {
        Some((step, others)) => past_all(others, past_step(*step, tokens)?),
        None => Ok(tokens),
    }
}

/// Parts with commas between them may come, and then the parenthesis that ends the line.
#[tactic(auto, unfolding(crate::specs::Forms::past_parentheses))]
fn past_parentheses<'t, 'a>(part: Part, tokens: &'t [Token<'a>]) -> Past<'t, 'a>
    ensures { seen result ≡ past_parentheses part (terminals_of tokens.now) }
{
    match behind(Mark::CloseParenthesis, tokens) {
        Some(rest) => past_end(rest),
        None => past_all(steps!(List(part) Mark(Mark::CloseParenthesis) End), tokens),
    }
}

/// A constant has to come, after the word `VAL`.
#[tactic(auto, unfolding(crate::specs::Forms::past_constant))]
fn past_constant<'t, 'a>(tokens: &'t [Token<'a>]) -> Past<'t, 'a>
    ensures { seen result ≡ past_constant (terminals_of tokens.now) }
{
    let is_table = behind(Mark::OpenBracket, tokens).is_some();
    let steps = steps!(Brackets Type Name Mark(Mark::Is) Value(is_table) Mark(Mark::Colon) End);
    past_all(steps, tokens)
}

/// A declaration of variables or channels has to come.
#[tactic(auto, unfolding(crate::specs::Forms::past_names))]
fn past_names<'t, 'a>(tokens: &'t [Token<'a>]) -> Past<'t, 'a>
    ensures { seen result ≡ past_names (terminals_of tokens.now) }
{
    past_all(
        steps!(Brackets Shape List(Part::Name) Mark(Mark::Colon) End),
        tokens,
    )
}

/// An assignment or a communication has to go on, after its first place.
#[tactic(auto, unfolding(crate::specs::Forms::past_placed))]
fn past_placed<'t, 'a>(tokens: &'t [Token<'a>]) -> Past<'t, 'a>
    ensures { seen result ≡ past_placed (terminals_of tokens.now) }
{
    match first(tokens) {
        Some((TokenKind::Mark(Mark::Assign | Mark::Output), after)) => {
            past_all(steps!(Expression End), after)
        }
        Some((TokenKind::Mark(Mark::Input), after)) => past_all(steps!(Name Brackets End), after),
        _ => lacking(Lack::Token(Wanted::Action), tokens),
    }
}

/// An assignment, a communication or an instance has to go on, after its first name.
#[tactic(auto, unfolding(crate::specs::Forms::past_named_action))]
fn past_named_action<'t, 'a>(tokens: &'t [Token<'a>]) -> Past<'t, 'a>
    ensures { seen result ≡ past_named_action (terminals_of tokens.now) }
{
    match behind(Mark::OpenParenthesis, tokens) {
        Some(after) => past_parentheses(Part::Expression, after),
        None => past_placed(past_brackets(tokens)?),
    }
}

/// A replicator may come, and then the end of the line.
#[tactic(auto, unfolding(crate::specs::Forms::past_replicator))]
fn past_replicator<'t, 'a>(tokens: &'t [Token<'a>]) -> Past<'t, 'a>
    ensures { seen result ≡ past_replicator (terminals_of tokens.now) }
{
    if tokens.is_empty() {
        return Ok(tokens);
    }
    past_all(
        steps!(Name Mark(Mark::Equal) Expression Mark(Mark::For) Expression End),
        tokens,
    )
}

/// A line of a process has to come of which this mark is the first token, and these are the tokens after it.
#[tactic(auto, unfolding(crate::specs::Forms::past_marked_process))]
fn past_marked_process<'t, 'a>(
    mark: Mark,
    tokens: &'t [Token<'a>],
    rest: &'t [Token<'a>],
) -> Past<'t, 'a>
    ensures { seen result ≡ past_marked_process mark (terminals_of tokens.now) (terminals_of rest.now) }
{
    match mark {
        Mark::Val => past_constant(rest),
        Mark::Int | Mark::Byte | Mark::Chan | Mark::OpenBracket => past_names(tokens),
        Mark::Skip | Mark::Stop => past_end(rest),
        Mark::Seq | Mark::Par | Mark::If | Mark::Alt => past_replicator(rest),
        _ => lacking(Lack::Token(Wanted::Process), tokens),
    }
}

/// A line of a process has to come.
#[tactic(auto, unfolding(crate::specs::Forms::past_process))]
fn past_process<'t, 'a>(tokens: &'t [Token<'a>]) -> Past<'t, 'a>
    ensures { seen result ≡ past_process (terminals_of tokens.now) }
{
    match first(tokens) {
        Some((TokenKind::Name(_), rest)) => past_named_action(rest),
        Some((TokenKind::Mark(mark), rest)) => past_marked_process(mark, tokens, rest),
        _ => lacking(Lack::Token(Wanted::Process), tokens),
    }
}

/// Whether a token is the sign between a condition and its guard.
fn is_guard_sign(token: TokenKind<'_>) -> bool
    ensures { result ≡ is_guard_sign (terminal_of token.entry) }
{
    matches!(token, TokenKind::Mark(Mark::Guard))
}

/// Whether a line has a condition before its guard.
#[tactic(auto, using(occam_parser::proofs::Seen::left_is))]
fn has_condition(tokens: &[Token<'_>]) -> bool
    ensures { result ≡ has_condition (terminals_of tokens.now) }
{
    let mut next = first(tokens);
    while let Some((token, rest)) = next {
        if is_guard_sign(token) {
            return true;
        }
        next = first(rest);
    }
    false
}

/// `channel ? target` has to come, and then the end of the line.
#[tactic(auto, unfolding(crate::specs::Forms::past_input))]
fn past_input<'t, 'a>(tokens: &'t [Token<'a>]) -> Past<'t, 'a>
    ensures { seen result ≡ past_input (terminals_of tokens.now) }
{
    past_all(
        steps!(Name Brackets Mark(Mark::Input) Name Brackets End),
        tokens,
    )
}

/// A guard has to come.
#[tactic(auto, unfolding(crate::specs::Forms::past_guard))]
fn past_guard<'t, 'a>(tokens: &'t [Token<'a>]) -> Past<'t, 'a>
    ensures { seen result ≡ past_guard (terminals_of tokens.now) }
{
    if !has_condition(tokens) {
        return past_input(tokens);
    }
    let rest = past_all(steps!(Expression Mark(Mark::Guard)), tokens)?;
    match behind(Mark::Skip, rest) {
        Some(after) => past_end(after),
        None => past_input(rest),
    }
}

/// The head of a procedure has to come, after the word `PROC`.
fn past_procedure<'t, 'a>(tokens: &'t [Token<'a>]) -> Past<'t, 'a>
    ensures { seen result ≡ past_procedure (terminals_of tokens.now) }
{
    let rest = past_all(steps!(Name Mark(Mark::OpenParenthesis)), tokens)?;
    past_parentheses(Part::Formal, rest)
}

/// A constant or the head of a procedure has to come.
#[tactic(auto, unfolding(crate::specs::Forms::past_item))]
fn past_item<'t, 'a>(tokens: &'t [Token<'a>]) -> Past<'t, 'a>
    ensures { seen result ≡ past_item (terminals_of tokens.now) }
{
    match first(tokens) {
        Some((TokenKind::Mark(Mark::Val), rest)) => past_constant(rest),
        Some((TokenKind::Mark(Mark::Proc), rest)) => past_procedure(rest),
        _ => lacking(Lack::Token(Wanted::Item), tokens),
    }
}

/// A line of this form has to come. If it does not, the place is in the line.
pub(crate) fn past_form<'t, 'a>(form: Form, tokens: &'t [Token<'a>]) -> Past<'t, 'a>
    ensures { seen result ≡ past_form form (terminals_of tokens.now) }
{
    match form {
        Form::Item => past_item(tokens),
        Form::Colon => past_all(steps!(Mark(Mark::Colon) End), tokens),
        Form::Process => past_process(tokens),
        Form::Choice => past_all(steps!(Expression End), tokens),
        Form::Guard => past_guard(tokens),
    }
}
