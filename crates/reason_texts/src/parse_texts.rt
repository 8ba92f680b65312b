//! What is written of lines that are no program.

ghost use Rattle.std.specs.Prelude.{◌≡◌, ◌++◌, ◌<◌, ◌^◌, IfOk, OnOk, option_copied, option_map, string_bytes};
ghost use Rattle.occam_layout.specs.Kind.{spelling};
ghost use Rattle.std.specs.List.{find};
ghost use Rattle.reason_texts.specs.Lines.{line_found, sight_of};
ghost use Rattle.reason_texts.specs.ParseTexts.{span_between, start_of, end_of, line_span, end_span, token_left, span_of};
ghost use Rattle.reason_texts.specs.ParseTexts.{found_at, wanted_words, wanted_quote, wanted_text, found_text};
ghost use Rattle.reason_texts.specs.ParseTexts.{lack_text, stuck_text, sentence};
ghost use Rattle.reason_texts.specs.ParseTexts.{operand_hint, shape_hint, action_hint, process_hint, abbreviation_hint};
ghost use Rattle.reason_texts.specs.ParseTexts.{colon_hint, wanted_hint, lack_hint, reason_hint, kind_hint, is_lacked};
ghost use Rattle.reason_texts.specs.ParseTexts.{hint, whole_text, line_of, parse_text};

use crate::block::{Span, push_closed, push_place, push_rest};
use crate::forms::Form;
use crate::hints::word_hint;
use crate::lines::find_line;
use crate::parse::{ParseReason, parse_reason};
use crate::stuck::{Lack, Wanted};
use occam_layout::{Line, Mark, Token, TokenKind};
use occam_parser::ParseFault;
use std::alloc::{AllocError, Global};

/// The bytes between two offsets of a source, in a line that begins at an offset.
fn span_between(offset: usize, start: u32, end: u32) -> Span
    ensures between { result ≡ span_between offset start end }
    ensures small { result.at < 2 ^ 32 }
{
    let (start, end) = (start as usize, end as usize);
    Span {
        at: start.saturating_sub(offset),
        len: end.saturating_sub(start),
    }
}

/// Where the first token of a line begins.
fn start_of(tokens: &[Token<'_>]) -> u32
    ensures { result ≡ start_of tokens.now }
{
    match tokens.first() {
        Some(token) => token.start,
        None => 0,
    }
}

/// Where the last token of a line ends.
fn end_of(tokens: &[Token<'_>]) -> u32
    ensures { result ≡ end_of tokens.now }
{
    match tokens.last() {
        Some(token) => token.end,
        None => 0,
    }
}

/// All tokens of a line that begins at an offset.
pub fn line_span(offset: usize, tokens: &[Token<'_>]) -> Span
    ensures all { result ≡ line_span offset tokens.now }
    ensures small { result.at < 2 ^ 32 }
{
    span_between(offset, start_of(tokens), end_of(tokens))
}

/// What follows the last token of a line that begins at an offset.
fn end_span(offset: usize, tokens: &[Token<'_>]) -> Span
    ensures end { result ≡ end_span offset tokens.now }
    ensures small { result.at < 2 ^ 32 }
{
    let end = end_of(tokens);
    span_between(offset, end, end)
}

/// The token from which on this number of tokens is left. None at the end of the line.
fn token_left<'t, 'a>(left: usize, tokens: &'t [Token<'a>]) -> Option<&'t Token<'a>>
    ensures { option_copied result ≡ token_left left tokens.now }
{
    tokens.get(tokens.len().saturating_sub(left))
}

/// The bytes that are meant, in a line that begins at an offset.
#[tactic(auto, unfolding(crate::specs::ParseTexts::span_of))]
fn span_of(offset: usize, tokens: &[Token<'_>], reason: ParseReason) -> Span
    ensures span { result ≡ span_of offset tokens.now reason }
    ensures small { result.at < 2 ^ 32 }
{
    match reason {
        ParseReason::Form { stuck, .. } => match token_left(stuck.left, tokens) {
            Some(token) => span_between(offset, token.start, token.end),
            None => end_span(offset, tokens),
        },
        ParseReason::MissingColon => end_span(offset, tokens),
        _ => line_span(offset, tokens),
    }
}

/// What is found at the place where a line goes on otherwise. None at the end of the line.
fn found_at<'a>(tokens: &[Token<'a>], reason: ParseReason) -> Option<TokenKind<'a>>
    ensures { result ≡ found_at tokens.now reason }
{
    match reason {
        ParseReason::Form { stuck, .. } => match token_left(stuck.left, tokens) {
            Some(token) => Some(token.kind),
            None => None,
        },
        _ => None,
    }
}

/// How a keyword or a sign is spelled.
fn spelling(mark: Mark) -> &'static str
    ensures { result.now ≡ spelling mark }
{
    match mark {
        Mark::Val => "VAL",
        Mark::Is => "IS",
        Mark::Int => "INT",
        Mark::Byte => "BYTE",
        Mark::Proc => "PROC",
        Mark::Chan => "CHAN",
        Mark::Of => "OF",
        Mark::Skip => "SKIP",
        Mark::Stop => "STOP",
        Mark::Seq => "SEQ",
        Mark::Par => "PAR",
        Mark::If => "IF",
        Mark::Alt => "ALT",
        Mark::For => "FOR",
        Mark::MostPos => "MOSTPOS",
        Mark::MostNeg => "MOSTNEG",
        Mark::Plus => "PLUS",
        Mark::Minus => "MINUS",
        Mark::Times => "TIMES",
        Mark::And => "AND",
        Mark::Or => "OR",
        Mark::Not => "NOT",
        Mark::True => "TRUE",
        Mark::False => "FALSE",
        Mark::Assign => ":=",
        Mark::BitAnd => "/\\",
        Mark::BitOr => "\\/",
        Mark::BitXor => "><",
        Mark::ShiftLeft => "<<",
        Mark::ShiftRight => ">>",
        Mark::NotEqual => "<>",
        Mark::LessOrEqual => "<=",
        Mark::GreaterOrEqual => ">=",
        Mark::Colon => ":",
        Mark::Comma => ",",
        Mark::OpenParenthesis => "(",
        Mark::CloseParenthesis => ")",
        Mark::OpenBracket => "[",
        Mark::CloseBracket => "]",
        Mark::Input => "?",
        Mark::Output => "!",
        Mark::Guard => "&",
        Mark::Add => "+",
        Mark::Subtract => "-",
        Mark::Multiply => "*",
        Mark::Divide => "/",
        Mark::Remainder => "\\",
        Mark::BitNot => "~",
        Mark::Equal => "=",
        Mark::Less => "<",
        Mark::Greater => ">",
    }
}

/// What is wanted, in words: of a keyword or a sign how it is spelled.
fn wanted_words(wanted: Wanted) -> &'static str
    ensures { result.now ≡ wanted_words wanted }
{
    match wanted {
        Wanted::Mark(mark) => spelling(mark),
        Wanted::Name => "a name",
        Wanted::Operand => "an operand",
        Wanted::ValueType => "`INT` or `BYTE`",
        Wanted::Shape => "`INT`, `BYTE` or `CHAN OF`",
        Wanted::Table => "`[` or a string",
        Wanted::Action => "`:=`, `?` or `!`",
        Wanted::End => "the end of the line",
        Wanted::Item => "`VAL` or `PROC`",
        Wanted::Process => "a process",
    }
}

/// What is before and after these words.
fn wanted_quote(wanted: Wanted) -> &'static str
    ensures { result.now ≡ wanted_quote wanted }
{
    match wanted {
        Wanted::Mark(_) => "`",
        _ => "",
    }
}

/// Appends that this was wanted.
fn push_wanted(text: &mut String, wanted: Wanted) -> Result<(), AllocError>
    ensures { OnOk result (string_bytes text.new ≡ string_bytes text.old ++ wanted_text wanted) }
{
    let (quote, words) = (wanted_quote(wanted), wanted_words(wanted));
    write!(text, ", but {quote}{words}{quote} was wanted")
}

/// Appends what is found at a place, or that the line ended.
#[tactic(auto, unfolding(crate::specs::ParseTexts::found_text))]
fn push_found(
    text: &mut String,
    line: &[u8],
    span: Span,
    found: Option<TokenKind<'_>>,
) -> Result<(), AllocError>
    ensures { OnOk result (string_bytes text.new ≡ string_bytes text.old ++ found_text line.now span found.entry) }
{
    match found {
        None => text.push_str("the line ended"),
        Some(_) => {
            text.push_str("found `")?;
            push_closed(text, line, span)
        }
    }
}

/// Appends that something else is wanted at a place, or what else is wrong there.
fn push_lack(text: &mut String, lack: Lack) -> Result<(), AllocError>
    ensures { OnOk result (string_bytes text.new ≡ string_bytes text.old ++ lack_text lack) }
{
    match lack {
        Lack::Token(wanted) => push_wanted(text, wanted),
        Lack::Nesting => text.push_str(
            ", but brackets, subscripts and conversions are nested at most 64 deep",
        ),
        Lack::Mixture => text.push_str(" beside another operator, without brackets"),
    }
}

/// Appends what is found at a place, and what is wrong there.
#[tactic(auto, unfolding(crate::specs::ParseTexts::stuck_text))]
fn push_stuck(
    text: &mut String,
    line: &[u8],
    span: Span,
    found: Option<TokenKind<'_>>,
    lack: Lack,
) -> Result<(), AllocError>
    ensures { OnOk result (string_bytes text.new ≡ string_bytes text.old ++ stuck_text line.now span found.entry lack) }
{
    push_found(text, line, span, found)?;
    push_lack(text, lack)
}

/// Appends why a line is no part of a program.
fn push_sentence(
    text: &mut String,
    line: &[u8],
    span: Span,
    found: Option<TokenKind<'_>>,
    reason: ParseReason,
) -> Result<(), AllocError>
    ensures { OnOk result (string_bytes text.new ≡ string_bytes text.old ++ sentence line.now span found.entry reason) }
{
    match reason {
        ParseReason::Form { stuck, .. } => push_stuck(text, line, span, found, stuck.lack),
        ParseReason::NothingBelow { above } => write!(text, "nothing may be below line {above}"),
        ParseReason::OnlyOne { head, first } => write!(
            text,
            "line {head} has its body already, which begins on line {first}"
        ),
        ParseReason::MissingColon => text.push_str(
            "the `:` that ends the procedure is missing below this line",
        ),
        ParseReason::MissingBody => text.push_str(
            "the body of this line is missing, one level deeper",
        ),
        ParseReason::DeepLine => text.push_str("a line is at level 64 at most"),
    }
}

/// What to write where an operand is wanted.
fn operand_hint(found: Option<TokenKind<'_>>) -> Option<&'static str>
    ensures { option_map (λ h. h.now) result ≡ operand_hint found.entry }
{
    match found {
        None => Some("an expression does not go on on the next line"),
        Some(TokenKind::Text(_)) => Some(
            "a string is the value of a table, as VAL [2]BYTE t IS \"ab\":",
        ),
        Some(TokenKind::Mark(Mark::CloseBracket)) => Some(
            "the size of an array is written, as [2]BYTE",
        ),
        _ => None,
    }
}

/// What to write where a type, or `CHAN OF` a type, is wanted.
fn shape_hint(form: Form, found: Option<TokenKind<'_>>) -> Option<&'static str>
    ensures { option_map (λ h. h.now) result ≡ shape_hint form found.entry }
{
    match found {
        Some(TokenKind::Name(_)) => match form {
            Form::Item => Some("each parameter has its own type, as (INT a, INT b)"),
            _ => None,
        },
        Some(TokenKind::Mark(Mark::OpenBracket)) => Some(
            "an array has one size: the elements of [2 * 3]INT a are a[(i * 3) + j]",
        ),
        _ => None,
    }
}

/// What to write where an assignment or a communication has to go on.
fn action_hint(found: Option<TokenKind<'_>>) -> Option<&'static str>
    ensures { option_map (λ h. h.now) result ≡ action_hint found.entry }
{
    match found {
        Some(TokenKind::Mark(Mark::Comma)) => Some(
            "one variable is assigned at a time; write a SEQ",
        ),
        Some(TokenKind::Mark(Mark::Equal)) => Some("an assignment is written x := 1"),
        Some(TokenKind::Name(_)) => Some("keywords are in capitals, as INT, SEQ and SKIP"),
        None => Some(
            "a process on one line is as x := 1, c ? x, c ! 1, or an instance p (); keywords are in capitals",
        ),
        _ => None,
    }
}

/// What to write where a process is wanted.
fn process_hint(found: Option<TokenKind<'_>>) -> Option<&'static str>
    ensures { option_map (λ h. h.now) result ≡ process_hint found.entry }
{
    match found {
        Some(TokenKind::Mark(Mark::Proc)) => Some(
            "a procedure is in no other one; write it above, at level 0",
        ),
        _ => Some(
            "a process begins with a name, SKIP, STOP, SEQ, PAR, IF, ALT, or the type of a declaration",
        ),
    }
}

/// What to write where the colon is wanted that ends a declaration.
fn abbreviation_hint(found: Option<TokenKind<'_>>) -> Option<&'static str>
    ensures { option_map (λ h. h.now) result ≡ abbreviation_hint found.entry }
{
    match found {
        Some(TokenKind::Mark(Mark::Is)) => Some("this language has no abbreviations of variables"),
        _ => None,
    }
}

/// What to write where a colon is wanted.
fn colon_hint(form: Form, found: Option<TokenKind<'_>>) -> Option<&'static str>
    ensures { option_map (λ h. h.now) result ≡ colon_hint form found.entry }
{
    match form {
        Form::Colon => Some("a procedure ends with a line `:` at level 0"),
        _ => abbreviation_hint(found),
    }
}

/// What to write where something is wanted on a line of this form.
fn wanted_hint(form: Form, wanted: Wanted, found: Option<TokenKind<'_>>) -> Option<&'static str>
    ensures { option_map (λ h. h.now) result ≡ wanted_hint form wanted found.entry }
{
    match wanted {
        Wanted::Mark(Mark::Colon) => colon_hint(form, found),
        Wanted::Mark(Mark::Of) => Some("a channel is declared as CHAN OF BYTE c, without ? or !"),
        Wanted::Mark(Mark::Input) => Some("a guard is as c ? x, or x > 0 & c ? x, or x > 0 & SKIP"),
        Wanted::Operand => operand_hint(found),
        Wanted::ValueType => Some("types are written as in VAL INT n IS 3: and CHAN OF BYTE c:"),
        Wanted::Shape => shape_hint(form, found),
        Wanted::Action => action_hint(found),
        Wanted::Item => Some("at level 0 are constants (VAL) and procedures (PROC)"),
        Wanted::Process => process_hint(found),
        _ => None,
    }
}

/// What to write where something is wrong on a line of this form.
fn lack_hint(form: Form, lack: Lack, found: Option<TokenKind<'_>>) -> Option<&'static str>
    ensures { option_map (λ h. h.now) result ≡ lack_hint form lack found.entry }
{
    match lack {
        Lack::Token(wanted) => wanted_hint(form, wanted, found),
        Lack::Nesting => None,
        Lack::Mixture => Some(
            "no operator comes before another one: a + (b * c), or (a + b) * c, or a < (-b)",
        ),
    }
}

/// What to write by the reason alone.
fn reason_hint(reason: ParseReason, found: Option<TokenKind<'_>>) -> Option<&'static str>
    ensures { option_map (λ h. h.now) result ≡ reason_hint reason found.entry }
{
    match reason {
        ParseReason::Form { form, stuck } => lack_hint(form, stuck.lack, found),
        ParseReason::OnlyOne { .. } => Some(
            "a replicator, a choice, a guard and a PROC have one process below; several are below a SEQ or a PAR, one level deeper",
        ),
        ParseReason::MissingColon => Some("a procedure ends with a line `:` at level 0"),
        ParseReason::MissingBody => Some(
            "declarations alone are no body; SKIP is a process that does nothing",
        ),
        _ => None,
    }
}

/// What to write in place of a token, if it is a word of occam 2 that this language lacks.
fn kind_hint(kind: TokenKind<'_>) -> Option<&'static str>
    ensures { option_map (λ h. h.now) result ≡ kind_hint kind.entry }
{
    match kind {
        TokenKind::Name(name) => word_hint(name),
        _ => None,
    }
}

/// Whether a token is a word of occam 2 that this language lacks.
fn is_lacked(token: &Token<'_>) -> bool
    ensures { result ≡ is_lacked token.now }
{
    kind_hint(token.kind).is_some()
}

/// The first such word of a line.
fn first_lacked<'t, 'a>(tokens: &'t [Token<'a>]) -> Option<&'t Token<'a>>
    ensures { option_copied result ≡ find is_lacked tokens.now }
{
    tokens.iter().find(|token| is_lacked(token))
}

/// What to write in place of a line: of its first such word, else of its fault.
#[tactic(auto, unfolding(crate::specs::ParseTexts::hint))]
fn hint(
    tokens: &[Token<'_>],
    reason: ParseReason,
    found: Option<TokenKind<'_>>,
) -> Option<&'static str>
    ensures { option_map (λ h. h.now) result ≡ hint tokens.now reason found.entry }
{
    match first_lacked(tokens) {
        Some(token) => kind_hint(token.kind),
        None => reason_hint(reason, found),
    }
}

/// Appends where and why a line is refused, the line, and what to write in its place.
#[tactic(auto, unfolding(crate::specs::ParseTexts::whole_text))]
fn push_whole(
    text: &mut String,
    path: &str,
    fault: ParseFault,
    line: &[u8],
    span: Span,
    tokens: &[Token<'_>],
    reason: ParseReason,
) -> Result<(), AllocError>
    requires { span.at < 2 ^ 32 }
    ensures { OnOk result (string_bytes text.new
        ≡ string_bytes text.old ++ whole_text path.now fault line.now span tokens.now reason) }
{
    let found = found_at(tokens, reason);
    let hint = hint(tokens, reason, found);
    push_place(text, path, fault.line, span.at)?;
    push_sentence(text, line, span, found, reason)?;
    push_rest(text, fault.number, line, span, hint)
}

/// The line with this number.
pub fn line_of<'l, 'a>(number: u32, lines: &'l [Line<'a>]) -> Option<&'l Line<'a>>
    ensures { option_copied result ≡ line_of number lines.now }
{
    lines.iter().find(|line| line.number == number)
}

/// What is written of lines of a source that are no program: the place, the reason, the line, and a hint. The path is
/// that of the source. There is no text where the line is not at fault so, or the source has no such line.
pub fn parse_text(
    alloc: Global,
    path: &str,
    source: &[u8],
    lines: &[Line<'_>],
    fault: ParseFault,
) -> Result<Option<String>, AllocError>
    ensures { IfOk result (λ text. option_map string_bytes text ≡ parse_text path.now source.now lines.now fault) }
{
    let Some(reason) = parse_reason(lines, fault) else {
        return Ok(None);
    };
    let Some(line) = line_of(fault.line, lines) else {
        return Ok(None);
    };
    let Some(found) = find_line(source, fault.line) else {
        return Ok(None);
    };
    let mut text = String::new(alloc);
    let span = span_of(found.offset, &line.tokens, reason);
    push_whole(
        &mut text,
        path,
        fault,
        found.bytes,
        span,
        &line.tokens,
        reason,
    )?;
    Ok(Some(text))
}
