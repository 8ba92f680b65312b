//! Whether what is asked for fits together.

ghost use Rattle.std.specs.Prelude.{◌≡◌, ◌&&◌, not, true, is_none, is_some, Some, option_map};
ghost use Rattle.std.specs.Option.{option_map_or};
ghost use Rattle.std.specs.Str.{bytes_eq};
ghost use Rattle.command_line.specs.Asked.{asked_of};
ghost use Rattle.command_line.specs.Links.{paths_of};
ghost use Rattle.command_line.specs.Fitting.{are_apart, are_same, has_pair, is_fit, is_stream, number_in};
ghost use Rattle.command_line.specs.Fitting.{stream_alone, streams_alone, with_digit};

use crate::lines::{Line, Misfit, Question};
use crate::links::{LinkPaths, OnLinks};

/// The number with one more digit, if that is one and the number is below 2^64.
fn with_digit(number: u64, byte: u8) -> Option<u64>
    ensures { result ≡ with_digit number byte }
{
    if byte < b'0' || byte > b'9' {
        return None;
    }
    let next = u128::from(number) * 10 + u128::from(byte - b'0');
    if next <= u128::from(u64::MAX) {
        Some(next as u64)
    } else {
        None
    }
}

/// The number below 2^64 whose decimal digits are these.
pub fn number_in(text: &str) -> Option<u64>
    ensures { result ≡ number_in text.now }
{
    let bytes = text.as_bytes();
    if bytes.is_empty() {
        return None;
    }
    let mut number = 0;
    for byte in bytes {
        number = with_digit(number, *byte)?;
    }
    Some(number)
}

/// Whether this is the path of a standard stream.
pub fn is_stream(path: &str) -> bool
    ensures { result ≡ is_stream path.now }
{
    path == "-"
}

/// Whether both paths are there, and they are the same word for word.
fn are_same(path: Option<&str>, other: Option<&str>) -> bool
    ensures { result ≡ are_same (option_map (λ p. p.now) path.entry) (option_map (λ p. p.now) other.entry) }
{
    match (path, other) {
        (Some(path), Some(other)) => path == other,
        _ => false,
    }
}

/// Whether some two of the paths are the same.
fn has_pair(paths: LinkPaths) -> bool
    ensures { result ≡ has_pair (paths_of paths.entry) }
{
    are_same(paths.first, paths.second)
        || are_same(paths.first, paths.third)
        || are_same(paths.first, paths.fourth)
        || are_same(paths.second, paths.third)
        || are_same(paths.second, paths.fourth)
        || are_same(paths.third, paths.fourth)
}

/// The path, if it is that of a standard stream.
fn stream_alone<'a>(path: Option<&'a str>) -> Option<&'a str>
    ensures { option_map (λ p. p.now) result ≡ stream_alone (option_map (λ p. p.now) path.entry) }
{
    match path {
        Some(path) if is_stream(path) => Some(path),
        _ => None,
    }
}

/// The paths of standard streams alone.
fn streams_alone<'a>(paths: LinkPaths<'a>) -> LinkPaths<'a>
    ensures { paths_of result ≡ streams_alone (paths_of paths.entry) }
{
    OnLinks {
        first: stream_alone(paths.first),
        second: stream_alone(paths.second),
        third: stream_alone(paths.third),
        fourth: stream_alone(paths.fourth),
    }
}

/// Why these paths cannot be on the links, if there is a reason.
fn misfit_of_links(inputs: LinkPaths, outputs: LinkPaths) -> Option<Misfit>
    ensures { is_none result ≡ are_apart (paths_of inputs.entry) (paths_of outputs.entry) }
{
    if has_pair(outputs) {
        Some(Misfit::SameOutputs)
    } else if has_pair(streams_alone(inputs)) {
        Some(Misfit::SameInputs)
    } else {
        None
    }
}

/// Whether there is a number in the text, if it is given.
fn is_number(text: Option<&str>) -> bool
    ensures { result ≡ option_map_or (λ t. is_some (number_in t)) (option_map (λ t. t.now) text.entry) true }
{
    match text {
        Some(text) => number_in(text).is_some(),
        None => true,
    }
}

/// Why a file cannot be written where another one is read, if there is a reason.
fn misfit_of_files(read: &str, written: &str) -> Option<Misfit>
    ensures { is_none result ≡ not (bytes_eq read.now written.now) }
{
    if read == written {
        Some(Misfit::SameFile)
    } else {
        None
    }
}

/// The same of a run of what is in a file.
fn misfit_of_debug(inputs: LinkPaths, outputs: LinkPaths, bytes: Option<&str>) -> Option<Misfit>
    ensures { let number = option_map_or (λ t. is_some (number_in t)) (option_map (λ t. t.now) bytes.entry) true in
        is_none result ≡ (are_apart (paths_of inputs.entry) (paths_of outputs.entry) && number) }
{
    if !is_number(bytes) {
        return Some(Misfit::NoNumber);
    }
    misfit_of_links(inputs, outputs)
}

/// Why what is asked for does not fit together, if there is a reason.
pub(crate) fn misfit(line: Line) -> Option<Misfit>
    ensures { is_none result ≡ is_fit (asked_of line.entry) }
{
    match line {
        Line::Compile { source, out } => misfit_of_files(source, out),
        Line::Upgrade { path, out } => misfit_of_files(path, out),
        Line::Debug {
            inputs,
            outputs,
            bytes,
            ..
        } => misfit_of_debug(inputs, outputs, bytes),
        Line::Ask {
            question: Question::Run { inputs, outputs },
            ..
        } => misfit_of_links(inputs, outputs),
        Line::Ask { .. } => None,
    }
}
