//! Tries the cases of files or of standard input, and prints what came of them.

ghost use Rattle.std.specs.Prelude.{◌≤◌, IfOk};
ghost use Rattle.std.specs.Process.{exit_status};

use crate::answer::Answer;
use crate::kind::Kind;
use crate::outcome::Outcome;
use crate::report::Report;
use crate::statements::{Statement, first_statement, lines_of};
use crate::subject::Subject;
use std::alloc::Global;
use std::process::ExitCode;
use std::rt::Files;
use std::{fs, io};

/// What comes of a statement, with the answer in `out`.
fn perform(subject: &mut impl Subject, statement: Statement, out: &mut Answer) -> Outcome {
    out.clear();
    let outcome = subject.perform(statement, out);
    if out.is_out_of_memory() {
        Outcome::OutOfMemory
    } else {
        outcome
    }
}

/// Tries the cases of these lines of a text with this name.
fn try_lines<S: Subject>(alloc: Global, name: &str, lines: &[&str], report: &mut Report) {
    let mut subject = S::begin(alloc);
    let mut out = Answer::new(alloc);
    for place in 0..lines.len() {
        if let Some(statement) = first_statement(&lines[place..], place + 1) {
            let outcome = perform(&mut subject, statement, &mut out);
            report.add(name, statement, outcome, out.as_str());
        }
    }
}

/// Tries the cases of a text, which are about such a subject. The name of the text is said with each that differs.
pub fn try_text<S: Subject>(alloc: Global, name: &str, text: &str, report: &mut Report) {
    match lines_of(alloc, text) {
        Ok(lines) => try_lines::<S>(alloc, name, &lines, report),
        Err(_) => report.fail(),
    }
}

/// Tries the cases of a file, which are of this kind. The error is `InvalidInput` if no kind was named.
fn try_file<K: Kind, R: Files + AllocGlobal>(
    rt: &R,
    kind: Option<K>,
    name: &str,
    report: &mut Report,
) -> io::Result<()> {
    let Some(kind) = kind else {
        return Err(io::ErrorKind::InvalidInput.into());
    };
    let text = fs::read_to_string(rt, name)?;
    kind.try_text(rt.alloc(), name, text.as_str(), report);
    Ok(())
}

/// Tries the cases of standard input, which are of this kind.
fn try_input<K: Kind, R: Input + AllocGlobal>(
    rt: &R,
    kind: K,
    report: &mut Report,
) -> io::Result<()> {
    let text = io::read_to_string(rt.alloc(), rt.reader())?;
    kind.try_text(rt.alloc(), "standard input", text.as_str(), report);
    Ok(())
}

/// Tries the cases of the files with these names, each of the kind that is named before it. If the last word names a kind,
/// the cases of standard input are of it.
fn try_files<K: Kind, R: Files + Input + AllocGlobal>(
    rt: &R,
    words: &[String],
    report: &mut Report,
) -> io::Result<()> {
    let mut kind = None;
    let mut is_last = false;
    for word in words {
        let named = K::named(word.as_str());
        is_last = named.is_some();
        match named {
            Some(_) => kind = named,
            None => try_file(rt, kind, word.as_str(), report)?,
        }
    }
    match kind {
        Some(kind) if is_last => try_input(rt, kind, report),
        _ => Ok(()),
    }
}

/// Prints what came of the cases, unless memory ran out.
fn print(rt: &impl Print, report: &mut Report) -> io::Result<()> {
    report.put_counts();
    if report.is_out_of_memory() {
        return Err(io::ErrorKind::OutOfMemory.into());
    }
    println!(rt; "{}", report.as_str())
}

/// Tries the cases that the words of a command line name, and prints what came of them.
pub(crate) fn try_named<K: Kind, R: Files + Input + Print + AllocGlobal>(
    rt: &R,
    words: &[String],
) -> io::Result<ExitCode>
    ensures { IfOk result (λ code. exit_status code ≤ 1) }
{
    let mut report = Report::new(rt.alloc());
    try_files::<K, R>(rt, words.get(1..).unwrap_or(&[]), &mut report)?;
    print(rt, &mut report)?;
    Ok(ExitCode::from(u8::from(!report.is_clean())))
}
