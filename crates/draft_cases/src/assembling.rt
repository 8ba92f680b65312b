//! The answers about a draft.

ghost use Rattle.module_builder.specs.Drafts.{IsComplete};

use crate::drafts::add_lines;
use conformance::{Answer, Outcome, Statement, judged};
use module_builder::{Draft, GenFault, assemble, is_whole, layout, spell};
use module_cases::Words;
use module_format::Version;
use std::alloc::Global;

fn put_fault(fault: GenFault, out: &mut Answer) {
    match fault {
        GenFault::Limit => out.put("G1"),
        GenFault::Memory => out.fail(),
        GenFault::Invalid => out.put("G3"),
    }
}

/// `same` if a draft is assembled to the file, and else how many bytes it is assembled to, or the fault.
fn put_assembled(alloc: Global, draft: &Draft, file: &[u8], out: &mut Answer) {
    if !is_whole(draft) {
        out.put("not whole");
        return;
    }
    match assemble(alloc, draft) {
        Ok(bytes) if bytes.as_slice() == file => out.put("same"),
        Ok(bytes) => {
            out.great(bytes.len() as u64);
            out.put(" bytes");
        }
        Err(fault) => put_fault(fault, out),
    }
}

/// The code of a draft under its least layout.
fn code_of(alloc: Global, draft: &Draft) -> Result<Vec<u8>, GenFault>
    requires { IsComplete draft.now.code }
{
    let layout = layout(alloc, draft)?;
    spell(alloc, draft, &layout)
}

/// Whether words are these bytes, each in two hexadecimal digits.
fn are_bytes(mut words: Words, bytes: &[u8]) -> bool {
    for byte in bytes {
        if u8::from_str_radix(words.word(), 16) != Ok(*byte) {
            return false;
        }
    }
    words.is_read()
}

/// Compares code with the bytes that are expected.
fn judge_code(code: &[u8], expected: &str, out: &mut Answer) -> Outcome {
    for byte in code {
        out.hexadecimal(*byte);
    }
    Outcome::of(are_bytes(Words::of(expected), code))
}

/// What comes of the code of a draft: its bytes, or the fault.
fn spelled(alloc: Global, draft: &Draft, expected: &str, out: &mut Answer) -> Outcome {
    if !draft.code.is_complete() {
        out.put("not complete");
        return judged(out, expected);
    }
    match code_of(alloc, draft) {
        Ok(code) => judge_code(&code, expected, out),
        Err(fault) => {
            put_fault(fault, out);
            judged(out, expected)
        }
    }
}

/// What is asked of the draft that a block writes.
pub(crate) fn ask_draft(
    alloc: Global,
    file: &[u8],
    statement: Statement,
    out: &mut Answer,
) -> Outcome {
    let mut draft = Draft::new(alloc, Version::One);
    if !add_lines(alloc, &mut draft, statement.block) {
        return Outcome::Unreadable;
    }
    if statement.word == "spell" {
        return spelled(alloc, &draft, statement.rest, out);
    }
    put_assembled(alloc, &draft, file, out);
    judged(out, statement.rest)
}
