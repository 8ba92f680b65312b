//! The answers of a module to look-ups.

use certificate::Module;
use conformance::{Answer, Outcome, judged};
use module_cases::{Words, end, question};

/// The answer to the look-up of this name in a context or at an offset: `none`, `true` or `false`, or the numbers that
/// are found.
fn put_found(module: &Module, name: &str, number: u32, words: &mut Words, out: &mut Answer) {
    match name {
        "context" => context(module, number, out),
        "parameters" => out.great(module.parameters(number).len() as u64),
        "branch" => branch(module, number, out),
        "label_at" => label_at(module, number, out),
        "procedure_at" => procedure_at(module, number, out),
        "branch_at" => branch_at(module, number, out),
        "is_start" => out.truth(module.is_start(number)),
        _ => put_right(module, name, number, words, out),
    }
}

/// The answer to the look-up of this name of what a context may do.
fn put_right(module: &Module, name: &str, context: u32, words: &mut Words, out: &mut Answer) {
    match name {
        "may_write_word" => out.truth(module.may_write_word(context, words.signed())),
        "may_read_word" => out.truth(module.may_read_word(context, words.signed())),
        "channel_length" => channel_length(module, context, words.integer(), out),
        "has_end" => out.truth(module.has_end(context, end(words))),
        _ => words.fail(),
    }
}

/// A look-up: `NAME ARGUMENTS = ANSWER`.
pub(crate) fn look_up(module: &Module, name: &str, rest: &str, out: &mut Answer) -> Outcome {
    let (arguments, expected) = question(rest);
    let mut words = Words::of(arguments);
    let number = words.number();
    put_found(module, name, number, &mut words, out);
    if words.is_read() {
        judged(out, expected)
    } else {
        Outcome::Unreadable
    }
}

fn label_at(module: &Module, offset: u32, out: &mut Answer) {
    match module.label_at(offset) {
        Some(row) => out.great(row.number),
        None => out.put("none"),
    }
}

fn procedure_at(module: &Module, offset: u32, out: &mut Answer) {
    match module.procedure_at(offset) {
        Some((context, _)) => out.great(u64::from(context)),
        None => out.put("none"),
    }
}

fn channel_length(module: &Module, context: u32, word: i32, out: &mut Answer) {
    match module.channel_length(context, word) {
        Some(length) => out.great(u64::from(length)),
        None => out.put("none"),
    }
}

fn put_pair(first: i64, second: i64, out: &mut Answer) {
    out.number(first);
    out.put(" ");
    out.number(second);
}

/// The frame's words, and how many parameters there are.
fn context(module: &Module, number: u32, out: &mut Answer) {
    match module.context(number) {
        Some(context) => {
            put_pair(context.lo, context.hi, out);
            out.put(" ");
            out.great(context.parameters as u64);
        }
        None => out.put("none"),
    }
}

/// The context of the PAR, and the branch's workspace.
fn branch(module: &Module, number: u32, out: &mut Answer) {
    match module.branch(number) {
        Some((par, branch)) => put_pair(i64::from(par.context), i64::from(branch.workspace), out),
        None => out.put("none"),
    }
}

/// The branch's context and its workspace.
fn branch_at(module: &Module, offset: u32, out: &mut Answer) {
    match module.branch_at(offset) {
        Some((context, _par, branch)) => put_pair(
            i64::from(context),
            i64::from(branch.workspace),
            out,
        ),
        None => out.put("none"),
    }
}
