//! Compiles a source, and asks what comes of its module, as statements ask.

use crate::given::Given;
use crate::running::judge_runs;
use crate::setting::Setting;
use certificate::Module;
use compiler::compile;
use conformance::{Answer, Outcome, Statement, judged};
use std::alloc::Global;
use verifier::verify;

/// Whether an answer, a word and what follows it, is this statement. `compiled` alone is right for any length.
fn is_answer(answer: &str, statement: Statement) -> bool {
    let (word, rest) = answer.split_once(' ').unwrap_or((answer, ""));
    let is_any = statement.word == "compiled" && statement.rest.is_empty();
    word == statement.word && (is_any || rest == statement.rest)
}

/// What comes of the source: `compiled` and the length of the module, or `refused` and the fault.
pub(crate) fn ask_compiler(
    setting: &mut Setting,
    statement: Statement,
    out: &mut Answer,
) -> Outcome {
    setting.module.clear();
    match compile(setting.alloc, setting.source.as_bytes()) {
        Ok(module) => {
            out.put("compiled ");
            out.great(module.len() as u64);
            setting.module = module;
        }
        Err(fault) => {
            out.put("refused ");
            out.debug(&fault);
        }
    }
    Outcome::of(is_answer(out.as_str(), statement))
}

/// The budget of a module that is accepted.
fn ask_budget(alloc: Global, module: &Module, expected: &str, out: &mut Answer) -> Outcome {
    match verify(alloc, module) {
        Ok(_) => out.great(module.tables().budget),
        Err(refusal) => out.fault("V", refusal.number, u64::from(refusal.offset)),
    }
    judged(out, expected)
}

/// What is asked of the module that a file is.
fn ask_file(
    alloc: Global,
    file: &[u8],
    given: &Given,
    statement: Statement,
    out: &mut Answer,
) -> Outcome {
    match Module::read(alloc, file) {
        Ok(module) if statement.word == "run" => {
            judge_runs(alloc, &module, given, statement.rest, out)
        }
        Ok(module) => ask_budget(alloc, &module, statement.rest, out),
        Err(fault) => {
            out.fault("C", fault.number, fault.offset as u64);
            Outcome::Differs
        }
    }
}

/// What is asked of the module of the source: its budget, or a run, which takes what the links were given.
pub(crate) fn ask_module(setting: &mut Setting, statement: Statement, out: &mut Answer) -> Outcome {
    let given = &setting.given;
    let outcome = ask_file(setting.alloc, &setting.module, given, statement, out);
    if statement.word == "run" {
        setting.given = Given::new();
    }
    outcome
}
