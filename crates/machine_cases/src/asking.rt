//! Asks the layers what statements ask of a file or a module.

use crate::altered_modules::judge_modules;
use crate::altered_runs::Runs;
use crate::altered_verdicts::Verdicts;
use crate::explaining::sentence;
use crate::following::follow;
use crate::lookups::look_up;
use crate::reporting::report;
use crate::running::{replayed, run};
use crate::setting::Setting;
use crate::stepping::step;
use crate::sums::{altered_sums, cuts};
use crate::upgrading::{NotUpgraded, put_upgraded, upgraded};
use crate::verdicts::verdict;
use certificate::Module;
use conformance::{Answer, Outcome, Statement, Subject, judged};
use module_cases::{Ways, Words, put_fault, put_read, question};
use std::alloc::Global;
use verifier::UpgradeFault;

/// What is asked of a module.
fn ask_module<'a>(
    alloc: Global,
    module: &'a Module<'a>,
    setting: &Setting,
    statement: Statement,
    out: &mut Answer,
) -> Outcome {
    let rest = statement.rest;
    match statement.word {
        "verify" => verdict(alloc, module, rest, out),
        "then" => run(alloc, module, setting, rest, out),
        "replay" => replayed(alloc, module, setting.events.as_str(), rest, out),
        "report" | "wrote" | "calls" | "failing" => report(alloc, module, setting, statement, out),
        "explain" => sentence(alloc, module, rest, out),
        "step" => step(alloc, module, setting.process.as_str(), rest, out),
        "follow" => follow(alloc, module, setting.state.as_str(), rest, out),
        name => look_up(module, name, rest, out),
    }
}

/// What is asked of the module in these bytes.
fn ask_bytes_of_module(
    alloc: Global,
    bytes: &[u8],
    setting: &Setting,
    statement: Statement,
    out: &mut Answer,
) -> Outcome {
    match Module::read(alloc, bytes) {
        Ok(module) => ask_module(alloc, &module, setting, statement, out),
        Err(fault) => {
            put_fault(fault, out);
            Outcome::Differs
        }
    }
}

/// What is asked of the module that a file is. A module of version 1 has to answer the same once it is upgraded.
fn ask_file(alloc: Global, setting: &Setting, statement: Statement, out: &mut Answer) -> Outcome {
    let outcome = ask_bytes_of_module(alloc, setting.file.bytes(), setting, statement, out);
    if outcome != Outcome::Held {
        return outcome;
    }
    match upgraded(alloc, setting.file.bytes()) {
        Ok(bytes) => {
            out.clear();
            ask_bytes_of_module(alloc, &bytes, setting, statement, out)
        }
        Err(NotUpgraded::Fault(UpgradeFault::Upgraded)) => Outcome::Held,
        Err(_) => Outcome::OutOfMemory,
    }
}

/// What is asked of the files that a file becomes in these ways: how many are read, or what their runs or the verdicts
/// on them come to.
fn ask_altered(
    alloc: Global,
    setting: &mut Setting,
    word: &str,
    ways: Ways,
    expected: &str,
    out: &mut Answer,
) -> Outcome {
    match word {
        "run_bits" | "run_bytes" => judge_modules(alloc, setting, ways, Runs::NONE, expected, out),
        "judge_bits" | "judge_bytes" => {
            judge_modules(alloc, setting, ways, Verdicts::NONE, expected, out)
        }
        _ => altered_sums(alloc, setting.file.bytes_mut(), ways, expected, out),
    }
}

/// What is asked of the files with a byte altered: `FROM TO = ANSWER`.
fn ask_bytes(
    alloc: Global,
    setting: &mut Setting,
    statement: Statement,
    out: &mut Answer,
) -> Outcome {
    let (range, expected) = question(statement.rest);
    let mut words = Words::of(range);
    let (from, to) = (words.number(), words.number());
    if !words.is_read() || to as usize > setting.file.bytes().len() {
        return Outcome::Unreadable;
    }
    let ways = Ways::Bytes { from, to };
    ask_altered(alloc, setting, statement.word, ways, expected, out)
}

/// What is asked of a file, and else of a module.
fn ask(alloc: Global, setting: &mut Setting, statement: Statement, out: &mut Answer) -> Outcome {
    let Statement { word, rest, .. } = statement;
    match word {
        "read" => put_read(alloc, setting.file.bytes(), out),
        "cuts" => cuts(alloc, setting.file.bytes(), out),
        "upgrade" => put_upgraded(alloc, setting.file.bytes(), out),
        "bits" | "run_bits" | "judge_bits" => {
            return ask_altered(alloc, setting, word, Ways::Bits, rest, out);
        }
        "bytes" | "run_bytes" | "judge_bytes" => return ask_bytes(alloc, setting, statement, out),
        _ => return ask_file(alloc, setting, statement, out),
    }
    judged(out, rest)
}

impl Subject for Setting {
    fn begin(alloc: Global) -> Self {
        Setting::new(alloc)
    }

    fn perform(&mut self, statement: Statement, out: &mut Answer) -> Outcome {
        match self.take(statement) {
            Some(outcome) => outcome,
            None => ask(self.alloc, self, statement, out),
        }
    }
}
