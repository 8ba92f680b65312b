//! What is asked of a run of a module with readers and writers.

use crate::calls::CallFailure;
use crate::course::{Course, course_of};
use crate::failing::put_failing;
use crate::setting::Setting;
use certificate::Module;
use conformance::{Answer, Outcome, Statement, judged};
use module_cases::question;
use std::alloc::Global;
use verifier::{Verified, verify};

/// What each call that fails in turn leads to.
fn ask_failing(
    alloc: Global,
    verified: &Verified,
    setting: &Setting,
    rest: &str,
    out: &mut Answer,
) -> Outcome {
    let (word, expected) = question(rest);
    match CallFailure::of(word) {
        Some(how) => {
            put_failing(alloc, verified, setting.links.as_str(), how, out);
            judged(out, expected)
        }
        None => Outcome::Unreadable,
    }
}

/// One of the texts on a run.
fn judge_text(text: &Answer, course: &Course, expected: &str, out: &mut Answer) -> Outcome {
    out.put(text.as_str());
    if course.is_out_of_memory() {
        out.fail();
    }
    judged(out, expected)
}

/// What is asked of an accepted module.
fn ask_verified(
    alloc: Global,
    verified: &Verified,
    setting: &Setting,
    statement: Statement,
    out: &mut Answer,
) -> Outcome {
    let rest = statement.rest;
    if statement.word == "failing" {
        return ask_failing(alloc, verified, setting, rest, out);
    }
    let course = course_of(alloc, verified, setting.links.as_str(), setting.failing);
    match statement.word {
        "report" => judge_text(&course.outcome, &course, rest, out),
        "wrote" => judge_text(&course.wrote, &course, rest, out),
        "calls" => judge_text(&course.calls, &course, rest, out),
        _ => Outcome::Unreadable,
    }
}

/// What is asked of a run of a module. The answer of one that is refused is the rule and the offset.
pub(crate) fn report(
    alloc: Global,
    module: &Module,
    setting: &Setting,
    statement: Statement,
    out: &mut Answer,
) -> Outcome {
    match verify(alloc, module) {
        Ok(verified) => ask_verified(alloc, &verified, setting, statement, out),
        Err(refusal) => {
            out.fault("V", refusal.number, u64::from(refusal.offset));
            judged(out, statement.rest)
        }
    }
}
