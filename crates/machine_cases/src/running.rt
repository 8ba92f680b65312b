//! The answers of machines.

use crate::accepted::pair;
use crate::setting::Setting;
use accepted_runs::{Replay, replay};
use certificate::Module;
use conformance::{Answer, Outcome, judged};
use machine::{Checked, Stop};
use machine_state::{Event, Fault};
use module_cases::{LINKS, Words, event, letter, names_effect};
use std::alloc::Global;
use verifier::{Verified, verify};

/// How a run went so far.
#[derive(Clone, Copy)]
struct Progress {
    /// What the last event did, if that is not what the word for it says.
    differing: Option<&'static str>,
    fault: Option<Fault>,
    outcome: Outcome,
}

/// Lets an event happen, and compares what it did with a word.
fn one_event(machine: &mut Checked, event: Event, expected: &str, progress: &mut Progress) {
    match machine.apply(event) {
        Ok(effect) if names_effect(expected, effect) => {}
        Ok(effect) => progress.differing = Some(letter(effect)),
        Err(Stop::Fault(fault)) => {
            let is_another = progress.fault.is_some() && progress.fault != Some(fault);
            progress.fault = Some(fault);
            if expected != "F" || is_another {
                progress.differing = Some("F");
            }
        }
        Err(Stop::Memory) => progress.outcome = Outcome::OutOfMemory,
    }
}

/// Lets the events happen up to the first that does not do what is expected.
fn all_events(machine: &mut Checked, setting: &Setting) -> Progress {
    let mut progress = Progress {
        differing: None,
        fault: None,
        outcome: Outcome::Held,
    };
    let mut events = Words::of(setting.events.as_str());
    let mut effects = Words::of(setting.effects.as_str());
    for _ in 0..u64::MAX {
        let Some(word) = events.next() else {
            break;
        };
        match event(word) {
            Some(event) => one_event(machine, event, effects.word(), &mut progress),
            None => progress.outcome = Outcome::Unreadable,
        }
        if progress.differing.is_some() || progress.outcome != Outcome::Held {
            break;
        }
    }
    progress
}

/// A fault of a process as a case says it.
pub(crate) fn put_process_fault(fault: Fault, out: &mut Answer) {
    out.fault("F", fault.number, fault.process);
    out.put(" ");
    out.number(i64::from(fault.offset));
}

/// The answers to the four questions.
fn put_questions(machine: &Checked, out: &mut Answer) {
    out.great(machine.executed());
    out.put(" ");
    out.digit(machine.finished());
    out.put(" ");
    out.digit(machine.running());
    out.put(" ");
    for link in LINKS {
        out.digit(machine.wants(link));
    }
}

/// What comes of a run that ended: its fault, and the answers to the four questions.
fn judge_end(machine: &Checked, expected: &str, out: &mut Answer) -> Outcome {
    out.clear();
    put_questions(machine, out);
    judged(out, expected)
}

/// What comes of the events of a run on a machine.
fn judge_run(
    machine: &mut Checked,
    setting: &Setting,
    expected: &str,
    out: &mut Answer,
) -> Outcome {
    let progress = all_events(machine, setting);
    if let Some(fault) = progress.fault {
        put_process_fault(fault, out);
    }
    if progress.outcome != Outcome::Held {
        return progress.outcome;
    }
    if out.as_str() != setting.fault.as_str() {
        return Outcome::Differs;
    }
    match progress.differing {
        Some(letter) => {
            out.put(letter);
            out.put(" in place of what an event should do");
            Outcome::Differs
        }
        None => judge_end(machine, expected, out),
    }
}

/// The events of a run, with what each does, and the answers to the four questions afterwards. If the module is
/// accepted, both machines do the same.
pub(crate) fn run(
    alloc: Global,
    module: &Module,
    setting: &Setting,
    expected: &str,
    out: &mut Answer,
) -> Outcome {
    if Words::of(setting.effects.as_str()).count() > Words::of(setting.events.as_str()).count() {
        return Outcome::Unreadable;
    }
    let paired = pair(alloc, module, setting.events.as_str());
    if paired != Outcome::Held {
        out.put("the plain machine does not do the same");
        return paired;
    }
    match Checked::load(alloc, module) {
        Ok(mut machine) => judge_run(&mut machine, setting, expected, out),
        Err(_) => Outcome::OutOfMemory,
    }
}

/// Appends the events of a run. `false` if one cannot be read or memory runs out.
fn read_events(events: &mut Vec<Event>, text: &str) -> bool {
    let mut words = Words::of(text);
    for _ in 0..words.count() {
        let Some(event) = event(words.word()) else {
            return false;
        };
        if events.push(event).is_err() {
            return false;
        }
    }
    true
}

/// The bytes executed, whether the module is finished, and what went out on each link.
fn put_replay(replay: &Replay, out: &mut Answer) {
    out.great(replay.executed);
    out.put(" ");
    out.digit(replay.finished);
    for bytes in &replay.out {
        out.put(if bytes.is_empty() { " -" } else { " " });
        for byte in bytes {
            out.hexadecimal(*byte);
        }
    }
}

/// What `replay` returns for events.
fn put_answer(alloc: Global, verified: &Verified, events: &[Event], out: &mut Answer) {
    match replay(alloc, verified, events) {
        Ok(replay) => put_replay(&replay, out),
        Err(_) => out.fail(),
    }
}

/// What `replay` returns for the events of a run, if the module is accepted.
pub(crate) fn replayed(
    alloc: Global,
    module: &Module,
    text: &str,
    expected: &str,
    out: &mut Answer,
) -> Outcome {
    let mut events = Vec::new(alloc);
    if !read_events(&mut events, text) {
        return Outcome::Unreadable;
    }
    match verify(alloc, module) {
        Ok(verified) => put_answer(alloc, &verified, &events, out),
        Err(refusal) => out.fault("V", refusal.number, u64::from(refusal.offset)),
    }
    judged(out, expected)
}
