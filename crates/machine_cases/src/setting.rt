//! What the statements before a question say.

use crate::calls::Failing;
use crate::links::are_links;
use conformance::{Outcome, Statement};
use module_cases::CaseFile;
use std::alloc::Global;

/// What is asked about: a file, and a run of its module, a process in it, or a state of it.
#[derive(Drop)]
pub struct Setting {
    pub(crate) alloc: Global,
    pub(crate) file: CaseFile,
    /// The events of a run, what each of them does, and the fault that is reported.
    pub(crate) events: String,
    pub(crate) effects: String,
    pub(crate) fault: String,
    /// A process before an instruction.
    pub(crate) process: String,
    /// What is known before an instruction.
    pub(crate) state: String,
    /// What the links of a run are given, and which call of their readers and writers fails.
    pub(crate) links: String,
    pub(crate) failing: Option<Failing>,
}

impl Setting {
    pub(crate) fn new(alloc: Global) -> Self {
        Setting {
            alloc,
            file: CaseFile::new(alloc),
            events: String::new(alloc),
            effects: String::new(alloc),
            fault: String::new(alloc),
            process: String::new(alloc),
            state: String::new(alloc),
            links: String::new(alloc),
            failing: None,
        }
    }

    /// Takes a statement that asks nothing; any other is left.
    pub(crate) fn take(&mut self, statement: Statement) -> Option<Outcome> {
        let rest = statement.rest;
        let is_read = match statement.word {
            "run" => self.begin_run(rest),
            "did" => keep(&mut self.effects, rest),
            "fault" => keep(&mut self.fault, rest),
            "process" => keep(&mut self.process, rest),
            "state" => keep(&mut self.state, rest),
            "links" => self.give(rest),
            "fail" => self.fail(rest),
            _ => return self.file.take(statement),
        };
        Some(Outcome::set(is_read))
    }

    fn begin_run(&mut self, events: &str) -> bool {
        self.effects.clear();
        self.fault.clear();
        keep(&mut self.events, events)
    }

    /// Gives something to the links, and no call fails.
    fn give(&mut self, links: &str) -> bool {
        self.failing = None;
        are_links(self.alloc, links) && keep(&mut self.links, links)
    }

    fn fail(&mut self, text: &str) -> bool {
        self.failing = Failing::of(text);
        self.failing.is_some()
    }
}

/// Keeps a text for the questions that follow. `false` if memory runs out.
fn keep(kept: &mut String, text: &str) -> bool {
    kept.clear();
    kept.push_str(text).is_ok()
}
