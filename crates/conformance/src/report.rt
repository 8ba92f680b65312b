//! What came of cases: the counts, and the text on those that differ.

use crate::answer::Answer;
use crate::outcome::Outcome;
use crate::statements::Statement;
use std::alloc::Global;

/// How many cases came out how.
#[derive(Clone, Copy)]
struct Counts {
    held: u64,
    differing: u64,
    unreadable: u64,
}

/// What came of the cases so far.
#[derive(Drop)]
pub struct Report {
    counts: Counts,
    text: Answer,
}

impl Report {
    pub(crate) fn new(alloc: Global) -> Self {
        Report {
            counts: Counts {
                held: 0,
                differing: 0,
                unreadable: 0,
            },
            text: Answer::new(alloc),
        }
    }

    /// Whether no case differs and each could be read.
    pub(crate) fn is_clean(&self) -> bool {
        self.counts.differing == 0 && self.counts.unreadable == 0
    }

    /// Whether memory ran out at some time.
    pub(crate) fn is_out_of_memory(&self) -> bool {
        self.text.is_out_of_memory()
    }

    pub(crate) fn as_str(&self) -> &str {
        self.text.as_str()
    }

    /// Memory ran out.
    pub(crate) fn fail(&mut self) {
        self.text.fail();
    }

    fn put_place(&mut self, name: &str, line: usize) {
        self.text.put(name);
        self.text.put(":");
        self.text.great(line as u64);
        self.text.put(": ");
    }

    /// A case that differs, and the answer.
    fn put_difference(&mut self, name: &str, statement: Statement, answer: &str) {
        self.put_place(name, statement.line);
        self.text.put(statement.word);
        self.text.put(" ");
        self.text.put(statement.rest);
        for line in statement.block {
            self.text.put("\n");
            self.text.put(line);
        }
        self.text.put("\nbut the answer is: ");
        self.text.put(answer);
        self.text.put("\n");
    }

    /// Counts a statement of a text with this name, and says where its answer is not the expected one.
    pub(crate) fn add(&mut self, name: &str, statement: Statement, outcome: Outcome, answer: &str) {
        let counts = &mut self.counts;
        match outcome {
            Outcome::Set => {}
            Outcome::Held => counts.held = counts.held.saturating_add(1),
            Outcome::Differs => {
                counts.differing = counts.differing.saturating_add(1);
                self.put_difference(name, statement, answer);
            }
            Outcome::Unreadable => {
                counts.unreadable = counts.unreadable.saturating_add(1);
                self.put_place(name, statement.line);
                self.text.put("cannot be read\n");
            }
            Outcome::OutOfMemory => self.fail(),
        }
    }

    /// Appends the counts.
    pub(crate) fn put_counts(&mut self) {
        let counts = self.counts;
        self.text.great(counts.held);
        self.text.put(" answers hold, ");
        self.text.great(counts.differing);
        self.text.put(" differ, ");
        self.text.great(counts.unreadable);
        self.text.put(" cannot be read");
    }
}
