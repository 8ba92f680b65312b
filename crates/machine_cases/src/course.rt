//! A run, and what came of it.

use crate::calls::{CallLog, Failing};
use crate::reader::reader;
use crate::writer::{CaseWriter, writer};
use conformance::Answer;
use link_runner::{Outcome, Report, RunError, run};
use machine_state::Link;
use std::alloc::Global;
use verifier::Verified;

/// What came of a run, each as a text.
#[derive(Drop)]
pub(crate) struct Course {
    /// How it ended, or the link that failed.
    pub(crate) outcome: Answer,
    /// What each writer took.
    pub(crate) wrote: Answer,
    /// What the readers and writers were called for, in order.
    pub(crate) calls: Answer,
    /// How often they were called.
    pub(crate) count: u64,
}

impl Course {
    fn new(alloc: Global) -> Self {
        Course {
            outcome: Answer::new(alloc),
            wrote: Answer::new(alloc),
            calls: Answer::new(alloc),
            count: 0,
        }
    }

    /// Whether memory ran out while a text was written.
    pub(crate) fn is_out_of_memory(&self) -> bool {
        self.outcome.is_out_of_memory()
            || self.wrote.is_out_of_memory()
            || self.calls.is_out_of_memory()
    }
}

fn put_counts(out: &mut Answer, word: &str, counts: [u64; 4]) {
    out.put(word);
    for count in counts {
        out.put(" ");
        out.great(count);
    }
}

fn put_report(out: &mut Answer, report: Report) {
    out.put(match report.outcome {
        Outcome::Ended => "ended ",
        Outcome::Idle => "idle ",
    });
    out.great(report.executed);
    put_counts(out, " read", report.read);
    put_counts(out, " written", report.written);
}

fn put_failed(out: &mut Answer, direction: &str, link: Link) {
    out.put(direction);
    out.great(link.index() as u64);
    out.put(" failed");
}

/// A report, or what failed: `in0 failed` or `out0 failed`.
fn put_outcome(out: &mut Answer, ran: Result<Report, RunError>) {
    match ran {
        Ok(report) => put_report(out, report),
        Err(RunError::ReadFailed(link)) => put_failed(out, "in", link),
        Err(RunError::WriteFailed(link)) => put_failed(out, "out", link),
        Err(RunError::Memory) => out.fail(),
    }
}

/// What each writer took, `-` if it took nothing or there is none.
fn put_wrote(out: &mut Answer, writers: &[Option<CaseWriter>]) {
    for writer in writers {
        let length = out.as_str().len();
        if length > 0 {
            out.put(" ");
        }
        match writer {
            Some(writer) if writer.has_taken() => writer.put_taken(out),
            _ => out.put("-"),
        }
    }
}

/// Runs a module with the readers and writers that a case gives to its links.
fn run_with(alloc: Global, verified: &Verified, links: &str, calls: &CallLog, course: &mut Course) {
    let mut readers = [
        reader(links, "in0", calls),
        reader(links, "in1", calls),
        reader(links, "in2", calls),
        reader(links, "in3", calls),
    ];
    let mut writers = [
        writer(alloc, links, "out0", calls),
        writer(alloc, links, "out1", calls),
        writer(alloc, links, "out2", calls),
        writer(alloc, links, "out3", calls),
    ];
    let ran = run(alloc, verified, &mut readers, &mut writers);
    put_outcome(&mut course.outcome, ran);
    put_wrote(&mut course.wrote, &writers);
}

/// A run of a module with the readers and writers that a case gives to its links, of whose calls one may fail.
pub(crate) fn course_of(
    alloc: Global,
    verified: &Verified,
    links: &str,
    failing: Option<Failing>,
) -> Course {
    let calls = CallLog::new(alloc, failing);
    let mut course = Course::new(alloc);
    run_with(alloc, verified, links, &calls, &mut course);
    calls.put(&mut course.calls);
    course.count = calls.count();
    course
}
