//! The report of a run.

ghost use Rattle.std.specs.Prelude.{◌≡◌, ◌++◌, Some, option_map, IfOk, string_bytes};
ghost use Rattle.command_line.specs.Links.{names_of, paths_of};
ghost use Rattle.file_runs.specs.RunTexts.{count_line, count_text, counts_text, debug_text, ending_at, ending_of, run_text};
ghost use Rattle.file_runs.specs.RunTexts.{summary_text};

use crate::debugging::Ending;
use command_line::{LinkNames, LinkPaths, input_names, output_names};
use link_runner::{Outcome, Report};
use std::alloc::{AllocError, Global};
use std::fmt;

/// How a run ended, and after how many bytes.
#[derive(Clone, Copy)]
pub enum RunSummary {
    /// The module's end was reached, after this number of bytes.
    Ended { executed: u64 },
    /// No process is running, after this number of bytes.
    Idle { executed: u64 },
    /// The run went on no further after this number of bytes, where something was left to do.
    Stopped { executed: u64 },
}

impl fmt::Display for RunSummary {
    ghost output = { λ summary. Some (summary_text summary) };

    fn fmt<W: fmt::Write>(&self, f: &mut fmt::Formatter<W>) -> fmt::Result {
        match self {
            RunSummary::Ended { executed } => write!(f, "ended, {executed} bytes executed"),
            RunSummary::Idle { executed } => write!(f, "idle, {executed} bytes executed"),
            RunSummary::Stopped { executed } => write!(f, "stopped, {executed} bytes executed"),
        }
    }
}

/// How many bytes went over a link. It is not reported if the link has no file.
#[derive(Clone, Copy)]
struct LinkCount {
    name: &'static str,
    count: Option<u64>,
}

impl LinkCount {
    fn new(name: &'static str, path: Option<&str>, count: u64) -> Self
        ensures { count_text result.name.now result.count
            ≡ count_line name.entry.now (option_map (λ p. p.now) path.entry) count }
    {
        LinkCount {
            name,
            count: if path.is_some() { Some(count) } else { None },
        }
    }
}

impl fmt::Display for LinkCount {
    ghost output = { λ c. Some (count_text c.name.now c.count) };

    fn fmt<W: fmt::Write>(&self, f: &mut fmt::Formatter<W>) -> fmt::Result {
        match self.count {
            Some(count) => write!(f, "{} {count} bytes\n", self.name),
            None => Ok(()),
        }
    }
}

/// How many bytes went over the links of one direction.
#[derive(Clone, Copy)]
struct LinkCounts {
    first: LinkCount,
    second: LinkCount,
    third: LinkCount,
    fourth: LinkCount,
}

impl LinkCounts {
    fn new(names: LinkNames, paths: LinkPaths<'_>, counts: &[u64; 4]) -> Self
        ensures { count_text result.first.name.now result.first.count
            ++ (count_text result.second.name.now result.second.count
            ++ (count_text result.third.name.now result.third.count
            ++ count_text result.fourth.name.now result.fourth.count))
            ≡ counts_text (names_of names.entry) (paths_of paths.entry) counts.now }
    {
        LinkCounts {
            first: LinkCount::new(names.first, paths.first, counts[0]),
            second: LinkCount::new(names.second, paths.second, counts[1]),
            third: LinkCount::new(names.third, paths.third, counts[2]),
            fourth: LinkCount::new(names.fourth, paths.fourth, counts[3]),
        }
    }
}

impl fmt::Display for LinkCounts {
    ghost output = { λ c. Some (count_text c.first.name.now c.first.count
        ++ (count_text c.second.name.now c.second.count
        ++ (count_text c.third.name.now c.third.count ++ count_text c.fourth.name.now c.fourth.count))) };

    fn fmt<W: fmt::Write>(&self, f: &mut fmt::Formatter<W>) -> fmt::Result {
        let LinkCounts {
            first,
            second,
            third,
            fourth,
        } = self;
        write!(f, "{first}{second}{third}{fourth}")
    }
}

/// How a run ended.
fn ending(report: &Report) -> RunSummary
    ensures { result ≡ ending_of report.now }
{
    let executed = report.executed;
    match report.outcome {
        Outcome::Ended => RunSummary::Ended { executed },
        Outcome::Idle => RunSummary::Idle { executed },
    }
}

/// How a run ended, and then a line for each link that has a file, with the bytes that went over it.
pub fn run_report(
    alloc: Global,
    report: &Report,
    inputs: LinkPaths<'_>,
    outputs: LinkPaths<'_>,
) -> Result<String, AllocError>
    ensures { IfOk result (λ text. string_bytes text
        ≡ run_text (paths_of inputs.entry) (paths_of outputs.entry) report.now) }
{
    let ending = ending(report);
    let read = LinkCounts::new(input_names(), inputs, &report.read);
    let written = LinkCounts::new(output_names(), outputs, &report.written);
    format!(in alloc; "{ending}\n{read}{written}")
}

/// How a run on the machine that checks each rule ended.
fn ending_at(how: Ending, report: &Report) -> RunSummary
    ensures { result ≡ ending_at how report.now }
{
    match how {
        Ending::Over => ending(report),
        Ending::Cut | Ending::Faulted(_) => RunSummary::Stopped {
            executed: report.executed,
        },
    }
}

/// The same of a run on the machine that checks each rule, and what its processes wait for.
pub fn debug_report(
    alloc: Global,
    ending: Ending,
    report: &Report,
    inputs: LinkPaths<'_>,
    outputs: LinkPaths<'_>,
    waits: &str,
) -> Result<String, AllocError>
    ensures { IfOk result (λ text. string_bytes text
        ≡ debug_text ending (paths_of inputs.entry) (paths_of outputs.entry) report.now waits.now) }
{
    let ending = ending_at(ending, report);
    let read = LinkCounts::new(input_names(), inputs, &report.read);
    let sent = LinkCounts::new(output_names(), outputs, &report.written);
    format!(in alloc; "{ending}\n{read}{sent}{waits}")
}
