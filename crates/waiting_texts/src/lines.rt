//! The lines of the processes of a run that are not over.

ghost use Rattle.std.specs.Prelude.{◌≡◌, ◌++◌, Some, IfOk, OnOk, string_bytes};
ghost use Rattle.module_format.specs.Contents.{contents_of};
ghost use Rattle.machine_state.specs.Moves.{link_index};
ghost use Rattle.listings.specs.Listing.{listed_entry};
ghost use Rattle.waiting_texts.specs.Resting.{IsKnownIf};
ghost use Rattle.waiting_texts.specs.Waits.{wait_at};
ghost use Rattle.waiting_texts.specs.Lines.{deadlock_text, head_text, inputs_missing, is_for_good, is_over};
ghost use Rattle.waiting_texts.specs.Lines.{is_over_in, named_text, place_text};
ghost use Rattle.waiting_texts.specs.Lines.{missing_input, missing_output, missing_text, outputs_missing};
ghost use Rattle.waiting_texts.specs.Lines.{process_text, processes_text};
ghost use Rattle.waiting_texts.specs.Lines.{summary_text, tail_text, task_text, TellsWaits};

use crate::deadlocks::is_deadlock;
use crate::places::{Place, offset_of, places_in_order};
use crate::setting::{Setting, has_file};
use crate::waits::{Wait, WaitText, push_guards, wait_of};
use certificate::Module;
use listings::{Entry, entry_of};
use machine::Checked;
use machine_state::{Condition, Link, Task};
use module_format::Tables;
use prefix_decoder::fetch;
use source_lines::{LineEntry, push_lines};
use std::alloc::{AllocError, Global};
use std::fmt;

/// What a listing has at an offset of the code.
pub fn entry_at(tables: &Tables<'_>, at: usize) -> Entry
    ensures { result ≡ listed_entry (contents_of tables.now) at }
{
    match fetch(tables.code, at) {
        Ok(instr) => entry_of(instr, tables.has_long_operations),
        Err(_) => Entry::Unread,
    }
}

/// Whether it is no wait at all.
fn is_for_good(wait: Wait) -> bool
    ensures { result ≡ is_for_good wait }
{
    matches!(wait, Wait::ForGood)
}

/// Whether a process that waits for nothing is over.
fn is_over_in(tables: &Tables<'_>, task: &Task) -> bool
    ensures { result ≡ is_over_in (contents_of tables.now) task.now task.now.condition }
{
    match task.condition {
        Condition::Stopped => task.registers.at == tables.finish,
        _ => true,
    }
}

/// Whether the process is over.
fn is_over(tables: &Tables<'_>, task: &Task, wait: Wait) -> bool
    ensures { result ≡ is_over (contents_of tables.now) task.now wait }
{
    is_for_good(wait) && is_over_in(tables, task)
}

/// Appends which process it is, and where.
#[tactic(auto, using(fact_texts::proofs::SixDigits::six_digits_written))]
fn push_place(text: &mut String, process: u64, at: u32) -> Result<(), AllocError>
    ensures { OnOk result (string_bytes text.new ≡ string_bytes text.old ++ place_text process at) }
{
    write!(text, "process {process} at {at:06}")
}

/// Appends by which instruction it waits, and for what.
fn push_wait(
    text: &mut String,
    tables: &Tables<'_>,
    setting: Setting,
    at: u32,
    wait: Wait,
) -> Result<(), AllocError>
    ensures { OnOk result (string_bytes text.new
        ≡ string_bytes text.old ++ named_text (contents_of tables.now) setting at wait) }
{
    let name = entry_at(tables, at as usize).name();
    let wait = WaitText { setting, wait };
    write!(text, " {name}: {wait}")
}

/// Appends what the line of a process says before its guards.
fn push_head(
    text: &mut String,
    tables: &Tables<'_>,
    lines: &[LineEntry],
    setting: Setting,
    process: u64,
    task: &Task,
    wait: Wait,
) -> Result<(), AllocError>
    ensures { OnOk result (string_bytes text.new
        ≡ string_bytes text.old ++ head_text (contents_of tables.now) lines.now setting process task.now wait) }
{
    let at = offset_of(task);
    push_place(text, process, at)?;
    push_lines(text, lines, at)?;
    push_wait(text, tables, setting, at, wait)
}

/// Appends the rest of the line.
fn push_tail(
    text: &mut String,
    tables: &Tables<'_>,
    checked: &Checked<'_>,
    process: u64,
    wait: Wait,
) -> Result<(), AllocError>
    ensures { OnOk result (string_bytes text.new
        ≡ string_bytes text.old ++ tail_text (contents_of tables.now) checked.now.world process wait) }
{
    push_guards(text, checked, process, wait, tables.data_words)?;
    text.push_str("\n")
}

/// Appends the line of a process in this task, unless it is over.
fn push_task(
    text: &mut String,
    tables: &Tables<'_>,
    lines: &[LineEntry],
    checked: &Checked<'_>,
    setting: Setting,
    process: u64,
    task: &Task,
) -> Result<(), AllocError>
    ensures { let m = contents_of tables.now in let w = checked.now.world in
        OnOk result (string_bytes text.new
        ≡ string_bytes text.old
        ++ task_text m lines.now setting w process task.now (wait_at w process task.now.condition)) }
{
    let wait = wait_of(checked, process, task.condition);
    if is_over(tables, task, wait) {
        return text.push_str("");
    }
    push_head(text, tables, lines, setting, process, task, wait)?;
    push_tail(text, tables, checked, process, wait)
}

/// Appends the line of the process of this number, if there is one and it is not over.
fn push_process(
    text: &mut String,
    tables: &Tables<'_>,
    lines: &[LineEntry],
    checked: &Checked<'_>,
    setting: Setting,
    process: u64,
) -> Result<(), AllocError>
    ensures { OnOk result (string_bytes text.new ≡ string_bytes text.old
        ++ process_text (contents_of tables.now) lines.now setting checked.now.world process) }
{
    match checked.task(process) {
        Some(task) => push_task(text, tables, lines, checked, setting, process, &task),
        None => text.push_str(""),
    }
}

/// Appends the lines of these processes.
fn push_processes(
    text: &mut String,
    tables: &Tables<'_>,
    lines: &[LineEntry],
    checked: &Checked<'_>,
    setting: Setting,
    places: &[Place],
) -> Result<(), AllocError>
    ensures { OnOk result (string_bytes text.new ≡ string_bytes text.old
        ++ processes_text (contents_of tables.now) lines.now setting checked.now.world places.now) }
{
    for place in places {
        push_process(text, tables, lines, checked, setting, place.process)?;
    }
    Ok(())
}

/// A link without a file, if it is waited for.
#[derive(Clone, Copy)]
struct MissingText {
    is_missing: bool,
    name: &'static str,
    number: usize,
}

impl fmt::Display for MissingText {
    ghost output = { λ missing. Some (missing_text missing.is_missing missing.name.now missing.number) };

    fn fmt<W: fmt::Write>(&self, f: &mut fmt::Formatter<W>) -> fmt::Result {
        if !self.is_missing {
            return write!(f, "");
        }
        write!(f, "{}{} has no file\n", self.name, self.number)
    }
}

/// An input link, if it is waited for and has no file.
fn missing_input(checked: &Checked<'_>, setting: &Setting, link: Link) -> MissingText
    ensures { missing_text result.is_missing result.name.now result.number
        ≡ missing_input setting.now checked.now.world (link_index link) }
{
    let input = checked.input(link);
    let is_wanted = input.waiting.is_some() || input.enabled.is_some();
    let number = link.index();
    MissingText {
        is_missing: !has_file(&setting.inputs, number) && is_wanted,
        name: "--in",
        number,
    }
}

/// An output link, if it is waited for and has no file.
fn missing_output(checked: &Checked<'_>, setting: &Setting, link: Link) -> MissingText
    ensures { missing_text result.is_missing result.name.now result.number
        ≡ missing_output setting.now checked.now.world (link_index link) }
{
    let is_wanted = checked.output(link).waiting.is_some();
    let number = link.index();
    MissingText {
        is_missing: !has_file(&setting.outputs, number) && is_wanted,
        name: "--out",
        number,
    }
}

/// Appends the input links that are waited for and have no files.
fn push_missing_inputs(
    text: &mut String,
    checked: &Checked<'_>,
    setting: &Setting,
) -> Result<(), AllocError>
    ensures { OnOk result (string_bytes text.new
        ≡ string_bytes text.old ++ inputs_missing setting.now checked.now.world) }
{
    let first = missing_input(checked, setting, Link::Zero);
    let second = missing_input(checked, setting, Link::One);
    let third = missing_input(checked, setting, Link::Two);
    let fourth = missing_input(checked, setting, Link::Three);
    write!(text, "{first}{second}{third}{fourth}")
}

/// Appends the output links that are waited for and have no files.
fn push_missing_outputs(
    text: &mut String,
    checked: &Checked<'_>,
    setting: &Setting,
) -> Result<(), AllocError>
    ensures { OnOk result (string_bytes text.new
        ≡ string_bytes text.old ++ outputs_missing setting.now checked.now.world) }
{
    let first = missing_output(checked, setting, Link::Zero);
    let second = missing_output(checked, setting, Link::One);
    let third = missing_output(checked, setting, Link::Two);
    let fourth = missing_output(checked, setting, Link::Three);
    write!(text, "{first}{second}{third}{fourth}")
}

/// Appends all links that are waited for and have no files.
fn push_missing(
    text: &mut String,
    checked: &Checked<'_>,
    setting: &Setting,
) -> Result<(), AllocError>
    ensures { let w = checked.now.world in
        OnOk result (string_bytes text.new
        ≡ string_bytes text.old ++ (inputs_missing setting.now w ++ outputs_missing setting.now w)) }
{
    push_missing_inputs(text, checked, setting)?;
    push_missing_outputs(text, checked, setting)
}

/// Appends whether the processes of a run that is over are in a deadlock.
fn push_deadlock(
    text: &mut String,
    checked: &Checked<'_>,
    setting: &Setting,
) -> Result<(), AllocError>
    requires { IsKnownIf setting.now.is_over checked.now.contents checked.now.world }
    ensures { OnOk result (string_bytes text.new ≡ string_bytes text.old ++ deadlock_text setting.now checked.now.world) }
{
    if !setting.is_over {
        return text.push_str("");
    }
    if is_deadlock(checked) {
        text.push_str("deadlock: no byte that may come makes a process go on\n")
    } else {
        text.push_str("")
    }
}

/// Appends what comes before the processes.
fn push_summary(
    text: &mut String,
    checked: &Checked<'_>,
    setting: &Setting,
) -> Result<(), AllocError>
    requires { IsKnownIf setting.now.is_over checked.now.contents checked.now.world }
    ensures { OnOk result (string_bytes text.new ≡ string_bytes text.old ++ summary_text setting.now checked.now.world) }
{
    push_deadlock(text, checked, setting)?;
    push_missing(text, checked, setting)
}

/// What the processes wait for that are not over, in the order of their workspaces, a line for each; and before that
/// whether they are in a deadlock, and which links are waited for that have no file. The lines of a source, if the
/// module has one, are those of these entries.
pub fn waiting_lines(
    alloc: Global,
    module: &Module<'_>,
    lines: &[LineEntry],
    checked: &Checked<'_>,
    setting: Setting,
) -> Result<String, AllocError>
    requires { IsKnownIf setting.is_over checked.now.contents checked.now.world }
    ensures { IfOk result (λ text. TellsWaits «module».now lines.now setting checked.now.world (string_bytes text)) }
{
    let mut text = String::new(alloc);
    push_summary(&mut text, checked, &setting)?;
    let places = places_in_order(alloc, checked)?;
    push_processes(&mut text, module.tables(), lines, checked, setting, &places)?;
    Ok(text)
}
