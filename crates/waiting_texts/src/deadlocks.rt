//! Whether the processes of a run are in a deadlock.

ghost use Rattle.std.specs.Prelude.{◌≡◌, ◌&&◌, length};
ghost use Rattle.std.specs.List.{list_all};
ghost use Rattle.link_runs.specs.Deadlocks.{any_below, awaits, is_deadlock, is_for_others, is_quiet_input};
ghost use Rattle.link_runs.specs.Deadlocks.{is_quiet_output};
ghost use Rattle.machine_state.specs.Moves.{link_index};
ghost use Rattle.waiting_texts.specs.Resting.{IsWorldOf, is_quiet_at_input, is_quiet_at_output};

use crate::waits::wait_of;
use machine::Checked;
use machine_state::Link;

/// Whether the process of this number waits for another one.
fn waits_for_others(checked: &Checked<'_>, process: u64) -> bool
    ensures { result ≡ is_for_others (awaits checked.now.world process) }
{
    match checked.task(process) {
        Some(task) => wait_of(checked, process, task.condition).is_for_others(),
        None => false,
    }
}

/// Whether some process waits for another one.
fn somebody_waits(checked: &Checked<'_>) -> bool
    ensures { let w = checked.now.world in
        result ≡ any_below (λ p. is_for_others (awaits w p)) (length w.tasks) }
{
    let mut waits = false;
    for process in 0..checked.count() {
        waits = waits || waits_for_others(checked, process);
    }
    waits
}

/// Whether all are so.
fn are_all(first: bool, second: bool, third: bool, fourth: bool) -> bool
    ensures { result ≡ (first && second && third && fourth) }
{
    if !first || !second {
        return false;
    }
    third && fourth
}

/// Whether no process waits on the input link or has enabled it.
fn is_quiet_input(checked: &Checked<'_>, link: Link) -> bool
    ensures { result ≡ is_quiet_at_input checked.now.world (link_index link) }
{
    let input = checked.input(link);
    input.waiting.is_none() && input.enabled.is_none()
}

/// Whether no process waits on the output link.
fn is_quiet_output(checked: &Checked<'_>, link: Link) -> bool
    ensures { result ≡ is_quiet_at_output checked.now.world (link_index link) }
{
    checked.output(link).waiting.is_none()
}

/// Whether no process waits on an input link or has enabled one.
fn are_quiet_inputs(checked: &Checked<'_>) -> bool
    requires { IsWorldOf checked.now.contents checked.now.world }
    ensures { result ≡ list_all is_quiet_input checked.now.world.links.inputs }
{
    let first = is_quiet_input(checked, Link::Zero);
    let second = is_quiet_input(checked, Link::One);
    let third = is_quiet_input(checked, Link::Two);
    let fourth = is_quiet_input(checked, Link::Three);
    are_all(first, second, third, fourth)
}

/// Whether no process waits on an output link.
fn are_quiet_outputs(checked: &Checked<'_>) -> bool
    requires { IsWorldOf checked.now.contents checked.now.world }
    ensures { result ≡ list_all is_quiet_output checked.now.world.links.outputs }
{
    let first = is_quiet_output(checked, Link::Zero);
    let second = is_quiet_output(checked, Link::One);
    let third = is_quiet_output(checked, Link::Two);
    let fourth = is_quiet_output(checked, Link::Three);
    are_all(first, second, third, fourth)
}

/// Whether no process runs or is ready, none waits on a link or has enabled one, and some process waits for another one.
pub fn is_deadlock(checked: &Checked<'_>) -> bool
    requires { IsWorldOf checked.now.contents checked.now.world }
    ensures { result ≡ is_deadlock checked.now.world }
{
    // Where no process runs, none is ready.
    let rests = !checked.running();
    let inputs = are_quiet_inputs(checked);
    let outputs = are_quiet_outputs(checked);
    let waits = somebody_waits(checked);
    are_all(rests, inputs, outputs, waits)
}
