//! Why a branch is not started.

ghost use Rattle.std.specs.Prelude.{◌≡◌, ◌++◌, OnOk, string_bytes};
ghost use Rattle.certificate.specs.Branches.{branch_at};
ghost use Rattle.states.specs.Views.{state_of};
ghost use Rattle.sentences.specs.Targets.{branch_target};
ghost use Rattle.sentences.specs.Started.{fault_text, common_text, shared_text, fault_at, shared_at};
ghost use Rattle.sentences.specs.Started.{fault_part, shared_part};

use crate::targets::branch_target;
use certificate::Module;
use explanation_parts::leads::target;
use explanation_parts::places::Spot;
use found_parts::{Common, Shared, Start, StartFault, shared_in, start_fault};
use states::State;
use std::alloc::AllocError;

/// Appends what a start wants that is not so.
#[tactic(auto, unfolding(crate::specs::Started::fault_text))]
fn push_fault(text: &mut String, fault: Option<StartFault>) -> Result<(), AllocError>
    ensures { OnOk result (string_bytes text.new ≡ string_bytes text.old ++ fault_text fault) }
{
    match fault {
        Some(fault) => write!(text, "; {fault}"),
        None => text.push_str(""),
    }
}

/// Appends what the branch that begins at an offset has in common with another one.
fn push_common(text: &mut String, entry: u32, what: Common) -> Result<(), AllocError>
    ensures { OnOk result (string_bytes text.new ≡ string_bytes text.old ++ common_text entry what) }
{
    match what {
        Common::Words { words } => write!(text, "; the branch at {entry} uses word {words} too"),
        Common::Parameter { number } => {
            write!(text, "; the branch at {entry} uses parameter {number} too")
        }
    }
}

/// Appends what a branch has in common with one that is started.
#[tactic(auto, unfolding(crate::specs::Started::shared_text))]
fn push_shared(text: &mut String, shared: Option<Shared>) -> Result<(), AllocError>
    ensures { OnOk result (string_bytes text.new ≡ string_bytes text.old ++ shared_text shared) }
{
    match shared {
        Some(shared) => push_common(text, shared.entry, shared.what),
        None => text.push_str(""),
    }
}

/// Appends what a start wants that is not so, of the branch that begins at an offset.
fn push_fault_at(
    text: &mut String,
    module: &Module,
    state: &State,
    to: u32,
) -> Result<(), AllocError>
    ensures { OnOk result (string_bytes text.new ≡ string_bytes text.old
        ++ fault_at «module».now (state_of state.now) (branch_at «module».now to)) }
{
    match module.branch_at(to) {
        Some((context, par, branch)) => {
            let start = Start {
                context,
                par,
                branch,
            };
            push_fault(text, start_fault(module, state, start))
        }
        None => text.push_str(""),
    }
}

/// Appends what the branch that begins at an offset has in common with one that is started.
fn push_shared_at(
    text: &mut String,
    module: &Module,
    state: &State,
    to: u32,
) -> Result<(), AllocError>
    ensures { OnOk result (string_bytes text.new ≡ string_bytes text.old
        ++ shared_at «module».now (state_of state.now) (branch_at «module».now to)) }
{
    match module.branch_at(to) {
        Some((_context, _par, branch)) => push_shared(text, shared_in(module, state, branch)),
        None => text.push_str(""),
    }
}

/// Appends what a start wants that is not so, where an instruction starts a branch.
pub(crate) fn push_fault_part(
    text: &mut String,
    module: &Module,
    spot: Spot,
    state: &State,
) -> Result<(), AllocError>
    ensures { let s = state_of state.now in
        OnOk result (string_bytes text.new ≡ string_bytes text.old
        ++ fault_part «module».now spot.next s (branch_target spot.instruction s.stack)) }
{
    match branch_target(spot.instruction, state.stack) {
        Some(distance) => push_fault_at(text, module, state, target(spot.next, distance)),
        None => text.push_str(""),
    }
}

/// Appends what the branch that an instruction starts has in common with one that is started.
pub(crate) fn push_shared_part(
    text: &mut String,
    module: &Module,
    spot: Spot,
    state: &State,
) -> Result<(), AllocError>
    ensures { let s = state_of state.now in
        OnOk result (string_bytes text.new ≡ string_bytes text.old
        ++ shared_part «module».now spot.next s (branch_target spot.instruction s.stack)) }
{
    match branch_target(spot.instruction, state.stack) {
        Some(distance) => push_shared_at(text, module, state, target(spot.next, distance)),
        None => text.push_str(""),
    }
}
