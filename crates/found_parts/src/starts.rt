//! The first condition of a start of a branch that is not met.

ghost use Rattle.std.specs.Prelude.{◌≡◌, ◌*ℤ◌, pos, map};
ghost use Rattle.module_format.specs.Contents.{branch_of, par_of, contents_of, label_at};
ghost use Rattle.states.specs.State.{is_same_number};
ghost use Rattle.states.specs.Views.{state_of};
ghost use Rattle.par_rules.specs.ParRules.{is_workspace};
ghost use Rattle.found_parts.specs.Starts.{entry_in, next_entry, next_fault, context_fault, depth_fault, workspace_fault};
ghost use Rattle.found_parts.specs.Starts.{first_fault, entry_fault, given_fault, start_fault, start_of, turn_fault};

use crate::faults::{StartFault, is_same, unless};
use crate::gifts::{gifts_fault, hidden_fault};
use crate::openings::opening_fault;
use crate::successors::successor_fault;
use certificate::Module;
use fact_texts::ContextText;
use module_format::{BranchRow, Fact, ParRow, Step, Tables};
use states::{Mode, State};

/// A branch of a PAR that a process starts: the number of its context, its PAR and its row.
#[derive(Clone, Copy)]
pub struct Start<'m> {
    pub context: u32,
    pub par: &'m ParRow,
    pub branch: &'m BranchRow,
}

/// Where the branch of this number begins.
fn entry_in(branches: &[BranchRow], number: u32) -> Option<u32>
    ensures { result ≡ entry_in (map branch_of branches.now) number }
{
    let branch = branches.get(number as usize)?;
    Some(branch.entry)
}

/// Where the branch begins that a process in this mode starts next: the first of a PAR, or the one after those that it
/// has started.
fn next_entry(tables: &Tables<'_>, mode: Mode, par: &ParRow) -> Option<u32>
    ensures { result ≡ next_entry (contents_of tables.now) mode (par_of par.now) }
{
    match mode {
        Mode::Starting { row, started } => {
            let par = tables.pars.get(row as usize)?;
            entry_in(&par.branches, started)
        }
        _ => entry_in(&par.branches, 0),
    }
}

/// Another branch is next, or none.
fn next_fault(module: &Module, mode: Mode, start: Start) -> Option<StartFault>
    ensures { result ≡ next_fault «module».now mode (start_of start.entry) }
{
    match next_entry(module.tables(), mode, start.par) {
        Some(entry) if entry == start.branch.entry => None,
        Some(entry) => Some(StartFault::OtherNext { entry }),
        None => Some(StartFault::NoneNext),
    }
}

/// The PAR is of another context.
fn context_fault(module: &Module, state: &State, par: &ParRow) -> Option<StartFault>
    ensures { result ≡ context_fault «module».now (state_of state.now) (par_of par.now) }
{
    let number = u32::from(par.context);
    let wanted = ContextText {
        first_branch: module.tables().first_branch(),
        number,
    };
    unless(number == state.context, StartFault::Context { wanted })
}

/// The PAR is at another depth.
fn depth_fault(state: &State, par: &ParRow) -> Option<StartFault>
    ensures { result ≡ depth_fault (state_of state.now) (par_of par.now) }
{
    let (wanted, found) = (par.depth, state.depth);
    unless(is_same(wanted, found), StartFault::Depth { wanted, found })
}

/// Whether an offset in the frame is that of a word.
fn is_offset_of(word: i32, offset: i32) -> bool
    ensures { result ≡ is_same_number offset (pos 4 *ℤ word) }
{
    i64::from(offset) == 4 * i64::from(word)
}

/// Whether a fact is the exact pointer to a word of the frame, with a step of words.
fn is_workspace(word: i32, fact: Fact) -> bool
    ensures { result ≡ is_workspace word fact }
{
    match fact {
        Fact::Pointer {
            region,
            lo,
            hi,
            step: Step::Word,
        } => region.is_frame() && is_offset_of(word, lo) && is_offset_of(word, hi),
        _ => false,
    }
}

/// A is not the workspace of the branch.
fn workspace_fault(state: &State, branch: &BranchRow) -> Option<StartFault>
    ensures { result ≡ workspace_fault (state_of state.now) (branch_of branch.now) }
{
    let word = branch.workspace;
    unless(
        is_workspace(word, state.stack.a.fact),
        StartFault::Workspace { word },
    )
}

/// It is not the turn of the branch: another one is next, or the PAR is elsewhere.
fn turn_fault(module: &Module, state: &State, start: Start) -> Option<StartFault>
    ensures { result ≡ turn_fault «module».now (state_of state.now) (start_of start.entry) }
{
    let next = next_fault(module, state.mode, start);
    let context = context_fault(module, state, start.par);
    let place = context.or(depth_fault(state, start.par));
    next.or(place).or(workspace_fault(state, start.branch))
}

/// The branch is given what is not there to be given.
fn given_fault(module: &Module, state: &State, start: Start) -> Option<StartFault>
    ensures { result ≡ given_fault «module».now (state_of state.now) (start_of start.entry) }
{
    let gifts = gifts_fault(module, state.context, start.branch);
    gifts.or(hidden_fault(module, start.context, start.par))
}

/// At the first start the PAR is not prepared.
fn first_fault(module: &Module, state: &State, par: &ParRow) -> Option<StartFault>
    ensures { result ≡ first_fault «module».now (state_of state.now) (par_of par.now) }
{
    if state.mode != Mode::Plain {
        return None;
    }
    opening_fault(module, state, par).or(successor_fault(module, par))
}

/// No label is where the branch begins.
fn entry_fault(module: &Module, branch: &BranchRow) -> Option<StartFault>
    ensures { let b = branch_of branch.now in result ≡ entry_fault b (label_at «module».now b.entry) }
{
    match module.label_at(branch.entry) {
        Some(_row) => None,
        None => Some(StartFault::NoLabel {
            offset: branch.entry,
        }),
    }
}

/// The first condition that is not met of those of `Rule::Par`, where a state starts a branch with its workspace in A.
#[tactic(auto, unfolding(crate::specs::Starts::start_fault))]
pub fn start_fault(module: &Module, state: &State, start: Start) -> Option<StartFault>
    ensures { result ≡ start_fault «module».now (state_of state.now) (start_of start.entry) }
{
    let turn = turn_fault(module, state, start);
    let given = given_fault(module, state, start);
    let first = first_fault(module, state, start.par);
    turn.or(given)
        .or(first)
        .or(entry_fault(module, start.branch))
}
