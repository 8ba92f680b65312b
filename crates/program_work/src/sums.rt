//! One walk over a process, which counts all that this crate says of it.

ghost use Rattle.std.specs.Prelude.{◌≡◌, ◌+◌, ◌*◌, nat_lt, true, false, map};
ghost use Rattle.occam_parser.specs.LineViews.{declaration_of, action_of, replicator_of};
ghost use Rattle.occam_parser.specs.BlockViews.{process_of, construct_of, body_of, choice_of, branch_of};
ghost use Rattle.occam_parser.specs.BlockViews.{all_processes, all_choices, all_branches};
ghost use Rattle.program_work.specs.Processes.{is_sequential, is_too_much_work, is_sequential_action};
ghost use Rattle.program_work.specs.Processes.{names_of_declaration, work_for_size, free_work};
ghost use Rattle.program_work.specs.Processes.{component_size_in_turn, component_work_in_turn};
ghost use Rattle.program_work.specs.Sums.{sums, of_line, both, with_names, not_sequential, in_block, repeated};
ghost use Rattle.program_work.specs.Sums.{in_turns, sums_of, sums_of_construct, sums_of_body, sums_of_components};
ghost use Rattle.program_work.specs.Sums.{sums_of_component, sums_of_declared, sums_of_action, sums_of_replicator};
ghost use Rattle.program_work.specs.Readings.{capped};

use crate::lines::{read_action, read_condition, read_declaration, read_guard, read_replicator};
use crate::reading::{Reading, size_of_count};
use occam_parser::{Action, Body, Branch, Choice, Construct, Declaration, Process, Replicator};

/// The greatest work that writing a program may be, in units of size that are read. At some 80 nanoseconds each, it
/// takes two seconds.
pub const GREATEST_WORK: u32 = 25_000_000;

/// The work of a turn of a replicated `IF` that is in proportion to a unit of its size.
const WORK_FOR_SIZE: u32 = 4;

/// The work that such a turn may have beside that.
const FREE_WORK: u32 = 4_096;

/// The work of a turn of a replicated `IF`.
#[derive(Clone, Copy)]
pub struct TurnWork {
    /// As far as a `u32` goes.
    pub work: u32,
    /// The most that it may be: in proportion to the size of the turn.
    pub most: u64,
}

/// What is counted of a part of a program, as far as a `u32` goes.
#[derive(Clone, Copy)]
pub(crate) struct Sums {
    /// The sizes of its lines.
    pub(crate) size: u32,
    /// The readings of its lines, and the sizes of those under each replicator.
    pub(crate) work: u32,
    /// The sizes of its lines that are not under a replicated `IF`.
    pub(crate) size_in_turn: u32,
    /// The work of those, and what loops among them go over.
    pub(crate) work_in_turn: u32,
    /// How many names it declares.
    pub(crate) names: u32,
    /// Whether a turn of a replicated `IF` in it has a work out of proportion to its size.
    pub(crate) is_steep: bool,
    /// Whether it has no `PAR`, no `ALT` and no instance.
    pub(crate) is_sequential: bool,
}

impl Sums {
    /// Nothing is counted.
    pub(crate) fn nothing() -> Sums
        ensures { result ≡ sums 0 0 0 0 0 false true }
    {
        Sums {
            size: 0,
            work: 0,
            size_in_turn: 0,
            work_in_turn: 0,
            names: 0,
            is_steep: false,
            is_sequential: true,
        }
    }

    /// A line of which this is read.
    fn line(reading: Reading) -> Sums
        ensures { result ≡ of_line reading }
    {
        Sums {
            size: reading.size,
            work: reading.whole(),
            size_in_turn: reading.size,
            work_in_turn: reading.whole(),
            names: 0,
            is_steep: false,
            is_sequential: true,
        }
    }

    /// One part after the other.
    fn and(self, other: Sums) -> Sums
        ensures { result ≡ both self other }
    {
        Sums {
            size: self.size.saturating_add(other.size),
            work: self.work.saturating_add(other.work),
            size_in_turn: self.size_in_turn.saturating_add(other.size_in_turn),
            work_in_turn: self.work_in_turn.saturating_add(other.work_in_turn),
            names: self.names.saturating_add(other.names),
            is_steep: self.is_steep || other.is_steep,
            is_sequential: self.is_sequential && other.is_sequential,
        }
    }

    /// The same with `names` names more.
    pub(crate) fn with_names(self, names: u32) -> Sums
        ensures { result ≡ with_names names self }
    {
        Sums {
            names: self.names.saturating_add(names),
            ..self
        }
    }

    /// The same as a part of what is not sequential.
    fn not_sequential(self) -> Sums
        ensures { result ≡ not_sequential self }
    {
        Sums {
            is_sequential: false,
            ..self
        }
    }

    /// The same below the line of a block.
    fn in_block(self) -> Sums
        ensures { result ≡ in_block self }
    {
        Sums {
            size: self.size.saturating_add(1),
            work: self.work.saturating_add(1),
            size_in_turn: self.size_in_turn.saturating_add(1),
            work_in_turn: self.work_in_turn.saturating_add(1),
            ..self
        }
    }

    /// The same under a replicator.
    fn repeated(self) -> Sums
        ensures { result ≡ repeated self }
    {
        Sums {
            work: self.work.saturating_add(self.size),
            work_in_turn: self.work_in_turn.saturating_add(self.size),
            ..self
        }
    }

    /// Whether the work of a turn is out of proportion to its size, if this is written once for each turn.
    fn is_out_of_proportion(self) -> bool
        ensures { result ≡ nat_lt (work_for_size * self.size_in_turn + free_work) self.work_in_turn }
    {
        self.size_in_turn
            .saturating_mul(WORK_FOR_SIZE)
            .saturating_add(FREE_WORK)
            < self.work_in_turn
    }

    /// The same under the replicator of an `IF`.
    fn in_turns(self) -> Sums
        ensures { result ≡ in_turns self }
    {
        Sums {
            work: self.work.saturating_add(self.size),
            size_in_turn: 0,
            work_in_turn: 0,
            is_steep: self.is_out_of_proportion() || self.is_steep,
            ..self
        }
    }
}

// ---- lines

/// How many names a declaration declares.
fn names_of_declaration(declaration: &Declaration) -> u32
    ensures { result ≡ capped (names_of_declaration (declaration_of declaration.now)) }
{
    match declaration {
        Declaration::Constant(_) => 1,
        Declaration::Variables(names) | Declaration::Channels(names) => {
            size_of_count(names.names.others.len()).saturating_add(1)
        }
    }
}

/// Declarations.
fn sums_of_declarations(declarations: &[Declaration]) -> Sums
    ensures { result ≡ sums_of_declared (map declaration_of declarations.now) }
{
    let mut sums = Sums::nothing();
    for declaration in declarations {
        let line = Sums::line(read_declaration(declaration));
        sums = sums.and(line.with_names(names_of_declaration(declaration)));
    }
    sums
}

/// Whether an action is no instance.
fn is_sequential_action(action: &Action) -> bool
    ensures { result ≡ is_sequential_action (action_of action.now) }
{
    !matches!(action, Action::Instance { .. })
}

/// An action.
fn sums_of_action(action: &Action) -> Sums
    ensures { result ≡ sums_of_action (action_of action.now) }
{
    let line = Sums::line(read_action(action));
    if is_sequential_action(action) {
        line
    } else {
        line.not_sequential()
    }
}

/// A replicator, which declares its index.
fn sums_of_replicator(replicator: &Replicator) -> Sums
    ensures { result ≡ sums_of_replicator (replicator_of replicator.now) }
{
    Sums::line(read_replicator(replicator)).with_names(1)
}

// ---- the walk

/// A process.
#[cycle(sum)]
pub(crate) fn sums_of(process: &Process) -> Sums
    ensures { result ≡ sums_of (process_of process.now) }
{
    sums_of_declarations(&process.declarations).and(sums_of_construct(&process.construct))
}

/// A construct.
#[cycle(sum)]
fn sums_of_construct(construct: &Construct) -> Sums
    ensures { result ≡ sums_of_construct (construct_of construct.now) }
{
    match construct {
        Construct::Action(action) => sums_of_action(action),
        Construct::Seq(processes) => sums_of_processes(processes).in_block(),
        Construct::Par(processes) => sums_of_processes(processes).in_block().not_sequential(),
        Construct::If(choices) => sums_of_choices(choices).in_block(),
        Construct::Alt(branches) => sums_of_branches(branches).in_block().not_sequential(),
        Construct::Replicated { replicator, body } => {
            sums_of_replicator(replicator).and(sums_of_body(body))
        }
    }
}

/// A body under a replicator.
#[cycle(sum)]
fn sums_of_body(body: &Body) -> Sums
    ensures { result ≡ sums_of_body (body_of body.now) }
{
    match body {
        Body::Seq(process) => sums_of(process).repeated(),
        Body::Par(process) => sums_of(process).repeated().not_sequential(),
        Body::If(choice) => sums_of_choice(choice).in_turns(),
        Body::Alt(branch) => sums_of_branch(branch).repeated().not_sequential(),
    }
}

/// The processes of a `SEQ` or a `PAR`.
#[cycle(sum)]
fn sums_of_processes(processes: &[Process]) -> Sums
    ensures { result ≡ sums_of_components (all_processes processes.now) }
{
    let mut sums = Sums::nothing();
    for process in processes {
        sums = sums.and(sums_of(process));
    }
    sums
}

/// The choices of an `IF`.
#[cycle(sum)]
fn sums_of_choices(choices: &[Choice]) -> Sums
    ensures { result ≡ sums_of_components (all_choices choices.now) }
{
    let mut sums = Sums::nothing();
    for choice in choices {
        sums = sums.and(sums_of_choice(choice));
    }
    sums
}

/// The branches of an `ALT`.
#[cycle(sum)]
fn sums_of_branches(branches: &[Branch]) -> Sums
    ensures { result ≡ sums_of_components (all_branches branches.now) }
{
    let mut sums = Sums::nothing();
    for branch in branches {
        sums = sums.and(sums_of_branch(branch));
    }
    sums
}

/// A choice of an `IF`.
#[cycle(sum)]
fn sums_of_choice(choice: &Choice) -> Sums
    ensures { result ≡ sums_of_component (choice_of choice.now) }
{
    Sums::line(read_condition(&choice.condition)).and(sums_of(&choice.process))
}

/// A branch of an `ALT`.
#[cycle(sum)]
fn sums_of_branch(branch: &Branch) -> Sums
    ensures { result ≡ sums_of_component (branch_of branch.now) }
{
    Sums::line(read_guard(&branch.guard)).and(sums_of(&branch.process))
}

// ---- what is asked of a process

/// Whether a process has no `PAR`, no `ALT` and no instance.
pub fn is_sequential(process: &Process) -> bool
    ensures { result ≡ is_sequential (process_of process.now) }
{
    sums_of(process).is_sequential
}

/// Whether writing the code of a process may take too long: its work is above [`GREATEST_WORK`], or a turn of a
/// replicated `IF` has a work out of proportion to its size.
pub fn is_too_much_work(process: &Process) -> bool
    ensures { result ≡ is_too_much_work (process_of process.now) }
{
    let sums = sums_of(process);
    sums.work > GREATEST_WORK || sums.is_steep
}

/// The work of a turn of a replicated `IF` with this choice, but for what is under a further replicated `IF`.
pub fn work_of_turn(choice: &Choice) -> TurnWork
    ensures work { result.work ≡ capped (component_work_in_turn (choice_of choice.now)) }
    ensures most { result.most ≡ work_for_size * capped (component_size_in_turn (choice_of choice.now)) + free_work }
{
    let sums = sums_of_choice(choice);
    TurnWork {
        work: sums.work_in_turn,
        most: u64::from(WORK_FOR_SIZE) * u64::from(sums.size_in_turn) + u64::from(FREE_WORK),
    }
}
