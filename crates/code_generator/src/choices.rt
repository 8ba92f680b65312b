//! Writing the choices of an `IF`. If a function fails, some pieces more may have come.

ghost use Rattle.std.specs.Prelude.{◌≡◌, ◌++◌, IfOk, Err, false};
ghost use Rattle.occam_layout.specs.declared.mark.Mark.TheVariants as mark;
ghost use Rattle.occam_parser.specs.Terminals.{Mark};
ghost use Rattle.occam_parser.specs.Expressions.{Alone};
ghost use Rattle.occam_parser.specs.Views.{expression_of, term_of};
ghost use Rattle.occam_parser.specs.LineViews.{action_of, replicator_of};
ghost use Rattle.occam_parser.specs.BlockViews.{process_of, construct_of, choice_of, all_processes, all_choices};
ghost use Rattle.program_uses.specs.Indices.{seen_repeats};
ghost use Rattle.program_meaning.specs.Sequential.{AreSequential, IsSequentialComponent};
ghost use Rattle.code_generator.specs.CallViews.{surroundings_of};
ghost use Rattle.code_generator.specs.Processes.{is_true, is_skip_action, is_skip, does_nothing, all_do_nothing};
ghost use Rattle.code_generator.specs.Processes.{times, under_if};
ghost use Rattle.code_generator.specs.Processes.{taken_code, tested_code, open_code, construct_code};
ghost use Rattle.code_generator.specs.Written.{site_of, Exceeds, AreEnded, choices_in, choice_as, WritesAs, ending_at};
ghost use Rattle.code_generator.specs.Written.{WritesEnding, choices_at, WritesChoices, if_at, WritesIf};
ghost use Rattle.code_generator.specs.Written.{turns_tested, turns_at, WritesTurns, WritesConstruct};

use crate::calling::Surroundings;
use crate::processes::ProcessWriter;
use code_pieces::{Piece, operations};
use line_pieces::{Home, label_after};
use module_builder::GenFault;
use occam_parser::{Action, Choice, Construct, Expr, Operand, Operation, Process, Replicator};
use program_uses::{Repeats, add_name, is_before, repeats_of};
use scalar_ranges::narrow_by;

/// What comes after the choices of an `IF` that are tested, each of which goes on at its end.
#[derive(Clone, Copy)]
pub(crate) enum IfEnding<'t, 'a> {
    /// The process stops.
    Stops,
    /// The last choice, whose condition is TRUE.
    Always(&'t Choice<'a>),
    /// A choice after which only `TRUE` with `SKIP` comes, and that one.
    Opens {
        opened: &'t Choice<'a>,
        last: &'t Choice<'a>,
    },
}

/// The choices of an `IF`.
#[derive(Clone, Copy)]
pub(crate) struct EndedChoices<'t, 'a> {
    pub(crate) tested: &'t [Choice<'a>],
    pub(crate) ending: IfEnding<'t, 'a>,
}

/// How often a choice under a replicator happens.
pub(crate) fn times(repeats: Repeats) -> u32
    ensures { result ≡ times (seen_repeats repeats) }
{
    if repeats.happens {
        repeats.turns.count
    } else {
        0
    }
}

/// Whether a condition is the operand TRUE, in any brackets.
#[cycle(truth)]
fn is_true(condition: &Expr) -> bool
    ensures { result ≡ is_true (expression_of condition.now) }
{
    match &*condition.operation {
        Operation::Operand(operand) => is_true_operand(operand),
        Operation::Prefix { .. } | Operation::Pair { .. } | Operation::Chain { .. } => false,
    }
}

/// Whether an operand is TRUE, in any brackets.
#[cycle(truth)]
fn is_true_operand(operand: &Operand) -> bool
    ensures { result ≡ is_true (Alone (term_of operand.now)) }
{
    match operand {
        Operand::Truth(holds) => *holds,
        Operand::Bracketed(inner) => is_true(inner),
        Operand::Integer(_)
        | Operand::Character(_)
        | Operand::MostPos
        | Operand::MostNeg
        | Operand::Name(_)
        | Operand::Element { .. }
        | Operand::Converted { .. } => false,
    }
}

/// Whether an action is `SKIP`.
fn is_skip_action(action: &Action) -> bool
    ensures { result ≡ is_skip_action (action_of action.now) }
{
    match action {
        Action::Skip => true,
        Action::Stop
        | Action::Assign { .. }
        | Action::Input { .. }
        | Action::Output { .. }
        | Action::Instance { .. } => false,
    }
}

/// Whether a process is `SKIP`, or a `SEQ` of such processes, with nothing declared before it.
#[cycle(nothing)]
fn is_skip(process: &Process) -> bool
    ensures { result ≡ is_skip (process_of process.now) }
{
    if !process.declarations.is_empty() {
        return false;
    }
    does_nothing(&process.construct)
}

/// Whether a construct is `SKIP`, or a `SEQ` of processes that do nothing.
#[cycle(nothing)]
fn does_nothing(construct: &Construct) -> bool
    ensures { result ≡ does_nothing (construct_of construct.now) }
{
    match construct {
        Construct::Action(action) => is_skip_action(action),
        Construct::Seq(processes) => all_do_nothing(processes),
        Construct::If(_) | Construct::Replicated { .. } | Construct::Par(_) | Construct::Alt(_) =>
            false,
    }
}

/// Whether each of these processes does nothing.
#[cycle(nothing)]
fn all_do_nothing(processes: &[Process]) -> bool
    ensures { result ≡ all_do_nothing (all_processes processes.now) }
{
    for process in processes {
        if !is_skip(process) {
            return false;
        }
    }
    true
}

/// How many turns of a choice are tested, of `count`: the last one is not, if the condition is TRUE.
fn turns_tested(count: u32, condition: &Expr) -> u32
    ensures { result ≡ turns_tested count (is_true (expression_of condition.now)) }
{
    if is_true(condition) {
        count.saturating_sub(1)
    } else {
        count
    }
}

impl<'t, 'a> EndedChoices<'t, 'a> {
    /// These choices, as they end.
    fn of(choices: &'t [Choice<'a>]) -> EndedChoices<'t, 'a>
        ensures ended { AreEnded (all_choices choices.now) result.tested.now result.ending }
        ensures whole { choices.now ≡ result.tested.now ++ choices_in result.ending }
    {
        let stopping = EndedChoices {
            tested: choices,
            ending: IfEnding::Stops,
        };
        let Some((last, before)) = choices.split_last() else {
            return stopping;
        };
        if !is_true(&last.condition) {
            return stopping;
        }
        let always = EndedChoices {
            tested: before,
            ending: IfEnding::Always(last),
        };
        if !is_skip(&last.process) {
            return always;
        }
        let Some((opened, tested)) = before.split_last() else {
            return always;
        };
        EndedChoices {
            tested,
            ending: IfEnding::Opens { opened, last },
        }
    }
}

impl<'a> ProcessWriter<'a> {
    /// An `IF`.
    #[cycle(processes)]
    pub(crate) fn write_if(
        &mut self,
        around: &Surroundings<'_, 'a>,
        choices: &[Choice<'a>],
    ) -> Result<(), GenFault>
        ensures ok { IfOk result (λ _. WritesIf self.old self.new around.now (all_choices choices.now)) }
        ensures limit { result ≡ Err GenFault.Limit → Exceeds around.now.limits self.old.listing
            (if_at (surroundings_of around.now) (all_choices choices.now) (site_of self.old)) }
        ensures invalid { result ≡ Err GenFault.Invalid → AreSequential (Mark mark.If) (all_choices choices.now)
            → around.now.limits.is_sequential ≡ false }
    {
        let end = self.label;
        self.label = label_after(end)?;
        self.scope.begin()?;
        self.write_choices(around, end, choices)?;
        self.scope.end();
        self.write_row(around.limits, end)
    }

    /// The choices of an `IF` that ends at a label.
    #[cycle(processes)]
    fn write_choices(
        &mut self,
        around: &Surroundings<'_, 'a>,
        end: usize,
        choices: &[Choice<'a>],
    ) -> Result<(), GenFault>
        ensures ok { IfOk result (λ _. WritesChoices self.old self.new around.now end (all_choices choices.now)) }
        ensures limit { result ≡ Err GenFault.Limit → Exceeds around.now.limits self.old.listing
            (choices_at (surroundings_of around.now) end (all_choices choices.now) (site_of self.old)) }
        ensures invalid { result ≡ Err GenFault.Invalid → AreSequential (Mark mark.If) (all_choices choices.now)
            → around.now.limits.is_sequential ≡ false }
    {
        let ended = EndedChoices::of(choices);
        for choice in ended.tested {
            self.write_tested(around, end, choice)?;
        }
        self.write_ending(around, end, ended.ending)
    }

    /// What comes after the choices that are tested, of an `IF` that ends at a label.
    #[cycle(processes)]
    fn write_ending(
        &mut self,
        around: &Surroundings<'_, 'a>,
        end: usize,
        ending: IfEnding<'_, 'a>,
    ) -> Result<(), GenFault>
        ensures ok { IfOk result (λ _. WritesEnding self.old self.new around.now end ending.entry) }
        ensures limit { result ≡ Err GenFault.Limit → Exceeds around.now.limits self.old.listing
            (ending_at (surroundings_of around.now) end ending.entry (site_of self.old)) }
        ensures invalid { result ≡ Err GenFault.Invalid
            → AreSequential (Mark mark.If) (all_choices (choices_in ending.entry))
            → around.now.limits.is_sequential ≡ false }
    {
        match ending {
            IfEnding::Stops => Ok(self.listing.operate(operations::STOP_PROCESS)?),
            IfEnding::Always(last) => self.write_taken(around, last),
            IfEnding::Opens { opened, last } => {
                self.write_open(around, end, opened)?;
                self.write_taken(around, last)
            }
        }
    }

    /// A choice with its test, of an `IF` that ends at a label.
    #[cycle(processes)]
    fn write_tested(
        &mut self,
        around: &Surroundings<'_, 'a>,
        end: usize,
        choice: &Choice<'a>,
    ) -> Result<(), GenFault>
        ensures ok { IfOk result (λ _. WritesAs self.old self.new around.now (tested_code end)
            (choice_of choice.now)) }
        ensures limit { result ≡ Err GenFault.Limit → Exceeds around.now.limits self.old.listing
            (choice_as (tested_code end) (surroundings_of around.now) (choice_of choice.now) (site_of self.old)) }
        ensures invalid { result ≡ Err GenFault.Invalid → IsSequentialComponent (Mark mark.If) (choice_of choice.now)
            → around.now.limits.is_sequential ≡ false }
    {
        let other = self.label;
        self.label = label_after(other)?;
        self.write_test(around.limits, &choice.condition, other)?;
        self.write_taken(around, choice)?;
        self.listing.push(Piece::Jump { to: end })?;
        self.write_row(around.limits, other)
    }

    /// A choice with its test, which jumps to the end of the `IF`.
    #[cycle(processes)]
    fn write_open(
        &mut self,
        around: &Surroundings<'_, 'a>,
        end: usize,
        choice: &Choice<'a>,
    ) -> Result<(), GenFault>
        ensures ok { IfOk result (λ _. WritesAs self.old self.new around.now (open_code end)
            (choice_of choice.now)) }
        ensures limit { result ≡ Err GenFault.Limit → Exceeds around.now.limits self.old.listing
            (choice_as (open_code end) (surroundings_of around.now) (choice_of choice.now) (site_of self.old)) }
        ensures invalid { result ≡ Err GenFault.Invalid → IsSequentialComponent (Mark mark.If) (choice_of choice.now)
            → around.now.limits.is_sequential ≡ false }
    {
        self.write_test(around.limits, &choice.condition, end)?;
        self.write_taken(around, choice)
    }

    /// A choice without its test.
    #[cycle(processes)]
    fn write_taken(
        &mut self,
        around: &Surroundings<'_, 'a>,
        choice: &Choice<'a>,
    ) -> Result<(), GenFault>
        ensures ok { IfOk result (λ _. WritesAs self.old self.new around.now taken_code (choice_of choice.now)) }
        ensures limit { result ≡ Err GenFault.Limit → Exceeds around.now.limits self.old.listing
            (choice_as taken_code (surroundings_of around.now) (choice_of choice.now) (site_of self.old)) }
        ensures invalid { result ≡ Err GenFault.Invalid → IsSequentialComponent (Mark mark.If) (choice_of choice.now)
            → around.now.limits.is_sequential ≡ false }
    {
        self.scope.exclude(&choice.condition);
        narrow_by(&mut self.scope, &choice.condition, true);
        self.write(around, &choice.process)?;
        self.scope.next();
        Ok(())
    }

    /// An `IF` of a choice under a replicator.
    #[cycle(processes)]
    #[inline(never)]
    pub(crate) fn write_repeated_if(
        &mut self,
        around: &Surroundings<'_, 'a>,
        line: u32,
        replicator: &Replicator<'a>,
        choice: &Choice<'a>,
    ) -> Result<(), GenFault>
        ensures ok { IfOk result (λ _. WritesConstruct self.old self.new around.now line
            (under_if (replicator_of replicator.now) (choice_of choice.now))) }
        ensures limit { result ≡ Err GenFault.Limit → Exceeds around.now.limits self.old.listing
            (construct_code (surroundings_of around.now) line
            (under_if (replicator_of replicator.now) (choice_of choice.now)) (site_of self.old)) }
        ensures invalid { result ≡ Err GenFault.Invalid → IsSequentialComponent (Mark mark.If) (choice_of choice.now)
            → around.now.limits.is_sequential ≡ false }
    {
        let end = self.label;
        self.label = label_after(end)?;
        let names = self.frame.homes.len();
        let top = self.frame.top;
        let counted = is_before(line, around.around.uncounted);
        let repeats = repeats_of(counted, &self.scope, false, replicator);
        self.scope.begin()?;
        self.frame.add_home(Home::Nowhere)?;
        self.write_turns(
            around,
            end,
            replicator.name,
            repeats,
            times(repeats),
            choice,
        )?;
        self.frame.leave(names, top);
        self.scope.end();
        self.write_row(around.limits, end)
    }

    /// A choice in `count` turns, of an `IF` that ends at a label.
    #[cycle(processes)]
    fn write_turns(
        &mut self,
        around: &Surroundings<'_, 'a>,
        end: usize,
        name: &'a [u8],
        repeats: Repeats,
        count: u32,
        choice: &Choice<'a>,
    ) -> Result<(), GenFault>
        ensures ok { IfOk result (λ _. WritesTurns self.old self.new around.now end name.now (seen_repeats repeats)
            count (choice_of choice.now)) }
        ensures limit { result ≡ Err GenFault.Limit → Exceeds around.now.limits self.old.listing
            (turns_at (surroundings_of around.now) end name.now (choice_of choice.now) (seen_repeats repeats) count
            (site_of self.old)) }
        ensures invalid { result ≡ Err GenFault.Invalid → IsSequentialComponent (Mark mark.If) (choice_of choice.now)
            → around.now.limits.is_sequential ≡ false }
    {
        let tested = turns_tested(count, &choice.condition);
        for turn in 0..tested {
            add_name(&mut self.scope, name, repeats.index_in(turn))?;
            self.write_tested(around, end, choice)?;
        }
        if tested == count {
            return Ok(self.listing.operate(operations::STOP_PROCESS)?);
        }
        add_name(&mut self.scope, name, repeats.index_in(tested))?;
        self.write_taken(around, choice)
    }
}
