//! Writing the code of processes. If a function fails, some pieces more may have come.

ghost use Rattle.std.specs.Prelude.{◌≡◌, ◌≢◌, ◌++◌, ◌∷◌, [], IfOk, Err, map, false};
ghost use Rattle.occam_layout.specs.declared.mark.Mark.TheVariants as mark;
ghost use Rattle.occam_parser.specs.Terminals.{Mark};
ghost use Rattle.occam_parser.specs.Views.{expression_of};
ghost use Rattle.occam_parser.specs.Lines.{Constants, Variables, Channels, Stop, Instance};
ghost use Rattle.occam_parser.specs.Blocks.{Act, Replicated};
ghost use Rattle.occam_parser.specs.LineViews.{action_of, constant_of, declaration_of, names_of, replicator_of};
ghost use Rattle.occam_parser.specs.BlockViews.{process_of, construct_of, body_of, plain_component, all_processes};
ghost use Rattle.scalar_ranges.specs.Scopes.{entries_of, known_of};
ghost use Rattle.line_pieces.specs.Actions.{action_code, test_code};
ghost use Rattle.line_pieces.specs.Declarations.{declaration_code};
ghost use Rattle.program_meaning.specs.Sequential.{IsSequential, IsSequentialAction, IsSequentialConstruct};
ghost use Rattle.program_meaning.specs.Sequential.{IsSequentialBody, AreSequential};
ghost use Rattle.code_generator.specs.CallViews.{surroundings_of};
ghost use Rattle.line_pieces.specs.FrameViews.{frame_seen};
ghost use Rattle.code_generator.specs.Processes.{row_of, line_code, process_code};
ghost use Rattle.code_generator.specs.Processes.{construct_code, body_code, components_code, component_code};
ghost use Rattle.code_generator.specs.Written.{site_of, Appends, Declares, DeclaresAll, WritesConstruct, WritesProcess};
ghost use Rattle.code_generator.specs.Written.{WritesSeq, WritesOne, WritesLoop, first_site, WritesLine};
ghost use Rattle.code_generator.specs.Written.{IsTooMuch, Exceeds, declarations_code, turning_code, looped_code};
ghost use Rattle.code_generator.specs.Written.{WritesTurning};

use crate::calling::Surroundings;
use crate::clearing::clear_names;
use crate::context::Context;
use crate::lending::Spare;
use crate::limits::{Limits, Spent};
use crate::loops::{Turning, value_or_zero};
use crate::passing::Passed;
use code_pieces::{Piece, operations};
use line_pieces::{
    Frame, Listing, Setting, channels_in, declare_names, facts_in, home_for, label_after, words_in,
};
use module_builder::GenFault;
use occam_parser::{
    Action, Body, Constant, Construct, Declaration, Expr, Names, Process, Replicator,
};
use program_sizes::{size_of_action, size_of_condition, size_of_declaration};
use program_uses::{
    add_name, channel_meaning, constant_meaning, is_before, repeats_of, variable_meaning,
    variables_changed_in,
};
use program_work::{reading_of_action, reading_of_condition};
use scalar_ranges::Scope;
use std::alloc::{AllocError, Global};
use usage_checks::after_action;

/// Writes code, and knows what holds where it goes on.
#[derive(Drop)]
pub struct ProcessWriter<'a> {
    pub(crate) alloc: Global,
    pub(crate) context: Context,
    pub(crate) scope: Scope<'a>,
    pub(crate) frame: Frame,
    /// The number of the first label that is free.
    pub(crate) label: usize,
    pub(crate) listing: Listing,
    pub(crate) spent: Spent,
    /// Scopes for instances.
    pub(crate) spares: Vec<Spare<'a>>,
    /// How many names from before a procedure the scope has had at most.
    pub(crate) spelled: usize,
}

/// The first word that a process has for its names: those before it are for the selection of an alternation and the
/// block of a `PAR`.
const FIRST_WORD: u32 = 2;

impl<'a> ProcessWriter<'a> {
    /// Nothing is written, and no name is known.
    pub fn new(alloc: Global) -> ProcessWriter<'a>
        ensures listing { result.listing ≡ [] }
        ensures site { site_of result ≡ first_site }
    {
        ProcessWriter {
            alloc,
            context: Context::root(),
            scope: Scope::new(alloc),
            frame: Frame {
                homes: Vec::new(alloc),
                top: FIRST_WORD,
                outer: Vec::new(alloc),
            },
            label: 0,
            listing: Listing::new(alloc),
            spent: Spent::nothing(),
            spares: Vec::new(alloc),
            spelled: 0,
        }
    }

    /// A constant. It takes no words.
    pub(crate) fn declare_constant(&mut self, constant: &Constant<'a>) -> Result<(), AllocError>
        ensures { IfOk result (λ _. Declares self.old self.new (Constants (constant_of constant.now))) }
    {
        let home = home_for(
            self.alloc,
            &self.scope,
            constant.value_type,
            &constant.value,
        )?;
        self.frame.add_home(home)?;
        let meaning = constant_meaning(&self.scope, constant.value_type, &constant.value);
        add_name(&mut self.scope, constant.name, meaning)?;
        Ok(())
    }

    /// Variables, which are 0.
    fn declare_variables(&mut self, limits: Limits, names: &Names<'a>) -> Result<(), GenFault>
        ensures ok { IfOk result (λ _. Declares self.old self.new (Variables (names_of names.now))) }
        ensures limit { result ≡ Err GenFault.Limit → IsTooMuch limits self.old.listing
            (declaration_code (entries_of self.old.scope) (Variables (names_of names.now)) self.old.frame.top) }
        ensures invalid { result ≢ Err GenFault.Invalid }
    {
        let count = words_in(&self.scope, names.value_type, &names.size);
        let meaning = variable_meaning(&self.scope, names.value_type, &names.size);
        let listing = &mut self.listing;
        clear_names(
            listing,
            limits,
            &names.size,
            &names.names,
            self.frame.top,
            count,
        )?;
        self.frame.add_names(count, &names.names)?;
        declare_names(&mut self.scope, &names.names, meaning)?;
        Ok(())
    }

    /// Channels.
    fn declare_channels(&mut self, names: &Names<'a>) -> Result<(), AllocError>
        ensures { IfOk result (λ _. Declares self.old self.new (Channels (names_of names.now))) }
    {
        let count = channels_in(&self.scope, &names.size);
        let meaning = channel_meaning(&self.scope, names.value_type, &names.size);
        self.frame.add_names(count, &names.names)?;
        declare_names(&mut self.scope, &names.names, meaning)?;
        Ok(())
    }

    /// A declaration.
    fn declare(&mut self, limits: Limits, declaration: &Declaration<'a>) -> Result<(), GenFault>
        ensures ok { IfOk result (λ _. Declares self.old self.new (declaration_of declaration.now)) }
        ensures limit { result ≡ Err GenFault.Limit → IsTooMuch limits self.old.listing
            (declaration_code (entries_of self.old.scope) (declaration_of declaration.now) self.old.frame.top) }
        ensures invalid { result ≡ Err GenFault.Invalid → limits.is_sequential ≡ false }
    {
        self.walk_over(limits, size_of_declaration(declaration), 0)?;
        match declaration {
            Declaration::Constant(constant) => Ok(self.declare_constant(constant)?),
            Declaration::Variables(names) => self.declare_variables(limits, names),
            Declaration::Channels(names) => Ok(self.declare_channels(names)?),
        }
    }

    /// The declarations before a construct.
    #[inline(never)]
    fn declare_all(
        &mut self,
        limits: Limits,
        declarations: &[Declaration<'a>],
    ) -> Result<(), GenFault>
        ensures ok { IfOk result (λ _. DeclaresAll self.old self.new (map declaration_of declarations.now)) }
        ensures limit { result ≡ Err GenFault.Limit → IsTooMuch limits self.old.listing
            (declarations_code (map declaration_of declarations.now) (site_of self.old)) }
        ensures invalid { result ≡ Err GenFault.Invalid → limits.is_sequential ≡ false }
    {
        for declaration in declarations {
            self.declare(limits, declaration)?;
        }
        Ok(())
    }

    /// A label, and what is known here.
    pub(crate) fn write_row(&mut self, limits: Limits, label: usize) -> Result<(), GenFault>
        ensures row { IfOk result (λ _. self.new.listing
            ≡ self.old.listing ++ row_of label (frame_seen self.old.frame) (known_of self.old.scope) ∷ []) }
        ensures site { IfOk result (λ _. site_of self.new ≡ site_of self.old) }
        ensures limit { result ≡ Err GenFault.Limit → IsTooMuch limits self.old.listing
            (row_of label (frame_seen self.old.frame) (known_of self.old.scope) ∷ []) }
        ensures invalid { result ≡ Err GenFault.Invalid → limits.is_sequential ≡ false }
    {
        let entries = facts_in(self.alloc, &self.scope, &self.frame)?;
        self.say(limits, entries.len())?;
        self.listing.push(Piece::Row { label, entries })?;
        limits.ask_room(&self.listing)
    }

    /// `STOP`: a row says what is known where code goes on that nothing reaches.
    fn write_stop(&mut self, limits: Limits) -> Result<(), GenFault>
        ensures code { IfOk result (λ _. Appends self.old.listing self.new.listing self.new.label
            (action_code (frame_seen self.old.frame) (entries_of self.old.scope) self.old.label Stop)) }
        ensures scope { IfOk result (λ _. known_of self.new.scope ≡ known_of self.old.scope) }
        ensures frame { IfOk result (λ _. frame_seen self.new.frame ≡ frame_seen self.old.frame) }
        ensures limit { result ≡ Err GenFault.Limit → Exceeds limits self.old.listing
            (action_code (frame_seen self.old.frame) (entries_of self.old.scope) self.old.label Stop) }
        ensures invalid { result ≡ Err GenFault.Invalid → limits.is_sequential ≡ false }
    {
        let label = self.label;
        self.label = label_after(label)?;
        self.listing.operate(operations::STOP_PROCESS)?;
        self.write_row(limits, label)?;
        Ok(())
    }

    /// The code of an action that is no instance. The error is [`GenFault::Invalid`] for one.
    #[inline(never)]
    fn write_action(&mut self, limits: Limits, action: &Action) -> Result<(), GenFault>
        ensures code { IfOk result (λ _. Appends self.old.listing self.new.listing self.new.label
            (action_code (frame_seen self.old.frame) (entries_of self.old.scope) self.old.label
            (action_of action.now))) }
        ensures scope { IfOk result (λ _. known_of self.new.scope ≡ known_of self.old.scope) }
        ensures frame { IfOk result (λ _. frame_seen self.new.frame ≡ frame_seen self.old.frame) }
        ensures limit { result ≡ Err GenFault.Limit → Exceeds limits self.old.listing
            (action_code (frame_seen self.old.frame) (entries_of self.old.scope) self.old.label
            (action_of action.now)) }
        ensures invalid { result ≡ Err GenFault.Invalid → IsSequentialAction (action_of action.now)
            → limits.is_sequential ≡ false }
    {
        let setting = Setting {
            scope: &self.scope,
            homes: &self.frame.homes,
            top: self.frame.top,
        };
        match action {
            Action::Skip => Ok(()),
            Action::Stop => self.write_stop(limits),
            Action::Assign { target, value } => {
                Ok(self.listing.write_assignment(setting, target, value)?)
            }
            Action::Input { channel, target } => {
                Ok(self.listing.write_input(setting, channel, target)?)
            }
            Action::Output { channel, value } => {
                Ok(self.listing.write_output(setting, channel, value)?)
            }
            Action::Instance { .. } => Err(GenFault::Invalid),
        }
    }

    /// A condition, and a jump to a label where it does not hold.
    #[inline(never)]
    pub(crate) fn write_test(
        &mut self,
        limits: Limits,
        condition: &Expr,
        label: usize,
    ) -> Result<(), GenFault>
        ensures code { IfOk result (λ _. self.new.listing
            ≡ self.old.listing ++ test_code (frame_seen self.old.frame).homes (entries_of self.old.scope)
            self.old.frame.top (expression_of condition.now) label) }
        ensures site { IfOk result (λ _. site_of self.new ≡ site_of self.old) }
        ensures limit { result ≡ Err GenFault.Limit → limits.is_sequential ≡ false }
        ensures invalid { result ≡ Err GenFault.Invalid → limits.is_sequential ≡ false }
    {
        let reading = reading_of_condition(condition);
        self.walk_over(limits, size_of_condition(condition), reading)?;
        let setting = Setting {
            scope: &self.scope,
            homes: &self.frame.homes,
            top: self.frame.top,
        };
        self.listing.write_test(setting, condition, label)?;
        Ok(())
    }

    /// A process, with what it declares. Its code is that of its line, and what comes after it that of the line before.
    #[cycle(processes)]
    pub fn write(
        &mut self,
        around: &Surroundings<'_, 'a>,
        process: &Process<'a>,
    ) -> Result<(), GenFault>
        ensures ok { IfOk result (λ _. WritesProcess self.old self.new around.now (process_of process.now)) }
        ensures limit { result ≡ Err GenFault.Limit → Exceeds around.now.limits self.old.listing
            (process_code (surroundings_of around.now) (process_of process.now) (site_of self.old)) }
        ensures invalid { result ≡ Err GenFault.Invalid → IsSequential (process_of process.now)
            → around.now.limits.is_sequential ≡ false }
    {
        let before = self.begin_line(process.line)?;
        let inside = around.inside()?;
        let count = self.frame.homes.len();
        let top = self.frame.top;
        self.declare_all(around.limits, &process.declarations)?;
        self.write_construct(&inside, process.line, &process.construct)?;
        self.frame.leave(count, top);
        self.begin_line(before)?;
        Ok(())
    }

    /// A construct that begins on this line.
    #[cycle(processes)]
    fn write_construct(
        &mut self,
        around: &Surroundings<'_, 'a>,
        line: u32,
        construct: &Construct<'a>,
    ) -> Result<(), GenFault>
        ensures ok { IfOk result (λ _. WritesConstruct self.old self.new around.now line
            (construct_of construct.now)) }
        ensures limit { result ≡ Err GenFault.Limit → Exceeds around.now.limits self.old.listing
            (construct_code (surroundings_of around.now) line (construct_of construct.now) (site_of self.old)) }
        ensures invalid { result ≡ Err GenFault.Invalid → IsSequentialConstruct (construct_of construct.now)
            → around.now.limits.is_sequential ≡ false }
    {
        match construct {
            Construct::Action(action) => self.act(around, line, action),
            Construct::Seq(processes) => self.write_seq(around, processes),
            Construct::If(choices) => self.write_if(around, choices),
            Construct::Replicated { replicator, body } => {
                self.write_replicated(around, line, replicator, body)
            }
            Construct::Par(processes) => self.write_par(around, processes),
            Construct::Alt(branches) => self.write_alt(around, branches),
        }
    }

    /// An action.
    #[cycle(processes)]
    fn act(
        &mut self,
        around: &Surroundings<'_, 'a>,
        line: u32,
        action: &Action<'a>,
    ) -> Result<(), GenFault>
        ensures ok { IfOk result (λ _. WritesConstruct self.old self.new around.now line
            (Act (action_of action.now))) }
        ensures limit { result ≡ Err GenFault.Limit → Exceeds around.now.limits self.old.listing
            (line_code (surroundings_of around.now) (action_of action.now) (site_of self.old)) }
        ensures invalid { result ≡ Err GenFault.Invalid → IsSequentialAction (action_of action.now)
            → around.now.limits.is_sequential ≡ false }
    {
        let reading = reading_of_action(action);
        self.walk_over(around.limits, size_of_action(action), reading)?;
        self.write_line(around, action)?;
        after_action(&mut self.scope, around.around.signatures, action);
        Ok(())
    }

    /// The code of an action.
    #[cycle(processes)]
    fn write_line(
        &mut self,
        around: &Surroundings<'_, 'a>,
        action: &Action<'a>,
    ) -> Result<(), GenFault>
        ensures ok { IfOk result (λ _. WritesLine self.old self.new around.now (action_of action.now)) }
        ensures limit { result ≡ Err GenFault.Limit → Exceeds around.now.limits self.old.listing
            (line_code (surroundings_of around.now) (action_of action.now) (site_of self.old)) }
        ensures invalid { result ≡ Err GenFault.Invalid → IsSequentialAction (action_of action.now)
            → around.now.limits.is_sequential ≡ false }
    {
        match action {
            Action::Instance { name, actuals } => self.write_instance(around, name, actuals),
            _ => self.write_action(around.limits, action),
        }
    }

    /// The code of an instance. The error is [`GenFault::Invalid`] if what is called is no procedure before this place.
    #[cycle(processes)]
    fn write_instance(
        &mut self,
        around: &Surroundings<'_, 'a>,
        name: &[u8],
        actuals: &[Expr<'a>],
    ) -> Result<(), GenFault>
        ensures ok { IfOk result (λ _. WritesLine self.old self.new around.now
            (Instance name.now (map expression_of actuals.now))) }
        ensures limit { result ≡ Err GenFault.Limit → around.now.limits.is_sequential ≡ false }
    {
        if around.limits.is_sequential {
            return Err(GenFault::Invalid);
        }
        let procedure = self.scope.meaning(name);
        let call = around.call(procedure)?;
        let passed = Passed {
            signatures: around.around.signatures,
            procedure,
            actuals,
        };
        let mut body = self.begin_instance(around.limits, call.callee, passed)?;
        let process = &call.callee.proc.body;
        body.write(&call.inside, process)?;
        self.end_instance(body, passed)
    }

    /// The processes of a `SEQ`.
    #[cycle(processes)]
    fn write_seq(
        &mut self,
        around: &Surroundings<'_, 'a>,
        processes: &[Process<'a>],
    ) -> Result<(), GenFault>
        ensures ok { IfOk result (λ _. WritesSeq self.old self.new around.now (all_processes processes.now)) }
        ensures limit { result ≡ Err GenFault.Limit → Exceeds around.now.limits self.old.listing
            (components_code (surroundings_of around.now) (all_processes processes.now) (site_of self.old)) }
        ensures invalid { result ≡ Err GenFault.Invalid → AreSequential (Mark mark.Seq) (all_processes processes.now)
            → around.now.limits.is_sequential ≡ false }
    {
        for process in processes {
            self.write_one(around, process)?;
        }
        Ok(())
    }

    /// A process of a `SEQ`.
    #[cycle(processes)]
    fn write_one(
        &mut self,
        around: &Surroundings<'_, 'a>,
        process: &Process<'a>,
    ) -> Result<(), GenFault>
        ensures ok { IfOk result (λ _. WritesOne self.old self.new around.now (plain_component process.now)) }
        ensures limit { result ≡ Err GenFault.Limit → Exceeds around.now.limits self.old.listing
            (component_code (surroundings_of around.now) (plain_component process.now) (site_of self.old)) }
        ensures invalid { result ≡ Err GenFault.Invalid → IsSequential (process_of process.now)
            → around.now.limits.is_sequential ≡ false }
    {
        let count = self.scope.len();
        self.write(around, process)?;
        self.scope.leave(count);
        Ok(())
    }

    /// A construct under a replicator on this line.
    #[cycle(processes)]
    fn write_replicated(
        &mut self,
        around: &Surroundings<'_, 'a>,
        line: u32,
        replicator: &Replicator<'a>,
        body: &Body<'a>,
    ) -> Result<(), GenFault>
        ensures ok { IfOk result (λ _. WritesConstruct self.old self.new around.now line
            (Replicated (replicator_of replicator.now) (body_of body.now))) }
        ensures limit { result ≡ Err GenFault.Limit → Exceeds around.now.limits self.old.listing
            (body_code (surroundings_of around.now) line (replicator_of replicator.now) (body_of body.now)
            (site_of self.old)) }
        ensures invalid { result ≡ Err GenFault.Invalid → IsSequentialBody (body_of body.now)
            → around.now.limits.is_sequential ≡ false }
    {
        match body {
            Body::Seq(process) => {
                self.find(around.limits, process)?;
                let changed = variables_changed_in(
                    self.alloc,
                    around.around.signatures,
                    &mut self.scope,
                    replicator,
                    body,
                )?;
                self.write_loop(around, line, replicator, &changed, process)?;
                Ok(())
            }
            Body::If(choice) => self.write_repeated_if(around, line, replicator, choice),
            Body::Par(process) => self.write_repeated_par(around, line, replicator, process),
            Body::Alt(branch) => self.write_repeated_alt(around, line, replicator, branch),
        }
    }

    /// A loop: a process under a replicator, which changes the variables with these numbers.
    #[cycle(processes)]
    fn write_loop(
        &mut self,
        around: &Surroundings<'_, 'a>,
        line: u32,
        replicator: &Replicator<'a>,
        changed: &[usize],
        process: &Process<'a>,
    ) -> Result<(), GenFault>
        ensures ok { IfOk result (λ _. WritesLoop self.old self.new around.now line (replicator_of replicator.now)
            changed.now (process_of process.now)) }
        ensures limit { result ≡ Err GenFault.Limit → Exceeds around.now.limits self.old.listing
            (looped_code (surroundings_of around.now) line (replicator_of replicator.now) changed.now
            (process_of process.now) (site_of self.old)) }
        ensures invalid { result ≡ Err GenFault.Invalid → IsSequential (process_of process.now)
            → around.now.limits.is_sequential ≡ false }
    {
        let count = value_or_zero(&self.scope, &replicator.count);
        if count == 0 {
            return self.write_no_loop(around.limits, changed);
        }
        let counted = is_before(line, around.around.uncounted);
        let repeats = repeats_of(counted, &self.scope, true, replicator);
        let turning = Turning {
            name: replicator.name,
            index: repeats.index_in(0),
            base: value_or_zero(&self.scope, &replicator.base),
            count,
        };
        self.write_turning(around, turning, changed, process)
    }

    /// A loop with turns.
    #[cycle(processes)]
    fn write_turning(
        &mut self,
        around: &Surroundings<'_, 'a>,
        turning: Turning<'a>,
        changed: &[usize],
        process: &Process<'a>,
    ) -> Result<(), GenFault>
        ensures ok { IfOk result (λ _. WritesTurning self.old self.new around.now turning.entry changed.now
            (process_of process.now)) }
        ensures limit { result ≡ Err GenFault.Limit → Exceeds around.now.limits self.old.listing
            (turning_code (surroundings_of around.now) turning.entry changed.now (process_of process.now)
            (site_of self.old)) }
        ensures invalid { result ≡ Err GenFault.Invalid → IsSequential (process_of process.now)
            → around.now.limits.is_sequential ≡ false }
    {
        let head = self.label;
        let names = self.frame.homes.len();
        let word = self.frame.top;
        self.enter_loop(around.limits, turning, changed)?;
        self.write_one(around, process)?;
        self.leave_loop(around.limits, names, word, head)
    }
}
