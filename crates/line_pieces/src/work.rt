//! How much may be done beside writing, so that the time of a program is bounded by more than its size.

ghost use Rattle.std.specs.Prelude.{◌≡◌, IfOk};

use crate::listing::Listing;
use code_pieces::Piece;
use module_builder::GenFault;
use occam_parser::{Body, Branch, Choice, Construct, Declaration, Process};
use program_sizes::{
    size_of_action, size_of_condition, size_of_declaration, size_of_guard, size_of_replicator,
};
use scalar_ranges::Scope;

/// How many steps may be made. A step takes some five nanoseconds.
const GREATEST_WORK: usize = 400_000_000;

/// For each unit of the size of an expression, at each level of brackets that is around it.
const READING_STEPS: usize = 16;

/// For a name from before a procedure, at each instance.
const LENDING_STEPS: usize = 8;

/// How many bytes of such names a step is for, where they are compared with those of the instance before.
const LETTERS_A_STEP: usize = 16;

/// For such a name that the instance before did not have.
const AGAIN_STEPS: usize = 32;

/// For such a name whose spelling is new to a scope.
const NAME_STEPS: usize = 256;

/// For each byte of such a name.
const LETTER_STEPS: usize = 4;

/// For what is passed to a parameter.
const PASSING_STEPS: usize = 400;

/// For a value of a table that is passed. So all of these take 200 MB at most.
const VALUE_STEPS: usize = 8;

/// For an entry that is looked up among what a branch of a `PAR` uses.
const CUTTING_STEPS: usize = 12;

/// For a name that is looked at for a row.
const ROW_STEPS: usize = 1;

/// For a process in a body whose changes are found.
const PROCESS_STEPS: usize = 40;

/// For each unit of the size of such a body.
const FINDING_STEPS: usize = 16;

/// The names from before a procedure that an instance of it has.
#[derive(Clone, Copy)]
pub struct Lent {
    /// How many there are.
    pub count: usize,
    /// How many of the first ones the instance before had too, and the bytes of these.
    pub kept: usize,
    pub letters: usize,
    /// How many of the first ones are spelled as names that its scope has had.
    pub spelled: usize,
}

/// What was done beside writing so far. Too much stays too much: whether it is so is asked once for all that is counted
/// in a call.
#[derive(Clone, Copy)]
pub(crate) struct Work {
    steps: usize,
}

impl Work {
    /// Nothing was done.
    pub(crate) fn nothing() -> Work {
        Work { steps: 0 }
    }

    /// `times` times `steps` steps.
    fn count(&mut self, times: usize, steps: usize) {
        self.steps = self.steps.saturating_add(times.saturating_mul(steps));
    }

    /// The error is [`GenFault::Limit`] if there are too many steps.
    fn ask(self) -> Result<(), GenFault> {
        if self.steps > GREATEST_WORK {
            return Err(GenFault::Limit);
        }
        Ok(())
    }

    /// The outermost names of a scope are lent to an instance.
    fn lend(&mut self, scope: &Scope, names: Lent) {
        let again = names.spelled.min(names.count).saturating_sub(names.kept);
        self.count(names.count, LENDING_STEPS);
        self.count(names.letters / LETTERS_A_STEP, 1);
        self.count(again, AGAIN_STEPS);
        self.spell(scope, names.kept.max(names.spelled), names.count);
    }

    /// The names with numbers from one up to another, which is left out, are declared in a scope that has not had them.
    fn spell(&mut self, scope: &Scope, from: usize, to: usize) {
        for number in from..to {
            if let Some(entry) = scope.entry(number) {
                self.count(1, NAME_STEPS);
                self.count(entry.name.len(), LETTER_STEPS);
            }
        }
    }

    /// What rows of a branch say is looked up.
    fn cut(&mut self, pieces: &[Piece]) {
        for piece in pieces {
            if let Piece::Row { entries, .. } = piece {
                self.count(entries.len(), CUTTING_STEPS);
            }
        }
    }

    /// A line of this size is gone over for what it changes.
    fn find_on_line(&mut self, size: u32) {
        self.count(size as usize, FINDING_STEPS);
    }

    /// Declarations are gone over for what is changed after them.
    fn find_after(&mut self, declarations: &[Declaration]) {
        for declaration in declarations {
            self.find_on_line(size_of_declaration(declaration));
        }
    }

    /// A process is gone over for what it changes.
    #[cycle(finding)]
    fn find(&mut self, process: &Process) {
        self.count(1, PROCESS_STEPS);
        self.find_after(&process.declarations);
        self.find_in_construct(&process.construct);
    }

    /// A construct is gone over.
    #[cycle(finding)]
    fn find_in_construct(&mut self, construct: &Construct) {
        match construct {
            Construct::Action(action) => self.find_on_line(size_of_action(action)),
            Construct::Seq(processes) | Construct::Par(processes) => self.find_in_all(processes),
            Construct::If(choices) => self.find_in_choices(choices),
            Construct::Alt(branches) => self.find_in_branches(branches),
            Construct::Replicated { replicator, body } => {
                self.find_on_line(size_of_replicator(replicator));
                self.find_in_body(body);
            }
        }
    }

    /// Processes are gone over.
    #[cycle(finding)]
    fn find_in_all(&mut self, processes: &[Process]) {
        for process in processes {
            self.find(process);
        }
    }

    /// The choices of an `IF` are gone over.
    #[cycle(finding)]
    fn find_in_choices(&mut self, choices: &[Choice]) {
        for choice in choices {
            self.find_in_choice(choice);
        }
    }

    /// The branches of an `ALT` are gone over.
    #[cycle(finding)]
    fn find_in_branches(&mut self, branches: &[Branch]) {
        for branch in branches {
            self.find_in_branch(branch);
        }
    }

    /// A body under a replicator is gone over.
    #[cycle(finding)]
    fn find_in_body(&mut self, body: &Body) {
        match body {
            Body::Seq(process) | Body::Par(process) => self.find(process),
            Body::If(choice) => self.find_in_choice(choice),
            Body::Alt(branch) => self.find_in_branch(branch),
        }
    }

    /// A choice is gone over.
    #[cycle(finding)]
    fn find_in_choice(&mut self, choice: &Choice) {
        self.find_on_line(size_of_condition(&choice.condition));
        self.find(&choice.process);
    }

    /// A branch of an `ALT` is gone over.
    #[cycle(finding)]
    fn find_in_branch(&mut self, branch: &Branch) {
        self.find_on_line(size_of_guard(&branch.guard));
        self.find(&branch.process);
    }
}

impl Listing {
    /// Expressions of this size are read, those in brackets again for each level of these.
    pub fn spend(&mut self, units: u32) -> Result<(), GenFault>
        ensures { IfOk result (λ _. self.new ≡ self.old) }
    {
        self.work.count(units as usize, READING_STEPS);
        self.work.ask()
    }

    /// The outermost names of a scope are lent to an instance.
    pub fn lend(&mut self, scope: &Scope, names: Lent) -> Result<(), GenFault>
        ensures { IfOk result (λ _. self.new ≡ self.old) }
    {
        self.work.lend(scope, names);
        self.work.ask()
    }

    /// `actuals` actuals are passed.
    pub fn pass(&mut self, actuals: usize) -> Result<(), GenFault>
        ensures { IfOk result (λ _. self.new ≡ self.old) }
    {
        self.work.count(actuals, PASSING_STEPS);
        self.work.ask()
    }

    /// Tables with `values` values are passed.
    pub fn pass_values(&mut self, values: usize) -> Result<(), GenFault>
        ensures { IfOk result (λ _. self.new ≡ self.old) }
    {
        self.work.count(values, VALUE_STEPS);
        self.work.ask()
    }

    /// `names` names are looked at for a row.
    pub fn look_at(&mut self, names: usize) -> Result<(), GenFault>
        ensures { IfOk result (λ _. self.new ≡ self.old) }
    {
        self.work.count(names, ROW_STEPS);
        self.work.ask()
    }

    /// A process is gone over for what it changes.
    pub fn find(&mut self, process: &Process) -> Result<(), GenFault>
        ensures { IfOk result (λ _. self.new ≡ self.old) }
    {
        self.work.find(process);
        self.work.ask()
    }

    /// The code of a branch was written, whose rows are cut now.
    pub fn go_on_after(&mut self, branch: &Listing) -> Result<(), GenFault>
        ensures { IfOk result (λ _. self.new ≡ self.old) }
    {
        self.work = branch.work;
        self.work.cut(branch.code.as_slice());
        self.work.ask()
    }
}
