//! The first limit that a program is above.

use crate::counting::{Amounts, Counted, Peaks, earlier};
use crate::excess::{Excess, Limit};
use crate::holding::{bytes_of, items_of, names_of, words_of};
use crate::nesting::{Around, Nesting};
use crate::parts::{Depth, Part, Visitor};
use crate::repeating::{count_of, is_tested};
use crate::walk::walk_program;
use occam_parser::{
    Action, Body, Choice, ConstantValue, Construct, Declaration, Expr, Guard, Item, Replicator,
    ValueType,
};
use program_sizes::{
    size_of_action, size_of_condition, size_of_declaration, size_of_guard, size_of_replicator,
};
use program_work::{
    is_sequential, reading_of_action, reading_of_condition, reading_of_constant,
    reading_of_declaration, reading_of_guard, reading_of_replicator, work_of_turn,
};
use scalar_ranges::{Meaning, Scope};
use std::alloc::{AllocError, Global};

/// The work of what is read of a line, for each unit.
const READING_STEPS: u64 = 16;

/// The work of finding out what a process changes, and what each unit of a line does.
const PROCESS_STEPS: u64 = 40;

const FINDING_STEPS: u64 = 16;

/// What was counted of a program.
#[derive(Drop)]
struct Counts {
    nesting: Nesting,
    /// How deep the process is that is counted.
    depth: Depth,
    items: u64,
    /// Of the constants of the program, and then of each procedure.
    counted: Vec<Counted>,
    /// Which of these is counted.
    place: usize,
    /// Whether the program is sequential: then its lines, its work and its depth are bounded otherwise.
    is_sequential: bool,
    /// Whether memory sufficed.
    complete: bool,
}

impl Counts {
    /// Outside of all items.
    fn new(alloc: Global, is_sequential: bool) -> Counts {
        Counts {
            nesting: Nesting::new(alloc),
            depth: Depth::OUTSIDE,
            items: 0,
            counted: Vec::new(alloc),
            place: 0,
            is_sequential,
            complete: true,
        }
    }

    /// From here on it is counted of another place, of which this is known.
    fn begin(&mut self, counted: Counted) {
        self.place = self.counted.len();
        self.complete &= self.counted.push(counted).is_ok();
    }

    /// From here on this is around, in the process that is counted.
    fn enter(&mut self, around: Around) {
        self.complete &= self.nesting.enter(self.depth.processes, around).is_ok();
    }

    /// A limit that is exceeded here, if one is, whether or not it is written.
    fn note_here(&mut self, excess: Option<Excess>) {
        if let Some(counted) = self.counted.get_mut(self.place) {
            counted.note(excess);
        }
    }

    /// This comes with a line here, whether or not it is written.
    fn add_here(&mut self, line: u32, amounts: Amounts, peaks: Peaks) {
        if let Some(counted) = self.counted.get_mut(self.place) {
            counted.add(line, amounts, peaks);
        }
    }

    /// A limit that is exceeded, if one is.
    fn note(&mut self, excess: Option<Excess>) {
        if self.nesting.here().written != 0 {
            self.note_here(excess);
        }
    }

    /// So many on a line.
    fn count(&mut self, line: u32, limit: Limit, count: u64) {
        self.note(Excess::of(line, limit, count));
    }

    /// What comes with a line, each time that it is written, and so many steps of searching, each time that it is gone over
    /// for what is changed.
    fn add(&mut self, line: u32, amounts: Amounts, mut peaks: Peaks, searching: u64) {
        let here = self.nesting.here();
        if here.written == 0 {
            return;
        }
        let searching = searching.saturating_mul(here.searched);
        let mut amounts = amounts.times(here.written).plus(Amounts::work(searching));
        if self.is_sequential {
            amounts.size = 0;
            amounts.work = 0;
            peaks.processes = 0;
        }
        self.add_here(line, amounts, peaks);
    }

    /// A line of this size, of which so much is read, and which is so many bytes of code.
    fn see_line(&mut self, line: u32, size: u32, reading: u32, bytes: u64) {
        let amounts = Amounts {
            size: u64::from(size),
            bytes,
            ..Amounts::work(u64::from(reading).saturating_mul(READING_STEPS))
        };
        let searching = u64::from(size).saturating_mul(FINDING_STEPS);
        self.add(line, amounts, Peaks::NOTHING, searching);
    }

    /// A line of this size, of which so much is read: of a sequential program it is gone over once more under each
    /// replicator, whatever its turns are.
    fn read(&mut self, line: u32, size: u32, reading: u32) {
        if !self.is_sequential {
            return;
        }
        let again = u64::from(size).saturating_mul(self.nesting.here().replicators);
        let amounts = Amounts::reading(u64::from(reading).saturating_add(again));
        self.add_here(line, amounts, Peaks::NOTHING);
    }

    /// A turn of a replicated `IF` with this choice.
    fn read_turn(&mut self, line: u32, choice: &Choice) {
        if !self.is_sequential {
            return;
        }
        let turn = work_of_turn(choice);
        let limit = Limit::TurnReading(turn.most);
        self.note_here(Excess::of(line, limit, u64::from(turn.work)));
    }

    /// So many rows and `PAR`s.
    fn see_rows(&mut self, line: u32, rows: u64, pars: u64, peaks: Peaks) {
        let rows = Amounts::rows(rows, self.nesting.here().variables);
        self.add(line, Amounts { pars, ..rows }, peaks, 0);
    }

    /// A process begins on this line.
    fn see_process(&mut self, line: u32, depth: Depth) {
        self.depth = depth;
        self.nesting.leave(depth.processes);
        let peaks = Peaks {
            processes: depth.processes,
            nesting: depth.pars,
            ..Peaks::NOTHING
        };
        self.add(line, Amounts::NOTHING, peaks, PROCESS_STEPS);
    }

    /// An instance of this procedure, with so many actuals: it takes and exceeds what the procedure does, and has a row
    /// of its own.
    fn see_instance(&mut self, line: u32, number: u32, actuals: u64) {
        let called = self.counted.get(number as usize + 1).copied();
        let called = called.unwrap_or(Counted::NOTHING);
        let here = self.nesting.here();
        let amounts = called.amounts_of_instance(actuals, here.variables);
        let peaks = called.peaks_of_instance(here, self.depth);
        self.note(called.excess);
        self.add(line, amounts, peaks, 0);
    }

    fn see_action(&mut self, scope: &Scope, line: u32, action: &Action) {
        let size = size_of_action(action);
        let reading = reading_of_action(action);
        self.see_line(line, size, reading, bytes_of(action));
        self.read(line, size, reading);
        match action {
            Action::Stop => self.see_rows(line, 1, 0, Peaks::NOTHING),
            Action::Instance { name, actuals } => {
                if let Some(Meaning::Proc(number)) = scope.meaning(name) {
                    self.see_instance(line, number, actuals.len() as u64);
                }
            }
            Action::Skip | Action::Assign { .. } | Action::Input { .. } | Action::Output { .. } =>
                {}
        }
    }

    /// A condition that is tested: what is known to hold may have no test.
    fn see_condition(&mut self, scope: &Scope, line: u32, condition: &Expr) {
        let size = size_of_condition(condition);
        let reading = reading_of_condition(condition);
        if is_tested(scope, condition) {
            self.see_line(line, size, reading, 0);
        }
        self.read(line, size, reading);
    }

    fn see_guard(&mut self, line: u32, guard: &Guard) {
        self.see_line(line, size_of_guard(guard), reading_of_guard(guard), 0);
    }

    /// What a constant denotes.
    fn see_value(&mut self, line: u32, value: &ConstantValue) {
        self.items = self.items.saturating_add(items_of(value));
        self.count(line, Limit::Items, self.items);
    }

    /// Names that are declared, with so many words, of which so many are variables.
    fn see_names(&mut self, line: u32, words: u64, variables: u64) {
        let around = self.nesting.here().with_names(words, variables);
        self.enter(around);
        let peaks = Peaks {
            words: around.words,
            ..Peaks::NOTHING
        };
        self.add(line, Amounts::NOTHING, peaks, 0);
    }

    fn see_declaration(&mut self, scope: &Scope, line: u32, declaration: &Declaration) {
        let size = size_of_declaration(declaration);
        self.see_line(line, size, 0, 0);
        self.read(line, size, reading_of_declaration(declaration));
        match declaration {
            Declaration::Constant(constant) => self.see_value(line, &constant.value),
            Declaration::Variables(names) => {
                let words = words_of(scope, names.value_type, names);
                self.see_names(line, words, names_of(names));
            }
            Declaration::Channels(names) => {
                self.see_names(line, words_of(scope, ValueType::Int, names), 0);
            }
        }
    }

    /// What was counted of the constants of the program.
    fn constants(&self) -> Counted {
        self.counted.first().copied().unwrap_or(Counted::NOTHING)
    }

    /// The first limit that the constants of the program exceed, or else its last procedure.
    fn first_excess(&self) -> Result<Option<Excess>, AllocError> {
        if !self.complete {
            return Err(AllocError);
        }
        let main = self.counted.last().copied().unwrap_or(Counted::NOTHING);
        Ok(earlier(self.constants().excess, main.excess))
    }

    /// An item, before which a scope has so many names.
    fn see_item(&mut self, scope: &Scope, line: u32, item: &Item) {
        self.nesting.leave(0);
        self.depth = Depth::OUTSIDE;
        match item {
            Item::Constant(constant) => {
                self.place = 0;
                self.see_value(line, &constant.value);
                self.read(line, 0, reading_of_constant(constant));
            }
            Item::Proc(_) => {
                let reading = self.constants().amounts.reading;
                self.begin(Counted::of_procedure(scope.len() as u64, reading));
            }
        }
    }

    /// So many components of a `PAR`: each of them has a row, and so has its end.
    fn see_components(&mut self, line: u32, components: u64) {
        self.count(line, Limit::Components, components);
        self.see_rows(line, components.saturating_add(1), 1, Peaks::NOTHING);
    }

    /// So many guards of an `ALT`: each of them has a row, and so has its end.
    fn see_guards(&mut self, line: u32, guards: u64) {
        self.count(line, Limit::Guards, guards);
        self.see_rows(line, guards.saturating_add(1), 0, Peaks::NOTHING);
    }

    /// An `IF` with so many rows, and at least that of its end.
    fn see_if(&mut self, line: u32, rows: u64) {
        self.see_rows(line, rows.max(1), 0, Peaks::NOTHING);
    }

    /// A loop, with so many turns: it has a row where it begins and one where it ends.
    fn see_loop(&mut self, line: u32, turns: u64) {
        let peaks = Peaks {
            turns,
            ..Peaks::NOTHING
        };
        self.see_rows(line, 2, 0, peaks);
    }

    /// A construct with what is in it. An `IF` has a row for its end, and one for each choice but the last two, of which
    /// the last may be TRUE, and SKIP.
    fn see_construct(&mut self, line: u32, construct: &Construct) {
        match construct {
            Construct::Seq(_) => self.read(line, 1, 1),
            Construct::Par(processes) => {
                self.read(line, 1, 1);
                self.see_components(line, processes.len() as u64);
                let around = self.nesting.here().with_searches(1);
                self.enter(around);
            }
            Construct::If(choices) => {
                self.read(line, 1, 1);
                self.see_if(line, (choices.len() as u64).saturating_sub(1));
            }
            Construct::Alt(branches) => {
                self.read(line, 1, 1);
                self.see_guards(line, branches.len() as u64);
            }
            Construct::Action(_) | Construct::Replicated { .. } => {}
        }
    }

    /// A body under a replicator begins.
    fn see_turns(&mut self, scope: &Scope, line: u32, replicator: &Replicator, body: &Body) {
        let count = count_of(scope, &replicator.count);
        let around = self.nesting.here().in_turns(body, count);
        self.read(
            line,
            size_of_replicator(replicator),
            reading_of_replicator(replicator),
        );
        match body {
            Body::Seq(_) | Body::Par(_) if count == 0 => {}
            Body::Seq(_) => self.see_loop(line, around.turns),
            Body::Par(_) => self.see_components(line, count),
            Body::If(choice) => {
                self.count(line, Limit::Turns, count);
                self.read_turn(line, choice);
                self.see_if(line, count);
            }
            Body::Alt(_) => self.see_guards(line, count),
        }
        self.enter(around);
    }
}

impl Visitor for Counts {
    fn visit(&mut self, scope: &Scope<'_>, line: u32, part: Part<'_, '_>) {
        match part {
            Part::Item(item) => self.see_item(scope, line, item),
            Part::Process(depth) => self.see_process(line, depth),
            Part::Declaration(declaration) => self.see_declaration(scope, line, declaration),
            Part::Construct(construct) => self.see_construct(line, construct),
            Part::Turns(replicator, body) => self.see_turns(scope, line, replicator, body),
            Part::Action(action) => self.see_action(scope, line, action),
            Part::Condition(condition) => self.see_condition(scope, line, condition),
            Part::Guard(guard) => self.see_guard(line, guard),
        }
    }
}

/// Whether the last of some items is a sequential procedure.
fn ends_sequential(items: &[Item]) -> bool {
    match items.last() {
        Some(Item::Proc(main)) => is_sequential(&main.body),
        _ => false,
    }
}

/// The first limit that a program is above, if its source shows one: its constants do, or `main`, the last procedure, with
/// what it calls. That a program which is refused for a limit is above this one is claimed by no contract: of what it
/// becomes that is counted which there surely is.
pub fn limit_excess(alloc: Global, items: &[Item]) -> Result<Option<Excess>, AllocError> {
    let mut counts = Counts::new(alloc, ends_sequential(items));
    counts.begin(Counted::NOTHING);
    let walked = walk_program(alloc, items, &mut counts);
    counts.complete &= walked.is_ok();
    counts.first_excess()
}
