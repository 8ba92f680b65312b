//! The walk over processes, as far as the line at fault.

use crate::site::Part;
use crate::tokens::{plus, width_of};
use crate::walk::Walk;
use loop_scopes::begin_loop;
use occam_parser::{
    Body, Branch, Choice, Constant, Construct, Declaration, Expr, Guard, Names, Process, Replicator,
};
use program_uses::{
    Repeats, channel_meaning, constant_meaning, is_sequence, repeats_of, variable_meaning,
    variables_changed, variables_changed_in,
};
use scalar_ranges::{Meaning, narrow_by};
use std::alloc::AllocError;
use usage_checks::{after_action, after_input};

impl<'a> Walk<'_, 'a> {
    /// A constant of the scope whose first declaration has this number.
    pub(crate) fn constant(&mut self, first: usize, constant: &Constant<'a>) {
        self.look(constant.line, Part::Constant(constant));
        let meaning = constant_meaning(&self.scope, constant.value_type, &constant.value);
        self.enter(first, constant.line, constant.name, meaning);
    }

    /// Names that one line declares.
    fn enter_all(&mut self, first: usize, declared: &Names<'a>, meaning: Meaning) {
        self.look(declared.line, Part::Size(&declared.size));
        self.enter(first, declared.line, declared.names.first, meaning);
        for name in &declared.names.others {
            self.enter(first, declared.line, name, meaning);
        }
    }

    /// The declarations before a construct.
    fn declarations(&mut self, declarations: &[Declaration<'a>]) {
        let first = self.scope.len();
        for declaration in declarations {
            match declaration {
                Declaration::Constant(constant) => self.constant(first, constant),
                Declaration::Variables(names) => {
                    let meaning = variable_meaning(&self.scope, names.value_type, &names.size);
                    self.enter_all(first, names, meaning);
                }
                Declaration::Channels(names) => {
                    let meaning = channel_meaning(&self.scope, names.value_type, &names.size);
                    self.enter_all(first, names, meaning);
                }
            }
        }
    }

    /// A process.
    #[cycle(walk)]
    pub(crate) fn process(&mut self, process: &Process<'a>) {
        self.declarations(&process.declarations);
        if !self.is_over(process.line) {
            self.construct(process.line, &process.construct);
        }
    }

    /// A construct that begins on this line.
    #[cycle(walk)]
    fn construct(&mut self, line: u32, construct: &Construct<'a>) {
        match construct {
            Construct::Action(action) => {
                self.look(line, Part::Action(action));
                after_action(&mut self.scope, &self.signatures, action);
            }
            Construct::Seq(processes) => {
                for process in processes {
                    self.inner(process);
                }
            }
            Construct::Par(processes) => self.par(line, processes),
            Construct::If(choices) => {
                self.begin();
                for choice in choices {
                    self.choice(choice);
                }
                self.scope.end();
            }
            Construct::Alt(branches) => {
                self.begin();
                for branch in branches {
                    self.branch(branch);
                }
                self.scope.end();
            }
            Construct::Replicated { replicator, body } => {
                self.replicated(line, replicator, body);
            }
        }
    }

    /// A process whose names are left after it.
    #[cycle(walk)]
    fn inner(&mut self, process: &Process<'a>) {
        let count = self.scope.len();
        self.process(process);
        self.scope.leave(count);
    }

    /// A `PAR` on this line.
    #[cycle(walk)]
    fn par(&mut self, line: u32, processes: &[Process<'a>]) {
        if line == self.fault.line {
            self.explain_par(processes);
            return;
        }
        let around = self.position.parallel;
        self.begin_par();
        for process in processes {
            self.component(process);
        }
        self.scope.end();
        self.position.parallel = around;
    }

    /// A component of a `PAR`.
    #[cycle(walk)]
    fn component(&mut self, process: &Process<'a>) {
        let changed = variables_changed(self.alloc, &self.signatures, &mut self.scope, process);
        self.process(process);
        self.next_component(changed);
    }

    /// A choice of an `IF`.
    #[cycle(walk)]
    fn choice(&mut self, choice: &Choice<'a>) {
        if self.is_over(choice.line) {
            return;
        }
        self.look(choice.line, Part::Condition(&choice.condition));
        self.scope.exclude(&choice.condition);
        narrow_by(&mut self.scope, &choice.condition, true);
        self.process(&choice.process);
        self.scope.next();
    }

    /// A branch of an `ALT`.
    #[cycle(walk)]
    fn branch(&mut self, branch: &Branch<'a>) {
        if self.is_over(branch.line) {
            return;
        }
        self.guard(branch.line, &branch.guard);
        self.process(&branch.process);
        self.scope.next();
    }

    /// A block under a replicator on this line.
    #[cycle(walk)]
    fn replicated(&mut self, line: u32, replicator: &Replicator<'a>, body: &Body<'a>) {
        if line == self.fault.line {
            self.explain_turns(line, replicator, body);
            return;
        }
        let around = self.position.parallel;
        let is_repeated = self.is_repeated;
        let repeats = self.begin_turns(replicator, body);
        for turn in 0..repeats.turns.count {
            if self.is_done() {
                break;
            }
            self.declare(line, replicator.name, repeats.index_in(turn));
            self.turn(body);
        }
        self.end_turns(repeats);
        self.is_repeated = is_repeated;
        self.position.parallel = around;
    }

    /// A body in one turn.
    #[cycle(walk)]
    fn turn(&mut self, body: &Body<'a>) {
        match body {
            Body::Seq(process) => self.inner(process),
            Body::Par(process) => self.component(process),
            Body::If(choice) => self.choice(choice),
            Body::Alt(branch) => self.branch(branch),
        }
    }

    /// The turns of a body under a replicator begin.
    fn begin_turns(&mut self, replicator: &Replicator<'a>, body: &Body<'a>) -> Repeats {
        let repeats = repeats_of(true, &self.scope, is_sequence(body), replicator);
        if !repeats.happens {
            self.begin();
        }
        self.is_repeated |= !repeats.sequential;
        match body {
            Body::Seq(_) => self.begin_loop(replicator, body),
            Body::Par(_) => self.begin_par(),
            Body::If(_) | Body::Alt(_) => self.begin(),
        }
        repeats
    }

    /// The turns end.
    fn end_turns(&mut self, repeats: Repeats) {
        self.scope.end();
        if !repeats.happens {
            self.scope.end();
        }
    }

    /// A loop begins.
    fn begin_loop(&mut self, replicator: &Replicator<'a>, body: &Body<'a>) {
        let (alloc, signatures) = (self.alloc, &self.signatures);
        match variables_changed_in(alloc, signatures, &mut self.scope, replicator, body) {
            Ok(numbers) => self.complete &= begin_loop(&mut self.scope, &numbers).is_ok(),
            Err(_) => self.complete = false,
        }
    }

    /// A `PAR` begins.
    fn begin_par(&mut self) {
        self.position.parallel = self.scope.len();
        self.complete &= self.scope.begin_par().is_ok();
    }

    /// The next component of a `PAR` begins, after one that changes the variables with these numbers.
    fn next_component(&mut self, changed: Result<Vec<usize>, AllocError>) {
        match changed {
            Ok(numbers) => self.scope.next_component(&numbers),
            Err(_) => self.complete = false,
        }
    }

    /// An `IF` or an `ALT` begins.
    fn begin(&mut self) {
        self.complete &= self.scope.begin().is_ok();
    }

    /// A condition on this line, and then where it holds.
    fn condition(&mut self, line: u32, condition: &Expr<'a>) {
        self.look(line, Part::Condition(condition));
        narrow_by(&mut self.scope, condition, true);
    }

    /// A guard on this line, and then where it holds.
    fn guard(&mut self, line: u32, guard: &Guard<'a>) {
        match guard {
            Guard::Skip { condition } => self.condition(line, condition),
            Guard::Input {
                condition,
                channel,
                target,
            } => {
                let mut at = 0;
                if let Some(condition) = condition {
                    self.condition(line, condition);
                    at = plus(width_of(condition), 1);
                }
                self.look(line, Part::Input(at, channel, target));
                after_input(&mut self.scope, target);
            }
        }
    }
}
