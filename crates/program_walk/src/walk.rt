//! The walk over a program.

use crate::parts::{Depth, Part, Visitor};
use loop_scopes::begin_loop;
use occam_parser::{
    Action, Body, Branch, Choice, Constant, Construct, Declaration, Guard, Item, OneOrMore, Proc,
    Process, Replicator,
};
use program_uses::{
    Signature, add_name, channel_meaning, constant_meaning, repeats_of, variable_meaning,
    variables_changed, variables_changed_in,
};
use scalar_ranges::{Meaning, Scope, narrow_by};
use std::alloc::{AllocError, Global};
use usage_checks::{add_formals, after_action, after_input, parameters_for};

/// What is known at a place of a program.
#[derive(Drop)]
struct Walk<'a> {
    alloc: Global,
    scope: Scope<'a>,
    /// What is known of the procedures before, but for the ends of channels that they use.
    signatures: Vec<Signature>,
    depth: Depth,
    /// Whether memory was enough.
    complete: bool,
}

/// The line of a declaration.
fn line_of(declaration: &Declaration) -> u32 {
    match declaration {
        Declaration::Constant(constant) => constant.line,
        Declaration::Variables(names) | Declaration::Channels(names) => names.line,
    }
}

impl<'a> Walk<'a> {
    /// Before a program.
    fn new(alloc: Global) -> Walk<'a> {
        Walk {
            alloc,
            scope: Scope::new(alloc),
            signatures: Vec::new(alloc),
            depth: Depth::OUTSIDE,
            complete: true,
        }
    }

    /// One name more.
    fn add(&mut self, name: &'a [u8], meaning: Meaning) {
        self.complete &= add_name(&mut self.scope, name, meaning).is_ok();
    }

    /// Some names, which mean the same.
    fn add_all(&mut self, names: &OneOrMore<&'a [u8]>, meaning: Meaning) {
        self.add(names.first, meaning);
        for name in &names.others {
            self.add(name, meaning);
        }
    }

    /// The name of a constant.
    fn add_constant(&mut self, constant: &Constant<'a>) {
        let meaning = constant_meaning(&self.scope, constant.value_type, &constant.value);
        self.add(constant.name, meaning);
    }

    /// The name of the procedure with this number.
    fn add_procedure(&mut self, name: &'a [u8], number: usize) {
        match u32::try_from(number) {
            Ok(number) => self.add(name, Meaning::Proc(number)),
            Err(_) => self.complete = false,
        }
    }

    /// The names of a declaration.
    fn declare(&mut self, declaration: &Declaration<'a>) {
        match declaration {
            Declaration::Constant(constant) => self.add_constant(constant),
            Declaration::Variables(names) => {
                let meaning = variable_meaning(&self.scope, names.value_type, &names.size);
                self.add_all(&names.names, meaning);
            }
            Declaration::Channels(names) => {
                let meaning = channel_meaning(&self.scope, names.value_type, &names.size);
                self.add_all(&names.names, meaning);
            }
        }
    }

    /// Declarations, one line after the other.
    fn declarations<V: Visitor>(&mut self, visitor: &mut V, declarations: &[Declaration<'a>]) {
        for declaration in declarations {
            let line = line_of(declaration);
            visitor.visit(&self.scope, line, Part::Declaration(declaration));
            self.declare(declaration);
        }
    }

    /// An action on this line, and what is known after it.
    fn act<V: Visitor>(&mut self, visitor: &mut V, line: u32, action: &Action<'a>) {
        visitor.visit(&self.scope, line, Part::Action(action));
        after_action(&mut self.scope, &self.signatures, action);
    }

    /// A guard, and then where it is ready.
    fn guard<V: Visitor>(&mut self, visitor: &mut V, line: u32, guard: &Guard<'a>) {
        visitor.visit(&self.scope, line, Part::Guard(guard));
        match guard {
            Guard::Skip { condition } => narrow_by(&mut self.scope, condition, true),
            Guard::Input {
                condition,
                target,
                ..
            } => {
                if let Some(condition) = condition {
                    narrow_by(&mut self.scope, condition, true);
                }
                after_input(&mut self.scope, target);
            }
        }
    }

    /// The body of a replicated `SEQ` begins.
    fn begin_loop(&mut self, replicator: &Replicator<'a>, body: &Body<'a>) {
        let changed = variables_changed_in(
            self.alloc,
            &self.signatures,
            &mut self.scope,
            replicator,
            body,
        );
        match changed {
            Ok(numbers) => self.complete &= begin_loop(&mut self.scope, &numbers).is_ok(),
            Err(_) => self.complete = false,
        }
    }

    /// The turns of a body begin.
    fn begin_turns(&mut self, replicator: &Replicator<'a>, body: &Body<'a>) {
        match body {
            Body::Seq(_) => self.begin_loop(replicator, body),
            Body::Par(_) => self.complete &= self.scope.begin_par().is_ok(),
            Body::If(_) | Body::Alt(_) => self.complete &= self.scope.begin().is_ok(),
        }
    }

    /// A construct that begins on this line is shown, but for an action, and what is known in it begins.
    fn begin<V: Visitor>(&mut self, visitor: &mut V, line: u32, construct: &Construct<'a>) {
        if !matches!(construct, Construct::Action(_)) {
            visitor.visit(&self.scope, line, Part::Construct(construct));
        }
        match construct {
            Construct::Par(_) => self.complete &= self.scope.begin_par().is_ok(),
            Construct::If(_) | Construct::Alt(_) => self.complete &= self.scope.begin().is_ok(),
            Construct::Action(_) | Construct::Seq(_) | Construct::Replicated { .. } => {}
        }
    }

    /// What is known in it ends.
    fn end(&mut self, construct: &Construct) {
        match construct {
            Construct::Action(_) | Construct::Seq(_) => {}
            Construct::Par(_)
            | Construct::If(_)
            | Construct::Alt(_)
            | Construct::Replicated { .. } => self.scope.end(),
        }
    }

    /// A replicator is shown, and then its turns begin, with an index that may be each of its values, as that of a `SEQ`.
    fn replicate<V: Visitor>(
        &mut self,
        visitor: &mut V,
        line: u32,
        replicator: &Replicator<'a>,
        body: &Body<'a>,
    ) {
        visitor.visit(&self.scope, line, Part::Turns(replicator, body));
        let repeats = repeats_of(true, &self.scope, true, replicator);
        self.begin_turns(replicator, body);
        self.add(replicator.name, repeats.index_in(0));
    }

    /// A process, with what it declares.
    #[cycle(walk)]
    fn process<V: Visitor>(&mut self, visitor: &mut V, process: &Process<'a>) {
        let outside = self.depth;
        self.depth.processes = outside.processes.saturating_add(1);
        visitor.visit(&self.scope, process.line, Part::Process(self.depth));
        self.declarations(visitor, &process.declarations);
        self.construct(visitor, process.line, &process.construct);
        self.depth = outside;
    }

    /// A construct that begins on this line.
    #[cycle(walk)]
    fn construct<V: Visitor>(&mut self, visitor: &mut V, line: u32, construct: &Construct<'a>) {
        self.begin(visitor, line, construct);
        match construct {
            Construct::Action(action) => self.act(visitor, line, action),
            Construct::Seq(processes) => {
                for process in processes {
                    self.inner(visitor, process);
                }
            }
            Construct::Par(processes) => {
                for process in processes {
                    self.component(visitor, process);
                }
            }
            Construct::If(choices) => {
                for choice in choices {
                    self.choice(visitor, choice);
                }
            }
            Construct::Alt(branches) => {
                for branch in branches {
                    self.branch(visitor, branch);
                }
            }
            Construct::Replicated { replicator, body } => {
                self.replicate(visitor, line, replicator, body);
                self.body(visitor, body);
            }
        }
        self.end(construct);
    }

    /// A process whose names are left after it.
    #[cycle(walk)]
    fn inner<V: Visitor>(&mut self, visitor: &mut V, process: &Process<'a>) {
        let count = self.scope.len();
        self.process(visitor, process);
        self.scope.leave(count);
    }

    /// The numbers of the variables that a process changes.
    fn changed_in(&mut self, process: &Process<'a>) -> Vec<usize> {
        match variables_changed(self.alloc, &self.signatures, &mut self.scope, process) {
            Ok(numbers) => numbers,
            Err(_) => {
                self.complete = false;
                Vec::new(self.alloc)
            }
        }
    }

    /// A component of a `PAR`.
    #[cycle(walk)]
    fn component<V: Visitor>(&mut self, visitor: &mut V, process: &Process<'a>) {
        let changed = self.changed_in(process);
        let outside = self.depth;
        self.depth.pars = outside.pars.saturating_add(1);
        self.process(visitor, process);
        self.depth = outside;
        self.scope.next_component(&changed);
    }

    /// A choice of an `IF`.
    #[cycle(walk)]
    fn choice<V: Visitor>(&mut self, visitor: &mut V, choice: &Choice<'a>) {
        self.scope.exclude(&choice.condition);
        visitor.visit(&self.scope, choice.line, Part::Condition(&choice.condition));
        narrow_by(&mut self.scope, &choice.condition, true);
        self.process(visitor, &choice.process);
        self.scope.next();
    }

    /// A branch of an `ALT`.
    #[cycle(walk)]
    fn branch<V: Visitor>(&mut self, visitor: &mut V, branch: &Branch<'a>) {
        self.guard(visitor, branch.line, &branch.guard);
        self.process(visitor, &branch.process);
        self.scope.next();
    }

    /// A body under a replicator, once.
    #[cycle(walk)]
    fn body<V: Visitor>(&mut self, visitor: &mut V, body: &Body<'a>) {
        match body {
            Body::Seq(process) => self.inner(visitor, process),
            Body::Par(process) => self.component(visitor, process),
            Body::If(choice) => self.choice(visitor, choice),
            Body::Alt(branch) => self.branch(visitor, branch),
        }
    }

    /// What those that call a procedure know of it.
    fn sign(&mut self, proc: &Proc<'a>) {
        match parameters_for(self.alloc, &self.scope, &proc.formals) {
            Ok(parameters) => {
                self.complete &= self.signatures.push(Signature { parameters }).is_ok();
            }
            Err(_) => self.complete = false,
        }
    }

    /// A procedure, and its name.
    fn procedure<V: Visitor>(&mut self, visitor: &mut V, proc: &Proc<'a>) {
        let count = self.scope.len();
        let number = self.signatures.len();
        self.complete &= add_formals(self.alloc, &mut self.scope, &proc.formals).is_ok();
        self.process(visitor, &proc.body);
        self.scope.leave(count);
        self.sign(proc);
        self.add_procedure(proc.name, number);
    }

    /// An item, with what those after it know of it.
    fn item<V: Visitor>(&mut self, visitor: &mut V, item: &Item<'a>) {
        visitor.visit(&self.scope, item.line(), Part::Item(item));
        match item {
            Item::Constant(constant) => self.add_constant(constant),
            Item::Proc(proc) => self.procedure(visitor, proc),
        }
    }

    /// Items, one after the other.
    fn items<V: Visitor>(&mut self, visitor: &mut V, items: &[Item<'a>]) {
        for item in items {
            self.item(visitor, item);
        }
    }

    /// Whether memory was enough.
    fn verdict(&self) -> Result<(), AllocError> {
        if self.complete {
            Ok(())
        } else {
            Err(AllocError)
        }
    }
}

/// Shows each part of a program to a visitor, in the order of its lines, with what is known there: of each name that is in
/// scope what it denotes, and of a scalar its range, as the rules of usage know it. A part under a replicator is shown
/// once, where its index may be each of its values. Whether the program breaks rules makes no difference. What is shown
/// is claimed by no contract.
pub(crate) fn walk_program<V: Visitor>(
    alloc: Global,
    items: &[Item],
    visitor: &mut V,
) -> Result<(), AllocError> {
    let mut walk = Walk::new(alloc);
    walk.items(visitor, items);
    walk.verdict()
}
