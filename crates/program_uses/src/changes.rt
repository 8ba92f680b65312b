//! The variables that are changed, by their numbers.

ghost use Rattle.std.specs.Prelude.{◌≡◌, true, [], drop, length, IfOk, option_map, option_and_then, map};
ghost use Rattle.occam_parser.specs.Views.{expression_of};
ghost use Rattle.occam_parser.specs.LineViews.{action_of, guard_of, declaration_of};
ghost use Rattle.scalar_ranges.specs.Scopes.{entries_of, known_of, meaning_of};
ghost use Rattle.program_uses.specs.Changes.{listed, changed_by_actual, changed_by_actuals, changed_by_action};
ghost use Rattle.program_uses.specs.Changes.{changed_by_guard, Notes};
ghost use Rattle.program_uses.specs.Declaring.{add};
ghost use Rattle.program_uses.specs.Entering.{add_outlines};
ghost use Rattle.program_uses.specs.Extending.{Extends};
ghost use Rattle.program_uses.specs.Instances.{place_in, variable_at};
ghost use Rattle.program_uses.specs.Signatures.{parameter_of, signatures_of, parameters_in};

use crate::extending::{add_name, add_outlines};
use crate::instances::{place_in, variable_at};
use crate::mentions::variable;
use crate::signature::{Parameter, Passing, Signature, parameter_at, passing_of};
use occam_parser::{Action, Declaration, Expr, Guard};
use scalar_ranges::{Meaning, Scope};
use std::alloc::{AllocError, Global};

/// The numbers of variables that are changed. It remembers whether memory ran out while something was noted.
#[derive(Drop)]
pub(crate) struct Changes {
    pub(crate) numbers: Vec<usize>,
    pub(crate) complete: bool,
}

/// The variable that an expression is, if it is exactly that.
fn variable_in(scope: &Scope, expr: &Expr) -> Option<usize>
    ensures { result
        ≡ option_and_then (variable_at (entries_of scope.now)) (place_in (expression_of expr.now)) }
{
    variable_at(scope, place_in(expr)?)
}

impl Changes {
    /// None.
    pub(crate) fn new(alloc: Global) -> Changes
        ensures { result.numbers.items ≡ [] }
    {
        Changes {
            numbers: Vec::new(alloc),
            complete: true,
        }
    }

    /// One number more, if there is one.
    fn note(&mut self, number: Option<usize>)
        ensures { Notes self.old self.new (listed number) }
    {
        if let Some(number) = number {
            if self.numbers.push(number).is_err() {
                self.complete = false;
            }
        }
    }

    /// What is passed to a parameter, if there is one, as a variable.
    fn pass(&mut self, scope: &Scope, parameter: Option<&Parameter>, actual: &Expr)
        ensures { Notes self.old self.new
            (changed_by_actual (entries_of scope.now) (option_map (λ p. parameter_of p.now) parameter.entry)
            (expression_of actual.now)) }
    {
        let Some(parameter) = parameter else { return };
        match passing_of(parameter.meaning) {
            Passing::Variable => self.note(variable_in(scope, actual)),
            Passing::Value | Passing::Channel | Passing::Channels => {}
        }
    }

    /// What is passed to a procedure as a variable.
    fn pass_all(
        &mut self,
        scope: &Scope,
        signatures: &[Signature],
        procedure: Option<Meaning>,
        actuals: &[Expr],
    )
        ensures { Notes self.old self.new
            (changed_by_actuals (entries_of scope.now)
            (parameters_in (signatures_of signatures.now) (option_map meaning_of procedure))
            (map expression_of actuals.now)) }
    {
        for (place, actual) in actuals.iter().enumerate() {
            self.pass(scope, parameter_at(signatures, procedure, place), actual);
        }
    }

    /// What an action changes.
    pub(crate) fn act(&mut self, signatures: &[Signature], scope: &Scope, action: &Action)
        ensures { Notes self.old self.new
            (changed_by_action (signatures_of signatures.now) (entries_of scope.now) (action_of action.now)) }
    {
        match action {
            Action::Skip | Action::Stop | Action::Output { .. } => {}
            Action::Assign { target, .. } | Action::Input { target, .. } => {
                self.note(variable(scope, target.name));
            }
            Action::Instance { name, actuals } => {
                self.pass_all(scope, signatures, scope.meaning(name), actuals);
            }
        }
    }

    /// What a guard changes.
    pub(crate) fn guard(&mut self, scope: &Scope, guard: &Guard)
        ensures { Notes self.old self.new (changed_by_guard (entries_of scope.now) (guard_of guard.now)) }
    {
        match guard {
            Guard::Skip { .. } => {}
            Guard::Input { target, .. } => self.note(variable(scope, target.name)),
        }
    }

    /// One name more in the scope.
    pub(crate) fn enter_name<'a>(&mut self, scope: &mut Scope<'a>, name: &'a [u8], meaning: Meaning)
        ensures notes { Notes self.old self.new [] }
        ensures entries { self.new.complete ≡ true
            → entries_of scope.new ≡ add name.now (meaning_of meaning) (entries_of scope.old) }
        ensures extends { Extends (known_of scope.old) (known_of scope.new) }
    {
        match add_name(scope, name, meaning) {
            Ok(()) => {}
            Err(_) => self.complete = false,
        }
    }

    /// The names of declarations in the scope.
    pub(crate) fn enter<'a>(&mut self, scope: &mut Scope<'a>, declarations: &[Declaration<'a>])
        ensures notes { Notes self.old self.new [] }
        ensures entries { self.new.complete ≡ true → entries_of scope.new
            ≡ add_outlines (map declaration_of declarations.now) (entries_of scope.old) }
        ensures extends { Extends (known_of scope.old) (known_of scope.new) }
    {
        match add_outlines(scope, declarations) {
            Ok(()) => {}
            Err(_) => self.complete = false,
        }
    }

    /// The numbers, if memory was enough for all of them.
    pub(crate) fn all(self) -> Result<Vec<usize>, AllocError>
        ensures ok { IfOk result (λ numbers. (numbers ≡ self.numbers) × (self.complete ≡ true)) }
    {
        if self.complete {
            Ok(self.numbers)
        } else {
            Err(AllocError)
        }
    }

    /// How many numbers were noted.
    pub(crate) fn count(&self) -> usize
        ensures { result ≡ length self.now.numbers.items }
    {
        self.numbers.len()
    }

    /// The numbers that were noted since there were `first` of them.
    pub(crate) fn since(&self, alloc: Global, first: usize) -> Result<Vec<usize>, AllocError>
        ensures { IfOk result (λ numbers. numbers.items ≡ drop first self.now.numbers.items) }
    {
        let first = first.min(self.numbers.len());
        self.numbers[first..].to_vec(alloc)
    }
}
