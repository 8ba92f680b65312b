//! What one line uses: an action, a guard or a declaration.

ghost use Rattle.std.specs.Prelude.{◌≡◌, map};
ghost use Rattle.occam_parser.specs.OneOrMore.{as_list, one_or_more_of};
ghost use Rattle.occam_parser.specs.Views.{expression_of};
ghost use Rattle.occam_parser.specs.LineViews.{action_of, guard_of, declaration_of, value_of};
ghost use Rattle.scalar_ranges.specs.Scopes.{entries_of};
ghost use Rattle.program_uses.specs.Sets.{Adds};
ghost use Rattle.program_uses.specs.Actions.{is_before, uses_of_action, uses_of_guard, reads_of_all, reads_of_value};
ghost use Rattle.program_uses.specs.Actions.{uses_of_declaration};
ghost use Rattle.program_uses.specs.ActionViews.{around_of};

use crate::signature::Signature;
use crate::uses::{Direction, Uses};
use occam_parser::{Action, ConstantValue, Declaration, Expr, Guard, OneOrMore};
use scalar_ranges::Scope;

/// What is known of the program before a place.
#[derive(Clone, Copy)]
pub struct Around<'s> {
    /// The procedures, by their numbers.
    pub signatures: &'s [Signature],
    /// The line from which on nothing is counted, if there is one.
    pub uncounted: Option<u32>,
}

/// Whether a line is before one, if there is that one.
pub fn is_before(line: u32, end: Option<u32>) -> bool
    ensures { result ≡ is_before line end }
{
    match end {
        None => true,
        Some(end) => line < end,
    }
}

impl Uses {
    /// What an action on this line uses.
    pub fn act(&mut self, around: Around, scope: &Scope, line: u32, action: &Action)
        ensures { Adds self.old self.new
            (uses_of_action (around_of around.entry) (entries_of scope.now) line (action_of action.now)) }
    {
        match action {
            Action::Skip | Action::Stop => {}
            Action::Assign { target, value } => {
                self.change(scope, target);
                self.read(scope, value);
            }
            Action::Input { channel, target } => {
                self.use_end(scope, Direction::Input, channel);
                self.change(scope, target);
            }
            Action::Output { channel, value } => {
                self.use_end(scope, Direction::Output, channel);
                self.read(scope, value);
            }
            Action::Instance { name, actuals } => {
                let counted = is_before(line, around.uncounted);
                self.pass_all(
                    counted,
                    scope,
                    around.signatures,
                    scope.meaning(name),
                    actuals,
                );
            }
        }
    }

    /// What a guard uses.
    pub fn guard(&mut self, scope: &Scope, guard: &Guard)
        ensures { Adds self.old self.new (uses_of_guard (entries_of scope.now) (guard_of guard.now)) }
    {
        match guard {
            Guard::Skip { condition } => self.read(scope, condition),
            Guard::Input {
                condition,
                channel,
                target,
            } => {
                self.read_if_any(scope, condition);
                self.use_end(scope, Direction::Input, channel);
                self.change(scope, target);
            }
        }
    }

    /// What a declaration uses: its expressions are constants, if they break no rule.
    pub fn declare(&mut self, scope: &Scope, declaration: &Declaration)
        ensures { Adds self.old self.new
            (uses_of_declaration (entries_of scope.now) (declaration_of declaration.now)) }
    {
        match declaration {
            Declaration::Constant(constant) => self.read_value(scope, &constant.value),
            Declaration::Variables(names) | Declaration::Channels(names) => {
                self.read_if_any(scope, &names.size)
            }
        }
    }

    /// What the value of a constant reads.
    fn read_value(&mut self, scope: &Scope, value: &ConstantValue)
        ensures { Adds self.old self.new (reads_of_value (entries_of scope.now) (value_of value.now)) }
    {
        match value {
            ConstantValue::Scalar(value) => self.read(scope, value),
            ConstantValue::Table { size, items } => {
                self.read(scope, size);
                self.read_items(scope, items);
            }
            ConstantValue::Text { size, .. } => self.read(scope, size),
        }
    }

    /// What the items of a table read.
    fn read_items(&mut self, scope: &Scope, items: &OneOrMore<Expr>)
        ensures { Adds self.old self.new
            (reads_of_all (entries_of scope.now) (as_list (one_or_more_of expression_of items.now))) }
    {
        self.read(scope, &items.first);
        for item in &items.others {
            self.read(scope, item);
        }
    }
}
