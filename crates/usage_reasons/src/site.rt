//! Why a part of the line at fault breaks its rule, with what is known where it is.
#![tactic(auto, using(crate::proofs::AtFault::explained, crate::proofs::AtFault::explained_if))]

ghost use Rattle.std.specs.Prelude.{IfSome};
ghost use Rattle.usage_reasons.specs.AtFault.{IsAtFault};

use crate::cause::{Found, Rule, meant};
use crate::instances::Instance;
use crate::lines::{CHANNEL, TARGET};
use crate::reason::Why;
use occam_parser::{Action, Constant, Expr, Formal, Place, Replicator};
use program_uses::{Direction, Signature};
use scalar_ranges::{ExprType, Scope};
use usage_checks::{Position, Wanted};

/// A part of a line.
#[derive(Clone, Copy)]
pub(crate) enum Part<'p, 'a> {
    Constant(&'p Constant<'a>),
    /// The size of what the line declares, if it is an array.
    Size(&'p Option<Expr<'a>>),
    Formals(&'p [Formal<'a>]),
    Condition(&'p Expr<'a>),
    /// An input, whose channel begins at this token, and its target.
    Input(usize, &'p Place<'a>, &'p Place<'a>),
    Action(&'p Action<'a>),
    Replicator(&'p Replicator<'a>),
}

/// What is known where the line at fault is, and which rule it breaks.
#[derive(Clone, Copy)]
pub(crate) struct Site<'s, 'a> {
    pub(crate) scope: &'s Scope<'a>,
    pub(crate) signatures: &'s [Signature],
    pub(crate) position: Position,
    pub(crate) rule: Rule,
    /// How many tokens the line has.
    pub(crate) len: usize,
    /// Whether a block around is gone over once for each index.
    pub(crate) is_repeated: bool,
}

impl<'a> Site<'_, 'a> {
    /// Why a part of the line breaks the rule.
    pub(crate) fn cause(&self, part: Part<'_, 'a>) -> Found<'a>
        ensures { IfSome result IsAtFault }
    {
        match part {
            Part::Constant(constant) => self.in_constant(constant),
            Part::Size(size) => self.in_any_size(0, size),
            Part::Formals(formals) => self.in_formals(formals),
            Part::Condition(condition) => {
                self.in_wanted(0, Wanted::Value(ExprType::Condition), condition)
            }
            Part::Input(at, channel, target) => self.in_input(at, channel, target),
            Part::Action(action) => self.in_action(action),
            Part::Replicator(replicator) => self.or_too_large(self.in_replicator(replicator)),
        }
    }

    /// Why an input breaks the rule, which begins at this token.
    fn in_input(&self, at: usize, channel: &Place, target: &Place) -> Found<'a>
        ensures { IfSome result IsAtFault }
    {
        let received = self.in_received(at, channel, target);
        self.or_misused(received, at, channel, Direction::Input)
    }

    /// Why an action breaks the rule.
    fn in_action(&self, action: &Action<'a>) -> Found<'a>
        ensures { IfSome result IsAtFault }
    {
        match action {
            Action::Skip | Action::Stop => None,
            Action::Assign { target, value } => self.in_given(TARGET, target, value),
            Action::Input { channel, target } => self.in_input(0, channel, target),
            Action::Output { channel, value } => {
                let sent = self.in_given(CHANNEL, channel, value);
                self.or_misused(sent, 0, channel, Direction::Output)
            }
            Action::Instance { name, actuals } => self.or_too_large(self.in_instance(
                name, actuals,
            )),
        }
    }

    /// Why an instance breaks the rule.
    fn in_instance(&self, name: &[u8], actuals: &[Expr<'a>]) -> Found<'a>
        ensures { IfSome result IsAtFault }
    {
        let instance = Instance {
            site: *self,
            name,
            actuals,
        };
        instance.cause()
    }

    /// A cause, or that the program goes beyond the size that is gone over, if the line breaks the rule in no other way.
    #[tactic(auto, using(crate::specs::AtFault::left_out))]
    fn or_too_large(&self, cause: Found<'a>) -> Found<'a>
        requires { IfSome cause IsAtFault }
        ensures { IfSome result IsAtFault }
    {
        if cause.is_some() || self.rule != Rule::Ranges || self.is_repeated {
            return cause;
        }
        Some(meant(0, self.len, Why::TooLarge))
    }
}
