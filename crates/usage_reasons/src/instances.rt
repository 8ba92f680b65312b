//! The part of an instance that breaks a rule.

ghost use Rattle.std.specs.Prelude.{◌≡◌, IfSome, Some, map, option_map};
ghost use Rattle.std.specs.List.{slice_get};
ghost use Rattle.occam_parser.specs.Views.{expression_of};
ghost use Rattle.scalar_ranges.specs.Environments.{item_at};
ghost use Rattle.program_uses.specs.Signatures.{parameter_of};
ghost use Rattle.usage_reasons.specs.AtFault.{IsAtFault};
ghost use Rattle.usage_reasons.specs.Calls.{parameters_for};
ghost use Rattle.usage_reasons.specs.Causes.{Explains};
ghost use Rattle.usage_reasons.specs.Sites.{known_at};

use crate::cause::{Found, Rule, meant};
use crate::reason::{Sort, Tokens, Why};
use crate::site::Site;
use crate::tokens::{plus_between, width_of};
use occam_parser::Expr;
use program_uses::{Parameter, count_of_parameters, parameter_at, place_in};
use usage_checks::{Wanted, subscript_for};

/// Where the first actual begins.
const ACTUALS: usize = 2;

/// An actual of an instance, with the parameter that it is passed to, and the tokens that it is.
#[derive(Clone, Copy)]
pub(crate) struct Passed<'s, 'a> {
    pub(crate) place: usize,
    pub(crate) parameter: Option<&'s Parameter>,
    pub(crate) actual: &'s Expr<'a>,
    pub(crate) tokens: Tokens,
}

/// An instance.
#[derive(Clone, Copy)]
pub(crate) struct Instance<'s, 'a> {
    pub(crate) site: Site<'s, 'a>,
    pub(crate) name: &'s [u8],
    pub(crate) actuals: &'s [Expr<'a>],
}

impl<'a> Site<'_, 'a> {
    /// The part of an actual that breaks a rule of expressions.
    #[tactic(auto, using(crate::proofs::Parts::of_cause_if, crate::proofs::Parts::first_of))]
    fn in_passed(&self, passed: Passed) -> Found<'a>
        ensures { IfSome result (Explains (known_at self.now)) }
    {
        let at = passed.tokens.at;
        let Some(place) = place_in(passed.actual) else {
            return self.in_wanted(at, Wanted::Anything, passed.actual);
        };
        let wanted = match passed.parameter {
            Some(parameter) => subscript_for(Some(parameter.meaning)),
            None => subscript_for(None),
        };
        let inner = self.in_subscript(at, wanted, place);
        if self.rule == Rule::Names {
            self.in_name(Sort::Scalar, at, place.name).or(inner)
        } else {
            inner
        }
    }
}

impl<'s, 'a> Instance<'s, 'a> {
    /// The actual with this number, whose first token is this one.
    fn passed(&self, place: usize, at: usize) -> Option<Passed<'s, 'a>>
        ensures parameter { IfSome result (λ p. option_map (λ q. parameter_of q.now) p.parameter
            ≡ item_at place (parameters_for self.now)) }
        ensures actual { IfSome result (λ p. slice_get (map expression_of self.now.actuals.now) place
            ≡ Some (expression_of p.actual.now)) }
    {
        let actual = self.actuals.get(place)?;
        let len = width_of(actual);
        let procedure = self.site.scope.meaning(self.name);
        Some(Passed {
            place,
            parameter: parameter_at(self.site.signatures, procedure, place),
            actual,
            tokens: Tokens { at, len },
        })
    }

    /// Why an actual breaks the rule.
    #[tactic(auto, using(crate::proofs::AtFault::explained_if))]
    fn in_actual(&self, passed: Passed<'s, 'a>) -> Found<'a>
        ensures { IfSome result IsAtFault }
    {
        match self.site.rule {
            Rule::Actuals => self.site.not_taken(passed),
            Rule::Channels => self.site.misused_actual(passed),
            Rule::Passing => self.passed_before(passed),
            _ => self.site.in_passed(passed),
        }
    }

    /// Why the first of the actuals that break the rule does.
    fn in_actuals(&self) -> Found<'a>
        ensures { IfSome result IsAtFault }
    {
        let mut at = ACTUALS;
        for place in 0..self.actuals.len() {
            let passed = self.passed(place, at)?;
            let found = self.in_actual(passed);
            if found.is_some() {
                return found;
            }
            at = plus_between(at, passed.tokens.len);
        }
        None
    }

    /// An actual that its parameter does not take, or another number of them than of parameters.
    #[tactic(auto, using(crate::specs::AtFault::other_count))]
    fn other_actual(&self) -> Found<'a>
        ensures { IfSome result IsAtFault }
    {
        let actuals = self.actuals.len();
        let procedure = self.site.scope.meaning(self.name);
        let parameters = count_of_parameters(self.site.signatures, procedure);
        if actuals == parameters {
            return self.in_actuals();
        }
        let why = Why::OtherCount {
            actuals,
            parameters,
        };
        Some(meant(0, self.site.len, why))
    }

    /// This actual, if it may not be passed beside one before it.
    fn passed_before(&self, second: Passed<'s, 'a>) -> Found<'a>
        ensures { IfSome result IsAtFault }
    {
        let mut at = ACTUALS;
        for place in 0..second.place {
            let first = self.passed(place, at)?;
            if let Some(cause) = self.site.passed_twice(first, second) {
                return Some(cause);
            }
            at = plus_between(at, first.tokens.len);
        }
        None
    }

    /// Why the instance breaks the rule.
    #[tactic(auto, using(crate::proofs::AtFault::caused_if, crate::proofs::Parts::first_of))]
    pub(crate) fn cause(&self) -> Found<'a>
        ensures { IfSome result IsAtFault }
    {
        match self.site.rule {
            Rule::Actuals => self.other_actual(),
            Rule::Names | Rule::Types => {
                let name = self.site.in_name(Sort::Procedure, 0, self.name);
                name.or(self.in_actuals())
            }
            _ => self.in_actuals(),
        }
    }
}
