//! The walk over the items of a program, as far as the line at fault.

ghost use Rattle.std.specs.Prelude.{◌≡◌, length, map, IfOk, IfSome};
ghost use Rattle.occam_parser.specs.BlockViews.{item_of};
ghost use Rattle.usage_reasons.specs.AtFault.{AreAtFault};
ghost use Rattle.usage_reasons.specs.LastItems.{IsMainReason};
ghost use Rattle.usage_reasons.specs.Reasons.{IsReasonOf};

use crate::main_reason::main_reason;
use crate::reason::Reason;
use crate::site::Part;
use crate::walk::{Walk, tested};
use occam_layout::Token;
use occam_parser::{Item, Proc, Program};
use program_uses::{Around, NO_MAIN, Parameter, UsageFault, Uses, signed};
use scalar_ranges::Meaning;
use std::alloc::{AllocError, Global};
use usage_checks::{Position, is_main_name, parameters_for};

impl<'a> Walk<'_, 'a> {
    /// A procedure that ends before the line at fault: what is known of it by those that call it.
    fn sign(&mut self, first: usize, proc: &Proc<'a>, parameters: Vec<Parameter>) {
        let around = Around {
            signatures: &self.signatures,
            uncounted: None,
        };
        let mut used = Uses::new(self.alloc);
        let mut told = None;
        used.collect(&mut told, around, &mut self.scope, &proc.body);
        match signed(self.alloc, parameters, first, &used) {
            Ok(signature) => self.complete &= self.signatures.push(signature).is_ok(),
            Err(_) => self.complete = false,
        }
    }

    /// A procedure, before which the scope has this many names. It ends before the line at fault, or has it.
    fn within(&mut self, first: usize, proc: &Proc<'a>, ends: bool, parameters: Vec<Parameter>) {
        for (place, formal) in proc.formals.iter().enumerate() {
            if let Some(parameter) = parameters.get(place) {
                self.enter(first, proc.line, formal.name, parameter.meaning);
            }
        }
        if ends {
            self.sign(first, proc, parameters);
            return;
        }
        self.position = Position {
            formals: first,
            declared: self.scope.len(),
            parallel: 0,
            is_main: is_main_name(proc.name),
        };
        self.process(&proc.body);
    }

    /// A procedure.
    fn procedure(&mut self, proc: &Proc<'a>, ends: bool) {
        self.look(proc.line, Part::Formals(&proc.formals));
        let first = self.scope.len();
        let number = self.signatures.len();
        match parameters_for(self.alloc, &self.scope, &proc.formals) {
            Ok(parameters) => self.within(first, proc, ends, parameters),
            Err(_) => self.complete = false,
        }
        self.scope.leave(first);
        match u32::try_from(number) {
            Ok(number) => self.enter(0, proc.line, proc.name, Meaning::Proc(number)),
            Err(_) => self.complete = false,
        }
    }

    /// The items, as far as the line at fault.
    pub(crate) fn items(&mut self, items: &[Item<'a>]) {
        for (place, item) in items.iter().enumerate() {
            if self.is_over(item.line()) {
                return;
            }
            let ends = match items.get(place.saturating_add(1)) {
                Some(next) => next.line() <= self.fault.line,
                None => false,
            };
            match item {
                Item::Constant(constant) => self.constant(0, constant),
                Item::Proc(proc) => self.procedure(proc, ends),
            }
        }
    }
}

/// What a walk over a program finds, on the way to a fault.
fn searched<'a>(
    alloc: Global,
    tokens: &[Token<'a>],
    program: &Program<'a>,
    fault: UsageFault,
) -> Result<Option<Reason<'a>>, AllocError> {
    let mut walk = Walk::new(alloc, tokens, fault);
    walk.items(program.items());
    walk.found()
}

/// Why a program breaks a usage rule on a line, as [`check`](usage_checks::check) reports it: which tokens of the line
/// are meant, why, and what is known of the names in them. The tokens are those of that line.
pub fn usage_reason<'a>(
    alloc: Global,
    tokens: &[Token<'a>],
    program: &Program<'a>,
    fault: UsageFault,
) -> Result<Option<Reason<'a>>, AllocError>
    // The reason is of the fault's line and number, and its tokens are some of the line's.
    ensures is_of { IfOk result (λ found. IfSome found (IsReasonOf (length tokens.now) fault)) }

    // A part of as many tokens breaks a rule for that reason, by what some scope knows; a channel by where some line is.
    ensures at_fault { IfOk result (λ found. IfSome found (λ r. ∥ AreAtFault r.tokens r.why ∥₁)) }

    // O19 is told of the last item.
    ensures main { fault.number ≡ NO_MAIN → IfOk result (λ found.
        IfSome found (λ r. IsMainReason (map item_of program.now.items.items) r.why)) }
{
    if fault.number == NO_MAIN {
        let reason = main_reason(alloc, program.items(), fault.line);
        return Ok(tested(tokens.len(), fault, reason));
    }
    let reason = searched(alloc, tokens, program, fault)?;
    Ok(tested(tokens.len(), fault, reason))
}
