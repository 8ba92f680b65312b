//! The walk over a program once more, as far as the line at fault.

ghost use Rattle.std.specs.Prelude.{◌≡◌, Some, IfSome};
ghost use Rattle.usage_reasons.specs.AtFault.{IsAtFault};
ghost use Rattle.usage_reasons.specs.Reasons.{IsReasonOf};

use crate::cause::{Found, rule_of};
use crate::known::Names;
use crate::reason::{Reason, Tokens};
use crate::sharing::Sharing;
use crate::site::{Part, Site};
use occam_layout::Token;
use program_uses::{DECLARED_TWICE, Signature, UsageFault};
use scalar_ranges::{Entry, Meaning, Scope};
use std::alloc::{AllocError, Global};
use usage_checks::Position;

/// A reason, if it is of this fault, and its tokens are among this many.
pub(crate) fn tested<'a>(
    count: usize,
    fault: UsageFault,
    reason: Option<Reason<'a>>,
) -> Option<Reason<'a>>
    ensures is_of { IfSome result (IsReasonOf count fault) }
    ensures same { IfSome result (λ r. reason.entry ≡ Some r) }
{
    let reason = reason?;
    if reason.line != fault.line || reason.why.number() != fault.number {
        return None;
    }
    let Tokens { at, len } = reason.tokens;
    if at <= count && len <= count - at {
        Some(reason)
    } else {
        None
    }
}

/// What is known at a place of a program, on the way to the line at fault.
#[derive(Drop)]
pub(crate) struct Walk<'l, 'a> {
    pub(crate) alloc: Global,
    pub(crate) fault: UsageFault,
    /// The tokens of the line at fault.
    pub(crate) tokens: &'l [Token<'a>],
    pub(crate) scope: Scope<'a>,
    /// The line of each declaration in the scope, by its number.
    pub(crate) lines: Vec<u32>,
    pub(crate) signatures: Vec<Signature>,
    pub(crate) position: Position,
    /// Whether a block around is gone over once for each index.
    pub(crate) is_repeated: bool,
    /// What components of the `PAR` at fault use.
    pub(crate) sharing: Sharing,
    pub(crate) reason: Option<Reason<'a>>,
    /// Whether memory was enough.
    pub(crate) complete: bool,
}

impl<'l, 'a> Walk<'l, 'a> {
    /// Before a program, on the way to this fault, whose line has these tokens.
    pub(crate) fn new(alloc: Global, tokens: &'l [Token<'a>], fault: UsageFault) -> Walk<'l, 'a> {
        Walk {
            alloc,
            fault,
            tokens,
            scope: Scope::new(alloc),
            lines: Vec::new(alloc),
            signatures: Vec::new(alloc),
            position: Position {
                formals: 0,
                declared: 0,
                parallel: 0,
                is_main: false,
            },
            is_repeated: false,
            sharing: Sharing::new(alloc, fault.number, 0),
            reason: None,
            complete: true,
        }
    }

    /// Whether nothing more is gone over.
    pub(crate) fn is_done(&self) -> bool {
        self.reason.is_some() || !self.complete
    }

    /// Whether nothing after this line is gone over.
    pub(crate) fn is_over(&self, line: u32) -> bool {
        self.is_done() || line > self.fault.line
    }

    /// The reason that was found, if memory was enough.
    pub(crate) fn found(&mut self) -> Result<Option<Reason<'a>>, AllocError> {
        if self.complete {
            Ok(self.reason.take())
        } else {
            Err(AllocError)
        }
    }

    /// The names that are known here.
    pub(crate) fn names(&self) -> Names<'_, 'a> {
        Names {
            scope: &self.scope,
            lines: &self.lines,
        }
    }

    /// What is known here, where the line at fault is.
    fn site(&self) -> Site<'_, 'a> {
        Site {
            scope: &self.scope,
            signatures: &self.signatures,
            position: self.position,
            rule: rule_of(self.fault.number),
            len: self.tokens.len(),
            is_repeated: self.is_repeated,
        }
    }

    /// The reason that a cause is, with what is known here.
    pub(crate) fn explain(&mut self, cause: Found<'a>)
        requires { IfSome cause IsAtFault }
    {
        let Some(cause) = cause else { return };
        match self.names().known_in(self.alloc, self.tokens, cause) {
            Ok(known) => {
                self.reason = Some(Reason {
                    line: self.fault.line,
                    tokens: cause.tokens,
                    why: cause.why,
                    known,
                });
            }
            Err(_) => self.complete = false,
        }
    }

    /// A part of this line, which may be the one at fault: its first part that breaks the rule is meant.
    pub(crate) fn look(&mut self, line: u32, part: Part<'_, 'a>) {
        if line == self.fault.line && self.reason.is_none() {
            let cause = self.site().cause(part);
            self.explain(cause);
        }
    }

    /// One name more in the scope.
    pub(crate) fn declare(&mut self, line: u32, name: &'a [u8], meaning: Meaning) {
        self.lines.truncate(self.scope.len());
        self.complete &= self.lines.push(line).is_ok();
        self.complete &= self.scope.declare(Entry { name, meaning }).is_ok();
    }

    /// A name that a line declares, of the scope whose first declaration has this number.
    #[tactic(auto, using(crate::proofs::AtFault::explained))]
    pub(crate) fn enter(&mut self, first: usize, line: u32, name: &'a [u8], meaning: Meaning) {
        let is_asked = self.fault.line == line && self.fault.number == DECLARED_TWICE;
        if is_asked && self.reason.is_none() {
            let cause = self.names().twice(first, line, self.tokens, name);
            self.explain(cause);
        }
        self.declare(line, name, meaning);
    }
}
