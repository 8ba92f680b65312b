//! Which procedures may be called at a place.

ghost use Rattle.std.specs.Prelude.{◌≡◌, ◌≢◌, ◌+◌, ◌≤◌, IfOk, IfSome, Some, Err, false, option_map, slice_get};
ghost use Rattle.scalar_ranges.specs.Entries.{Procedure};
ghost use Rattle.scalar_ranges.specs.Scopes.{meaning_of};
ghost use Rattle.program_uses.specs.ActionViews.{around_of};
ghost use Rattle.code_generator.specs.Calls.{around_before};
ghost use Rattle.code_generator.specs.CallViews.{callee_of, callees_of, surroundings_of};
ghost use Rattle.code_generator.specs.Written.{IsCall};

use crate::limits::{INSTANCE_DEPTH, Limits};
use module_builder::GenFault;
use occam_parser::Proc;
use program_uses::Around;
use scalar_ranges::Meaning;

/// A procedure that may be called.
#[derive(Clone, Copy)]
pub struct Callee<'s, 'a> {
    pub proc: &'s Proc<'a>,
    /// How many names are known before it.
    pub names: usize,
}

/// What is around a process.
#[derive(Clone, Copy)]
pub struct Surroundings<'s, 'a> {
    pub around: Around<'s>,
    /// The procedures of the program before `main`.
    pub callees: &'s [Callee<'s, 'a>],
    /// How many of them are before this place.
    pub count: usize,
    /// How many processes may be in one another here, bodies of procedures among them.
    pub deeper: u32,
    pub limits: Limits,
}

/// A procedure that is called, and what is around its body.
#[derive(Clone, Copy)]
pub(crate) struct Call<'s, 'a> {
    pub(crate) callee: Callee<'s, 'a>,
    pub(crate) inside: Surroundings<'s, 'a>,
}

/// The number of the procedure that has this meaning.
fn number_of(meaning: Option<Meaning>) -> Option<u32>
    ensures { IfSome result (λ number. option_map meaning_of meaning ≡ Some (Procedure number)) }
{
    match meaning {
        Some(Meaning::Proc(number)) => Some(number),
        _ => None,
    }
}

/// The procedure with a number.
fn callee_at<'s, 'a>(callees: &'s [Callee<'s, 'a>], number: usize) -> Option<Callee<'s, 'a>>
    ensures { option_map callee_of result ≡ slice_get (callees_of callees.now) number }
{
    match callees.get(number) {
        Some(callee) => Some(*callee),
        None => None,
    }
}

/// What is around the procedure with a number, if there are as many before it.
fn around_before<'s>(around: Around<'s>, number: usize) -> Option<Around<'s>>
    ensures { IfSome result (λ a. around_of a ≡ around_before number (around_of around.entry)) }
{
    match around.signatures.split_at_checked(number) {
        Some((signatures, _)) => Some(Around {
            signatures,
            ..around
        }),
        None => None,
    }
}

impl<'s, 'a> Surroundings<'s, 'a> {
    /// Inside of a process. The error is [`GenFault::Limit`] if too many are in one another. In a sequential program,
    /// whose processes are as deep as its lines are at most, it would be the stack's memory.
    pub(crate) fn inside(self) -> Result<Surroundings<'s, 'a>, GenFault>
        ensures same { IfOk result (λ inner. surroundings_of inner ≡ surroundings_of self.entry) }
        ensures deeper { IfOk result (λ inner. inner.deeper + 1 ≡ self.entry.deeper) }
        ensures limits { IfOk result (λ inner. inner.limits ≡ self.entry.limits) }
        ensures limit { result ≡ Err GenFault.Limit → self.entry.limits.is_sequential ≡ false }
        ensures invalid { result ≢ Err GenFault.Invalid }
    {
        if self.deeper == 0 {
            return Err(self.limits.too_deep());
        }
        Ok(Surroundings {
            deeper: self.deeper - 1,
            ..self
        })
    }

    /// The procedure with this meaning. The error is [`GenFault::Invalid`] if it may not be called, or
    /// [`GenFault::Limit`] if too many processes are in one another.
    pub(crate) fn call(self, procedure: Option<Meaning>) -> Result<Call<'s, 'a>, GenFault>
        ensures call { IfOk result (λ c. IsCall (surroundings_of self.entry) (option_map meaning_of procedure) c) }
        ensures deeper { IfOk result (λ c. c.inside.deeper ≤ self.entry.deeper) }
        ensures limits { IfOk result (λ c. c.inside.limits ≡ self.entry.limits) }
    {
        let Some(deeper) = self.deeper.checked_sub(INSTANCE_DEPTH) else {
            return Err(GenFault::Limit);
        };
        match (Surroundings { deeper, ..self }).found(procedure) {
            Some(call) => Ok(call),
            None => Err(GenFault::Invalid),
        }
    }

    /// The procedure with this meaning, if it may be called.
    fn found(self, procedure: Option<Meaning>) -> Option<Call<'s, 'a>>
        ensures call { IfSome result (λ c. IsCall (surroundings_of self.entry) (option_map meaning_of procedure) c) }
        ensures deeper { IfSome result (λ c. c.inside.deeper ≡ self.entry.deeper) }
        ensures limits { IfSome result (λ c. c.inside.limits ≡ self.entry.limits) }
    {
        let number = number_of(procedure)?;
        let count = number as usize;
        if count >= self.count {
            return None;
        }
        let callee = callee_at(self.callees, count)?;
        let around = around_before(self.around, count)?;
        Some(Call {
            callee,
            inside: Surroundings {
                around,
                count,
                ..self
            },
        })
    }
}
