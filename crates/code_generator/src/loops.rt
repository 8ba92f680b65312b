//! Writing what is around the body of a loop. If a function fails, some pieces more may have come.

ghost use Rattle.std.specs.Prelude.{◌≡◌, ◌++◌, ◌∷◌, [], IfOk, Err, false, option_map};
ghost use Rattle.occam_parser.specs.Views.{expression_of};
ghost use Rattle.scalar_ranges.specs.Scopes.{entries_of, meaning_of};
ghost use Rattle.code_pieces.specs.Pieces.{LoopBack, points};
ghost use Rattle.code_generator.specs.Processes.{is_scalar, has_scalar, value_or_zero, loop_start};
ghost use Rattle.code_generator.specs.Written.{site_of, EntersLoop, LeavesLoop, WritesNoLoop, IsTooMuch, Exceeds};
ghost use Rattle.code_generator.specs.Written.{Spends, entering_code, leaving_code, idle_code};

use crate::limits::Limits;
use crate::processes::ProcessWriter;
use code_pieces::Piece;
use line_pieces::{Listing, label_after, word_after};
use loop_scopes::begin_loop;
use module_builder::GenFault;
use occam_parser::{Expr, Process};
use program_uses::{add_name, value_as};
use scalar_ranges::{ExprType, Meaning, Scope};
use std::alloc::AllocError;

/// The turns of a loop: its index, from the base on, and how many there are.
#[derive(Clone, Copy)]
pub(crate) struct Turning<'a> {
    pub(crate) name: &'a [u8],
    pub(crate) index: Meaning,
    pub(crate) base: i32,
    pub(crate) count: i32,
}

/// Whether this is a scalar.
fn is_scalar(meaning: Option<Meaning>) -> bool
    ensures { result ≡ is_scalar (option_map meaning_of meaning) }
{
    matches!(meaning, Some(Meaning::Scalar { .. }))
}

/// Whether the declaration with this number is that of a scalar.
fn is_scalar_at(scope: &Scope, number: usize) -> bool
    ensures { result ≡ has_scalar (number ∷ []) (entries_of scope.now) }
{
    is_scalar(scope.entry(number).map(|entry| entry.meaning))
}

/// Whether one of these numbers is that of a scalar.
fn has_scalar(scope: &Scope, numbers: &[usize]) -> bool
    ensures { result ≡ has_scalar numbers.now (entries_of scope.now) }
{
    numbers.iter().any(|number| is_scalar_at(scope, *number))
}

/// The base or the count of a loop: 0 if it has no value.
pub(crate) fn value_or_zero(scope: &Scope, expr: &Expr) -> i32
    ensures { result ≡ value_or_zero (entries_of scope.now) (expression_of expr.now) }
{
    value_as(scope, ExprType::Int, expr).unwrap_or(0)
}

/// Before the head of a loop: its base and its count, each in its word.
fn write_loop_start(
    listing: &mut Listing,
    word: u32,
    base: i32,
    count: i32,
) -> Result<(), AllocError>
    ensures { IfOk result (λ _. listing.new ≡ listing.old ++ loop_start word base count) }
{
    listing.constant(base)?;
    listing.store(word)?;
    listing.constant(count)?;
    listing.store(word_after(word, 1))
}

/// After the body of a loop: back to its head, or on after it.
fn write_loop_end(
    listing: &mut Listing,
    word: u32,
    head: usize,
    behind: usize,
) -> Result<(), AllocError>
    ensures { IfOk result (λ _. listing.new ≡ listing.old ++ points word ∷ LoopBack head behind ∷ []) }
{
    listing.point(word)?;
    listing.push(Piece::LoopBack { head, behind })
}

impl<'a> ProcessWriter<'a> {
    /// What a process changes was found. Of a sequential program nothing is counted.
    #[inline(never)]
    pub(crate) fn find(&mut self, limits: Limits, process: &Process) -> Result<(), GenFault>
        ensures ok { IfOk result (λ _. Spends self.old self.new) }
        ensures limit { result ≡ Err GenFault.Limit → limits.is_sequential ≡ false }
        ensures invalid { result ≡ Err GenFault.Invalid → limits.is_sequential ≡ false }
    {
        if limits.is_sequential {
            return Ok(());
        }
        self.listing.find(process)
    }

    /// The head of a loop, whose body changes the variables with these numbers.
    #[inline(never)]
    pub(crate) fn enter_loop(
        &mut self,
        limits: Limits,
        turning: Turning<'a>,
        changed: &[usize],
    ) -> Result<(), GenFault>
        ensures ok { IfOk result (λ _. EntersLoop self.old self.new turning.entry changed.now) }
        ensures limit { result ≡ Err GenFault.Limit → IsTooMuch limits self.old.listing
            (entering_code turning.entry changed.now (site_of self.old)) }
        ensures invalid { result ≡ Err GenFault.Invalid → limits.is_sequential ≡ false }
    {
        let head = self.label;
        let behind = label_after(head)?;
        self.label = label_after(behind)?;
        write_loop_start(
            &mut self.listing,
            self.frame.top,
            turning.base,
            turning.count,
        )?;
        self.frame.add_block(head)?;
        begin_loop(&mut self.scope, changed)?;
        add_name(&mut self.scope, turning.name, turning.index)?;
        self.write_row(limits, head)?;
        Ok(())
    }

    /// The end of a loop with its head at this label and its block at this word. There were `names` names before it.
    #[inline(never)]
    pub(crate) fn leave_loop(
        &mut self,
        limits: Limits,
        names: usize,
        word: u32,
        head: usize,
    ) -> Result<(), GenFault>
        ensures ok { IfOk result (λ _. LeavesLoop self.old self.new names word head) }
        ensures limit { result ≡ Err GenFault.Limit → IsTooMuch limits self.old.listing
            (leaving_code names word head (site_of self.old)) }
        ensures invalid { result ≡ Err GenFault.Invalid → limits.is_sequential ≡ false }
    {
        let behind = label_after(head)?;
        self.scope.end();
        self.frame.leave(names, word);
        write_loop_end(&mut self.listing, word, head, behind)?;
        self.write_row(limits, behind)?;
        Ok(())
    }

    /// A loop without turns, whose body changes the variables with these numbers.
    #[inline(never)]
    pub(crate) fn write_no_loop(
        &mut self,
        limits: Limits,
        changed: &[usize],
    ) -> Result<(), GenFault>
        ensures ok { IfOk result (λ _. WritesNoLoop self.old self.new changed.now) }
        ensures limit { result ≡ Err GenFault.Limit
            → Exceeds limits self.old.listing (idle_code changed.now (site_of self.old)) }
        ensures invalid { result ≡ Err GenFault.Invalid → limits.is_sequential ≡ false }
    {
        let is_less_known = has_scalar(&self.scope, changed);
        self.scope.widen(changed);
        if !is_less_known {
            return Ok(());
        }
        let label = self.label;
        self.label = label_after(label)?;
        self.write_row(limits, label)?;
        Ok(())
    }
}
