//! What facts say of pointers and numbers, each result with the rule that it keeps.

ghost use Rattle.std.specs.Prelude.{IfOk, true, ◌≡◌, ◌≤ℤ◌, pos, negsuc};
ghost use Rattle.rulings.specs.Pointers.{is_near, near, are_near, pointer_of, bounds_of, constant_of, exact_pointer};
ghost use Rattle.rulings.specs.Pointers.{is_near_pointer};
ghost use Rattle.rulings.specs.Rulings.{settles};
ghost use Rattle.rulings.specs.Telling.{Admits, Gives};

use module_format::{Fact, Region, Step};
use states::Rule;

/// How many bytes from a region's start a pointer may point at most.
const FARTHEST: i64 = 1 << 24;

/// A pointer: its region, and how it may point there.
#[derive(Clone, Copy)]
pub struct Pointed {
    pub region: Region,
    pub lo: i32,
    pub hi: i32,
    pub step: Step,
}

impl Pointed {
    ghost use Rattle.std.specs.Prelude.{◌≡◌, ◌≤ℤ◌, ◌+ℤ◌, pos, negsuc, true};
    ghost use Rattle.rulings.specs.Pointers.{are_near};

    /// The first offset after `size` bytes, wherever the pointer leads.
    #[tactic(auto, using(crate::proofs::ArgumentsAgree::near_end))]
    pub fn end(self, size: i32) -> i32
        requires near { are_near self.lo self.hi ≡ true }
        requires small { (pos 0 ≤ℤ size) × (size ≤ℤ pos 65536) }
        ensures value { result ≡ self.hi +ℤ size }
        ensures near { negsuc 2147483646 ≤ℤ result }
    {
        self.hi + size
    }
}

/// The bounds of a number, which both belong to it.
#[derive(Clone, Copy)]
pub struct Bounds {
    pub lo: i32,
    pub hi: i32,
}

/// Whether an offset is not far from its region's start.
pub fn is_near(offset: i64) -> bool
    ensures { result ≡ is_near offset }
{
    -FARTHEST <= offset && offset <= FARTHEST
}

/// An offset that a pointer may have.
#[tactic(auto, unfolding(crate::specs::Pointers::near))]
pub fn near(offset: i64) -> Result<i32, Rule>
    ensures test { Admits result (near offset) }
    ensures offset { IfOk result (λ o. o ≡ offset) }
{
    if !is_near(offset) {
        return Err(Rule::Pointer);
    }
    Ok(offset as i32)
}

/// Whether two offsets are not far from their region's start.
pub fn are_near(lo: i64, hi: i64) -> bool
    ensures { result ≡ are_near lo hi }
{
    is_near(lo) && is_near(hi)
}

/// Whether a pointer is near; what is no pointer is.
pub fn is_near_pointer(fact: Fact) -> bool
    ensures { result ≡ is_near_pointer fact }
{
    match fact {
        Fact::Pointer { lo, hi, .. } => are_near(i64::from(lo), i64::from(hi)),
        _ => true,
    }
}

/// A pointer that may be used or shifted: its offsets are near.
#[tactic(auto, unfolding(crate::specs::Rulings::settles, crate::specs::Pointers::pointer_of))]
pub fn pointer_of(fact: Fact) -> Result<Pointed, Rule>
    ensures answer { Gives (λ pointer. pointer) result (settles (pointer_of fact)) }
    ensures near { IfOk result (λ pointer. are_near pointer.lo pointer.hi ≡ true) }
{
    match fact {
        Fact::Pointer {
            region,
            lo,
            hi,
            step,
        } if are_near(i64::from(lo), i64::from(hi)) => Ok(Pointed {
            region,
            lo,
            hi,
            step,
        }),
        _ => Err(Rule::Pointer),
    }
}

/// A pointer to one byte alone, whose offset is near.
#[tactic(auto, unfolding(crate::specs::Rulings::settles, crate::specs::Pointers::exact_pointer))]
pub fn exact_pointer(fact: Fact) -> Result<Pointed, Rule>
    ensures answer { Gives (λ pointer. pointer) result (settles (exact_pointer fact)) }
    ensures near { IfOk result (λ pointer. are_near pointer.lo pointer.hi ≡ true) }
    ensures one { IfOk result (λ pointer. pointer.lo ≡ pointer.hi) }
{
    match fact {
        Fact::Pointer {
            region,
            lo,
            hi,
            step,
        } if are_near(i64::from(lo), i64::from(hi)) && lo == hi => Ok(Pointed {
            region,
            lo,
            hi,
            step,
        }),
        _ => Err(Rule::Pointer),
    }
}

/// The bounds of a number.
#[tactic(auto, unfolding(crate::specs::Rulings::settles, crate::specs::Pointers::bounds_of))]
pub fn bounds_of(fact: Fact) -> Result<Bounds, Rule>
    ensures { Gives (λ bounds. bounds) result (settles (bounds_of fact)) }
{
    match fact {
        Fact::Number { lo, hi } => Ok(Bounds { lo, hi }),
        _ => Err(Rule::Number),
    }
}

/// The number that a fact says it is.
#[tactic(auto, unfolding(crate::specs::Rulings::settles, crate::specs::Pointers::constant_of))]
pub fn constant_of(fact: Fact) -> Result<i32, Rule>
    ensures { Gives (λ number. number) result (settles (constant_of fact)) }
{
    match fact {
        Fact::Number { lo, hi } if lo == hi => Ok(lo),
        _ => Err(Rule::Number),
    }
}
