//! Numbers and pointers that are shifted, each result with the rule that it keeps.

ghost use Rattle.std.specs.Prelude.{IfOk, true, ◌≡◌, ◌≤ℤ◌, ◌*ℤ◌, pos, negsuc};
ghost use Rattle.module_format.specs.Order.{is_stepped};
ghost use Rattle.rulings.specs.Pointers.{are_near};
ghost use Rattle.rulings.specs.Rulings.{settles};
ghost use Rattle.rulings.specs.Telling.{Gives};
ghost use Rattle.local_rules.specs.MemoryRules.{near_fact, words_at, words_behind, is_of_a_word, word_fact, shifted};
ghost use Rattle.local_rules.specs.MemoryRules.{pointer_further, step_after, element_of};

use module_format::{Fact, Region, Step};
use rulings::pointers::{Bounds, Pointed, are_near};
use states::Rule;

/// Whether a number is a multiple of a word's four bytes.
pub(crate) fn is_stepped(number: i32) -> bool
    ensures { result ≡ is_stepped number }
{
    number.unsigned_abs() % 4 == 0
}

/// The fact of a pointer, if its offsets are near.
#[tactic(auto, unfolding(rulings::specs::Rulings::settles, crate::specs::MemoryRules::near_fact))]
fn near_fact(region: Region, lo: i64, hi: i64, step: Step) -> Result<Fact, Rule>
    ensures { Gives (λ fact. fact) result (settles (near_fact region lo hi step)) }
{
    if !are_near(lo, hi) {
        return Err(Rule::Pointer);
    }
    Ok(Fact::Pointer {
        region,
        lo: lo as i32,
        hi: hi as i32,
        step,
    })
}

/// A pointer to words, if its offsets are near.
#[tactic(auto, unfolding(rulings::specs::Rulings::settles, crate::specs::MemoryRules::words_at))]
fn words_at(region: Region, lo: i64, hi: i64) -> Result<Pointed, Rule>
    ensures answer { Gives (λ pointer. pointer) result (settles (words_at region lo hi)) }
    ensures near { IfOk result (λ pointer. are_near pointer.lo pointer.hi ≡ true) }
{
    if !are_near(lo, hi) {
        return Err(Rule::Pointer);
    }
    Ok(Pointed {
        region,
        lo: lo as i32,
        hi: hi as i32,
        step: Step::Word,
    })
}

/// What a pointer to words is `words` words further.
#[tactic(auto, unfolding(rulings::specs::Rulings::settles, crate::specs::MemoryRules::words_behind))]
pub(crate) fn words_behind(words: i32, pointer: Pointed) -> Result<Pointed, Rule>
    ensures answer { Gives (λ pointer. pointer) result (settles (words_behind (pos 4 *ℤ words) pointer)) }
    ensures near { IfOk result (λ pointer. are_near pointer.lo pointer.hi ≡ true) }
{
    let by = 4 * i64::from(words);
    match pointer.step {
        Step::Byte => Err(Rule::Pointer),
        Step::Word => words_at(
            pointer.region,
            i64::from(pointer.lo) + by,
            i64::from(pointer.hi) + by,
        ),
    }
}

/// Whether a number is one of 32 bits.
fn is_of_a_word(number: i64) -> bool
    ensures { result ≡ is_of_a_word number }
{
    i64::from(i32::MIN) <= number && number <= i64::from(i32::MAX)
}

/// A number, if its bounds are words.
#[tactic(auto, unfolding(rulings::specs::Rulings::settles, crate::specs::MemoryRules::word_fact))]
fn word_fact(lo: i64, hi: i64) -> Result<Fact, Rule>
    ensures { Gives (λ fact. fact) result (settles (word_fact lo hi)) }
{
    if !is_of_a_word(lo) || !is_of_a_word(hi) {
        return Err(Rule::Number);
    }
    Ok(Fact::Number {
        lo: lo as i32,
        hi: hi as i32,
    })
}

/// What a fact says `by` bytes further: of a number, or of a pointer.
#[tactic(auto, unfolding(rulings::specs::Rulings::settles, crate::specs::MemoryRules::shifted))]
fn shifted(by: i64, fact: Fact) -> Result<Fact, Rule>
    requires { (negsuc 8589934591 ≤ℤ by) × (by ≤ℤ pos 8589934592) }
    ensures { Gives (λ fact. fact) result (settles (shifted by fact)) }
{
    match fact {
        Fact::Number { lo, hi } => word_fact(i64::from(lo) + by, i64::from(hi) + by),
        Fact::Pointer {
            region,
            lo,
            hi,
            step,
        } => {
            let (lo, hi) = (i64::from(lo), i64::from(hi));
            if !are_near(lo, hi) {
                return Err(Rule::Pointer);
            }
            near_fact(region, lo + by, hi + by, step)
        }
        _ => Err(Rule::Number),
    }
}

/// What a fact says `words` words further.
pub(crate) fn words_further(words: i32, fact: Fact) -> Result<Fact, Rule>
    ensures { Gives (λ fact. fact) result (settles (shifted (pos 4 *ℤ words) fact)) }
{
    shifted(4 * i64::from(words), fact)
}

/// A pointer that is further by a number between two others.
fn pointer_further(pointer: Pointed, low: i64, high: i64, step: Step) -> Result<Fact, Rule>
    requires { (negsuc 8589934591 ≤ℤ low) × (low ≤ℤ pos 8589934592) × (negsuc 8589934591 ≤ℤ high)
        × (high ≤ℤ pos 8589934592) }
    ensures { Gives (λ fact. fact) result (settles (pointer_further pointer low high step)) }
{
    let (lo, hi) = (i64::from(pointer.lo), i64::from(pointer.hi));
    near_fact(pointer.region, lo + low, hi + high, step)
}

/// The step of a pointer after a shift by a number of bytes.
fn step_after(step: Step, number: Bounds) -> Step
    ensures { result ≡ step_after step number }
{
    if number.lo == number.hi && is_stepped(number.lo) {
        step
    } else {
        Step::Byte
    }
}

/// What a pointer is, shifted by a number of bytes or words.
#[tactic(auto, unfolding(rulings::specs::Rulings::settles, crate::specs::MemoryRules::element_of))]
pub(crate) fn element_of(element: Step, pointer: Pointed, number: Bounds) -> Result<Fact, Rule>
    ensures { Gives (λ fact. fact) result (settles (element_of element pointer number)) }
{
    let (low, high) = (i64::from(number.lo), i64::from(number.hi));
    match element {
        Step::Byte => pointer_further(pointer, low, high, step_after(pointer.step, number)),
        Step::Word => pointer_further(pointer, 4 * low, 4 * high, pointer.step),
    }
}
