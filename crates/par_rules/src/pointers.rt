//! What the registers of starts and ends name.

ghost use Rattle.std.specs.Prelude.{◌≡◌, ◌*ℤ◌, pos};
ghost use Rattle.states.specs.State.{is_same_number};
ghost use Rattle.par_rules.specs.ParRules.{is_at_word, is_workspace};

use module_format::{Fact, Step};

/// Whether an offset in the frame is that of a word.
fn is_offset_of(word: i32, offset: i32) -> bool
    ensures { result ≡ is_same_number offset (pos 4 *ℤ word) }
{
    i64::from(offset) == 4 * i64::from(word)
}

/// Whether a fact is the exact pointer to a word of the frame.
pub(crate) fn is_at_word(word: i32, fact: Fact) -> bool
    ensures { result ≡ is_at_word word fact }
{
    match fact {
        Fact::Pointer { region, lo, hi, .. } => {
            region.is_frame() && is_offset_of(word, lo) && is_offset_of(word, hi)
        }
        _ => false,
    }
}

/// Whether a fact is the exact pointer to a word of the frame, with a step of words.
pub(crate) fn is_workspace(word: i32, fact: Fact) -> bool
    ensures { result ≡ is_workspace word fact }
{
    match fact {
        Fact::Pointer {
            region,
            lo,
            hi,
            step,
        } => {
            region.is_frame()
                && is_offset_of(word, lo)
                && is_offset_of(word, hi)
                && step == Step::Word
        }
        _ => false,
    }
}
