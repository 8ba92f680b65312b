//! What bytes that come from elsewhere leave of the words of the frame.

ghost use Rattle.std.specs.Prelude.{◌≡◌, ◌≤ℤ◌, ◌<ℤ◌, pos, negsuc, true};
ghost use Rattle.module_format.specs.Contents.{Contents};
ghost use Rattle.module_format.specs.Regions.{is_frame};
ghost use Rattle.states.specs.Views.{state_of, BelongsTo, CanWriteSpan};
ghost use Rattle.rulings.specs.Reach.{word_of_byte, words_touched};
ghost use Rattle.rulings.specs.Pointers.{are_near};
ghost use Rattle.rulings.specs.Filling.{are_numbers, word_behind, words_within, become_numbers, filled};

use crate::pointers::Pointed;
use crate::reach::{full, word_of_byte};
use crate::reading::byte_read;
use crate::writing::{is_number_in, leave_words, stored_byte};
use module_format::Fact;
use states::{Leaving, State};

/// Whether all `count` bytes from where a pointer leads are bytes of numbers.
pub fn are_numbers(state: &State, pointer: Pointed, count: i32) -> bool
    requires near { are_near pointer.lo pointer.hi ≡ true }
    requires few { (pos 0 <ℤ count) × (count ≤ℤ pos 65536) }
    ensures { result ≡ are_numbers (state_of state.now) pointer count }
{
    let all = Pointed {
        hi: pointer.hi + count - 1,
        ..pointer
    };
    is_number_in(full(), byte_read(state, all))
}

/// The first word that begins at an offset or after it.
fn word_behind(offset: i32) -> i32
    requires { offset ≤ℤ pos 1073741823 }
    ensures { result ≡ word_behind offset }
{
    word_of_byte(offset + 3)
}

/// How many words have all their bytes from the first up to `end` (not included).
fn words_within(first: i32, end: i32) -> u32
    requires { first ≤ℤ pos 1073741823 }
    ensures { result ≡ words_within first end }
{
    let (behind, last) = (word_behind(first), word_of_byte(end));
    if last < behind {
        return 0;
    }
    last.abs_diff(behind)
}

/// The words of the frame that have no other bytes than these are any numbers.
#[tactic(auto, unfolding(crate::specs::Filling::become_numbers))]
fn become_numbers(state: &mut State, pointer: Pointed, end: i32)
    requires near { pointer.lo ≤ℤ pos 1073741823 }
    requires room { is_frame pointer.region ≡ true
        → CanWriteSpan state.old (word_of_byte pointer.lo) (words_touched pointer.lo end) }
    ensures state { state_of state.new ≡ become_numbers pointer end (state_of state.old) }
    ensures belongs { (m : Contents) → BelongsTo m state.old → BelongsTo m state.new }
{
    let count = words_within(pointer.lo, end);
    if pointer.region.is_frame() && 0 < count {
        let any = Fact::Number {
            lo: i32::MIN,
            hi: i32::MAX,
        };
        state.change_span(word_behind(pointer.lo), count, Leaving::Become(any));
    }
}

/// What is left of the words of the frame to which bytes come, which are bytes of numbers or not.
#[tactic(auto, unfolding(crate::specs::Filling::filled))]
pub fn fill(state: &mut State, numbers: bool, pointer: Pointed, end: i32)
    requires near { pointer.lo ≤ℤ pos 1073741823 }
    requires end { negsuc 2147483646 ≤ℤ end }
    requires room { is_frame pointer.region ≡ true
        → CanWriteSpan state.old (word_of_byte pointer.lo) (words_touched pointer.lo end) }
    ensures state { state_of state.new ≡ filled numbers pointer end (state_of state.old) }
    ensures belongs { (m : Contents) → BelongsTo m state.old → BelongsTo m state.new }
{
    if !numbers {
        leave_words(state, pointer, end, Leaving::Become(Fact::Unknown));
        return;
    }
    leave_words(state, pointer, end, stored_byte());
    become_numbers(state, pointer, end);
}
