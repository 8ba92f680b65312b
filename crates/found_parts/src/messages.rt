//! The words of which a message is sent.

ghost use Rattle.std.specs.Prelude.{◌≡◌, ◌≤ℤ◌, ◌<ℤ◌, pos, IfSome, true};
ghost use Rattle.states.specs.Views.{state_of};
ghost use Rattle.rulings.specs.Pointers.{are_near};
ghost use Rattle.found_parts.specs.Messages.{constant_of, message_length, buffer_of, words_of, words_sent};
ghost use Rattle.found_parts.specs.Messages.{unknown_word, first_unknown};

use crate::asked::{Asked, first_failing};
use module_format::{Fact, MAX_MESSAGE, Stack};
use rulings::pointers::{Pointed, are_near};
use rulings::reach::{word_of_byte, words_touched};
use states::{Known, State, WordFact};

/// A word of the frame, and what is known of it.
#[derive(Clone, Copy)]
pub struct KnownWord {
    pub word: i64,
    pub fact: WordFact,
}

/// Words of the frame, from the first one on.
#[derive(Clone, Copy)]
struct Words {
    first: i32,
    count: u32,
}

/// The one number that a fact says.
pub fn constant_of(fact: Fact) -> Option<i32>
    ensures { result ≡ constant_of fact }
{
    match fact {
        Fact::Number { lo, hi } => {
            if lo <= hi && hi <= lo {
                return Some(lo);
            }
            None
        }
        _ => None,
    }
}

/// The number of bytes of a message, if it can have as many.
fn message_length(fact: Fact) -> Option<i32>
    ensures value { result ≡ message_length (constant_of fact) }
    ensures few { IfSome result (λ count. (pos 0 <ℤ count) × (count ≤ℤ pos 4096)) }
{
    let count = constant_of(fact)?;
    if 1 <= count && count <= MAX_MESSAGE as i32 {
        return Some(count);
    }
    None
}

/// Where a pointer leads that is near and of the frame.
fn buffer_of(fact: Fact) -> Option<Pointed>
    ensures value { result ≡ buffer_of fact }
    ensures near { IfSome result (λ buffer. are_near buffer.lo buffer.hi ≡ true) }
{
    match fact {
        Fact::Pointer {
            region,
            lo,
            hi,
            step,
        } if are_near(i64::from(lo), i64::from(hi)) && region.is_frame() => Some(Pointed {
            region,
            lo,
            hi,
            step,
        }),
        _ => None,
    }
}

/// The words that have some of `count` bytes, wherever a pointer leads.
fn words_of(buffer: Pointed, count: i32) -> Words
    requires near { are_near buffer.lo buffer.hi ≡ true }
    requires few { (pos 0 <ℤ count) × (count ≤ℤ pos 4096) }
    ensures { result ≡ words_of buffer count }
{
    Words {
        first: word_of_byte(buffer.lo),
        count: words_touched(buffer.lo, buffer.end(count)),
    }
}

/// The words of the frame of which A bytes from C on are sent.
fn words_sent(stack: Stack<Known>) -> Option<Words>
    ensures { result ≡ words_sent stack }
{
    let count = message_length(stack.a.fact)?;
    let buffer = buffer_of(stack.c.fact)?;
    Some(words_of(buffer, count))
}

/// What is known of the first of these words that is no number.
fn first_unknown(state: &State, words: Words) -> Option<KnownWord>
    ensures { result ≡ first_unknown (state_of state.now) words }
{
    let word = first_failing(&Asked::Number { state }, words.first, words.count)?;
    Some(KnownWord {
        word,
        fact: state.fact_of(word),
    })
}

/// The first word of the frame that is no number, of those of which A bytes from C on are sent.
#[tactic(auto, unfolding(crate::specs::Messages::unknown_word))]
pub fn unknown_word(state: &State) -> Option<KnownWord>
    ensures { result ≡ unknown_word (state_of state.now) }
{
    first_unknown(state, words_sent(state.stack)?)
}
