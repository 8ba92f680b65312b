//! The channels that words name, and those after them.

ghost use Rattle.std.specs.Int.{w32};
ghost use Rattle.std.specs.Prelude.{◌≡◌, SomeIff, FitsSigned, ◌==◌, bit_and, ◌≤ℤ◌, pos, negsuc};
ghost use Rattle.rulings.specs.Channels.{link_at, channel_in, channel_of, further, has_direction, runs_meet};
ghost use Rattle.rulings.specs.Channels.{channels_meet, IsNumbered, names_channel};
ghost use Rattle.rulings.specs.Telling.{Gives};

use crate::combinators::wants;
use crate::pointers::is_near_pointer;
use crate::reach::word_of_byte;
use bitflags::Flags;
use module_format::{Direction, EndKind, Ends, Fact, Region, Step};
use states::{Rule, WordFact};

/// How many bytes the words of links have.
const LINK_BYTES: u32 = 32;

/// The link that a number is the address of.
fn link_at(number: i32) -> Option<EndKind>
    ensures { result ≡ link_at number }
{
    let offset = number.abs_diff(i32::MIN);
    if offset % 4 != 0 || offset >= LINK_BYTES {
        return None;
    }
    Some(EndKind::Link((offset / 4) as u8))
}

/// The channel at an offset in a region, a multiple of four: a frame word, or an element of a parameter.
fn channel_in(region: Region, offset: i32) -> Option<EndKind>
    ensures { result ≡ channel_in region offset }
{
    match region {
        Region::Frame => Some(EndKind::FrameWord(word_of_byte(offset))),
        Region::Constants => None,
        Region::Parameter(number) => {
            if offset < 0 {
                return None;
            }
            Some(EndKind::Parameter {
                number: i32::from(number),
                element: offset.unsigned_abs() / 4,
            })
        }
    }
}

/// The channel that a word names.
#[tactic(auto, unfolding(crate::specs::Channels::channel_of))]
pub fn channel_of(fact: WordFact) -> Option<EndKind>
    ensures { result ≡ channel_of fact }
{
    match fact {
        WordFact::Alone(Fact::Number { lo, hi }) if lo == hi => link_at(lo),
        WordFact::Alone(
            Fact::Pointer {
                region,
                lo,
                hi,
                step: Step::Word,
            },
        ) if lo == hi => channel_in(region, lo),
        _ => None,
    }
}

/// The channel that a word names, by which a rule goes on.
#[tactic(auto, unfolding(crate::specs::Channels::names_channel))]
pub fn names_channel(fact: Fact) -> Result<EndKind, Rule>
    ensures { Gives (λ kind. kind) result (names_channel fact) }
{
    wants(is_near_pointer(fact), Rule::Pointer)?;
    channel_of(WordFact::Alone(fact)).ok_or(Rule::Channel)
}

/// The number as a word, if it is one.
pub fn as_word(number: i64) -> Option<i32>
    ensures { SomeIff result (FitsSigned w32 number) number }
{
    i32::try_from(number).ok()
}

/// The channel `n` channels further. `None` if no end has its number.
pub fn further(first: EndKind, n: u32) -> Option<EndKind>
    ensures { SomeIff result (IsNumbered (further first n)) (further first n) }
{
    match first {
        EndKind::FrameWord(word) => {
            let word = as_word(i64::from(word) + i64::from(n))?;
            Some(EndKind::FrameWord(word))
        }
        EndKind::Parameter { number, element } => {
            let element = element.checked_add(n)?;
            Some(EndKind::Parameter { number, element })
        }
        EndKind::Link(link) => {
            let link = u8::try_from(u64::from(link) + u64::from(n)).ok()?;
            Some(EndKind::Link(link))
        }
    }
}

/// Whether ends have one of this direction.
pub fn has_direction(ends: Ends, direction: Direction) -> bool
    ensures { result ≡ has_direction ends.0 direction }
{
    let wanted = match direction {
        Direction::In => Ends::IN,
        Direction::Out => Ends::OUT,
    };
    ends.intersects(wanted)
}

/// Whether two sets of ends have none in common.
pub fn are_disjoint(ends: Ends, others: Ends) -> bool
    ensures { result ≡ (bit_and ends.0 others.0 == 0) }
{
    !ends.intersects(others)
}

/// Whether two runs of numbers have one in common.
fn runs_meet(first: i64, count: u32, other: i64, more: u32) -> bool
    requires first { (negsuc 2147483647 ≤ℤ first) × (first ≤ℤ pos 4294967295) }
    requires other { (negsuc 2147483647 ≤ℤ other) × (other ≤ℤ pos 4294967295) }
    ensures { result ≡ runs_meet first count other more }
{
    first < other + i64::from(more) && other < first + i64::from(count)
}

/// Whether the `count` channels from the one on and the `more` channels from the other on have one in common.
pub fn channels_meet(first: EndKind, count: u32, other: EndKind, more: u32) -> bool
    ensures { result ≡ channels_meet first count other more }
{
    match (first, other) {
        (EndKind::FrameWord(word), EndKind::FrameWord(other)) => {
            runs_meet(i64::from(word), count, i64::from(other), more)
        }
        (
            EndKind::Parameter { number, element },
            EndKind::Parameter {
                number: wanted,
                element: other,
            },
        ) => { number == wanted && runs_meet(i64::from(element), count, i64::from(other), more) }
        (EndKind::Link(link), EndKind::Link(other)) => {
            runs_meet(i64::from(link), count, i64::from(other), more)
        }
        _ => false,
    }
}
