//! A cause of a fault: tokens, and why they break a rule.

ghost use Rattle.std.specs.Prelude.{◌≡◌, option_map};
ghost use Rattle.usage_reasons.specs.Causes.{meant};

use crate::reason::{Tokens, Why};
use program_uses::{CHANNEL_USE, CONSTANT_WANTED, OTHER_ACTUAL, PASSED_TWICE};
use scalar_ranges::{OUT_OF_RANGE, OUTSIDE, UNKNOWN_NAME, WRONG_TYPE};

/// A rule that parts of a line break.
#[derive(Clone, Copy, PartialEq, Eq)]
pub(crate) enum Rule {
    /// O9: names are known.
    Names,
    /// O11: types fit.
    Types,
    /// O12: a constant has constants as operands.
    Constants,
    /// O13: parameters take what is passed.
    Actuals,
    /// O15: channels are used inside a `PAR`, and links in their direction.
    Channels,
    /// O16: operators and conversions do not fail.
    Ranges,
    /// O17: subscripts are within their arrays.
    Subscripts,
    /// O18: nothing is passed twice.
    Passing,
    /// No part of a line breaks another rule.
    Other,
}

/// The rule with this number.
pub(crate) fn rule_of(number: u8) -> Rule {
    match number {
        UNKNOWN_NAME => Rule::Names,
        WRONG_TYPE => Rule::Types,
        CONSTANT_WANTED => Rule::Constants,
        OTHER_ACTUAL => Rule::Actuals,
        CHANNEL_USE => Rule::Channels,
        OUT_OF_RANGE => Rule::Ranges,
        OUTSIDE => Rule::Subscripts,
        PASSED_TWICE => Rule::Passing,
        _ => Rule::Other,
    }
}

/// Tokens that break a rule, and why.
#[derive(Clone, Copy)]
pub(crate) struct Cause<'a> {
    pub(crate) tokens: Tokens,
    pub(crate) why: Why<'a>,
}

/// A cause, if one was found.
pub(crate) type Found<'a> = Option<Cause<'a>>;

/// This many tokens from this one on break a rule for this reason.
pub(crate) fn meant<'a>(at: usize, len: usize, why: Why<'a>) -> Cause<'a>
    ensures { result ≡ meant at len why.entry }
{
    let tokens = Tokens { at, len };
    Cause { tokens, why }
}

/// This many tokens from this one on, if there is a reason for which they break a rule.
pub(crate) fn meant_if<'a>(at: usize, len: usize, why: Option<Why<'a>>) -> Found<'a>
    ensures { result ≡ option_map (meant at len) why.entry }
{
    Some(meant(at, len, why?))
}
