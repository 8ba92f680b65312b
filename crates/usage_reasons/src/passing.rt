//! What may not be passed so: what a parameter does not take, what is passed twice, and channels.

ghost use Rattle.std.specs.Prelude.{◌≡◌, IfSome};
ghost use Rattle.usage_checks.specs.Handing.{collide};
ghost use Rattle.usage_reasons.specs.AtFault.{IsAtFault};
ghost use Rattle.usage_reasons.specs.Misuse.{IsMisuse};

use crate::cause::{Cause, Found, Rule};
use crate::instances::Passed;
use crate::reason::{Tokens, Why};
use crate::site::Site;
use occam_parser::Place;
use program_uses::{Direction, End, Passing, PlaceRef, passing_of, place_in};
use scalar_ranges::{Meaning, type_of};
use usage_checks::{Handed, Position, handed_by, takes, takes_value};

/// Whether two may not be passed in one instance.
fn collide(first: Handed, second: Handed) -> bool
    ensures { result ≡ collide first second }
{
    match (first, second) {
        (Handed::Whole(first), Handed::Whole(second) | Handed::Values(second))
        | (Handed::Values(first), Handed::Whole(second)) => first == second,
        (Handed::Whole(number), Handed::Element(spot)) => number == spot.channel,
        (Handed::Element(spot), Handed::Whole(number)) => spot.channel == number,
        (Handed::Element(first), Handed::Element(second)) => {
            first.channel == second.channel && first.element == second.element
        }
        _ => false,
    }
}

/// Why a channel with this number may not be used at these ends.
#[tactic(auto, using(crate::specs::Misuse::outside_par, crate::specs::Misuse::other_direction))]
fn misuse<'a>(position: Position, name: &[u8], number: usize, ends: &[End]) -> Option<Why<'a>>
    ensures { IfSome result (IsMisuse position name.now number) }
{
    if !position.is_inside(number) {
        return Some(Why::OutsidePar);
    }
    for end in ends {
        let direction = end.direction;
        if !position.is_right_way(name, number, direction) {
            return Some(Why::OtherDirection { direction });
        }
    }
    None
}

impl<'a> Site<'_, 'a> {
    /// An actual that is exactly a place, which its parameter does not take.
    #[tactic(auto, using(crate::specs::AtFault::not_taken))]
    fn place_not_taken(&self, passed: Passed, parameter: Meaning, place: PlaceRef) -> Found<'a>
        ensures { IfSome result IsAtFault }
    {
        let found = self.scope.meaning(place.name)?;
        if takes(parameter, found, place.is_subscripted()) {
            return None;
        }
        let tokens = passed.tokens;
        let why = Why::NotTaken {
            place: passed.place,
            parameter,
            found: None,
        };
        Some(Cause { tokens, why })
    }

    /// An actual that is no place, which its parameter does not take.
    #[tactic(auto, using(crate::specs::AtFault::value_not_taken))]
    fn value_not_taken(&self, passed: Passed, parameter: Meaning) -> Found<'a>
        ensures { IfSome result IsAtFault }
    {
        let Ok(found) = type_of(self.scope, passed.actual) else {
            return None;
        };
        if takes_value(parameter, found) {
            return None;
        }
        let tokens = passed.tokens;
        let why = Why::NotTaken {
            place: passed.place,
            parameter,
            found: Some(found),
        };
        Some(Cause { tokens, why })
    }

    /// An actual that its parameter does not take.
    pub(crate) fn not_taken(&self, passed: Passed) -> Found<'a>
        ensures { IfSome result IsAtFault }
    {
        let parameter = passed.parameter?.meaning;
        match place_in(passed.actual) {
            Some(place) => self.place_not_taken(passed, parameter, place),
            None => self.value_not_taken(passed, parameter),
        }
    }

    /// The second one of two actuals, if it may not be passed beside the first one.
    #[tactic(auto, using(crate::specs::AtFault::passed_twice))]
    pub(crate) fn passed_twice(&self, first: Passed, second: Passed) -> Found<'a>
        ensures { IfSome result IsAtFault }
    {
        let one = handed_by(self.scope, first.parameter, first.actual);
        let other = handed_by(self.scope, second.parameter, second.actual);
        if !collide(one, other) {
            return None;
        }
        let first = first.tokens;
        let tokens = second.tokens;
        let why = Why::PassedTwice { first };
        Some(Cause { tokens, why })
    }

    /// The tokens of a channel of this name, if it may not be used here at these ends.
    #[tactic(auto, using(crate::specs::AtFault::misused))]
    fn misused(&self, tokens: Tokens, name: &[u8], ends: &[End]) -> Found<'a>
        ensures { IfSome result IsAtFault }
    {
        let number = self.scope.find(name)?;
        let why = misuse(self.position, name, number, ends)?;
        Some(Cause { tokens, why })
    }

    /// A cause, or that a channel may not be used in this direction here, which begins at this token.
    pub(crate) fn or_misused(
        &self,
        cause: Found<'a>,
        at: usize,
        channel: &Place,
        direction: Direction,
    ) -> Found<'a>
        requires { IfSome cause IsAtFault }
        ensures { IfSome result IsAtFault }
    {
        if cause.is_some() || self.rule != Rule::Channels {
            return cause;
        }
        let element = 0;
        let ends = [End { element, direction }];
        self.misused(Tokens { at, len: 1 }, channel.name, &ends)
    }

    /// An actual that is a channel and may not be passed here.
    pub(crate) fn misused_actual(&self, passed: Passed) -> Found<'a>
        ensures { IfSome result IsAtFault }
    {
        let parameter = passed.parameter?;
        match passing_of(parameter.meaning) {
            Passing::Value | Passing::Variable => None,
            Passing::Channel | Passing::Channels => {
                let place = place_in(passed.actual)?;
                self.misused(passed.tokens, place.name, &parameter.ends)
            }
        }
    }
}
