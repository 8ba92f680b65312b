//! The rules of channels: what is received from and sent to, and where.

ghost use Rattle.std.specs.Prelude.{◌≡◌, ◌&&◌};
ghost use Rattle.occam_parser.specs.LineViews.{place_of};
ghost use Rattle.scalar_ranges.specs.Scopes.{entries_of};
ghost use Rattle.program_uses.specs.Lowest.{IsLowest};
ghost use Rattle.usage_checks.specs.ChannelRules.{is_way, is_formal_of_main, is_inside, is_right_way};
ghost use Rattle.usage_checks.specs.ChannelRules.{IsMisused, BreaksEnd};

use crate::place_rules::{channel_at, fault_of_channel};
use occam_parser::Place;
use program_uses::{CHANNEL_USE, Direction, link_way, lower, place_ref, told_unless};
use scalar_ranges::{ExprType, Scope};

/// Where a process is, by the numbers of declarations.
#[derive(Clone, Copy)]
pub struct Position {
    /// The first formal of its procedure.
    pub formals: usize,
    /// The first name that is declared in the body of the procedure.
    pub declared: usize,
    /// How many names there were where the innermost `PAR` around began; 0 if there is none.
    pub parallel: usize,
    /// Whether the procedure is `main`.
    pub is_main: bool,
}

fn is_way(way: Option<Direction>, direction: Direction) -> bool
    ensures { result ≡ is_way way direction }
{
    match way {
        None => true,
        Some(way) => way == direction,
    }
}

impl Position {
    fn is_formal_of_main(self, number: usize) -> bool
        ensures { result ≡ is_formal_of_main self number }
    {
        self.is_main && self.formals <= number && number < self.declared
    }

    /// Whether a channel is used inside a `PAR` in its scope, if a line declares it.
    pub fn is_inside(self, number: usize) -> bool
        ensures { result ≡ is_inside self number }
    {
        number < self.declared || number < self.parallel
    }

    /// Whether a channel may be used in this direction, if it is a link.
    pub fn is_right_way(self, name: &[u8], number: usize, direction: Direction) -> bool
        ensures { result ≡ is_right_way self name.now number direction }
    {
        if self.is_formal_of_main(number) {
            is_way(link_way(name), direction)
        } else {
            true
        }
    }

    /// The number of what is a channel and may not be used so here.
    fn misused(
        self,
        name: &[u8],
        direction: Direction,
        number: Option<usize>,
        carried: Result<ExprType, u8>,
    ) -> Option<u8>
        ensures { IsLowest (IsMisused self name.now direction number carried) result }
    {
        match (number, carried) {
            (Some(number), Ok(_)) => {
                let inside = self.is_inside(number);
                let right = self.is_right_way(name, number, direction);
                told_unless(inside && right, CHANNEL_USE)
            }
            _ => None,
        }
    }
}

/// The lowest number of the rules that what is received from, or sent to, breaks.
pub(crate) fn fault_of_end(
    position: Position,
    scope: &Scope,
    direction: Direction,
    channel: &Place,
) -> Option<u8>
    ensures { IsLowest (BreaksEnd position (entries_of scope.now) direction (place_of channel.now)) result }
{
    let place = place_ref(channel);
    lower(
        fault_of_channel(scope, place),
        position.misused(
            channel.name,
            direction,
            scope.find(channel.name),
            channel_at(scope, place),
        ),
    )
}
