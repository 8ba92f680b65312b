//! What places use: variables that are changed, and ends of channels.

ghost use Rattle.std.specs.Prelude.{◌≡◌, option_map};
ghost use Rattle.occam_parser.specs.LineViews.{any_of, place_of};
ghost use Rattle.occam_parser.specs.Views.{expression_of};
ghost use Rattle.scalar_ranges.specs.Scopes.{entries_of, meaning_of};
ghost use Rattle.program_uses.specs.Places.{reads_if_any, changes_of, element_in, element_of, spot_of, uses_spot};
ghost use Rattle.program_uses.specs.Places.{ends_of, is_subscripted};
ghost use Rattle.program_uses.specs.PlaceViews.{place_at};
ghost use Rattle.program_uses.specs.Sets.{Adds};

use crate::constants::value_as;
use crate::uses::{Direction, Use, Uses};
use occam_parser::{Expr, Place};
use scalar_ranges::{ExprType, Meaning, Scope};

/// A channel, or an element of an array of channels, by the number of its declaration.
#[derive(Clone, Copy)]
pub struct Spot {
    pub channel: usize,
    pub element: u32,
}

/// A name, and the subscript that follows it, wherever they are.
#[derive(Clone, Copy)]
pub struct PlaceRef<'e, 'a> {
    pub name: &'e [u8],
    pub subscript: Option<&'e Expr<'a>>,
}

impl PlaceRef<'_, '_> {
    /// Whether a subscript follows the name.
    pub fn is_subscripted(self) -> bool
        ensures { result ≡ is_subscripted (place_at self.entry).subscript }
    {
        self.subscript.is_some()
    }
}

/// The element with this subscript, if an array of this size has it.
fn element_in(size: Option<u32>, subscript: Option<i32>) -> Option<u32>
    ensures { result ≡ element_in size subscript }
{
    let subscript = subscript?;
    if subscript < 0 {
        return None;
    }
    let element = subscript.unsigned_abs();
    if element < size? { Some(element) } else { None }
}

/// Which element a subscript names of what has this meaning, if that is a channel or an array of channels.
fn element_of(scope: &Scope, meaning: Option<Meaning>, subscript: Option<&Expr>) -> Option<u32>
    ensures { result ≡ element_of (entries_of scope.now) (option_map meaning_of meaning)
        (option_map (λ e. expression_of e.now) subscript.entry) }
{
    match (meaning, subscript) {
        (Some(Meaning::Channel { .. }), None) => Some(0),
        (Some(Meaning::Channels { size, .. }), Some(subscript)) => {
            element_in(size, value_as(scope, ExprType::Int, subscript))
        }
        _ => None,
    }
}

/// The channel that a place is, if it is one.
pub fn spot_of(scope: &Scope, place: PlaceRef) -> Option<Spot>
    ensures { result ≡ spot_of (entries_of scope.now) (place_at place.entry) }
{
    let found = scope.lookup(place.name)?;
    let element = element_of(scope, Some(found.meaning), place.subscript)?;
    Some(Spot {
        channel: found.number,
        element,
    })
}

/// The name and the subscript of a place.
pub fn place_ref<'e, 'a>(place: &'e Place<'a>) -> PlaceRef<'e, 'a>
    ensures { place_at result ≡ place_of place.now }
{
    PlaceRef {
        name: place.name,
        subscript: place.subscript.as_ref(),
    }
}

impl Uses {
    /// What an expression reads, if there is one.
    pub(crate) fn read_if_any(&mut self, scope: &Scope, expr: &Option<Expr>)
        ensures { Adds self.old self.new (reads_if_any (entries_of scope.now) (any_of expr.now)) }
    {
        if let Some(expr) = expr {
            self.read(scope, expr);
        }
    }

    /// What is assigned to a place changes.
    pub(crate) fn change(&mut self, scope: &Scope, place: &Place)
        ensures { Adds self.old self.new (changes_of (entries_of scope.now) (place_of place.now)) }
    {
        self.change_name(scope, place.name);
        self.read_if_any(scope, &place.subscript);
    }

    /// An end of a channel, if there is one.
    fn use_spot(&mut self, direction: Direction, spot: Option<Spot>)
        ensures { Adds self.old self.new (uses_spot direction spot) }
    {
        if let Some(Spot { channel, element }) = spot {
            self.add(Use::Channel {
                channel,
                element,
                direction,
            });
        }
    }

    /// What is received from a place, or sent to it, uses.
    pub(crate) fn use_end(&mut self, scope: &Scope, direction: Direction, place: &Place)
        ensures { Adds self.old self.new (ends_of (entries_of scope.now) direction (place_of place.now)) }
    {
        self.use_spot(direction, spot_of(scope, place_ref(place)));
        self.read_if_any(scope, &place.subscript);
    }
}
