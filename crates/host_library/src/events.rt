//! The events that a host hands over.

ghost use Rattle.std.specs.Prelude.{◌≡◌, MatchResult};
ghost use Rattle.host_library.specs.Events.{link_numbered, flag_numbered, AreEventsOf, IsNoEvent};
ghost use Rattle.host_library.specs.Failures.{IsOfEvents};

use crate::failure::HostFailure;
use machine_state::{Event, Link};
use std::alloc::Global;

/// The kind of a step.
pub const STEP: u8 = 0;
/// The kind of an arrival.
pub const ARRIVE: u8 = 1;
/// The kind of an acknowledgement.
pub const ACKNOWLEDGE: u8 = 2;

/// An event as a host writes it. A field that its kind does not need is not read.
#[repr(C)]
#[derive(Clone, Copy)]
pub struct HostEvent {
    /// `STEP`, `ARRIVE` or `ACKNOWLEDGE`.
    pub kind: u8,
    /// Of an arrival or an acknowledgement: the number of the link, from 0 to 3.
    pub link: u8,
    /// Of an arrival: the byte.
    pub byte: u8,
    /// Of a step: 1 if a jump that it completes gives way, else 0.
    pub slice: u8,
    /// Of a step: which ready process runs next, counted round the list.
    pub pick: u64,
}

/// The link of a number, if there is one.
fn link_numbered(number: u8) -> Option<Link>
    ensures { result ≡ link_numbered number }
{
    match number {
        0 => Some(Link::Zero),
        1 => Some(Link::One),
        2 => Some(Link::Two),
        3 => Some(Link::Three),
        _ => None,
    }
}

/// What 0 and 1 say.
fn flag_numbered(number: u8) -> Option<bool>
    ensures { result ≡ flag_numbered number }
{
    match number {
        0 => Some(false),
        1 => Some(true),
        _ => None,
    }
}

impl HostEvent {
    ghost use Rattle.host_library.specs.Events.{event_of};

    /// The event, if it is one.
    pub fn event(&self) -> Option<Event>
        ensures { result ≡ event_of self.now }
    {
        match self.kind {
            STEP => Some(Event::Step {
                slice: flag_numbered(self.slice)?,
                pick: self.pick,
            }),
            ARRIVE => Some(Event::Arrive {
                link: link_numbered(self.link)?,
                byte: self.byte,
            }),
            ACKNOWLEDGE => Some(Event::Acknowledge {
                link: link_numbered(self.link)?,
            }),
            _ => None,
        }
    }
}

/// The events, if each is one.
pub fn events_of(alloc: Global, given: &[HostEvent]) -> Result<Vec<Event>, HostFailure>
    ensures { MatchResult result (λ events. AreEventsOf given.now events.items) (IsOfEvents (IsNoEvent given.now)) }
{
    let mut events = Vec::new(alloc);
    for (index, event) in given.iter().enumerate() {
        match event.event() {
            Some(event) => events.push(event)?,
            None => return Err(HostFailure::NoEvent { index }),
        }
    }
    Ok(events)
}
