//! What a process may touch.

ghost use Rattle.std.specs.Prelude.{◌≡◌};
ghost use Rattle.std.specs.List.{list_any};
ghost use Rattle.machine_state.specs.Holding.{covers, may_write, may_read, may_write_word, may_read_word, has_end};
ghost use Rattle.machine_state.specs.Access.{may};
ghost use Rattle.machine_state.specs.Spans.{all_places};
ghost use Rattle.machine_state.specs.Views.{holding_view};

use module_format::Direction;

/// Places of memory, from `start` up to `end`, which is not among them.
#[derive(Clone, Copy)]
pub struct Span {
    pub start: u32,
    pub end: u32,
}

impl Span {
    /// Whether the place is among them.
    pub fn covers(&self, place: u64) -> bool
        ensures { result ≡ covers self.now place }
    {
        u64::from(self.start) <= place && place < u64::from(self.end)
    }
}

fn any_covers(spans: &[Span], place: u64) -> bool
    ensures { result ≡ list_any (λ span. covers span place) spans.now }
{
    spans.iter().any(|span| span.covers(place))
}

/// One end of a channel or a link.
#[derive(Clone, Copy)]
pub struct End {
    /// The address of the channel word or of the link's word.
    pub address: u32,
    pub direction: Direction,
}

/// What is done to a byte.
#[derive(Clone, Copy)]
pub(crate) enum Access {
    Read,
    Write,
}

/// The places that a process may write, those that it may only read, and the ends that it may use.
#[derive(Drop)]
pub struct Holding {
    pub writes: Vec<Span>,
    pub reads: Vec<Span>,
    pub ends: Vec<End>,
}

impl Holding {
    /// Whether the byte at the place may be written.
    pub fn may_write(&self, place: u64) -> bool
        ensures { result ≡ may_write (holding_view self.now) place }
    {
        any_covers(&self.writes, place)
    }

    /// Whether the byte at the place may be read. What may be written may be read.
    pub fn may_read(&self, place: u64) -> bool
        ensures { result ≡ may_read (holding_view self.now) place }
    {
        self.may_write(place) || any_covers(&self.reads, place)
    }

    fn may(&self, access: Access, place: u64) -> bool
        ensures { result ≡ may access (holding_view self.now) place }
    {
        match access {
            Access::Read => self.may_read(place),
            Access::Write => self.may_write(place),
        }
    }

    /// Whether all four bytes of the word at the place may be written.
    #[tactic(auto, unfolding(crate::specs::Holding::may_write_word))]
    pub fn may_write_word(&self, place: u32) -> bool
        ensures { result ≡ may_write_word (holding_view self.now) place }
    {
        let place = u64::from(place);
        self.may_write(place)
            && self.may_write(place + 1)
            && self.may_write(place + 2)
            && self.may_write(place + 3)
    }

    /// Whether all four bytes of the word at the place may be read.
    #[tactic(auto, unfolding(crate::specs::Holding::may_read_word))]
    pub fn may_read_word(&self, place: u32) -> bool
        ensures { result ≡ may_read_word (holding_view self.now) place }
    {
        let place = u64::from(place);
        self.may_read(place)
            && self.may_read(place + 1)
            && self.may_read(place + 2)
            && self.may_read(place + 3)
    }

    fn may_all(&self, access: Access, place: u32, count: u32) -> bool
        ensures { result ≡ all_places (may access (holding_view self.now)) place count }
    {
        for k in 0..count {
            if !self.may(access, u64::from(place) + u64::from(k)) {
                return false;
            }
        }
        true
    }

    /// Whether all of `count` bytes from the place on may be read.
    pub fn may_read_bytes(&self, place: u32, count: u32) -> bool
        ensures { result ≡ all_places (may_read (holding_view self.now)) place count }
    {
        self.may_all(Access::Read, place, count)
    }

    /// Whether all of `count` bytes from the place on may be written.
    pub fn may_write_bytes(&self, place: u32, count: u32) -> bool
        ensures { result ≡ all_places (may_write (holding_view self.now)) place count }
    {
        self.may_all(Access::Write, place, count)
    }

    /// Whether the end is among those that may be used.
    pub fn has_end(&self, end: End) -> bool
        ensures { result ≡ has_end (holding_view self.now) end }
    {
        self.ends.iter().any(|held| held.address == end.address && held.direction == end.direction)
    }
}
