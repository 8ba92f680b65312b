//! What a runner counts.

ghost use Rattle.std.specs.Prelude.{◌≡◌, ◌∷◌, [], not, ◌&&◌, is_none};
ghost use Rattle.machine_state.specs.World.{World};
ghost use Rattle.link_runs.specs.ByLink.{first_link};
ghost use Rattle.link_runs.specs.Wanting.{wants};
ghost use Rattle.link_runner.specs.Counting.{flag_of, with_flag, with_count, in_order};
ghost use Rattle.link_runner.specs.Readers.{at_link, absent_of, tally_at_start};

use link_runs::Machine;
use machine_state::Link;

/// Which input links have ended.
#[derive(Clone, Copy)]
pub(crate) struct Ended {
    pub(crate) first: bool,
    pub(crate) second: bool,
    pub(crate) third: bool,
    pub(crate) fourth: bool,
}

/// Whether the link has no reader.
fn is_absent<R>(readers: &[Option<R>; 4], link: Link) -> bool
    ensures { result ≡ is_none (at_link readers.now link) }
{
    readers[link.index()].is_none()
}

impl Ended {
    /// The links without a reader have ended.
    pub(crate) fn at_start<R>(readers: &[Option<R>; 4]) -> Self
        ensures { result ≡ absent_of readers.now }
    {
        Ended {
            first: is_absent(readers, Link::Zero),
            second: is_absent(readers, Link::One),
            third: is_absent(readers, Link::Two),
            fourth: is_absent(readers, Link::Three),
        }
    }

    /// Whether the link has ended.
    fn has(&self, link: Link) -> bool
        ensures { result ≡ flag_of self.now link }
    {
        match link {
            Link::Zero => self.first,
            Link::One => self.second,
            Link::Two => self.third,
            Link::Three => self.fourth,
        }
    }

    /// The link has ended.
    pub(crate) fn add(&mut self, link: Link)
        ensures { self.new ≡ with_flag link self.old }
    {
        match link {
            Link::Zero => self.first = true,
            Link::One => self.second = true,
            Link::Two => self.third = true,
            Link::Three => self.fourth = true,
        }
    }

    /// Whether some process wants a byte of the link, and it has not ended.
    fn can_be_asked<M: Machine>(&self, machine: &M, link: Link) -> bool
        ensures { (w : World) → M.shows machine.now w → result ≡ (wants link w && not (flag_of self.now link)) }
    {
        machine.wants(link) && !self.has(link)
    }

    /// The lowest link of which some process wants a byte, and that has not ended.
    pub(crate) fn next<M: Machine>(&self, machine: &M) -> Option<Link>
        ensures { (w : World) → M.shows machine.now w
            → result ≡ first_link (λ link. wants link w && not (flag_of self.now link)) }
    {
        if self.can_be_asked(machine, Link::Zero) {
            Some(Link::Zero)
        } else if self.can_be_asked(machine, Link::One) {
            Some(Link::One)
        } else if self.can_be_asked(machine, Link::Two) {
            Some(Link::Two)
        } else if self.can_be_asked(machine, Link::Three) {
            Some(Link::Three)
        } else {
            None
        }
    }
}

/// How many bytes went over each link. A count stays at `u64::MAX` once it is there.
#[derive(Clone, Copy)]
pub(crate) struct Counts {
    first: u64,
    second: u64,
    third: u64,
    fourth: u64,
}

impl Counts {
    /// None yet.
    pub(crate) fn none() -> Self
        ensures { result ≡ record { first = 0; second = 0; third = 0; fourth = 0 } }
    {
        Counts {
            first: 0,
            second: 0,
            third: 0,
            fourth: 0,
        }
    }

    /// `count` more went over the link.
    pub(crate) fn add(&mut self, link: Link, count: u64)
        ensures { self.new ≡ with_count link count self.old }
    {
        match link {
            Link::Zero => self.first = self.first.saturating_add(count),
            Link::One => self.second = self.second.saturating_add(count),
            Link::Two => self.third = self.third.saturating_add(count),
            Link::Three => self.fourth = self.fourth.saturating_add(count),
        }
    }

    /// The counts in the order of the links.
    pub(crate) fn to_array(self) -> [u64; 4]
        ensures { result ≡ self.first ∷ self.second ∷ self.third ∷ self.fourth ∷ [] }
    {
        [self.first, self.second, self.third, self.fourth]
    }
}

/// What a runner keeps of the links: which have ended, and how many bytes went over each.
#[derive(Clone, Copy)]
pub struct Tally {
    pub(crate) ended: Ended,
    pub(crate) read: Counts,
    pub(crate) written: Counts,
}

impl Tally {
    /// No byte went over a link yet, and those without a reader have ended.
    pub fn at_start<R>(readers: &[Option<R>; 4]) -> Self
        ensures { result ≡ tally_at_start readers.now }
    {
        Tally {
            ended: Ended::at_start(readers),
            read: Counts::none(),
            written: Counts::none(),
        }
    }

    /// How many bytes were read from each link.
    pub fn read(&self) -> [u64; 4]
        ensures { result ≡ in_order self.now.read }
    {
        self.read.to_array()
    }

    /// How many bytes were written on each link.
    pub fn written(&self) -> [u64; 4]
        ensures { result ≡ in_order self.now.written }
    {
        self.written.to_array()
    }
}
