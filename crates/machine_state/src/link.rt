//! The four links, each with an input and an output side.

ghost use Rattle.std.specs.Prelude.{◌≡◌};
ghost use Rattle.machine_state.specs.Moves.{link_index};

/// One of the four links.
#[derive(Clone, Copy, Debug, PartialEq, Eq)]
pub enum Link {
    Zero,
    One,
    Two,
    Three,
}

impl Link {
    /// The link's number, from 0 to 3.
    pub fn index(self) -> usize
        ensures { result ≡ link_index self }
    {
        match self {
            Link::Zero => 0,
            Link::One => 1,
            Link::Two => 2,
            Link::Three => 3,
        }
    }
}

/// The input side of a link.
#[derive(Clone, Copy)]
pub struct InputLink {
    /// The byte that has come and that no process has taken.
    pub kept: Option<u8>,
    /// The process that waits for bytes.
    pub waiting: Option<u64>,
    /// The process whose alternation has enabled the link.
    pub enabled: Option<u64>,
}

/// The output side of a link.
#[derive(Clone, Copy)]
pub struct OutputLink {
    /// The process whose message was emitted and is not acknowledged.
    pub waiting: Option<u64>,
}
