//! What a certificate says of one word.

ghost use Rattle.std.specs.Prelude.{◌≡◌, ◌+◌, ◌^◌, nat_lt};
ghost use Rattle.module_format.specs.Regions.{region_number, region_numbered, is_frame, is_same_region};

/// What a pointer leads to.
#[derive(Clone, Copy, Debug)]
pub enum Region {
    /// The frame, whose offsets count from its word 0.
    Frame,
    /// The constants.
    Constants,
    /// What the parameter with this number names.
    Parameter(u16),
}

impl Region {
    /// The region with this number in a file: 0 is the frame, 1 the constants, and 2 + j what parameter j names.
    pub fn numbered(number: u16) -> Region
        ensures { result ≡ region_numbered number }
    {
        match number {
            0 => Region::Frame,
            1 => Region::Constants,
            _ => Region::Parameter(number - 2),
        }
    }

    /// Whether a context with this number of parameters has it.
    pub(crate) fn is_there(self, parameters: usize) -> bool
        ensures { result ≡ nat_lt (region_number self) (2 + parameters) }
    {
        match self {
            Region::Frame | Region::Constants => true,
            Region::Parameter(number) => usize::from(number) < parameters,
        }
    }

    /// Whether its number in a file is a u16.
    pub(crate) fn has_number(self) -> bool
        ensures { result ≡ nat_lt (region_number self) (2 ^ 16) }
    {
        !matches!(self, Region::Parameter(number) if number > u16::MAX - 2)
    }

    /// Whether it is the frame.
    pub fn is_frame(self) -> bool
        ensures { result ≡ is_frame self }
    {
        matches!(self, Region::Frame)
    }

    /// Whether both are the same region.
    pub fn is_same(self, other: Region) -> bool
        ensures { result ≡ is_same_region self other }
    {
        match (self, other) {
            (Region::Frame, Region::Frame) | (Region::Constants, Region::Constants) => true,
            (Region::Parameter(number), Region::Parameter(another)) => number == another,
            _ => false,
        }
    }
}

/// Whether the offsets of a pointer are all multiples of a word's four bytes.
#[derive(Clone, Copy, Debug, PartialEq, Eq)]
pub enum Step {
    /// Any byte.
    Byte,
    /// Multiples of four.
    Word,
}

/// What is known of a word of memory or a register. `At` is a place in the code: an offset in a file.
#[derive(Clone, Copy, Debug)]
pub enum Fact<At = u32> {
    /// Nothing; the word may be undefined.
    Unknown,
    /// A defined number from `lo` to `hi`, both included.
    Number {
        lo: i32,
        hi: i32,
    },
    /// The address of a region's start plus an offset in bytes from `lo` to `hi`, both included.
    Pointer {
        region: Region,
        lo: i32,
        hi: i32,
        step: Step,
    },
    /// The address of a code offset.
    CodeAddress {
        offset: At,
    },
    /// The first of the two words of a loop: the second is a count c from 1 to `count`, and the first
    /// is `base + count - c`. Each turn that is left is paid with `weight`.
    Loop {
        base: i32,
        count: u32,
        weight: u64,
    },
    /// The return address of the activation.
    ReturnAddress,
}
