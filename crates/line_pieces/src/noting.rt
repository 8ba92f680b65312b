//! What code uses of what is outside of its process: words of variables, and ends of channels.

ghost use Rattle.std.specs.Prelude.{◌≡◌, IfOk, pos};
ghost use Rattle.line_pieces.specs.Noted.{end_row};

use module_builder::GenFault;
use module_format::{Direction, EndKind, EndRow};
use std::alloc::{AllocError, Global};
use std::collections::BTreeMap;

/// How a variable is used.
#[derive(Clone, Copy, PartialEq, Eq)]
pub enum Access {
    Reads,
    Writes,
}

/// Where a channel is: in a word of the frame, or a link.
#[derive(Clone, Copy, PartialEq, Eq, PartialOrd, Ord)]
pub enum ChannelPlace {
    Word(u32),
    Link(u8),
}

/// Which way messages go at an end of a channel.
#[derive(Clone, Copy, PartialEq, Eq, PartialOrd, Ord)]
pub enum Way {
    In,
    Out,
}

/// An end of a channel.
#[derive(Clone, Copy, PartialEq, Eq, PartialOrd, Ord)]
pub struct ChannelEnd {
    pub place: ChannelPlace,
    pub way: Way,
}

impl ChannelEnd {
    /// The end as a row has it. The error is [`GenFault::Limit`] if its word has no number there.
    pub(crate) fn row(self) -> Result<EndRow, GenFault>
        ensures { IfOk result (λ row. row ≡ end_row self) }
    {
        let kind = match self.place {
            ChannelPlace::Word(word) => EndKind::FrameWord(row_word(word)?),
            ChannelPlace::Link(number) => EndKind::Link(number),
        };
        let direction = match self.way {
            Way::In => Direction::In,
            Way::Out => Direction::Out,
        };
        Ok(EndRow { kind, direction })
    }
}

/// A word of the frame as rows have it. The error is [`GenFault::Limit`] if it is too high.
pub fn row_word(word: u32) -> Result<i32, GenFault>
    ensures { IfOk result (λ n. n ≡ pos word) }
{
    i32::try_from(word).ok().ok_or(GenFault::Limit)
}

/// What code uses of what is outside of its process.
#[derive(Drop)]
pub struct Notes {
    /// The words below this one are outside.
    pub outside: u32,
    /// How each variable is used, by its first word.
    pub words: BTreeMap<u32, Access>,
    /// How many bytes a message has at each end of a channel.
    pub ends: BTreeMap<ChannelEnd, u32>,
}

impl Notes {
    /// Nothing is used. The words below this one are outside.
    pub(crate) fn new(alloc: Global, outside: u32) -> Notes
        ensures { result.outside ≡ outside }
    {
        Notes {
            outside,
            words: BTreeMap::new(alloc),
            ends: BTreeMap::new(alloc),
        }
    }

    /// Whether a channel is outside.
    fn has_outside(&self, place: ChannelPlace) -> bool {
        match place {
            ChannelPlace::Word(word) => word < self.outside,
            ChannelPlace::Link(_) => true,
        }
    }

    /// A variable is used. One that is written stays so.
    pub(crate) fn note_word(&mut self, word: u32, access: Access) -> Result<(), AllocError> {
        if word >= self.outside {
            return Ok(());
        }
        if access == Access::Writes || !self.words.contains_key(&word) {
            self.words.insert(word, access)?;
        }
        Ok(())
    }

    /// An end of a channel is used whose messages have `length` bytes.
    pub(crate) fn note_end(&mut self, end: ChannelEnd, length: u32) -> Result<(), AllocError> {
        if self.has_outside(end.place) {
            self.ends.insert(end, length)?;
        }
        Ok(())
    }

    /// What a process within this one uses.
    pub(crate) fn note_all(&mut self, within: &Notes) -> Result<(), AllocError> {
        for (word, access) in &within.words {
            self.note_word(*word, *access)?;
        }
        for (end, length) in &within.ends {
            self.note_end(*end, *length)?;
        }
        Ok(())
    }
}
