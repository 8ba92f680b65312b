//! The items of rows, in words.

ghost use Rattle.std.specs.Prelude.{◌≡◌, ◌++◌, OnOk, Some, string_bytes};
ghost use Rattle.std.specs.List.{flat_map};
ghost use Rattle.fact_texts.specs.Texts.{Text};
ghost use Rattle.fact_texts.specs.RowTexts.{channel_text, direction_text, ends_text, kind_text};

use crate::facts::{FactText, RangeText, range};
use bitflags::Flags;
use module_format::{Direction, EndKind, EndRow, Ends, Entry, Interval, Parameter, ParameterKind};
use std::alloc::AllocError;
use std::fmt;

/// An item of a row that has a list of such.
pub(crate) trait Item: Copy {
    ghost text_of: { Self → Text };

    /// Appends the item.
    fn push(self, text: &mut String) -> Result<(), AllocError>
        ensures { OnOk result (string_bytes text.new ≡ string_bytes text.old ++ text_of self) };
}

/// Appends the items.
pub(crate) fn push_items<T: Item>(text: &mut String, items: &[T]) -> Result<(), AllocError>
    ensures { OnOk result (string_bytes text.new ≡ string_bytes text.old ++ flat_map T.text_of items.now) }
{
    for item in items {
        item.push(text)?;
    }
    Ok(())
}

impl Item for Entry {
    ghost use Rattle.fact_texts.specs.RowTexts.{entry_text};

    ghost text_of = { entry_text };

    fn push(self, text: &mut String) -> Result<(), AllocError> {
        let first = i64::from(self.word);
        let words = RangeText {
            lo: first,
            hi: first + i64::from(self.span) - 1,
        };
        write!(text, ", word {words}: {}", FactText(self.fact))
    }
}

/// Which ends a parameter brings.
fn ends_text(ends: Ends) -> &'static str
    ensures { result.now ≡ ends_text ends }
{
    match ends.bits() {
        1 => "in",
        2 => "out",
        _ => "in and out",
    }
}

/// Appends what a parameter is.
fn push_kind(text: &mut String, kind: ParameterKind) -> Result<(), AllocError>
    ensures { OnOk result (string_bytes text.new ≡ string_bytes text.old ++ kind_text kind) }
{
    match kind {
        ParameterKind::Value { lo, hi } => write!(text, "{}", range(lo, hi)),
        ParameterKind::ReadRegion { size, lo, hi } => {
            write!(text, "reads {size} bytes of {}", range(lo, hi))
        }
        ParameterKind::WrittenRegion { size, lo, hi } => {
            write!(text, "writes {size} bytes of {}", range(lo, hi))
        }
        ParameterKind::Channels {
            count,
            length,
            ends,
        } => write!(
            text,
            "{count} channels {} of {length} bytes",
            ends_text(ends)
        ),
    }
}

impl Item for Parameter {
    ghost use Rattle.fact_texts.specs.RowTexts.{parameter_text};

    ghost text_of = { parameter_text };

    fn push(self, text: &mut String) -> Result<(), AllocError> {
        write!(text, "; parameter in word {}: ", self.word)?;
        push_kind(text, self.kind)
    }
}

impl Item for Interval {
    ghost use Rattle.fact_texts.specs.RowTexts.{interval_text};

    ghost text_of = { interval_text };

    fn push(self, text: &mut String) -> Result<(), AllocError> {
        let words = RangeText {
            lo: i64::from(self.lo),
            hi: i64::from(self.hi) - 1,
        };
        write!(text, " {words}")
    }
}

impl Item for u16 {
    ghost use Rattle.fact_texts.specs.RowTexts.{number_text};

    ghost text_of = { number_text };

    fn push(self, text: &mut String) -> Result<(), AllocError> {
        write!(text, " {self}")
    }
}

/// A channel.
#[derive(Clone, Copy)]
pub struct ChannelText(pub EndKind);

impl fmt::Display for ChannelText {
    ghost output = { λ channel. Some (channel_text channel.0) };

    fn fmt<W: fmt::Write>(&self, f: &mut fmt::Formatter<W>) -> fmt::Result {
        match self.0 {
            EndKind::FrameWord(word) => write!(f, "word {word}"),
            EndKind::Parameter { number, element } => write!(
                f,
                "parameter {number} channel {element}"
            ),
            EndKind::Link(link) => write!(f, "link {link}"),
        }
    }
}

/// Which way an end is used.
fn direction_text(direction: Direction) -> &'static str
    ensures { result.now ≡ direction_text direction }
{
    match direction {
        Direction::In => "in",
        Direction::Out => "out",
    }
}

impl Item for EndRow {
    ghost use Rattle.fact_texts.specs.RowTexts.{end_text};

    ghost text_of = { end_text };

    fn push(self, text: &mut String) -> Result<(), AllocError> {
        write!(
            text,
            " {} {}",
            direction_text(self.direction),
            ChannelText(self.kind)
        )
    }
}
