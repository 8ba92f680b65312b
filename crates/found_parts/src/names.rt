//! Channels and words, with links by their names.

ghost use Rattle.std.specs.Prelude.{Some};
ghost use Rattle.found_parts.specs.Names.{channel_name, word_name};

use fact_texts::{ChannelText, FactText};
use module_format::{EndKind, Fact};
use rulings::channels::channel_of;
use states::WordFact;
use std::fmt;

/// A channel; a link by its name: `out0` to `out3`, and `in0` to `in3`.
#[derive(Clone, Copy)]
pub(crate) struct ChannelName(pub EndKind);

impl fmt::Display for ChannelName {
    ghost output = { λ channel. Some (channel_name channel.0) };

    fn fmt<W: fmt::Write>(&self, f: &mut fmt::Formatter<W>) -> fmt::Result {
        match self.0 {
            EndKind::Link(link) if link < 4 => write!(f, "out{link}"),
            EndKind::Link(link) if link < 8 => write!(f, "in{}", link - 4),
            EndKind::Link(link) => write!(f, "link {link}"),
            kind => write!(f, "{}", ChannelText(kind)),
        }
    }
}

/// What is known of a word; the address of a link by its name.
#[derive(Clone, Copy)]
pub(crate) struct WordName(pub Fact);

impl fmt::Display for WordName {
    ghost output = { λ word. Some (word_name word.0) };

    fn fmt<W: fmt::Write>(&self, f: &mut fmt::Formatter<W>) -> fmt::Result {
        match channel_of(WordFact::Alone(self.0)) {
            Some(EndKind::Link(link)) => write!(f, "{}", ChannelName(EndKind::Link(link))),
            _ => write!(f, "{}", FactText(self.0)),
        }
    }
}
