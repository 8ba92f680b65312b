//! The ends that a context has, and the lengths of messages that it knows.

use crate::channels::{as_word, further};
use crate::place::Place;
use module_format::{Direction, EndKind, EndRow, ParameterKind};

impl Place<'_, '_> {
    ghost use Rattle.std.specs.Prelude.{◌≡◌, ℕ};
    ghost use Rattle.module_format.specs.Contents.{link_length};
    ghost use Rattle.module_format.specs.Keeping.{Keeps};
    ghost use Rattle.rulings.specs.Channels.{message_length, further, has_end_further, length_of_parameter};

    /// Whether a context has an end, in a direction, of the channel `n` channels further.
    pub fn has_end(&self, context: u32, first: EndKind, n: u32, direction: Direction) -> bool
        requires { Keeps self.now.module.now }
        ensures { let has = has_end_further self.now.module.now context first direction in result ≡ has n }
    {
        match further(first, n) {
            Some(kind) => {
                let end = EndRow { kind, direction };
                self.module.has_end(context, end)
            }
            None => false,
        }
    }

    /// The bytes of the messages on a link; none on one that there is not.
    fn link_length(&self, link: u64) -> u32
        ensures { result ≡ link_length self.now.module.now link }
    {
        match self.module.tables().lengths.get(link as usize) {
            Some(length) => *length,
            None => 0,
        }
    }

    /// The bytes of the messages of the channels of a parameter of a context.
    fn parameter_length(&self, context: u32, number: i32) -> Option<u32>
        ensures { let length = length_of_parameter self.now.module.now context number in
            (element : ℕ) → result ≡ length element }
    {
        let number = usize::try_from(number).ok()?;
        let parameter = self.module.parameters(context).get(number)?;
        match parameter.kind {
            ParameterKind::Channels { length, .. } => Some(length),
            _ => None,
        }
    }

    /// The bytes of the messages of the channel `n` channels further, if a context knows that channel.
    pub fn message_length(&self, context: u32, first: EndKind, n: u32) -> Option<u32>
        requires { Keeps self.now.module.now }
        ensures { let kind = further first n in result ≡ message_length self.now.module.now context kind }
    {
        match first {
            EndKind::FrameWord(word) => {
                let word = as_word(i64::from(word) + i64::from(n))?;
                self.module.channel_length(context, word)
            }
            EndKind::Parameter { number, .. } => self.parameter_length(context, number),
            EndKind::Link(link) => Some(self.link_length(u64::from(link) + u64::from(n))),
        }
    }
}
