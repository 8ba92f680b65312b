//! What a process can enable.

ghost use Rattle.std.specs.Prelude.{◌≡◌};
ghost use Rattle.std.specs.Option.{option_map};
ghost use Rattle.machine_state.specs.Alternations.{source_at};
ghost use Rattle.alternation.specs.Sources.{definition_of};

use machine_state::{Channel, InputLink, Link, Store};
use process_queue::ListQueue;
use traffic::{Traffic, input_link};

/// Something that can be enabled, as it was when it was looked up.
#[derive(Clone, Copy)]
pub(crate) enum Source {
    /// The input side of a link.
    Link(Link, InputLink),
    /// The internal channel at an address.
    Channel(u32, Channel),
}

impl Source {
    /// The link or channel at the address, if there is one.
    pub(crate) fn at<S: Store>(traffic: &Traffic<S, ListQueue>, address: u32) -> Option<Self>
        ensures { option_map definition_of result ≡ source_at traffic.now.world address }
    {
        match input_link(address) {
            Some(link) => Some(Source::Link(link, traffic.input(link))),
            None => {
                let channel = traffic.channel(address)?;
                Some(Source::Channel(address, channel))
            }
        }
    }

    /// Whether a byte is kept there, or a process waits there to send.
    pub(crate) fn is_ready(&self) -> bool
        ensures { result ≡ (definition_of self.now).is_ready }
    {
        match self {
            Source::Link(_, input) => input.kept.is_some(),
            Source::Channel(_, channel) => channel.waiting.is_some(),
        }
    }

    /// The process whose alternation has enabled it.
    pub(crate) fn enabled(&self) -> Option<u64>
        ensures { result ≡ (definition_of self.now).enabled }
    {
        match self {
            Source::Link(_, input) => input.enabled,
            Source::Channel(_, channel) => channel.enabled,
        }
    }

    /// From now on the alternation of this process has enabled it, or none has.
    pub(crate) fn set_enabled<S: Store>(
        self,
        traffic: &mut Traffic<S, ListQueue>,
        enabled: Option<u64>,
    )
        ensures { let world = (definition_of self).with_enabled enabled traffic.old.world in
            traffic.new ≡ record traffic.old { world = world } }
    {
        match self {
            Source::Link(link, input) => traffic.set_input(link, InputLink { enabled, ..input }),
            Source::Channel(address, channel) => {
                traffic.set_channel(address, Channel { enabled, ..channel })
            }
        }
    }
}
