//! What a case gives to the links of a program, and what it wants there.

use machine_state::Link;

/// The four links by their numbers.
pub(crate) const LINKS: [Link; 4] = [Link::Zero, Link::One, Link::Two, Link::Three];

/// What comes in on the links of a program, and what is to go out.
#[derive(Drop)]
pub(crate) struct Given {
    /// The bytes that there are on each input link, if it is given some.
    pub(crate) inputs: [Option<Vec<u8>>; 4],
    /// The bytes that are wanted on each output link, if something listens there.
    pub(crate) outputs: [Option<Vec<u8>>; 4],
}

impl Given {
    /// Nothing.
    pub(crate) fn new() -> Self {
        Given {
            inputs: [None, None, None, None],
            outputs: [None, None, None, None],
        }
    }

    /// Gives bytes to the link of this name, or wants them there. False if there is no such link.
    pub(crate) fn give(&mut self, name: &str, bytes: Vec<u8>) -> bool {
        match name {
            "in0" => self.inputs[0] = Some(bytes),
            "in1" => self.inputs[1] = Some(bytes),
            "in2" => self.inputs[2] = Some(bytes),
            "in3" => self.inputs[3] = Some(bytes),
            "out0" => self.outputs[0] = Some(bytes),
            "out1" => self.outputs[1] = Some(bytes),
            "out2" => self.outputs[2] = Some(bytes),
            "out3" => self.outputs[3] = Some(bytes),
            _ => return false,
        }
        true
    }

    /// The byte at a place of those that come in on a link.
    pub(crate) fn byte(&self, link: Link, place: usize) -> Option<u8> {
        match &self.inputs[link.index()] {
            Some(bytes) => bytes.get(place).copied(),
            None => None,
        }
    }

    /// Whether bytes come in on a link.
    pub(crate) fn has_input(&self, link: Link) -> bool {
        self.inputs[link.index()].is_some()
    }

    /// Whether something listens on a link.
    pub(crate) fn has_listener(&self, link: Link) -> bool {
        self.outputs[link.index()].is_some()
    }

    /// Whether these bytes are to go out on a link.
    pub(crate) fn wants(&self, link: Link, sent: &[u8]) -> bool {
        match &self.outputs[link.index()] {
            Some(bytes) => bytes.as_slice() == sent,
            None => true,
        }
    }
}
