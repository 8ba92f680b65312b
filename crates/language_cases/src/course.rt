//! What came of a run.

use crate::given::{Given, LINKS};
use conformance::Answer;
use machine::Checked;
use machine_state::Link;
use std::alloc::Global;

/// What went over the links in a run.
#[derive(Drop)]
pub(crate) struct Course {
    /// How many bytes were read from each input link.
    read: [usize; 4],
    /// What was sent on each output link.
    sent: [Vec<u8>; 4],
    /// Whether a message went out on a link where nothing listens.
    is_unheard: [bool; 4],
    is_out_of_memory: bool,
}

impl Course {
    /// Nothing yet.
    pub(crate) fn new(alloc: Global) -> Self {
        Course {
            read: [0; 4],
            sent: [
                Vec::new(alloc),
                Vec::new(alloc),
                Vec::new(alloc),
                Vec::new(alloc),
            ],
            is_unheard: [false; 4],
            is_out_of_memory: false,
        }
    }

    /// The next byte of a link, if there is one.
    pub(crate) fn next_byte(&self, given: &Given, link: Link) -> Option<u8> {
        given.byte(link, self.read[link.index()])
    }

    /// A byte of a link was read.
    pub(crate) fn count(&mut self, link: Link) {
        let read = &mut self.read[link.index()];
        *read = read.saturating_add(1);
    }

    /// A message was sent on a link.
    pub(crate) fn keep(&mut self, link: Link, message: &[u8]) {
        let sent = &mut self.sent[link.index()];
        if sent.extend_from_slice(message).is_err() {
            self.is_out_of_memory = true;
        }
    }

    /// Nothing listens to the message of a link.
    pub(crate) fn leave_unheard(&mut self, link: Link) {
        self.is_unheard[link.index()] = true;
    }

    /// How many bytes were read from each link that was given some.
    fn put_read(&self, given: &Given, out: &mut Answer) {
        let mut word = " read ";
        for link in &LINKS {
            if given.has_input(*link) {
                out.put(word);
                out.great(self.read[link.index()] as u64);
                word = " ";
            }
        }
    }

    /// What was sent on a link where other bytes are wanted.
    fn put_sent(&self, given: &Given, out: &mut Answer) {
        for link in &LINKS {
            let sent = self.sent[link.index()].as_slice();
            if given.has_listener(*link) && !given.wants(*link, sent) {
                put_link(out, "out", *link);
                out.put(" sent ");
                for byte in sent {
                    out.hexadecimal(*byte);
                }
            }
        }
    }

    /// The links that processes wait for, after a word.
    fn put_waits(&self, machine: &Checked, out: &mut Answer) {
        for link in &LINKS {
            if machine.wants(*link) {
                put_link(out, "in", *link);
            }
        }
        for link in &LINKS {
            if self.is_unheard[link.index()] {
                put_link(out, "out", *link);
            }
        }
    }

    /// How the run ended: whether the program did, the links that it waits for, the bytes that were read, and what was
    /// sent where other bytes are wanted.
    pub(crate) fn put(&self, machine: &Checked, given: &Given, out: &mut Answer) {
        out.put(if machine.finished() { "ended" } else { "idle" });
        self.put_waits(machine, out);
        self.put_read(given, out);
        self.put_sent(given, out);
        if self.is_out_of_memory {
            out.fail();
        }
    }
}

fn put_link(out: &mut Answer, direction: &str, link: Link) {
    out.put(" ");
    out.put(direction);
    out.great(link.index() as u64);
}
