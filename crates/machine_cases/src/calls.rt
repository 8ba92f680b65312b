//! What readers and writers are called for.

use conformance::Answer;
use std::alloc::Global;
use std::cell::{Cell, RefCell};

/// How a call fails.
#[derive(Clone, Copy)]
pub(crate) enum CallFailure {
    /// With an error.
    Error,
    /// A write takes no byte; a read fails with an error.
    TakesNone,
}

impl CallFailure {
    /// How a call fails, by a word.
    pub(crate) fn of(word: &str) -> Option<Self> {
        match word {
            "error" => Some(CallFailure::Error),
            "none" => Some(CallFailure::TakesNone),
            _ => None,
        }
    }
}

/// The call of a run that fails, by its number, from 1 on.
#[derive(Clone, Copy)]
pub(crate) struct Failing {
    pub(crate) call: u64,
    pub(crate) how: CallFailure,
}

impl Failing {
    /// The call that fails: `2 error`, or `2 none`.
    pub(crate) fn of(text: &str) -> Option<Self> {
        let (number, word) = text.split_once(' ')?;
        let call = number.parse::<u64>().ok()?;
        let how = CallFailure::of(word)?;
        Some(Failing { call, how })
    }
}

/// What the readers and writers of a run were called for, in order, and which of these calls fails.
#[derive(Drop)]
pub(crate) struct CallLog {
    failing: Option<Failing>,
    count: Cell<u64>,
    text: RefCell<Answer>,
}

impl CallLog {
    /// None yet.
    pub(crate) fn new(alloc: Global, failing: Option<Failing>) -> Self {
        CallLog {
            failing,
            count: Cell::new(0),
            text: RefCell::new(Answer::new(alloc)),
        }
    }

    /// How many there were.
    pub(crate) fn count(&self) -> u64 {
        self.count.get()
    }

    /// One more call, and how it fails, if it does.
    pub(crate) fn begin(&self) -> Option<CallFailure> {
        let call = self.count.get().saturating_add(1);
        self.count.set(call);
        match self.failing {
            Some(failing) if failing.call == call => Some(failing.how),
            _ => None,
        }
    }

    /// What the call of this reader read.
    pub(crate) fn put_read(&self, name: &str, read: &str) {
        if let Ok(mut text) = self.text.try_borrow_mut() {
            put_name(&mut text, name);
            text.put(read);
        }
    }

    /// What the call of this writer was given, and what became of it: how many bytes were taken, if not all.
    pub(crate) fn put_written(&self, name: &str, bytes: &[u8], taken: Option<usize>) {
        if let Ok(mut text) = self.text.try_borrow_mut() {
            put_name(&mut text, name);
            put_bytes(&mut text, bytes);
            match taken {
                Some(count) if count == bytes.len() => {}
                Some(count) => {
                    text.put("/");
                    text.great(count as u64);
                }
                None => text.put("/failed"),
            }
        }
    }

    /// Appends the calls.
    pub(crate) fn put(&self, out: &mut Answer) {
        if let Ok(text) = self.text.try_borrow() {
            out.put(text.as_str());
            if text.is_out_of_memory() {
                out.fail();
            }
        }
    }
}

fn put_name(text: &mut Answer, name: &str) {
    if !text.as_str().is_empty() {
        text.put(" ");
    }
    text.put(name);
    text.put(":");
}

/// Appends bytes in hexadecimal.
pub(crate) fn put_bytes(text: &mut Answer, bytes: &[u8]) {
    for byte in bytes {
        text.hexadecimal(*byte);
    }
}
