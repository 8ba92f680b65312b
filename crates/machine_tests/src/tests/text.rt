//! What a test finds, as text.

use std::alloc::Global;
use std::fmt::Debug;
use std::process::Abort;

/// What a test finds, each value after a space.
#[derive(Drop)]
pub struct Found {
    text: String,
    /// Memory ran out, or something is not there.
    is_wrong: bool,
}

impl Found {
    pub fn new(alloc: Global) -> Self {
        Found {
            text: String::new(alloc),
            is_wrong: false,
        }
    }

    pub fn begin_line(&mut self) {
        if self.text.push('\n').is_err() {
            self.is_wrong = true;
        }
    }

    pub fn put<T: Debug + Copy>(&mut self, value: T) {
        if write!(self.text, " {value:?}").is_err() {
            self.is_wrong = true;
        }
    }

    /// Memory ran out, or something is not there: no check passes from now on.
    pub fn fail(&mut self) {
        self.is_wrong = true;
    }

    /// What was found; nothing where that is not all.
    fn all(&self) -> &str {
        if self.is_wrong {
            return "";
        }
        self.text.as_str()
    }

    /// Checks that this was found, and nothing else.
    pub fn check(&self, rt: &impl Abort, expected: &str) {
        assert_eq!(rt; self.all(), expected);
    }
}
