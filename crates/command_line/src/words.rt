//! The words of the command line, one by one, so that a word that is no text can be named.

use std::alloc::{AllocError, AllocFailed};
use std::env::FillError;
use std::rt::Env;
use std::{env, io};
use thiserror::Error;

/// Why the words of the command line cannot be read.
#[derive(Debug, Drop, Error)]
pub enum WordFault {
    #[error("out of memory")]
    OutOfMemory,
    /// The word at a position is not UTF-8. The name of the program is word 0.
    #[error("word {position} of the command line is no text")]
    NoText { position: usize },
}

impl From<AllocError> for WordFault {
    fn from(_error: AllocError) -> Self {
        WordFault::OutOfMemory
    }
}

impl<T: Drop> From<AllocFailed<T>> for WordFault {
    fn from(_failed: AllocFailed<T>) -> Self {
        WordFault::OutOfMemory
    }
}

/// A command line with one word, the one at a position of another.
#[derive(Drop)]
struct OneWord<'r, R> {
    words: &'r R,
    position: usize,
}

impl<R: Env> Env for OneWord<'_, R> {
    fn arg(&self, i: usize, buf: &mut [u8]) -> Result<usize, FillError> {
        if i == 0 {
            self.words.arg(self.position, buf)
        } else {
            Err(FillError::NotPresent)
        }
    }

    fn var(&self, name: &str, buf: &mut [u8]) -> Result<usize, FillError> {
        self.words.var(name, buf)
    }

    fn var_at(&self, i: usize, buf: &mut [u8]) -> Result<usize, FillError> {
        self.words.var_at(i, buf)
    }
}

/// The word at a position, if there is one.
fn text_at<R: Env + AllocGlobal>(rt: &R, position: usize) -> Result<Option<String>, WordFault> {
    let word = OneWord {
        words: rt,
        position,
    };
    match env::args(&(word, rt.alloc())) {
        Ok(mut words) => Ok(words.next()),
        Err(error) if error.kind() == io::ErrorKind::OutOfMemory => Err(WordFault::OutOfMemory),
        Err(_) => Err(WordFault::NoText { position }),
    }
}

/// The words, the name of the program first.
pub fn texts<R: Env + AllocGlobal>(rt: &R) -> Result<Vec<String>, WordFault> {
    let mut texts = Vec::new(rt.alloc());
    for position in 0..usize::MAX {
        match text_at(rt, position)? {
            Some(text) => texts.push(text)?,
            None => break,
        }
    }
    Ok(texts)
}
