//! What is around the places of a procedure.

use occam_parser::Body;
use std::alloc::{AllocError, Global};

/// What is around a place of a procedure.
#[derive(Clone, Copy)]
pub(crate) struct Around {
    /// The words of the names that are declared.
    pub(crate) words: u64,
    /// How many variables there are of which a row says something.
    pub(crate) variables: u64,
    /// How often it is written.
    pub(crate) written: u64,
    /// In how many turns of loops it is done.
    pub(crate) turns: u64,
    /// How often it is gone over for what a loop or a component changes.
    pub(crate) searched: u64,
    /// How many replicators there are.
    pub(crate) replicators: u64,
}

impl Around {
    /// Outside of all processes.
    const OUTSIDE: Around = Around {
        words: 0,
        variables: 0,
        written: 1,
        turns: 1,
        searched: 0,
        replicators: 0,
    };

    /// Names more, with so many words, of which so many are variables.
    pub(crate) fn with_names(self, words: u64, variables: u64) -> Around {
        Around {
            words: self.words.saturating_add(words),
            variables: self.variables.saturating_add(variables),
            ..self
        }
    }

    /// Each time that it is written, it is gone over so often for what is changed.
    pub(crate) fn with_searches(self, count: u64) -> Around {
        Around {
            searched: self
                .searched
                .saturating_add(self.written.saturating_mul(count)),
            ..self
        }
    }

    /// Under a replicator with so many turns: the body of a loop is written once, if it has turns.
    pub(crate) fn in_turns(self, body: &Body, count: u64) -> Around {
        let around = Around {
            replicators: self.replicators.saturating_add(1),
            ..self
        };
        match body {
            Body::Seq(_) => Around {
                written: self.written.saturating_mul(count.min(1)),
                turns: self.turns.saturating_mul(count),
                ..around.with_searches(1).with_names(0, 1)
            },
            Body::Par(_) => Around {
                written: self.written.saturating_mul(count),
                ..around.with_searches(count)
            },
            Body::If(_) | Body::Alt(_) => Around {
                written: self.written.saturating_mul(count),
                ..around
            },
        }
    }
}

/// From here on, inside of a process that is so deep, this is around.
#[derive(Clone, Copy)]
struct Inside {
    depth: u64,
    around: Around,
}

/// What is around a place, and around the processes that it is in.
#[derive(Drop)]
pub(crate) struct Nesting {
    inside: Vec<Inside>,
}

impl Nesting {
    /// Outside of all processes.
    pub(crate) fn new(alloc: Global) -> Nesting {
        Nesting {
            inside: Vec::new(alloc),
        }
    }

    /// What is around this place.
    pub(crate) fn here(&self) -> Around {
        match self.inside.last() {
            Some(inside) => inside.around,
            None => Around::OUTSIDE,
        }
    }

    /// Processes that are as deep as this, or deeper, have ended.
    pub(crate) fn leave(&mut self, depth: u64) {
        for _ in 0..self.inside.len() {
            match self.inside.last() {
                Some(inside) if inside.depth >= depth => {}
                _ => return,
            }
            self.inside.pop();
        }
    }

    /// From here on this is around, in the process that is so deep.
    pub(crate) fn enter(&mut self, depth: u64, around: Around) -> Result<(), AllocError> {
        self.inside.push(Inside { depth, around })?;
        Ok(())
    }
}
