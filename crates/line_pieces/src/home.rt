//! Where what names denote is kept while a program runs.

ghost use Rattle.std.specs.Prelude.{◌≡◌, IfOk, take};
ghost use Rattle.line_pieces.specs.HomeViews.{home_seen, homes_seen};

use std::alloc::{AllocError, Global};
use std::rc::Rc;

/// Where what a name denotes is kept. Words are those of the frame, from 0 on.
#[derive(Drop)]
pub enum Home {
    /// It has no place: a constant, or a procedure.
    Nowhere,
    /// The word of a scalar or a channel, or the first word of an array.
    Word(u32),
    /// The index of a loop is the first of two words. `head` is the number of the label at the loop's head.
    Block { word: u32, head: usize },
    /// A link: 0 to 3 are the links out, and 4 to 7 the links in.
    Link(u8),
    /// A table of the constants, with a word for each value.
    Table(Rc<Vec<i32>>),
    /// In a procedure, the word of a variable or a channel that is passed to it, or the first word of an array.
    Passed(u32),
}

impl Home {
    /// The same place.
    pub fn copy(&self) -> Result<Home, AllocError>
        ensures { IfOk result (λ h. home_seen h ≡ home_seen self.now) }
    {
        match self {
            Home::Nowhere => Ok(Home::Nowhere),
            Home::Word(word) => Ok(Home::Word(*word)),
            Home::Block { word, head } => Ok(Home::Block {
                word: *word,
                head: *head,
            }),
            Home::Link(number) => Ok(Home::Link(*number)),
            Home::Table(values) => Ok(Home::Table(Rc::clone(values)?)),
            Home::Passed(word) => Ok(Home::Passed(*word)),
        }
    }
}

/// The places of the `count` outermost names.
pub fn outermost_homes(alloc: Global, homes: &[Home], count: usize) -> Result<Vec<Home>, AllocError>
    ensures { IfOk result (λ hs. homes_seen hs.items ≡ take count (homes_seen homes.now)) }
{
    let mut outermost = Vec::new(alloc);
    for number in 0..count.min(homes.len()) {
        outermost.push(homes[number].copy()?)?;
    }
    Ok(outermost)
}
