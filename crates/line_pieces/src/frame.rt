//! Which words names take.

ghost use Rattle.std.specs.Prelude.{◌≡◌, IfOk, take};
ghost use Rattle.occam_parser.specs.OneOrMore.{as_list, one_or_more_of};
ghost use Rattle.occam_parser.specs.LineViews.{spelling_of};
ghost use Rattle.line_pieces.specs.HomeViews.{home_seen, homes_seen};
ghost use Rattle.line_pieces.specs.Declarations.{with_home, with_words, with_block, with_names};
ghost use Rattle.line_pieces.specs.FrameViews.{frame_seen};

use crate::home::Home;
use crate::setting::word_after;
use code_pieces::RowEntry;
use occam_parser::OneOrMore;
use std::alloc::AllocError;

/// Where what names denote is kept, by the numbers of their declarations, and the first word that is free.
#[derive(Drop)]
pub struct Frame {
    pub homes: Vec<Home>,
    pub top: u32,
    /// What is known of the words of those that called the procedure.
    pub outer: Vec<RowEntry>,
}

impl Frame {
    /// One name more, which takes no words.
    pub fn add_home(&mut self, home: Home) -> Result<(), AllocError>
        ensures { IfOk result (λ _. frame_seen self.new ≡ with_home (home_seen home) (frame_seen self.old)) }
    {
        self.homes.push(home)?;
        Ok(())
    }

    /// One name more, which takes `count` words.
    pub fn add_words(&mut self, count: u32) -> Result<(), AllocError>
        ensures { IfOk result (λ _. frame_seen self.new ≡ with_words count (frame_seen self.old)) }
    {
        let next = word_after(self.top, count);
        self.homes.push(Home::Word(self.top))?;
        self.top = next;
        Ok(())
    }

    /// The index of a loop more, which takes two words. The head of the loop is at this label.
    pub fn add_block(&mut self, head: usize) -> Result<(), AllocError>
        ensures { IfOk result (λ _. frame_seen self.new ≡ with_block head (frame_seen self.old)) }
    {
        let next = word_after(self.top, 2);
        self.homes.push(Home::Block {
            word: self.top,
            head,
        })?;
        self.top = next;
        Ok(())
    }

    /// These names more, each of which takes `count` words.
    pub fn add_names(&mut self, count: u32, names: &OneOrMore<&[u8]>) -> Result<(), AllocError>
        ensures { IfOk result (λ _. frame_seen self.new
            ≡ with_names count (as_list (one_or_more_of spelling_of names.now)) (frame_seen self.old)) }
    {
        self.add_words(count)?;
        for _name in &names.others {
            self.add_words(count)?;
        }
        Ok(())
    }

    /// Leaves the names that came since there were `count`. Their words are free again.
    pub fn leave(&mut self, count: usize, top: u32)
        ensures homes { homes_seen self.new.homes.items ≡ take count (homes_seen self.old.homes.items) }
        ensures top { self.new.top ≡ top }
        ensures outer { self.new.outer ≡ self.old.outer }
    {
        self.homes.truncate(count);
        self.top = top;
    }
}
