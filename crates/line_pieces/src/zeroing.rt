//! Writing the code that sets to 0 what is declared.

ghost use Rattle.std.specs.Prelude.{◌≡◌, ◌++◌, ◌-◌, IfOk};
ghost use Rattle.occam_parser.specs.LineViews.{any_of};
ghost use Rattle.line_pieces.specs.Declarations.{spread, zero_array, zero_scalar, zero_code};

use crate::listing::Listing;
use crate::setting::word_after;
use occam_parser::Expr;
use std::alloc::AllocError;

impl Listing {
    /// The first of some words is 0. It is moved to those after it until all of them are.
    fn write_spread(&mut self, word: u32, count: u32) -> Result<(), AllocError>
        ensures { IfOk result (λ _. self.new ≡ self.old ++ spread (count - 1) word count 1) }
    {
        let mut done: u32 = 1;
        while done < count {
            let more = done.min(count - done);
            self.write_moves(more, word, word_after(word, done))?;
            done += more;
        }
        Ok(())
    }

    /// The words of an array, from the first one on.
    fn write_zero_array(&mut self, word: u32, count: u32) -> Result<(), AllocError>
        ensures { IfOk result (λ _. self.new ≡ self.old ++ zero_array word count) }
    {
        let temporary = word_after(word, count);
        self.constant(0)?;
        self.store(temporary)?;
        self.write_moves(1, temporary, word)?;
        self.write_spread(word, count)
    }

    /// What one name denotes, by its first word.
    pub fn write_zero(
        &mut self,
        size: &Option<Expr>,
        word: u32,
        count: u32,
    ) -> Result<(), AllocError>
        ensures { IfOk result (λ _. self.new ≡ self.old ++ zero_code (any_of size.now) word count) }
    {
        match size {
            None => {
                self.constant(0)?;
                self.store(word)
            }
            Some(_) => self.write_zero_array(word, count),
        }
    }
}
