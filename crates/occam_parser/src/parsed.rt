//! A program that was read.

ghost use Rattle.std.specs.Prelude.{◌≡◌, ◌≤◌, true, map};
ghost use Rattle.occam_parser.specs.BlockViews.{item_of};
ghost use Rattle.occam_parser.specs.Levels.{levels_of_items};
ghost use Rattle.occam_parser.specs.Words.{items_have_words};

use crate::tree::Item;

/// A program: constants and procedures in their order. Its lines are nested 64 levels deep at most. Each integer
/// literal is a word, and each character and each byte of a string is a byte.
#[derive(Drop)]
pub struct Program<'a> {
    items: Vec<Item<'a>>,
    ghost levels: { levels_of_items (map item_of items.items) ≤ 64 },
    ghost words: { items_have_words (map item_of items.items) ≡ true },
}

impl<'a> Program<'a> {
    /// The program with these items.
    pub(crate) fn new(items: Vec<Item<'a>>) -> Program<'a>
        requires levels { levels_of_items (map item_of items.items) ≤ 64 }
        requires words { items_have_words (map item_of items.items) ≡ true }
        ensures { result.items.items ≡ items.entry.items }
    {
        Program { items }
    }

    /// The items in their order.
    pub fn items(&self) -> &[Item<'a>]
        ensures items { result.now ≡ self.now.items.items }
        ensures levels { levels_of_items (map item_of result.now) ≤ 64 }
        ensures words { items_have_words (map item_of result.now) ≡ true }
    {
        &self.items
    }
}
