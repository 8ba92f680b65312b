//! What is around an expression.

ghost use Rattle.std.specs.Prelude.{◌≡◌, option_map};
ghost use Rattle.code_pieces.specs.Pieces.{word_after};
ghost use Rattle.line_pieces.specs.HomeViews.{home_seen};
ghost use Rattle.line_pieces.specs.Homes.{home_of};
ghost use Rattle.line_pieces.specs.SettingViews.{entries_in, homes_in};

use crate::home::Home;
use code_pieces::GREATEST_WORD;
use scalar_ranges::Scope;

/// What is around an expression: what is known of names, where what they denote is kept, and which words are free.
#[derive(Clone, Copy)]
pub struct Setting<'s, 'a> {
    pub scope: &'s Scope<'a>,
    /// By the number of its declaration, where what a name denotes is kept.
    pub homes: &'s [Home],
    /// The first word that is free, as are all words after it.
    pub top: u32,
}

impl<'s, 'a> Setting<'s, 'a> {
    /// Where what a name denotes is kept, if it is declared.
    pub fn home(self, name: &[u8]) -> Option<&'s Home>
        ensures { option_map (λ h. home_seen h.now) result
            ≡ home_of (homes_in self.entry) (entries_in self.entry) name.now }
    {
        match self.scope.find(name) {
            Some(number) => self.homes.get(number),
            None => None,
        }
    }

    /// Where the first word that is free is taken.
    pub(crate) fn above(self) -> Setting<'s, 'a>
        ensures scope { result.scope ≡ self.entry.scope }
        ensures homes { result.homes ≡ self.entry.homes }
        ensures top { result.top ≡ word_after self.entry.top 1 }
    {
        Setting {
            top: word_after(self.top, 1),
            ..self
        }
    }
}

/// The word `count` words after another one, as far as words are counted.
#[tactic(auto, unfolding(code_pieces::specs::Pieces::word_after, code_pieces::specs::Pieces::counted))]
pub fn word_after(word: u32, count: u32) -> u32
    ensures { result ≡ word_after word count }
{
    word.saturating_add(count).min(GREATEST_WORD)
}
