//! The words that code takes.

ghost use Rattle.std.specs.Prelude.{◌≡◌, ◌≤◌};
ghost use Rattle.code_pieces.specs.PieceViews.{pieces_of};
ghost use Rattle.code_pieces.specs.Laying.{word_above, words_taken};

use crate::piece::Piece;
use prefix_decoder::Fun;

/// The words at a workspace: for the block of a PAR, or the selection of an alternation.
pub const WORKSPACE_WORDS: u32 = 2;

/// The greatest word. The bytes of as many words are still an operand.
pub const GREATEST_WORD: u32 = 536_870_911;

/// One above the word that an instruction names; 0 if it names none.
fn word_above(fun: Fun, operand: i32) -> u32
    ensures value { result ≡ word_above fun operand }
    ensures small { result ≤ 2_147_483_649 }
{
    match fun {
        Fun::LoadLocal | Fun::StoreLocal | Fun::LoadLocalPointer => operand.unsigned_abs() + 1,
        _ => 0,
    }
}

/// One above the highest word that code names or that is at a workspace.
pub fn words_taken(pieces: &[Piece]) -> u32
    ensures value { result ≡ words_taken (pieces_of pieces.now) }
    ensures small { result ≤ 2_147_483_650 }
{
    let mut words = WORKSPACE_WORDS;
    for piece in pieces {
        match *piece {
            Piece::Direct { fun, operand } => {
                words = words.max(word_above(fun, operand));
            }
            Piece::Within(workspace) => {
                words = words.max(workspace.depth.unsigned_abs() + WORKSPACE_WORDS);
            }
            _ => {}
        }
    }
    words
}
