//! What holds of all sources, each law the contract of a function that does nothing.

ghost use Rattle.std.specs.Prelude.{List, ℕ};
ghost use Rattle.occam_layout.specs.Reading.{Row};
ghost use Rattle.occam_layout.specs.Tokens.{IsSource};
ghost use Rattle.occam_layout.specs.Pieces.{ArePieces, tokens_of};

/// Nothing of a source is dropped: put together, the tokens of its lines and the spaces, line feeds and
/// comments between them are the source.
pub fn nothing_is_dropped()
    ensures { (source : List ℕ) (rows : List Row) → IsSource source rows → ArePieces 0 source (tokens_of rows) }
{}
