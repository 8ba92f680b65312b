//! What holds of the modules of pieces, each law the contract of a function that does nothing.

ghost use Rattle.std.specs.Prelude.{ℕ, List};
ghost use Rattle.code_pieces.specs.Pieces.{Piece};
ghost use Rattle.code_pieces.specs.Laying.{apart};
ghost use Rattle.code_pieces.specs.Laid.{IsModuleOf};
ghost use Rattle.code_pieces.specs.LaidModule.{Says};
ghost use Rattle.code_pieces.specs.SmallPar.{SmallParIsLaid};
ghost use Rattle.code_pieces.specs.SmallAlternation.{SmallAlternationIsLaid};

/// The module of pieces says what their definitions give: the code, the constants, the numbers and the rows.
pub fn modules_say_their_pieces()
    ensures { (ps : List Piece) (labels : ℕ) (links bytes : List ℕ) → IsModuleOf ps labels links bytes
        → Says (apart ps) labels links bytes }
{}

/// The modules of a small PAR and of a small alternation say what they should, byte by byte.
#[tactic(auto, using(crate::proofs::WorkedModules::worked_modules))]
pub fn small_modules_are_laid()
    ensures par { SmallParIsLaid }
    ensures alternation { SmallAlternationIsLaid }
{}
