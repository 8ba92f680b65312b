//! The laws of valid modules, each the contract of a function that does nothing.

ghost use Rattle.valid_code.specs.Numbers.{BoundsHaveNumbers, MovesKeepNumbers};
ghost use Rattle.valid_code.specs.Refused.{ProgramsAreNotRefused, ProgramsAreMade};
ghost use Rattle.valid_code.specs.RowsInTurn.{RowsAreInTurn};
ghost use Rattle.valid_code.specs.RowsSaid.{RowsAreSaid};
ghost use Rattle.valid_code.specs.ValidDrafts.{DraftsAreValid, SequentialDraftsAreValid};
ghost use Rattle.valid_code.specs.ValidModules.{RowsAreApart, ModulesAreValid, PiecesAreSaid};
ghost use Rattle.valid_code.specs.WholeDrafts.{CodeIsComplete, DraftsAreWhole, SequentialDraftsAreWhole};
ghost use Rattle.valid_code.specs.WellFormed.{ProgramsAreWellFormed, OperandsAreWords};
ghost use Rattle.valid_code.specs.ValidPrograms.{ProgramsAreValid, SequentialModulesAreValid};

/// A module of valid pieces keeps the rules of the format, if no number of it is above a limit, and so has a file. In
/// any pieces, rows that are kept apart are so.
pub fn modules_are_valid()
    ensures apart { RowsAreApart }
    ensures valid { ModulesAreValid }
    ensures said { PiecesAreSaid }
{}

/// In the code of a sequential program each row is of words in turn, all of which the code takes. If the program breaks
/// no rule, a file can say what they say.
pub fn rows_say_words()
    ensures turn { RowsAreInTurn }
    ensures said { RowsAreSaid }
{}

/// The pieces of a sequential program that breaks no rule are valid, and so its module keeps the rules of the format,
/// if the values of its tables are words.
pub fn programs_are_valid()
    ensures pieces { ProgramsAreValid }
    ensures modules { SequentialModulesAreValid }
{}

/// The draft that valid pieces are laid out as is not invalid, and so neither is that of such a program.
pub fn drafts_are_valid()
    ensures pieces { DraftsAreValid }
    ensures programs { SequentialDraftsAreValid }
{}

/// What pieces are laid out as refers to no label that is placed nowhere, if there are no PARs among them and they name
/// no label but their own, and so does what such a program is laid out as.
pub fn drafts_are_whole()
    ensures code { CodeIsComplete }
    ensures pieces { DraftsAreWhole }
    ensures programs { SequentialDraftsAreWhole }
{}

/// Each label that such a program names is placed in it, there is no workspace but that of the root, and its rows are of
/// words that a frame may have. Its operands are words, if its constants are.
pub fn programs_are_well_formed()
    ensures whole { ProgramsAreWellFormed }
    ensures operands { OperandsAreWords }
{}

/// No draft of the pieces of such a program is refused for a label that is placed nowhere or for tables that are not
/// valid, if the values of its tables are words. So its pieces are not invalid.
pub fn programs_are_not_refused()
    ensures refused { ProgramsAreNotRefused }
    ensures made { ProgramsAreMade }
{}

/// Where the range of each name has numbers, so has that of an expression, and each move of the walk over a sequential
/// process keeps that.
pub fn numbers_are_kept()
    ensures bounds { BoundsHaveNumbers }
    ensures moves { MovesKeepNumbers }
{}
