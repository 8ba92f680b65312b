//! The laws of the code of programs, each the contract of a function that does nothing.

ghost use Rattle.meant_code.specs.AmongOthers.{PiecesLead, WordsAreTaken, ApartTakesNoMore, PartsAreApart};
ghost use Rattle.meant_code.specs.AmongOthers.{PartsStayParts};
ghost use Rattle.meant_code.specs.NumbersStay.{NumbersStay};
ghost use Rattle.meant_code.specs.OwnCode.{ProcessesAreOwn, ProgramsAreOwn, LabelsStayOnce, ProgramsHaveParts};

/// The labels from the one at which a process begins up to those that it leaves free are each placed once in its
/// pieces, and no other is. So it is of programs, also where rows are kept apart.
pub fn labels_are_placed()
    ensures processes { ProcessesAreOwn }
    ensures programs { ProgramsAreOwn }
    ensures once { LabelsStayOnce }
{}

/// What a piece of a program jumps to is after it, and the end of a turn goes back to a head before it.
pub fn pieces_lead()
    ensures { PiecesLead }
{}

/// The number of a label of a program is the same from any piece before it on.
pub fn numbers_stay()
    ensures { NumbersStay }
{}

/// Pieces of a program whose constants are words are a part of it, at the workspace of the root. They are so if rows
/// are kept apart afterwards, which goes part by part.
pub fn programs_have_parts()
    ensures parts { ProgramsHaveParts }
    ensures apart { PartsAreApart }
    ensures stay { PartsStayParts }
{}

/// Code takes the words that its pieces name, and no more of them where its rows are kept apart.
pub fn words_are_taken()
    ensures taken { WordsAreTaken }
    ensures apart { ApartTakesNoMore }
{}
