//! The laws of pieces that pass, each the contract of a function that does nothing.

ghost use Rattle.certified_modules.specs.RowsSay.{RowsTellTheirEntries, RowsTellNothingElse, ImplyingIsOfEntries};
ghost use Rattle.certified_modules.specs.RowsSay.{LoopsAreEnteredAmongOthers, RowsStayImplied};
ghost use Rattle.certified_modules.specs.RootRows.{RowsSayTheirPieces, ImpliedRowsAreBelow, EnteredRowsAreBelow};
ghost use Rattle.certified_modules.specs.PassingLaws.{MoreLabelsMayBeOpen, PiecesPassApart};
ghost use Rattle.certified_modules.specs.Shapes.{RowsPass, StopsPass, TestsPass, ChoicesPass, LoopsPass};
ghost use Rattle.certified_modules.specs.Ways.{WaysCertify};
ghost use Rattle.certified_modules.specs.Certifying.{PassedModulesAreCertified, PiecesKeptApartAreCertified};
ghost use Rattle.certified_modules.specs.SmallPieces.{SmallPiecesPass};

/// A row tells of each word what its entries say of it. What implies a row implies each of its entries, and does so as
/// long as their words stay; and a loop is entered whose block is among them.
pub fn rows_tell()
    ensures entries { RowsTellTheirEntries }
    ensures others { RowsTellNothingElse }
    ensures parts { ImplyingIsOfEntries }
    ensures stay { RowsStayImplied }
    ensures entered { LoopsAreEnteredAmongOthers }
{}

/// A row of the root says what its piece says. What implies it may go on there for its number, and what enters a loop
/// may go on at the head for the weight of each turn but the first too.
pub fn rows_are_implied()
    ensures says { RowsSayTheirPieces }
    ensures implied { ImpliedRowsAreBelow }
    ensures entered { EnteredRowsAreBelow }
{}

/// Pieces that pass do so where more labels are further on, and once their rows are kept apart.
pub fn pieces_pass()
    ensures more { MoreLabelsMayBeOpen }
    ensures apart { PiecesPassApart }
{}

/// Rows, tests, choices and loops pass in the shapes in which a compiler writes them, where their parts pass.
pub fn shapes_pass()
    ensures rows { RowsPass }
    ensures stops { StopsPass }
    ensures tests { TestsPass }
    ensures choices { ChoicesPass }
    ensures loops { LoopsPass }
{}

/// A module is certified over whose code a way leads on which no rule is broken.
pub fn ways_are_certified()
    ensures { WaysCertify }
{}

/// Where the pieces of one process pass, from nothing known to where nothing goes on, the module that says them is
/// certified, and so it is once their rows are kept apart.
pub fn passed_modules_are_certified()
    ensures passed { PassedModulesAreCertified }
    ensures apart { PiecesKeptApartAreCertified }
{}

/// The pieces of a small loop pass, with a test behind it.
pub fn small_pieces_pass()
    ensures { SmallPiecesPass }
{}
