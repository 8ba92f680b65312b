//! The laws of code that is laid out, each the contract of a function that does nothing.
ghost use Rattle.placed_code.specs.Behaves.{BehavioursCompose};
ghost use Rattle.placed_code.specs.Closing.{RunsGoOn, PointsComeToBe, StopsComeToBe, SendsComeToBe};
ghost use Rattle.placed_code.specs.Closing.{ReceivesComeToBe, BehavioursClose, LaidCodeIsOfItsModule, RunsBegin};
ghost use Rattle.placed_code.specs.Closing.{LaidModulesFinish};
ghost use Rattle.placed_code.specs.Instructions.{ItemsAreFetched};
ghost use Rattle.placed_code.specs.LaidCode.{PiecesLie};
ghost use Rattle.placed_code.specs.NumbersCover.{PiecesTakeTheirBytes, LabelsKeepTheirNumbers, NumbersCover};
ghost use Rattle.placed_code.specs.OneProcess.{RootHasItsWords, RootHasItsLinks, TablesAreRows, WalkBegins};
ghost use Rattle.placed_code.specs.Points.{PiecesGo, PointsAreComeTo};
ghost use Rattle.placed_code.specs.RowsFound.{RowsKeepTheirOrder, RowsAreFound, NoRowIsElsewhere};
ghost use Rattle.placed_code.specs.RowsFound.{NoRowIsBeforeOthers, NoRowIsInside};
ghost use Rattle.placed_code.specs.SaidWords.{WordsAreSaid};
ghost use Rattle.placed_code.specs.StraightPieces.{StraightPiecesFollow};
ghost use Rattle.placed_code.specs.TablesInMemory.{TablesAreLoaded, TablesStay};

/// The instructions of each item of a draft are fetched where the item begins, one after the other.
pub fn items_are_fetched()
    ensures { ItemsAreFetched }
{}

/// What pieces lead to, and what others lead to from there, is what both lead to, one after the other.
pub fn straight_pieces_follow()
    ensures { StraightPiecesFollow }
{}

/// Where a module says its pieces, they lie in its code: their instructions are fetched one after the other, and lead
/// to where labels and tables are.
pub fn pieces_lie()
    ensures { PiecesLie }
{}

/// Where they lie, straight pieces go to what they lead to, jumps and tests to their labels, and the end of a turn to
/// the head of its loop while turns are left.
pub fn pieces_go()
    ensures { PiecesGo }
{}

/// On the plain machine the bytes of instructions that ask nothing of others lead from point to point.
pub fn points_are_come_to()
    ensures { PointsAreComeTo }
{}

/// What code makes a process do, and then what more code does, is what one does after the other. So are turns, and
/// instructions before that ask nothing of others.
pub fn behaviours_compose()
    ensures { BehavioursCompose }
{}

/// A run of an accepted module in which one process is all goes on to the points to which its instructions lead, and
/// turns that follow a run are more of it.
pub fn points_come_to_be()
    ensures points { PointsComeToBe }
    ensures runs { RunsGoOn }
{}

/// Where it stops, the run is over.
pub fn stops_come_to_be()
    ensures { StopsComeToBe }
{}

/// Where it sends a message, that goes out: if something listens the process goes on, and otherwise the run is over.
pub fn sends_come_to_be()
    ensures { SendsComeToBe }
{}

/// Where it receives a message, its bytes come in turn, and the process goes on; or the run is over once the link has
/// no more.
pub fn receives_come_to_be()
    ensures { ReceivesComeToBe }
{}

/// What code makes the only process do comes to be over links: the run comes to where the code leaves an environment,
/// or is over where the tree of what it does waits.
pub fn behaviours_close()
    ensures { BehavioursClose }
{}

/// The code of pieces is that of the module that says them, and a run of a module begins at its first byte.
pub fn runs_begin()
    ensures code { LaidCodeIsOfItsModule }
    ensures begins { RunsBegin }
{}

/// The module that says pieces finishes at the end of its code, as the laws on where a run stops ask.
pub fn modules_finish()
    ensures { LaidModulesFinish }
{}

/// The memory of a loaded module has each table that its pieces read, at the address that they make and behind the
/// frame. So it stays there while only the frame changes.
pub fn tables_are_loaded()
    ensures loaded { TablesAreLoaded }
    ensures stay { TablesStay }
{}

/// The label rows of a module of pieces are in the order of the pieces that say them. Each is found at its label, and
/// none elsewhere: not where an item begins that no such piece is right before, and not inside an item.
pub fn rows_are_found()
    ensures order { RowsKeepTheirOrder }
    ensures found { RowsAreFound }
    ensures elsewhere { NoRowIsElsewhere }
    ensures between { NoRowIsBeforeOthers }
    ensures inside { NoRowIsInside }
{}

/// A label row says of words what its piece says, though neighbours with one range share an entry.
pub fn words_are_said()
    ensures { WordsAreSaid }
{}

/// A piece takes the bytes between where its items begin and end, and a label has the number that is needed after its
/// row: by all pieces the same as by those from any before the row on.
pub fn labels_keep_their_numbers()
    ensures bytes { PiecesTakeTheirBytes }
    ensures labels { LabelsKeepTheirNumbers }
{}

/// A number that is at least what is needed from a piece on pays for it, and covers what is needed after it and the row
/// of a label to which it leads; at the head of a loop its turns too, and at the end of a turn the next one.
pub fn numbers_cover()
    ensures { NumbersCover }
{}

/// The root of a module of pieces without PARs may write and read each word of its frame, and has the ends of the links
/// that take messages. The tables say that an instruction starts where there is a row, and nowhere else; and the walk
/// of the verifier begins at the first byte with nothing known.
pub fn walks_begin()
    ensures words { RootHasItsWords }
    ensures links { RootHasItsLinks }
    ensures tables { TablesAreRows }
    ensures begins { WalkBegins }
{}
