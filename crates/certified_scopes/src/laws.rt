//! The laws of scopes that move, each the contract of a function that does nothing.

ghost use Rattle.certified_scopes.specs.Beside.{MoreWordsAreInTurn, RisingHomesAreInTurn, ScalarsAreBeside};
ghost use Rattle.certified_scopes.specs.Kept.{NewNamesAreHeld, BlocksAreHeld, DeclaredNamesAreHeld};
ghost use Rattle.certified_scopes.specs.Kept.{EndedLoopsAreHeld, LeftScopesAreHeld};
ghost use Rattle.certified_scopes.specs.Settled.{BeginningsAreSettled, WordlessNamesAreSettled};
ghost use Rattle.certified_scopes.specs.Settled.{DeclarationsAreSettled, BlocksAreSettled, MovedScopesAreSettled};
ghost use Rattle.certified_scopes.specs.Settled.{LinksAreSettled, BareScopesAreHeld, IndicesHaveTurns};
ghost use Rattle.certified_scopes.specs.Within.{IndicesStay, ScopesLieWithin, ExcludedIsNarrowed};
ghost use Rattle.certified_scopes.specs.Processes.{IndicesAreKept, ProcessesLeaveScopesSettled, TurnsLieWithin};
ghost use Rattle.certified_scopes.specs.Processes.{ChoicesLieWithin, ChoicesBeginFurther, NamesAreKept};
ghost use Rattle.certified_scopes.specs.Processes.{SameNamesAreSettled};

/// The words of names are in turn where homes rise, and stay so with a further word that is free. So no other name has
/// the word of a scalar.
pub fn words_are_in_turn()
    ensures more { MoreWordsAreInTurn }
    ensures rising { RisingHomesAreInTurn }
    ensures beside { ScalarsAreBeside }
{}

/// What a scope says of words is known with a name more, of whose words that is known which it says: as the index of a
/// loop, and the names of a declaration. It is known of the names outside where a scope is left.
pub fn scopes_are_held()
    ensures names { NewNamesAreHeld }
    ensures blocks { BlocksAreHeld }
    ensures declared { DeclaredNamesAreHeld }
    ensures ended { EndedLoopsAreHeld }
    ensures left { LeftScopesAreHeld }
{}

/// Homes are in turn in words that may be read, and ranges are of words: where there is no name yet, with a name more,
/// and where ranges move.
pub fn scopes_are_settled()
    ensures beginnings { BeginningsAreSettled }
    ensures wordless { WordlessNamesAreSettled }
    ensures declarations { DeclarationsAreSettled }
    ensures blocks { BlocksAreSettled }
    ensures moved { MovedScopesAreSettled }
    ensures links { LinksAreSettled }
    ensures bare { BareScopesAreHeld }
    ensures turns { IndicesHaveTurns }
{}

/// Moves leave the ranges of indices as they are, and what they leave of a scope lies within what it was.
/// Where a choice was not taken, that is known of the names around which is known where the further ones begin.
pub fn scopes_lie_within_others()
    ensures indices { IndicesStay }
    ensures within { ScopesLieWithin }
    ensures excluded { ExcludedIsNarrowed }
{}

/// A sequential process leaves the ranges of the indices around it as they are, and the scope settled, if ranges are of
/// words. Where a turn of a loop ends, what is known lies within what is known at its head; and at the end of a choice,
/// within what is known after all of them.
pub fn processes_leave_scopes()
    ensures indices { IndicesAreKept }
    ensures settled { ProcessesLeaveScopesSettled }
    ensures turns { TurnsLieWithin }
    ensures choices { ChoicesLieWithin }
    ensures further { ChoicesBeginFurther }
    ensures names { NamesAreKept }
    ensures same { SameNamesAreSettled }
{}
