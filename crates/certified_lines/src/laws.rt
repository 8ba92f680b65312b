//! The laws of the rules of straight code, each the contract of a function that does nothing.

ghost use Rattle.certified_lines.specs.StraightRules.{StraightRulesFollow};
ghost use Rattle.certified_lines.specs.Instructions.{LeastWordIsKnown, ConstantsAreKnown, LoadedWordsAreKnown};
ghost use Rattle.certified_lines.specs.Instructions.{StoredWordsAreKnown, AddressesAreKnown, TablesAreKnown};
ghost use Rattle.certified_lines.specs.Instructions.{RegistersAreReversed, SumsWithConstantsAreKnown};
ghost use Rattle.certified_lines.specs.Instructions.{ComparedConstantsAreKnown, TurnedBitsAreKnown};
ghost use Rattle.certified_lines.specs.Instructions.{ResultsAreKnown, ShiftedWordsAreKnown};
ghost use Rattle.certified_lines.specs.Addresses.{FurtherAddressesAreKnown, SelectedWordsAreKnown};
ghost use Rattle.certified_lines.specs.Addresses.{SelectedBytesAreKnown, DistantWordsAreKnown};
ghost use Rattle.certified_lines.specs.Addresses.{DistantStoresAreKnown, LoadedBytesAreKnown, StoredBytesAreKnown};
ghost use Rattle.certified_lines.specs.Instructions.{WaitingIsKnownBelow};
ghost use Rattle.certified_lines.specs.Moving.{MovedBytesAreKnown};
ghost use Rattle.certified_lines.specs.MovingWords.{MovedWordsAreKnown};
ghost use Rattle.certified_lines.specs.Numbers.{ResultsLieInRanges, SumsLieInRanges, ComparisonsAreTruths};
ghost use Rattle.certified_lines.specs.Numbers.{TurnedBitsLieInRanges, ShiftsLieInRanges, GreaterWordsAreTold};
ghost use Rattle.certified_lines.specs.Numbers.{LesserWordsAreTold, EqualWordsAreTold, OppositesAreTold};
ghost use Rattle.certified_lines.specs.Numbers.{NothingIsToldFromNowhere};
ghost use Rattle.certified_lines.specs.Walking.{WalksReach, StraightPiecesWalk};
ghost use Rattle.certified_lines.specs.Arrays.{AnyOfNumbersIsOne, FullWordsStayFull, OtherWordsStay};
ghost use Rattle.certified_lines.specs.Arrays.{ElementsAreNumbers, SpansAreOfWords};
ghost use Rattle.certified_lines.specs.TellingLaws.{ScopesStay, ConstantsTell, ScalarsTell};
ghost use Rattle.certified_lines.specs.ElementLaws.{KnownWordsTell, WordsTell, KnownBytesTell, BytesTell};
ghost use Rattle.certified_lines.specs.ElementLaws.{KnownItemsTell, ItemsTell};
ghost use Rattle.certified_lines.specs.OperandLaws.{BothTell, OperationsTell, ArithmeticTells, ComparisonsTell};
ghost use Rattle.certified_lines.specs.OperandLaws.{PrefixesTell, FirstTwoTell, OneMoreTells};
ghost use Rattle.certified_lines.specs.ChainLaws.{TermsTell};
ghost use Rattle.certified_lines.specs.ExpressionLaws.{ExpressionsTell};
ghost use Rattle.certified_lines.specs.Jumps.{JumpsFork};
ghost use Rattle.certified_lines.specs.NarrowedScopes.{ChangedScopesHold, StoredScalarsAreHeld, TestedScopesHold};
ghost use Rattle.certified_lines.specs.TestLaws.{ComparisonsTest, SourcesAreForgotten, ChainsTellNothing};
ghost use Rattle.certified_lines.specs.TestLaws.{ComparisonsShowNothing, QuietTruthsNarrowNothing};

/// What is known after straight pieces, and after others from there, is what is known after both.
#[tactic(auto, using(crate::proofs::StraightRules::straight_rules_follow))]
pub fn rules_fall_together()
    ensures { StraightRulesFollow }
{}

/// Constants and words of the frame are known when they are pushed, and a word is known where A is stored in it.
#[tactic(auto, using(crate::proofs::Instructions::words))]
pub fn words_are_told()
    ensures least { LeastWordIsKnown }
    ensures constants { ConstantsAreKnown }
    ensures loaded { LoadedWordsAreKnown }
    ensures stored { StoredWordsAreKnown }
    ensures addresses { AddressesAreKnown }
    ensures tables { TablesAreKnown }
{}

/// Results of operators are known by the ranges of their operands, and where a comparison comes from.
#[tactic(auto, using(crate::proofs::Instructions::operators))]
pub fn operators_are_told()
    ensures reversed { RegistersAreReversed }
    ensures sums { SumsWithConstantsAreKnown }
    ensures compared { ComparedConstantsAreKnown }
    ensures turned { TurnedBitsAreKnown }
    ensures results { ResultsAreKnown }
    ensures shifted { ShiftedWordsAreKnown }
{}

/// What is read and left at an address that may lead to several words or bytes is known, and so is another address
/// that is made of it.
#[tactic(auto, using(crate::proofs::Addresses::addresses))]
pub fn addresses_are_told()
    ensures further { FurtherAddressesAreKnown }
    ensures words { SelectedWordsAreKnown }
    ensures bytes { SelectedBytesAreKnown }
    ensures loaded { DistantWordsAreKnown }
    ensures stored { DistantStoresAreKnown }
    ensures bytes_loaded { LoadedBytesAreKnown }
    ensures bytes_stored { StoredBytesAreKnown }
{}

/// What waited in a word is known below what is in A.
#[tactic(auto, using(crate::proofs::Instructions::waiting_is_known_below))]
pub fn waiting_is_told()
    ensures { WaitingIsKnownBelow }
{}

/// What bytes leave that are moved is known.
#[tactic(auto, using(crate::proofs::Moving::moved_bytes_are_known))]
pub fn moved_bytes_are_told()
    ensures { MovedBytesAreKnown }
{}

/// Words of the frame that are moved are any numbers where they come, and other words are known as before.
#[tactic(auto, using(crate::proofs::MovingWords::moved_words_are_known))]
pub fn moved_words_are_told()
    ensures { MovedWordsAreKnown }
{}

/// The results of operators of numbers in ranges lie in the range of the operation.
#[tactic(auto, using(crate::proofs::Numbers::results))]
pub fn results_lie_in_ranges()
    ensures results { ResultsLieInRanges }
    ensures sums { SumsLieInRanges }
    ensures compared { ComparisonsAreTruths }
    ensures turned { TurnedBitsLieInRanges }
    ensures shifted { ShiftsLieInRanges }
{}

/// A comparison of a word with a constant tells of the word, and so does its opposite.
pub fn comparisons_tell_of_words()
    ensures greater { GreaterWordsAreTold }
    ensures lesser { LesserWordsAreTold }
    ensures equal { EqualWordsAreTold }
    ensures opposite { OppositesAreTold }
    ensures nowhere { NothingIsToldFromNowhere }
{}

/// Where straight pieces lie in the code of a module, what reaches their beginning reaches their end, and there what
/// their rules leave is known.
#[tactic(auto, using(crate::proofs::Walking::walking))]
pub fn straight_pieces_walk()
    ensures reach { WalksReach }
    ensures walk { StraightPiecesWalk }
{}

/// Any of some words that are numbers in a range is one. Where a number may have been stored, a word that may be any
/// number stays so, and other words are known as before. A pointer to the words of the frame from one to another
/// reads any of them, and a store through it may change these.
#[tactic(auto, using(crate::proofs::Arrays::arrays))]
pub fn words_stay_known()
    ensures any { AnyOfNumbersIsOne }
    ensures full { FullWordsStayFull }
    ensures others { OtherWordsStay }
    ensures elements { ElementsAreNumbers }
    ensures spans { SpansAreOfWords }
{}

/// What a scope says of words stays known while the words before the first free one stay. A constant and a scalar
/// that are pushed have exactly the range that the scope says.
pub fn leaves_are_told()
    ensures stays { ScopesStay }
    ensures constants { ConstantsTell }
    ensures scalars { ScalarsTell }
{}

/// An element of an array that is pushed is any number of its type, and one of a table any that its row says.
pub fn elements_are_told()
    ensures known_words { KnownWordsTell }
    ensures words { WordsTell }
    ensures known_bytes { KnownBytesTell }
    ensures bytes { BytesTell }
    ensures known_items { KnownItemsTell }
    ensures items { ItemsTell }
{}

/// Two operands are pushed in order, or in any. What an operator makes of two numbers has exactly the range that it
/// has of theirs; what a comparison makes of them is 0 or 1.
pub fn operands_are_told()
    ensures both { BothTell }
    ensures operations { OperationsTell }
    ensures arithmetic { ArithmeticTells }
    ensures comparisons { ComparisonsTell }
    ensures prefixes { PrefixesTell }
{}

/// What a chain makes of its operands has the range that its operator has of theirs, from the left. Where its front
/// is a constant, that is pushed.
pub fn chains_are_told()
    ensures first { FirstTwoTell }
    ensures more { OneMoreTells }
    ensures whole { TermsTell }
{}

/// The code of a well typed expression breaks no rule. Where exactly that is known of the words of a scope which the
/// scope says, it leaves in A a number of which exactly the bound is known that the compiler has for it; of a
/// condition, that it is 0, 1 or either.
pub fn expressions_are_told()
    ensures expressions { ExpressionsTell }
{}

/// The code of a comparison of a scalar with a constant leaves a truth that narrows the word of the scalar as the
/// condition does its range, where it holds and where it does not. No other condition narrows a word of the scope:
/// one to whose truth 0 is added, a chain of conditions, and a comparison that may show nothing of a word.
pub fn conditions_are_told()
    ensures tests { ComparisonsTest }
    ensures others { SourcesAreForgotten }
    ensures chains { ChainsTellNothing }
    ensures comparisons { ComparisonsShowNothing }
    ensures quiet { QuietTruthsNarrowNothing }
{}

/// Where of the word of a scalar another range is known, a scope is held in which the scalar has that one, if no
/// other name has the word. So it is where a number is stored there, and so a scope is held that is narrowed by a
/// condition, where it holds and where it does not.
pub fn narrowed_scopes_are_held()
    ensures changed { ChangedScopesHold }
    ensures stored { StoredScalarsAreHeld }
    ensures tested { TestedScopesHold }
{}

/// A conditional jump breaks no rule where A is a number and the row where it leads knows as much or less. Where it
/// falls words are known as the truth in A shows them, and where it leads as its opposite does.
#[tactic(auto, using(crate::proofs::Jumps::jumps_fork))]
pub fn jumps_are_told()
    ensures { JumpsFork }
{}
