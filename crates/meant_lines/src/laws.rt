//! The laws of what the code of lines does, each the contract of a function that does nothing.

ghost use Rattle.meant_lines.specs.Words.{OperandsNameWords, WordsHavePlaces, BytesHavePlaces, AddressesMoveTwice};
ghost use Rattle.meant_lines.specs.Words.{ElementsHaveAddresses, AddressesReadBack};
ghost use Rattle.meant_lines.specs.Words.{WordsAreCounted, OtherWordsStay, FrameWordsReadBack};
ghost use Rattle.meant_lines.specs.Instructions.{LeastWordIsPushed, ConstantsArePushed, WordsAreLoaded};
ghost use Rattle.meant_lines.specs.Instructions.{WordsAreStored, AddressesArePushed, TablesArePushed};
ghost use Rattle.meant_lines.specs.Instructions.{AddressesMoveOn, DistantWordsAreLoaded, DistantWordsAreStored};
ghost use Rattle.meant_lines.specs.Instructions.{BytesAreLoaded, BytesAreStored, WordsAreSelected};
ghost use Rattle.meant_lines.specs.Instructions.{BytesAreSelected, BytesAreMoved, RegistersAreReversed};
ghost use Rattle.meant_lines.specs.Instructions.{ConstantsAreAdded, ConstantsAreCompared, BitsAreTurned};
ghost use Rattle.meant_lines.specs.Instructions.{OperationsAreComputed, WordsAreShifted, OperandsNameOperations};
ghost use Rattle.meant_lines.specs.Instructions.{WaitingIsPushedBelow, WordsAreMoved};
ghost use Rattle.meant_lines.specs.CarryingLaws.{NamesAreKept, HomesEndBefore, OuterWordsStay, OneNameChanges};
ghost use Rattle.meant_lines.specs.CarryingLaws.{HomesAreInside, SameShapesCarry};
ghost use Rattle.meant_lines.specs.CarryingLaws.{ScalarsAreCarried, ElementsAreCarried, BytesAreCarried};
ghost use Rattle.meant_lines.specs.PushingLaws.{ConstantsPush, ScalarsPush, KnownWordsPush, WordsPush};
ghost use Rattle.meant_lines.specs.PushingLaws.{KnownBytesPush, BytesPush, KnownItemsPush, ItemsPush};
ghost use Rattle.meant_lines.specs.OperatorLaws.{BothPush, OperationsPush, ArithmeticPushes, ComparisonsPush};
ghost use Rattle.meant_lines.specs.OperatorLaws.{PrefixesPush, ChainsCompute, TruthsAreJoined, FirstTwoPush};
ghost use Rattle.meant_lines.specs.OperatorLaws.{OneMorePushes};
ghost use Rattle.meant_lines.specs.ChainLaws.{TermsPush};
ghost use Rattle.meant_lines.specs.ExpressionLaws.{NumbersArePushed, ConditionsArePushed, SubscriptsArePushed};
ghost use Rattle.meant_lines.specs.ExpressionLaws.{TestsArePushed};
ghost use Rattle.meant_lines.specs.Pushing.{CodeStoresWithin, PartsStand};
ghost use Rattle.meant_lines.specs.Housing.{DeclaredHomesRise, BlocksRise, MoreWordsRise};
ghost use Rattle.meant_lines.specs.Zeroing.{ScalarsAreZeroed, ArraysAreZeroed};
ghost use Rattle.meant_lines.specs.Opening.{DeclarationsAreCarried, BlocksAreCarried, OutermostAreCarried};
ghost use Rattle.meant_lines.specs.Opening.{OtherTurnsAreCarried, BeginningsAreCarried, WordlessNamesAreCarried};
ghost use Rattle.meant_lines.specs.Declaring.{NewNamesAreCarried, ZeroScalarsAreKept, ZeroArraysAreKept};

/// Each word of the frame has its own place in memory, and the operand that names it at any workspace of the frame
/// leads there. What is written in a word is read there, and other words stay.
#[tactic(auto, using(crate::proofs::Words::frame_words))]
pub fn frame_words_stay()
    ensures operands { OperandsNameWords }
    ensures places { WordsHavePlaces }
    ensures bytes { BytesHavePlaces }
    ensures elements { ElementsHaveAddresses }
    ensures registers { AddressesReadBack }
    ensures twice { AddressesMoveTwice }
    ensures counted { WordsAreCounted }
    ensures kept { OtherWordsStay }
    ensures back { FrameWordsReadBack }
{}

/// Instructions push constants, words of the frame, and the addresses of words and of tables. What is in A is stored in
/// a word of the frame.
#[tactic(auto, using(crate::proofs::Instructions::pushing))]
pub fn words_are_pushed()
    ensures least { LeastWordIsPushed }
    ensures constants { ConstantsArePushed }
    ensures loaded { WordsAreLoaded }
    ensures stored { WordsAreStored }
    ensures addresses { AddressesArePushed }
    ensures tables { TablesArePushed }
{}

/// Words and bytes are loaded from the address in A, stored there and moved, and subscripts select them.
#[tactic(auto, using(crate::proofs::Instructions::addressing))]
pub fn addresses_are_used()
    ensures further { AddressesMoveOn }
    ensures loaded { DistantWordsAreLoaded }
    ensures stored { DistantWordsAreStored }
    ensures bytes { BytesAreLoaded }
    ensures bytes_stored { BytesAreStored }
    ensures selected { WordsAreSelected }
    ensures bytes_selected { BytesAreSelected }
    ensures moved { BytesAreMoved }
{}

/// Operators put their result in the place of their operands. The code of each is that of the operation.
#[tactic(auto, using(crate::proofs::Instructions::operating))]
pub fn operators_are_computed()
    ensures reversed { RegistersAreReversed }
    ensures added { ConstantsAreAdded }
    ensures compared { ConstantsAreCompared }
    ensures turned { BitsAreTurned }
    ensures computed { OperationsAreComputed }
    ensures shifted { WordsAreShifted }
    ensures named { OperandsNameOperations }
{}

/// What waited in a word is pushed below what is in A, and words of the frame are moved.
#[tactic(auto, using(crate::proofs::Instructions::together))]
pub fn instructions_follow()
    ensures below { WaitingIsPushedBelow }
    ensures moved { WordsAreMoved }
{}

/// Where memory carries the environment of a scope, what a name holds is in the home that code finds for it. It stays
/// there while code changes words from the first one on that is free. Where words of one home change, memory carries
/// the environment in which its name holds what is there. What is known of ranges does not matter.
#[tactic(auto, using(crate::proofs::Carrying::carrying))]
pub fn names_are_carried()
    ensures kept { NamesAreKept }
    ensures before { HomesEndBefore }
    ensures inside { HomesAreInside }
    ensures stays { OuterWordsStay }
    ensures changes { OneNameChanges }
    ensures shapes { SameShapesCarry }
{}

/// A number that is stored in a scalar's word, in the word of an INT or in the byte of a BYTE of an array leaves memory
/// that carries the environment after the store.
pub fn stores_are_carried()
    ensures scalars { ScalarsAreCarried }
    ensures elements { ElementsAreCarried }
    ensures bytes { BytesAreCarried }
{}

/// Where memory carries the environment of a scope, the code of a constant, of a scalar and of an element pushes what
/// the name holds. Of an element whose subscript has no single value, the code of the subscript pushes that.
pub fn leaves_and_elements_are_pushed()
    ensures constants { ConstantsPush }
    ensures scalars { ScalarsPush }
    ensures known_words { KnownWordsPush }
    ensures words { WordsPush }
    ensures known_bytes { KnownBytesPush }
    ensures bytes { BytesPush }
    ensures known_items { KnownItemsPush }
    ensures items { ItemsPush }
{}

/// The code of two operands pushes both, where the code of each pushes its value, and with an operation behind it their
/// result. Where the first one waits in a temporary, it is still there behind the second one. So the code of an
/// operator between two numbers pushes its value, also where a constant is added in place of the one that is
/// subtracted.
pub fn operands_are_pushed()
    ensures both { BothPush }
    ensures operations { OperationsPush }
    ensures arithmetic { ArithmeticPushes }
{}

/// The code of a comparison of two numbers pushes 1 where it holds and 0 where it does not, by the constant next to one
/// of them where that is a word, and by the difference where they are asked to be equal.
pub fn comparisons_are_pushed()
    ensures comparisons { ComparisonsPush }
{}

/// A prefix makes of the number that its operand pushes what the meaning says, and of a truth the other one.
pub fn prefixes_are_pushed()
    ensures prefixes { PrefixesPush }
{}

/// The operation of a chain has the value that the meaning gives, in either order of its operands. So the code of the
/// first two operands pushes their value, and that of one operand more pushes the value with it, also where a constant
/// is added.
pub fn chains_are_pushed()
    ensures operations { ChainsCompute }
    ensures truths { TruthsAreJoined }
    ensures first { FirstTwoPush }
    ensures more { OneMorePushes }
{}

/// The code of a whole chain pushes its value, where that of each operand does. One constant is in the place of the
/// first operands, where those are together a constant.
pub fn whole_chains_are_pushed()
    ensures terms { TermsPush }
{}

/// Where memory carries the environment of a scope, and what is known of its names is true, the code of an expression
/// that breaks no rule pushes its number, which is a word, and that of a condition pushes 1 or 0. The code of a subscript
/// that ends with a constant pushes before it what the constant is added to.
pub fn expressions_are_pushed()
    ensures numbers { NumbersArePushed }
    ensures conditions { ConditionsArePushed }
    ensures tests { TestsArePushed }
    ensures subscripts { SubscriptsArePushed }
{}

/// Code stores only words that it takes. Where it stores words of the frame alone, so do its parts, and the tables that
/// they read are tables of the code.
pub fn parts_of_code_stand()
    ensures whole { CodeStoresWithin }
    ensures parts { PartsStand }
{}

/// The homes of a scope rise and do not overlap: with those of the names that a declaration declares, with the block of
/// a loop, and with more words that are free.
pub fn homes_do_not_overlap()
    ensures declared { DeclaredHomesRise }
    ensures blocks { BlocksRise }
    ensures more { MoreWordsRise }
{}

/// The code of a declaration sets the words of a scalar and of an array to 0, and leaves the words before them.
pub fn words_are_zeroed()
    ensures scalars { ScalarsAreZeroed }
    ensures arrays { ArraysAreZeroed }
{}

/// Memory carries an environment with one name more, whose home is behind the others and has what the name holds. Words
/// that are 0 have what a declared scalar or array holds.
pub fn new_names_are_carried()
    ensures names { NewNamesAreCarried }
    ensures scalars { ZeroScalarsAreKept }
    ensures arrays { ZeroArraysAreKept }
{}

/// The code of a declaration leads to where memory carries the environment with its names, and a loop's block to where
/// it carries the one with the index; a name that has no word is carried at once. Where a scope is left, memory still carries the outermost names.
pub fn scopes_are_carried()
    ensures beginnings { BeginningsAreCarried }
    ensures wordless { WordlessNamesAreCarried }
    ensures declarations { DeclarationsAreCarried }
    ensures blocks { BlocksAreCarried }
    ensures outermost { OutermostAreCarried }
    ensures turns { OtherTurnsAreCarried }
{}
