//! The laws of the operations and their ranges, each the contract of a function that does nothing.
#![tactic(auto, using(crate::proofs::Proved::laws))]

ghost use Rattle.word_arithmetic.specs.Word.{WordsFit, WordsLieBetween, CheckedGivesWords};
ghost use Rattle.word_arithmetic.specs.Range.{WordsInOrderAreRanges, MembersLieBetween, ComparisonsAreTests};
ghost use Rattle.word_arithmetic.specs.Binary.{BinaryGivesWords, BinaryHolds, BinaryFails, BinaryGivesRanges};
ghost use Rattle.word_arithmetic.specs.Unary.{UnaryGivesWords, UnaryHolds, UnaryGivesRanges};

/// The words are the numbers of 32 bits with a sign, from the least to the greatest.
pub fn words_have_32_bits()
    ensures fit { WordsFit }
    ensures between { WordsLieBetween }
{}

/// A checked result is the number itself, and a word.
pub fn checked_results_are_words()
    ensures { CheckedGivesWords }
{}

/// The result of words is a word.
pub fn operations_give_words()
    ensures binary { BinaryGivesWords }
    ensures unary { UnaryGivesWords }
{}

/// Where the results of an operation have a range, no members set the error flag, and each result of members is a
/// word in that range.
pub fn ranges_hold_results()
    ensures binary { BinaryHolds }
    ensures unary { UnaryHolds }
{}

/// Where the results of an operation on ranges have a range, its ends are words, in order.
pub fn results_have_ranges_of_words()
    ensures binary { BinaryGivesRanges }
    ensures unary { UnaryGivesRanges }
{}

/// The results of an operation have no range only if some members set the error flag.
pub fn no_range_means_failure()
    ensures { BinaryFails }
{}

/// Two numbers have a range between them exactly if they are words in order, and its members are the numbers between
/// them, both included.
pub fn words_in_order_are_ranges()
    ensures ends { WordsInOrderAreRanges }
    ensures members { MembersLieBetween }
{}

/// A comparison with a word leaves of a range what a test leaves whether a number lies in some range, or outside it.
pub fn comparisons_are_tests()
    ensures { ComparisonsAreTests }
{}
