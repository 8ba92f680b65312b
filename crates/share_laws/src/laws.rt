//! Laws of every start of a valid module.

ghost use Rattle.share_laws.specs.Bases.{BasesAreFrames, FramesAreBases};
ghost use Rattle.share_laws.specs.Climbing.{BranchesAreLent, ChangesAreByABranch, ChangesClimb, OtherWordsStay};
ghost use Rattle.share_laws.specs.GivenOnce.{SharesAreLeft};
ghost use Rattle.share_laws.specs.GoingOn.{BranchesBegin, OpenersGoOn, OpeningsCanStart, StartersGoOn};
ghost use Rattle.share_laws.specs.Opening.{EndsLieOutside, OpenersHoldTheRest};
ghost use Rattle.share_laws.specs.Prepared.{FirstStartsPass, LaterStartsPass, PlansAreLaidOut};
ghost use Rattle.share_laws.specs.Shares.{SharesAreWords};
ghost use Rattle.share_laws.specs.Starts.{BranchesHoldTheirShares, StartersHoldTheRest};
ghost use Rattle.share_laws.specs.Taking.{OpeningsTakeTheirWords, StartsKeepOpeners, StartsTakeTheirWords};
ghost use Rattle.share_laws.specs.Tests.{BranchesAreApart, SharesAreThere};

/// The base of a join is the address of its opener's frame word 0, which lies in memory.
pub fn bases_are_frames()
    ensures found { BasesAreFrames }
    ensures words { FramesAreBases }
{}

/// A branch's share has the bytes of the words and regions that its row names, and the ends of the channels that it
/// names.
pub fn shares_are_words()
    ensures { SharesAreWords }
{}

/// What a branch's row gives it is left once the branches before it are started, if the context of its PAR has it, none
/// of it is of the block or a channel, and none of these branches has what it writes, or writes what it has.
pub fn shares_are_left()
    ensures { SharesAreLeft }
{}

/// If a branch's share is left, the branch has its frame from its start on, and holds what its context names.
pub fn branches_hold_their_shares()
    ensures { BranchesHoldTheirShares }
{}

/// And its starter still has its frame, and holds what its scope has left after one start more.
pub fn starters_hold_the_rest()
    ensures { StartersHoldTheRest }
{}

/// Before the first start a PAR's starter holds what its scope has left then: all that its context names but the block
/// and the channels, and both ends of each channel.
pub fn openers_hold_the_rest()
    ensures { OpenersHoldTheRest }
{}

/// Whatever a valid module does, no end that a process has for good is one of a channel in a word that it may write:
/// the process that has opened the channel keeps its word.
pub fn ends_lie_outside()
    ensures { EndsLieOutside }
{}

/// A start leaves undefined only words that are the branch's to write, and a first start besides those of the block and
/// the channels. What the starter's scope has left is held still, and each other word that is left has its value. So of
/// the context in which a PAR was opened: each start keeps what its scope has.
pub fn starts_take_their_words()
    ensures starts { StartsTakeTheirWords }
    ensures openings { OpeningsTakeTheirWords }
    ensures openers { StartsKeepOpeners }
{}

/// A share that is left passes the tests of a start: its ends are there, each once, its bytes are held, and the words
/// that scheduling takes are held and are the branch's own.
pub fn shares_are_there()
    ensures { SharesAreThere }
{}

/// If the words of a PAR are prepared, and the share of the next branch is left, none of the tests of its start fails.
/// The plan of the first start has the frame and the parameters where the starter's layout says.
pub fn starts_pass_their_tests()
    ensures first { FirstStartsPass }
    ensures later { LaterStartsPass }
    ensures plans { PlansAreLaidOut }
{}

/// What a branch holds from its start on and what is left to its starter do not meet.
pub fn branches_are_apart()
    ensures { BranchesAreApart }
{}

/// After a start, the first or a later one, the starter is in a state among the starts of its row: it holds what the
/// scope of that state has, and what was known of the words that are left still holds. What a process that has opened
/// the PAR holds can start the first branch.
pub fn starters_go_on()
    ensures later { StartersGoOn }
    ensures first { OpenersGoOn }
    ensures opened { OpeningsCanStart }
{}

/// After a start the branch is where it begins, in a state that knows of its words what was so before, and nothing of
/// its registers and of the three words below its workspace: it has its frame, and holds what its context names.
pub fn branches_begin()
    ensures { BranchesBegin }
{}

/// What a branch has, its opener has lent it.
pub fn branches_are_lent()
    ensures { BranchesAreLent }
{}

/// What a branch changes within its scope is a change within its opener's, and no word of the opener's that the branch
/// has not to write. So what a process changes that is under an opener is such a change of one of its branches.
pub fn changes_climb()
    ensures climb { ChangesClimb }
    ensures words { OtherWordsStay }
    ensures above { ChangesAreByABranch }
{}
