//! Laws of the definitions.

ghost use Rattle.machine_state.specs.MemoryLaws.{ByteReadsBack, WordReadsBack, UndefinedReadsBack};
ghost use Rattle.machine_state.specs.MemoryLaws.{ByteElsewhereStays, WordBesideByteStays, ByteBesideWordStays};
ghost use Rattle.machine_state.specs.MemoryLaws.{WordElsewhereStays, ByteKeepsLength, WordKeepsLength};
ghost use Rattle.machine_state.specs.Frame.{StepsChangeOwn};
ghost use Rattle.machine_state.specs.EventLaws.{EventsCountBytes, FaultsAreKept, FaultsStay};
ghost use Rattle.machine_state.specs.Writing.{StepsWriteOwn, ArrivalsWriteOne, AcknowledgementsWriteNothing};
ghost use Rattle.machine_state.specs.Seeing.{StepsSeeWhatTheyRead};
ghost use Rattle.machine_state.specs.Waiting.{LinesAreReady, LinksHaveTheirWaiters, ArrivalsFillBuffers};
ghost use Rattle.machine_state.specs.Waiting.{BranchesAreCounted, OpenersAreStarting};
ghost use Rattle.machine_state.specs.ChannelLaws.{ChannelsHaveTheirWaiters, WhoWaitsIsRecorded};
ghost use Rattle.machine_state.specs.LinkLaws.{WhoWaitsOnLinksIsRecorded, LinksStayFourEachWay};
ghost use Rattle.machine_state.specs.EnabledLaws.{WhoEnabledAlternates, WhoMayWaitHasNothingReady, WhoEnabledHolds};
ghost use Rattle.machine_state.specs.EnabledLaws.{WhatIsReadyStays};
ghost use Rattle.machine_state.specs.WaitingOnce.{NobodyWaitsTwice, NoTwoWaitTogether};
ghost use Rattle.machine_state.specs.ApartLaws.{HoldingsStayApart};
ghost use Rattle.machine_state.specs.Ownership.{HoldersAreInOrder};
ghost use Rattle.machine_state.specs.Endings.{StepsMoveOrFail};
ghost use Rattle.machine_state.specs.BranchContexts.{BranchesAreFoundAlike, BranchesAreContexts};
ghost use Rattle.machine_state.specs.SpanLaws.{RunsCoverTheTest};
ghost use Rattle.machine_state.specs.SmallModules.{FirstEnds, JumpEnds, SlicedJumpEnds, CallEnds, LoopEnds};
ghost use Rattle.machine_state.specs.SmallModules.{PairEnds, PairFaults, EchoWaits, ChannelEnds, ChoiceWaits};

/// Small modules run to their end.
#[tactic(auto, using(crate::proofs::Examples::small_modules))]
pub fn small_modules_end()
    ensures first { FirstEnds }
    ensures jump { JumpEnds }
    ensures sliced_jump { SlicedJumpEnds }
    ensures call { CallEnds }
    ensures turns { LoopEnds }
    ensures pair { PairEnds }
    ensures pair_faults { PairFaults }
    ensures echo { EchoWaits }
    ensures channel { ChannelEnds }
    ensures choice { ChoiceWaits }
{}

/// One instruction of one process changes no byte but those that the process may write.
#[tactic(auto, using(crate::proofs::Frame::steps_change_own))]
pub fn steps_change_their_own()
    ensures { StepsChangeOwn }
{}

/// An event that executes a byte adds one to the count of executed bytes. Any other, a fault too, adds none.
#[tactic(auto, using(crate::proofs::EventLaws::counting))]
pub fn events_count_bytes()
    ensures { EventsCountBytes }
{}

/// A fault that an event reports is in the world after it, and from then on nothing changes.
#[tactic(auto, using(crate::proofs::EventLaws::reported_faults))]
pub fn faults_stay()
    ensures kept { FaultsAreKept }
    ensures stays { FaultsStay }
{}

/// A step changes only bytes that the running process may write, and where its message meets a receiver that waits,
/// the bytes of the receiver's buffer, which become those sent. An arrival changes at most one byte, the next one in
/// the buffer of the process that waits there, and an acknowledgement none.
#[tactic(auto, using(crate::proofs::InOrder::writing))]
pub fn events_write_their_own()
    ensures steps { StepsWriteOwn }
    ensures arrivals { ArrivalsWriteOne }
    ensures buffers { ArrivalsFillBuffers }
    ensures acknowledgements { AcknowledgementsWriteNothing }
{}

/// A step depends on no byte but those that the running process may read, and where it meets a sender, those that are
/// sent. In two worlds that differ elsewhere in memory it returns the same, and they differ no more.
pub fn steps_see_what_they_read()
    ensures { StepsSeeWhatTheyRead }
{}

/// A process that runs or waits for its turn is ready, and is in the line once. A process that a link says to wait
/// there does wait there; in all that a valid module does, a process that waits on a link is recorded there, and holds
/// that end of it. Each live branch is counted by the join that its opener has open; a process that has a join open is
/// one of its members, or has done its own endp. Until it has, it is starting branches, and no other process is.
#[tactic(auto, using(crate::proofs::InOrder::waiting))]
pub fn waiting_is_in_order()
    ensures lines { LinesAreReady }
    ensures links { LinksHaveTheirWaiters }
    ensures recorded { WhoWaitsOnLinksIsRecorded }
    ensures branches { BranchesAreCounted }
    ensures starters { OpenersAreStarting }
{}

/// A process that an internal channel says to wait there does wait there. In all that a valid module does, a process
/// that waits on an internal channel is recorded there and at no other channel, and holds that end of it.
/// A process that has enabled a channel or a link enables, waits or disables; while it waits, or enables and is not
/// ready, nothing that it has enabled has a sender or a byte. If the module is valid, it holds what it has enabled, and
/// no other process waits there to receive. What is enabled and has a sender or a byte keeps it, and stays enabled
/// until its owner disables it.
#[tactic(auto, using(crate::proofs::InOrder::channels))]
pub fn channels_are_in_order()
    ensures waiters { ChannelsHaveTheirWaiters }
    ensures recorded { WhoWaitsIsRecorded }
    ensures enabled { WhoEnabledAlternates }
    ensures quiet { WhoMayWaitHasNothingReady }
    ensures held { WhoEnabledHolds }
    ensures kept { WhatIsReadyStays }
{}

/// A process that waits for a message is recorded at one channel or link. In all that a valid module does, no other one
/// waits on the same.
pub fn nobody_waits_twice()
    ensures places { NobodyWaitsTwice }
    ensures alone { NoTwoWaitTogether }
{}

/// Whatever a valid module does, no two processes hold the same, and no process holds the blocks of open joins or the
/// words of channels, no two of which have a byte in common.
pub fn holdings_stay_apart()
    ensures { HoldingsStayApart }
{}

/// Whatever a valid module does, these are in order: who holds what for good, who has opened whom and whose channels
/// lie where. Of two processes neither of which is under the other what they have for good is apart, and of one under
/// another it is apart from what the other one's open join has not given, and from what that join keeps.
#[tactic(auto, using(crate::proofs::ApartLaws::holders_are_in_order))]
pub fn holders_stay_in_order()
    ensures { HoldersAreInOrder }
{}

/// Every event, in any world, ends in one of the ways that are listed: it moves with all tests passed, or is at fault
/// by one test that failed, or leaves the world as it was.
#[tactic(auto, using(crate::proofs::Turns::turn_happens))]
pub fn steps_move_or_fail()
    ensures { StepsMoveOrFail }
{}

/// There are always four output links and four input links.
pub fn links_stay_four_each_way()
    ensures { LinksStayFourEachWay }
{}

/// The branch that a start finds at a code offset, by its row, is the one that the tables find there by its context. In
/// a valid module that context comes after the one of its PAR, and has the same frame and parameters.
pub fn branches_are_contexts()
    ensures found { BranchesAreFoundAlike }
    ensures contexts { BranchesAreContexts }
{}

/// Spans in normal form cover the places that pass the test.
#[tactic(auto, using(crate::proofs::SpanLaws::normal_spans))]
pub fn spans_cover_the_test()
    ensures { RunsCoverTheTest }
{}

/// Memory reads back what was written.
#[tactic(auto, using(crate::proofs::Reading::reading_back))]
pub fn memory_reads_back()
    ensures byte { ByteReadsBack }
    ensures word { WordReadsBack }
    ensures undefined { UndefinedReadsBack }
{}

/// Writing changes nothing elsewhere.
#[tactic(auto, using(crate::proofs::Reading::elsewhere))]
pub fn memory_stays_elsewhere()
    ensures byte { ByteElsewhereStays }
    ensures word_beside_byte { WordBesideByteStays }
    ensures byte_beside_word { ByteBesideWordStays }
    ensures word { WordElsewhereStays }
{}

/// Writing keeps the length of memory.
#[tactic(auto, using(crate::proofs::Reading::lengths))]
pub fn memory_keeps_its_length()
    ensures byte { ByteKeepsLength }
    ensures word { WordKeepsLength }
{}
