//! Laws of every world that a list of events leads to.

ghost use Rattle.world_laws.specs.InsideMemory.{HoldingsLieInMemory, WrittenIsData};
ghost use Rattle.world_laws.specs.KeptWords.{BlocksAreBlank, ChannelWordsAreBlank};
ghost use Rattle.world_laws.specs.Members.{JoinsHaveMembers};
ghost use Rattle.world_laws.specs.Parked.{WhoIsReadyIsParked, WhoWaitsIsParked, WhoIsParkedIsAtRest};
ghost use Rattle.world_laws.specs.Parked.{ParkedWordsAreBlank, SelectionsAreBlank, BuffersAreHeld};
ghost use Rattle.world_laws.specs.Parked.{ArrivalsFollow, WorkspacesDiffer};
ghost use Rattle.world_laws.specs.TasksCounted.{TasksAreCounted};

/// Memory keeps its length, and all that a process may read or write lies in it, now and for good. In all that a valid
/// module does, what a process may write is data.
pub fn holdings_lie_in_memory()
    ensures inside { HoldingsLieInMemory }
    ensures written { WrittenIsData }
{}

/// There are at most as many processes as bytes were executed, and one.
#[tactic(auto, using(crate::proofs::TasksCounted::tasks_counted))]
pub fn tasks_are_counted()
    ensures { TasksAreCounted }
{}

/// A process that waits for its turn, for a message or for a guard is parked: it will go on, and is not running.
pub fn waiting_processes_are_parked()
    ensures ready { WhoIsReadyIsParked }
    ensures others { WhoWaitsIsParked }
{}

/// Whatever a valid module does, a parked process has no defined register, and is between two
/// instructions.
#[tactic(auto, using(crate::proofs::ParkedLaws::parked_are_at_rest))]
pub fn parked_processes_are_at_rest()
    ensures { WhoIsParkedIsAtRest }
{}

/// Whatever a valid module does, a parked process, and one in an alternation, may write the three words
/// below its workspace, which are undefined. From altwt to altend so is the word at the workspace.
pub fn parked_words_are_blank()
    ensures below { ParkedWordsAreBlank }
    ensures selection { SelectionsAreBlank }
{}

/// Whatever a valid module does, a process that waits to send may read its buffer, and one that waits
/// to receive may write it. No buffer meets the words below its process's workspace. A byte that arrives on a link
/// follows those that have come.
pub fn buffers_are_held()
    ensures held { BuffersAreHeld }
    ensures arrivals { ArrivalsFollow }
{}

/// Whatever a valid module does, no two processes that are parked, or in alternations, have one
/// workspace.
pub fn workspaces_differ()
    ensures { WorkspacesDiffer }
{}

/// Whatever a valid module does, the block of an open join and the words of its channels are data, and
/// undefined.
pub fn kept_words_are_blank()
    ensures blocks { BlocksAreBlank }
    ensures channels { ChannelWordsAreBlank }
{}

/// The members of an open join differ and are processes: who has opened it and the branches that are started, at most.
/// No more branches are started than the PAR has, and all of them once the process that has opened the join is no
/// member.
pub fn joins_have_members()
    ensures { JoinsHaveMembers }
{}
