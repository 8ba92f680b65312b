//! Laws of the plain machine beside the machine's definitions.

ghost use Rattle.agreement.specs.Arriving.{ArrivalsAgree, AcknowledgementsAgree, IdleStepsAgree};
ghost use Rattle.agreement.specs.GoingOn.{GoingOnAgrees, PrefixesAgree, InstructionsAgree};
ghost use Rattle.agreement.specs.Links.{InputsAreShown, OutputsAreShown};
ghost use Rattle.agreement.specs.Loading.{LoadedAgrees};
ghost use Rattle.agreement.specs.QueueWords.{QueueWordsMayChange};
ghost use Rattle.agreement.specs.Standing.{WhoIsReadyMayRun};
ghost use Rattle.agreement.specs.StepsAgree.{StepsAgree};
ghost use Rattle.agreement.specs.TurnsAgree.{TurnsAgree};
ghost use Rattle.agreement.specs.Waking.{AcknowledgedGoOn, BytesAreTaken};

/// The loaded plain machine agrees with the loaded world.
pub fn loaded_agrees()
    ensures { LoadedAgrees }
{}

/// An instruction that is at no fault touches memory alone, computes words alone, and leaves on plain words all that it
/// leaves defined: more registers and bytes that are defined change nothing.
pub fn steps_agree()
    ensures { StepsAgree }
{}

/// Whatever a valid module does, the plain machine that agrees goes on to agree if the process that
/// runs goes on: by a prefix, or by an instruction that asks nothing of others and gives up no turn.
pub fn going_on_agrees()
    ensures registers { GoingOnAgrees }
    ensures prefixes { PrefixesAgree }
    ensures instructions { InstructionsAgree }
{}

/// Whatever a valid module does, a Step that reports no fault finds a byte on the plain machine that
/// agrees: a prefix, or the last one of an instruction that is safe. It changes no link of a ready process. If the
/// process that runs goes on, goes to the back of the ready list, stops, receives or sends a message, starts a branch,
/// ends in a join or has part in an alternation, and the next ready process runs where it leaves, the machine agrees
/// with the world after the Step, and has the message that it sent over a link. Over a channel inside the first to come
/// waits, and with the second the message is copied. A sender that comes first rouses the process that has enabled the
/// channel, if one has. With the last member of a join its opener goes on. The words in
/// which processes are parked and linked for that lie in memory, no two of them meet, and the queue may use the links.
pub fn turns_agree()
    ensures { TurnsAgree }
{}

/// Whatever a valid module does, the plain machine that agrees goes on to agree by an event that finds no process that
/// waits: a Step while no process runs, a byte on a link where none does, and an acknowledgement. The byte is kept, and
/// the process that has enabled the link, if one has, is roused: its alternation is ready from then on, and if the
/// process waited for that, it is ready too, after all that are.
pub fn quiet_events_agree()
    ensures steps { IdleStepsAgree }
    ensures arrivals { ArrivalsAgree }
    ensures acknowledgements { AcknowledgementsAgree }
{}

/// Whatever a valid module does, the plain machine that agrees may change the words in which its queue
/// keeps links: those of processes that wait for no message inside, if the world has them undefined.
pub fn queue_words_may_change()
    ensures { QueueWordsMayChange }
{}

/// Whatever a valid module does, any process that is ready may run on the plain machine that agrees:
/// the words in which it is parked lie in memory, apart from the links of all, which the queue may use.
pub fn ready_processes_may_run()
    ensures { WhoIsReadyMayRun }
{}

/// On each link the plain machine that agrees has the byte that the world has, and somebody waits there, or has enabled
/// it, if one does in the world.
#[tactic(auto, using(crate::proofs::Links::inputs_are_shown, crate::proofs::Links::outputs_are_shown))]
pub fn links_are_shown()
    ensures inputs { InputsAreShown }
    ensures outputs { OutputsAreShown }
{}

/// Whatever a valid module does, the plain machine that agrees goes on to agree by an acknowledgement
/// that a process waits for: the process is ready, after all that are.
pub fn acknowledged_processes_go_on()
    ensures { AcknowledgedGoOn }
{}

/// Whatever a valid module does, the plain machine that agrees goes on to agree by a byte that a
/// process waits for: it goes into the buffer of its message, and with the last one the process is ready, after all
/// that are.
pub fn bytes_are_taken()
    ensures { BytesAreTaken }
{}
