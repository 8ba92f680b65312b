//! What drives a machine, whichever machine it is.

ghost use Rattle.std.specs.Prelude.{◌≡◌, ℕ, List};
ghost use Rattle.module_format.specs.Contents.{Contents};
ghost use Rattle.machine_state.specs.World.{World};
ghost use Rattle.machine_state.specs.declared.event.Event.TheVariants.{Arrive, Acknowledge};
ghost use Rattle.link_runs.specs.Awaiting.{awaited};
ghost use Rattle.link_runs.specs.Wanting.{is_running, wants};
ghost use Rattle.link_runs.specs.Driving.{IsReached, IsShown, Proceeds, Takes};

use machine_state::Link;

/// How far a machine went on by itself.
#[derive(Clone, Copy)]
pub enum Progress {
    /// A message went out on this link.
    Emitted { link: Link },
    /// No process is running.
    Idle,
}

/// What an event did. The bytes of a message are asked for apart.
#[derive(Clone, Copy)]
pub enum Reaction {
    Ran,
    Idle,
    Emitted { link: Link },
    Taken,
    Kept,
    Busy,
    Acknowledged,
    Ignored,
}

/// A machine that runs by itself, and takes what comes on its links. It may stop of itself: at a fault, where memory
/// runs out, at a limit. It may be seen as several worlds, and what is said of one is said of each.
pub trait Machine {
    /// Why it may stop of itself.
    type Stop;

    /// What its module says.
    ghost contents: { Self → Contents };

    /// How many bytes it executes at most.
    ghost limit: { Self → ℕ };

    /// Whether it is in this world, which events lead to and where nothing is at fault.
    ghost shows: { Self → World → Type 0 };

    /// Whether it has stopped of itself in this world, for this reason.
    ghost stops: { Self → World → Self.Stop → Type 0 };

    /// The bytes of the message that the last event emitted.
    ghost last: { Self → List ℕ };

    /// How many bytes can arrive before a process runs.
    ghost awaits: { Self → ℕ };

    /// Makes Steps until one emits a message or no process is running: no process gives way, and the first that is
    /// ready is next. At a Step at which the machine stops of itself it returns why.
    fn proceed(&mut self) -> Result<Progress, Self::Stop>
        requires { IsShown shows self.old }
        ensures contents { contents self.new ≡ contents self.old }
        ensures limit { limit self.new ≡ limit self.old }
        ensures proceeds { (w : World) → shows self.old w
            → Proceeds (contents self.old) w result (last self.new) (shows self.new) (stops self.new) };

    /// A byte arrives on the link, unless the machine stops of itself.
    fn arrive(&mut self, link: Link, byte: u8) -> Result<(), Self::Stop>
        requires { IsShown shows self.old }
        ensures contents { contents self.new ≡ contents self.old }
        ensures limit { limit self.new ≡ limit self.old }
        ensures takes { (w : World) → shows self.old w
            → Takes (contents self.old) w (Arrive link byte) result (shows self.new) (stops self.new) };

    /// The message that went out on the link is acknowledged, unless the machine stops of itself.
    fn acknowledge(&mut self, link: Link) -> Result<(), Self::Stop>
        requires { IsShown shows self.old }
        ensures contents { contents self.new ≡ contents self.old }
        ensures limit { limit self.new ≡ limit self.old }
        ensures takes { (w : World) → shows self.old w
            → Takes (contents self.old) w (Acknowledge link) result (shows self.new) (stops self.new) };

    /// The bytes of the message that the last event emitted, none if it emitted no message.
    fn message(&self) -> &[u8]
        ensures { result.now ≡ last self.now };

    /// How many bytes were executed.
    fn executed(&self) -> u64
        ensures { (w : World) → shows self.now w → result ≡ w.counters.executed };

    /// Whether the module is finished: some process has stopped where the module says that it ends.
    fn finished(&self) -> bool
        ensures { (w : World) → shows self.now w → result ≡ w.counters.is_finished };

    /// Whether some process runs.
    fn running(&self) -> bool
        ensures { (w : World) → shows self.now w → result ≡ is_running w };

    /// Whether some process waits for a byte on the link or has enabled it, and none is kept there.
    fn wants(&self, link: Link) -> bool
        ensures { (w : World) → shows self.now w → result ≡ wants link w };

    ghost reached: { (machine : Self) (w : World) → shows machine w
        → IsReached (contents machine) (limit machine) w };

    ghost awaits_so: { (machine : Self) (w : World) → shows machine w → awaits machine ≡ awaited w };
}
