//! An accepted module on the plain machine.

ghost use Rattle.std.specs.Prelude.{◌≡◌, Ok, IfOk};
ghost use Rattle.machine_state.specs.World.{World, loaded};
ghost use Rattle.machine_state.specs.Happens.{turn};
ghost use Rattle.verifier.specs.Headline.{IsEvent};
ghost use Rattle.link_runs.specs.Driving.{IsShown, HasReacted, reported, shown};
ghost use Rattle.link_runs.specs.Wanting.{is_running, wants};
ghost use Rattle.accepted_runs.specs.Reacting.{is_sent, progress_by};
ghost use Rattle.accepted_runs.specs.Running.{Shows, HasGoneAndReacted};

use link_runs::{Machine, Progress, Reaction};
use machine_state::{Effect, Event, Link};
use plain_machine::DecodedCode;
use plain_run::Program;
use std::alloc::{AllocError, Global};
use std::convert::Infallible;
use std::marker::{Model, PhantomData};
use verifier::Verified;

/// An accepted module that runs on the plain machine. No event is at fault, and none allocates: all memory is
/// allocated when the module is loaded.
#[derive(Drop)]
pub struct Run<'a> {
    program: Program,
    decoded: DecodedCode,
    machine: plain_run::Machine,
    has_sent: bool,
    verified: PhantomData<&'a Verified<'a>>,
}

impl<'a> Model for Run<'a> {
    ghost use Rattle.std.specs.Prelude.{◌≡◌};
    ghost use Rattle.accepted_runs.specs.Running.{PlainExecution, Runs};
    ghost use Rattle.accepted_runs.specs.Reacting.{message_of, HasMessage};

    ghost Value = { PlainExecution };

    ghost view = { λ r. record {
      contents = r.program;
      machine = r.machine;
      last = message_of r.has_sent r.machine;
    } };

    ghost invariant = { λ r. Runs r.program r.machine × HasMessage r.has_sent r.machine
        × (r.decoded ≡ r.program.code) };
}

/// Each event is one that can happen: what arrives is a byte.
fn can_happen(_event: Event)
    ensures { IsEvent _event }
{}

/// Whether an event that did this sent a message.
fn has_sent(reaction: Reaction) -> bool
    ensures { result ≡ is_sent reaction }
{
    matches!(reaction, Reaction::Emitted { .. })
}

/// How far a Step that did this goes on by itself, or none if the next one follows.
fn progress_of(reaction: Reaction) -> Option<Progress>
    ensures { result ≡ progress_by reaction }
{
    match reaction {
        Reaction::Ran => None,
        Reaction::Emitted { link } => Some(Progress::Emitted { link }),
        _ => Some(Progress::Idle),
    }
}

impl<'a> Run<'a> {
    ghost use Rattle.std.specs.Borrow.{sem};
    ghost use Rattle.accepted_runs.specs.Lending.{Rested};

    /// The machine of an accepted module that is loaded: its root is about to run the first byte of the code.
    ///
    /// # Errors
    ///
    /// If memory runs out.
    pub fn load(alloc: Global, verified: &'a Verified<'a>) -> Result<Run<'a>, AllocError>
        ensures contents { IfOk result (λ r. r.contents ≡ verified.now) }
        ensures shows { IfOk result (λ r. Shows r (loaded verified.now)) }
    {
        let tables = verified.module().tables();
        let decoded = DecodedCode::of(alloc, tables)?;
        let machine = plain_run::Machine::load(alloc, tables)?;
        let program = Program::of(tables);
        Ok(Run {
            program,
            decoded,
            machine,
            has_sent: false,
            verified: PhantomData,
        })
    }

    /// One event, with the message that it sent still in the machine.
    #[inline(always)]
    pub(crate) fn advance(&mut self, event: Event) -> Reaction
        ensures contents { self.new.contents ≡ self.old.contents }
        ensures reacts { (w : World) → Shows self.old w
            → HasReacted self.old.contents w event result self.new.last (Shows self.new) }
    {
        can_happen(event);
        let reaction = self.machine.apply(&self.program, event);
        self.has_sent = has_sent(reaction);
        reaction
    }

    /// Steps in which no process gives way, and the first that is ready is next: of all but the last one the process
    /// that runs asks nothing of others.
    #[inline(always)]
    fn go_on(&mut self) -> Reaction
        ensures { HasGoneAndReacted self.old result self.new }
    {
        let done = self.machine.go_on(&self.program, &self.decoded);
        self.has_sent = has_sent(done);
        done
    }

    /// One event, and what it did. In each world that the machine agrees with it is no fault, this is its effect, and
    /// the machine agrees with the world after it.
    #[inline(always)]
    pub fn apply(&mut self, event: Event) -> Effect<'_>
        ensures answer { (w : World) → Shows self.old w
            → (turn self.old.contents w event).answer ≡ Ok (shown result) }
        ensures* rests { sem 𝓛 (Rested self.entry event) }
    {
        let reaction = self.advance(event);
        self.effect(reaction)
    }

    /// What the last event did, as it is reported.
    #[inline(always)]
    fn effect(&self, reaction: Reaction) -> Effect<'_>
        ensures { shown result ≡ reported reaction self.now.last }
    {
        match reaction {
            Reaction::Ran => Effect::Ran,
            Reaction::Idle => Effect::Idle,
            Reaction::Emitted { link } => Effect::Emitted {
                link,
                bytes: self.sent(),
            },
            Reaction::Taken => Effect::Taken,
            Reaction::Kept => Effect::Kept,
            Reaction::Busy => Effect::Busy,
            Reaction::Acknowledged => Effect::Acknowledged,
            Reaction::Ignored => Effect::Ignored,
        }
    }

    /// The bytes of the message that the last event sent, none if it sent no message.
    #[inline(always)]
    pub(crate) fn sent(&self) -> &[u8]
        ensures { result.now ≡ self.now.last }
    {
        if self.has_sent {
            self.machine.message()
        } else {
            &[]
        }
    }

    /// How many bytes were executed. Some list of events leads to a world that the machine agrees with.
    pub fn executed(&self) -> u64
        ensures somewhere { IsShown Shows self.now }
        ensures world { (w : World) → Shows self.now w → result ≡ w.counters.executed }
    {
        self.machine.executed()
    }

    /// Whether the module is finished: some process has stopped where the module says that it ends.
    pub fn finished(&self) -> bool
        ensures { (w : World) → Shows self.now w → result ≡ w.counters.is_finished }
    {
        self.machine.finished()
    }

    /// Whether some process runs.
    pub fn running(&self) -> bool
        ensures { (w : World) → Shows self.now w → result ≡ is_running w }
    {
        self.machine.running()
    }

    /// Whether some process waits for a byte on the link or has enabled it, and none is kept there.
    pub fn wants(&self, link: Link) -> bool
        ensures { (w : World) → Shows self.now w → result ≡ wants link w }
    {
        self.machine.wants(link)
    }
}

impl<'a> Machine for Run<'a> {
    ghost use Rattle.accepted_runs.specs.Running.{Shows};
    ghost use Rattle.accepted_runs.specs.Awaiting.{plain_awaited, awaited_as};

    /// It never stops of itself.
    type Stop = Infallible;

    ghost contents = { λ r. r.contents };

    ghost limit = { λ r. r.contents.budget };

    ghost shows = { λ r w. Shows r w };

    ghost stops = { λ r w never. ⊥ };

    ghost last = { λ r. r.last };

    ghost awaits = { λ r. plain_awaited r.machine };

    fn proceed(&mut self) -> Result<Progress, Infallible> {
        'steps: loop {
            let reaction = self.go_on();
            if let Some(progress) = progress_of(reaction) {
                return Ok(progress);
            }
        }
    }

    #[inline(always)]
    fn arrive(&mut self, link: Link, byte: u8) -> Result<(), Infallible> {
        self.advance(Event::Arrive { link, byte });
        Ok(())
    }

    #[inline(always)]
    fn acknowledge(&mut self, link: Link) -> Result<(), Infallible> {
        self.advance(Event::Acknowledge { link });
        Ok(())
    }

    fn message(&self) -> &[u8] {
        self.sent()
    }

    fn executed(&self) -> u64 {
        Run::executed(self)
    }

    fn finished(&self) -> bool {
        Run::finished(self)
    }

    fn running(&self) -> bool {
        Run::running(self)
    }

    fn wants(&self, link: Link) -> bool {
        Run::wants(self, link)
    }

    ghost reached = { λ r w shown. shown.runs.reached };

    ghost awaits_so = { λ r w shown. awaited_as r.contents r.machine w shown.agrees };
}
