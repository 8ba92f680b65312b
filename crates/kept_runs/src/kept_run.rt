//! An accepted module on the plain machine, with all that it reads.

ghost use Rattle.std.specs.Prelude.{◌≡◌, IfOk};
ghost use Rattle.module_format.specs.Contents.{contents_of};
ghost use Rattle.module_format.specs.Keeping.{Keeps};
ghost use Rattle.machine_state.specs.World.{World, loaded};
ghost use Rattle.verifier.specs.Headline.{RunsWell};
ghost use Rattle.link_runs.specs.Driving.{HasReacted};
ghost use Rattle.link_runs.specs.Wanting.{is_running, wants};
ghost use Rattle.accepted_runs.specs.Running.{Shows};
ghost use Rattle.kept_runs.specs.RunningOn.{HasRunOn};

use crate::moving::{advance, has_emitted, has_sent, run};
use crate::running_on::RunReport;
use link_runs::Reaction;
use machine_state::{Event, Link};
use module_format::Tables;
use plain_machine::DecodedCode;
use plain_run::Program;
use std::alloc::{AllocError, Global};
use std::marker::Model;

/// An accepted module that runs on the plain machine. It borrows nothing, no event is at fault, and none allocates: all
/// memory is allocated when the module is loaded.
#[derive(Drop)]
pub struct KeptRun {
    program: Program,
    decoded: DecodedCode,
    machine: plain_run::Machine,
    has_sent: bool,
}

impl Model for KeptRun {
    ghost use Rattle.std.specs.Prelude.{◌≡◌};
    ghost use Rattle.accepted_runs.specs.Running.{PlainExecution, Runs};
    ghost use Rattle.accepted_runs.specs.Reacting.{message_of, HasMessage};

    ghost Value = { PlainExecution };

    ghost view = { λ r. record {
      contents = r.program;
      machine = r.machine;
      last = message_of r.has_sent r.machine;
    } };

    ghost invariant = { λ r. Runs r.program r.machine × HasMessage r.has_sent r.machine
        × (r.decoded ≡ r.program.code) };
}

impl KeptRun {
    /// The machine of an accepted module that is loaded: its root is about to run the first byte of the code.
    ///
    /// # Errors
    ///
    /// If memory runs out.
    pub fn load(alloc: Global, tables: &Tables<'_>) -> Result<KeptRun, AllocError>
        requires keeps { Keeps (contents_of tables.now) }
        requires well { RunsWell (contents_of tables.now) }
        ensures contents { IfOk result (λ r. r.contents ≡ contents_of tables.now) }
        ensures shows { IfOk result (λ r. Shows r (loaded (contents_of tables.now))) }
    {
        let machine = plain_run::Machine::load(alloc, tables)?;
        let decoded = DecodedCode::of(alloc, tables)?;
        let program = Program::of(tables);
        Ok(KeptRun {
            program,
            decoded,
            machine,
            has_sent: false,
        })
    }

    /// One event, and what it did. In each world that the machine agrees with it is no fault, this is its effect, and
    /// the machine agrees with the world after it.
    pub fn advance(&mut self, event: Event) -> Reaction
        ensures contents { self.new.contents ≡ self.old.contents }
        ensures reacts { (w : World) → Shows self.old w
            → HasReacted self.old.contents w event result self.new.last (Shows self.new) }
    {
        let reaction = advance(&mut self.machine, &self.program, event);
        self.has_sent = has_sent(reaction);
        reaction
    }

    /// Steps in which no process gives way, and the first that is ready is next, until one emits a message, no process
    /// is running, or so many bytes are executed: then after the first that completes a loop's end, a call or what asks
    /// something of others.
    pub fn run(&mut self, limit: u64) -> RunReport
        ensures contents { self.new.contents ≡ self.old.contents }
        ensures reaches { (w : World) → Shows self.old w
            → HasRunOn self.old.contents w limit result self.new.last (Shows self.new) }
    {
        let report = run(&mut self.machine, &self.program, &self.decoded, limit);
        self.has_sent = has_emitted(report.stop);
        report
    }

    /// The bytes of the message that the last event sent, none if it sent no message.
    pub fn message(&self) -> &[u8]
        ensures { result.now ≡ self.now.last }
    {
        if self.has_sent {
            self.machine.message()
        } else {
            &[]
        }
    }

    /// How many bytes were executed.
    pub fn executed(&self) -> u64
        ensures { (w : World) → Shows self.now w → result ≡ w.counters.executed }
    {
        self.machine.executed()
    }

    /// Whether the module is finished: some process has stopped where the module says that it ends.
    pub fn finished(&self) -> bool
        ensures { (w : World) → Shows self.now w → result ≡ w.counters.is_finished }
    {
        self.machine.finished()
    }

    /// Whether some process runs.
    pub fn running(&self) -> bool
        ensures { (w : World) → Shows self.now w → result ≡ is_running w }
    {
        self.machine.running()
    }

    /// Whether some process waits for a byte on the link or has enabled it, and none is kept there.
    pub fn wants(&self, link: Link) -> bool
        ensures { (w : World) → Shows self.now w → result ≡ wants link w }
    {
        self.machine.wants(link)
    }
}
