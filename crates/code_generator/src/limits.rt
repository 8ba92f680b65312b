//! How much is gone over and said at most, so that the time and the memory of a program are bounded.

ghost use Rattle.std.specs.Prelude.{◌≡◌, ◌≢◌, IfOk, Err, false, true};
ghost use Rattle.line_pieces.specs.Limits.{is_too_much};
ghost use Rattle.code_generator.specs.Written.{Spends};

use crate::processes::ProcessWriter;
use line_pieces::{GREATEST_ROWS, GREATEST_SAID, Listing};
use module_builder::GenFault;
use program_sizes::GREATEST_SIZE;

/// How many processes may be in one another, bodies of procedures among them. Each takes less than two KB of stack: what
/// writes no process in it is not inlined, and what writes a `PAR`, an `ALT` or a replicated block has a frame of its own.
pub(crate) const GREATEST_DEPTH: u32 = 2_048;

/// As how many processes an instance counts beside its own, for the stack that it takes.
pub(crate) const INSTANCE_DEPTH: u32 = 2;

/// How many PARs a module may have.
const GREATEST_PARS: usize = 1_024;

/// What bounds the code of a program. Of a sequential one what is gone over is bounded before (`program_work`), and
/// while it is written only its rows are asked.
#[derive(Clone, Copy)]
pub struct Limits {
    /// How many names the program declares.
    pub names: u32,
    /// Whether it has no `PAR`, no `ALT` and no instance.
    pub is_sequential: bool,
}

impl Limits {
    /// What it is that processes are too deep in one another.
    pub(crate) fn too_deep(self) -> GenFault
        ensures limit { result ≡ GenFault.Limit → self.is_sequential ≡ false }
        ensures invalid { result ≢ GenFault.Invalid }
    {
        if self.is_sequential {
            GenFault::Memory
        } else {
            GenFault::Limit
        }
    }

    /// The error is [`GenFault::Limit`] if what was written is too much.
    pub(crate) fn ask_room(self, listing: &Listing) -> Result<(), GenFault>
        ensures limit { result ≡ Err GenFault.Limit → self.is_sequential ≡ true
            → is_too_much self.names listing.now ≡ true }
        ensures invalid { result ≢ Err GenFault.Invalid }
    {
        let is_full = if self.is_sequential {
            listing.is_too_much(self.names)
        } else {
            listing.is_full()
        };
        if is_full {
            return Err(GenFault::Limit);
        }
        Ok(())
    }
}

/// What was done so far. Too much stays too much: whether it is so is asked once for all that is counted in a call.
#[derive(Clone, Copy)]
pub(crate) struct Spent {
    /// The sizes of all lines that were gone over, those in procedures for each instance.
    walked: usize,
    rows: usize,
    /// The entries of all rows, and what branches of PARs use.
    said: usize,
    pars: usize,
}

impl Spent {
    /// Nothing was done.
    pub(crate) fn nothing() -> Spent {
        Spent {
            walked: 0,
            rows: 0,
            said: 0,
            pars: 0,
        }
    }

    /// The error is [`GenFault::Limit`] if too much was done.
    fn ask(self) -> Result<(), GenFault> {
        if self.walked > GREATEST_SIZE as usize
            || self.rows > GREATEST_ROWS
            || self.said > GREATEST_SAID
            || self.pars > GREATEST_PARS
        {
            return Err(GenFault::Limit);
        }
        Ok(())
    }

    /// There is a `PAR` more.
    pub(crate) fn count_par(&mut self) -> Result<(), GenFault> {
        self.pars = self.pars.saturating_add(1);
        self.ask()
    }

    /// A branch uses `notes` words and ends of channels.
    pub(crate) fn count_notes(&mut self, notes: usize) -> Result<(), GenFault> {
        self.said = self.said.saturating_add(notes);
        self.ask()
    }
}

impl ProcessWriter<'_> {
    /// A line of this size is gone over, on which so much is read. Of a sequential program nothing is counted.
    pub(crate) fn walk_over(
        &mut self,
        limits: Limits,
        size: u32,
        reading: u32,
    ) -> Result<(), GenFault>
        ensures ok { IfOk result (λ _. Spends self.old self.new) }
        ensures limit { result ≡ Err GenFault.Limit → limits.is_sequential ≡ false }
        ensures invalid { result ≡ Err GenFault.Invalid → limits.is_sequential ≡ false }
    {
        if limits.is_sequential {
            return Ok(());
        }
        self.spent.walked = self.spent.walked.saturating_add(size as usize);
        self.spent.ask()?;
        self.listing.spend(reading)
    }

    /// A row has `entries` entries, for which the names that are known were looked at. Of a sequential program nothing is
    /// counted.
    pub(crate) fn say(&mut self, limits: Limits, entries: usize) -> Result<(), GenFault>
        ensures ok { IfOk result (λ _. Spends self.old self.new) }
        ensures limit { result ≡ Err GenFault.Limit → limits.is_sequential ≡ false }
        ensures invalid { result ≡ Err GenFault.Invalid → limits.is_sequential ≡ false }
    {
        if limits.is_sequential {
            return Ok(());
        }
        self.spent.rows = self.spent.rows.saturating_add(1);
        self.spent.said = self.spent.said.saturating_add(entries);
        self.spent.ask()?;
        self.listing.look_at(self.frame.homes.len())
    }
}
