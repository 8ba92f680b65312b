//! Which fault of a program is reported.

ghost use Rattle.std.specs.Prelude.{◌≡◌, false, None};
ghost use Rattle.program_uses.specs.Telling.{earlier, fault_at};

use program_uses::{UsageFault, earlier, fault_at};

/// What was found in a program so far. It remembers whether memory ran out, so that something may be missing.
#[derive(Clone, Copy)]
pub(crate) struct Findings {
    pub(crate) first: Option<UsageFault>,
    pub(crate) complete: bool,
}

impl Findings {
    /// Nothing.
    pub(crate) fn new() -> Findings
        ensures { result.first ≡ None }
    {
        Findings {
            first: None,
            complete: true,
        }
    }

    /// A fault on this line, if there is one.
    pub(crate) fn tell(&mut self, line: u32, number: Option<u8>)
        ensures first { self.new.first ≡ earlier self.old.first (fault_at line number) }
        ensures complete { self.new.complete ≡ self.old.complete }
    {
        self.first = earlier(self.first, fault_at(line, number));
    }

    /// The first fault of a part of the program, if there is one.
    pub(crate) fn tell_first(&mut self, fault: Option<UsageFault>)
        ensures first { self.new.first ≡ earlier self.old.first fault }
        ensures complete { self.new.complete ≡ self.old.complete }
    {
        self.first = earlier(self.first, fault);
    }

    /// Memory ran out.
    pub(crate) fn fail(&mut self)
        ensures first { self.new.first ≡ self.old.first }
        ensures complete { self.new.complete ≡ false }
    {
        self.complete = false;
    }
}
