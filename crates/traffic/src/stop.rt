//! Why an event had no effect.

use machine_state::Fault;
use std::alloc::AllocError;

/// Why an event, or the instruction of one, had no effect.
#[derive(Clone, Copy, Debug, PartialEq, Eq)]
pub enum Stop {
    /// A process is at fault, by this event or since an earlier one. A machine that is at fault stays so, and returns
    /// the same fault for each later event.
    Fault(Fault),
    /// Memory ran out: the event did not happen, and all is as before.
    Memory,
}

impl From<Fault> for Stop {
    ghost use Rattle.std.specs.Prelude.{◌≡◌};
    ghost use Rattle.traffic.specs.declared.stop.Stop.TheVariants as stops;

    ghost from_gives = { λ fault stop. stop ≡ stops.Fault fault };

    fn from(fault: Fault) -> Stop {
        Stop::Fault(fault)
    }
}

impl From<AllocError> for Stop {
    ghost use Rattle.std.specs.Prelude.{◌≡◌};
    ghost use Rattle.traffic.specs.declared.stop.Stop.TheVariants as stops;

    ghost from_gives = { λ _ stop. stop ≡ stops.Memory };

    fn from(_error: AllocError) -> Stop {
        Stop::Memory
    }
}
