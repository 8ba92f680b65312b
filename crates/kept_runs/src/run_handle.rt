//! A run as C holds it: its pointer, of no type that C has to know.

ghost use Rattle.std.specs.Prelude.{◌≡◌, true, Option, Some, None, is_some};
ghost use Rattle.accepted_runs.specs.Running.{PlainExecution};
ghost use Rattle.kept_runs.specs.Held.{held_code};

use crate::kept_run::KeptRun;
use crate::loose::Loose;
use std::alloc::Global;
use std::marker::Model;

/// A pointer to a run, or to nothing.
#[repr(C)]
#[derive(Drop)]
pub struct RunHandle {
    at: *mut u8,
    alloc: Global,
    pub ghost held: { Option PlainExecution } by { held_code },
}

impl Model for RunHandle {
    ghost use Rattle.kept_runs.specs.Held.{held_at};

    ghost also_owns = { λ h. held_at h.alloc h.at h.held };
}

impl RunHandle {
    /// A pointer to this run.
    pub(crate) fn of(loose: Loose<KeptRun, Global>) -> RunHandle
        ensures { result.held ≡ Some loose.value }
    {
        let Loose { at, alloc } = loose;
        RunHandle {
            at: at as *mut u8,
            alloc,
        }
    }

    /// The run.
    pub(crate) fn into_loose(self) -> Loose<KeptRun, Global>
        requires { is_some self.held ≡ true }
        ensures { self.held ≡ Some result.value }
    {
        let RunHandle { at, alloc } = self;
        Loose {
            at: at as *mut KeptRun,
            alloc,
        }
    }

    /// A pointer to nothing.
    pub(crate) fn empty(at: *mut u8, alloc: Global) -> RunHandle
        ensures { result.held ≡ None }
    {
        RunHandle { at, alloc }
    }
}
