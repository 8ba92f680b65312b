//! A machine in the memory of a host: a run, if one is loaded.

ghost use Rattle.std.specs.Prelude.{◌≡◌, is_some};

use crate::kept_run::KeptRun;
use crate::loose::Loose;
use crate::run_handle::RunHandle;
use std::alloc::Global;

/// A machine as C holds it.
#[repr(C)]
#[derive(Drop)]
pub struct HostMachine {
    pub(crate) handle: RunHandle,
    is_loaded: bool,
    ghost says_so: { is_loaded ≡ is_some handle.held },
}

impl HostMachine {
    ghost use Rattle.std.specs.Prelude.{MatchOption, None, Some};
    ghost use Rattle.kept_runs.specs.Machine.{held_in};

    /// A machine with no run.
    pub fn empty(alloc: Global) -> HostMachine
        ensures { held_in result ≡ None }
    {
        let at = std::ptr::null_mut();
        let handle = RunHandle::empty(at, alloc);
        HostMachine {
            handle,
            is_loaded: false,
        }
    }

    /// The run that is loaded, if one is. Then none is any more.
    pub fn take(&mut self, alloc: Global) -> Option<Box<KeptRun>>
        ensures taken { MatchOption result (held_in self.old ≡ None) (λ run. held_in self.old ≡ Some run.value) }
        ensures left { held_in self.new ≡ None }
    {
        if !self.is_loaded {
            return None;
        }
        let whole = std::mem::replace(self, HostMachine::empty(alloc));
        Some(whole.handle.into_loose().into_box())
    }

    /// This run is loaded. One that was loaded before is not freed: it is taken before.
    pub fn put(&mut self, run: Box<KeptRun>)
        ensures { held_in self.new ≡ Some run.value }
    {
        *self = HostMachine {
            handle: RunHandle::of(Loose::of(run)),
            is_loaded: true,
        };
    }
}
