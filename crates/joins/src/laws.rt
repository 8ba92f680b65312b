//! Laws of the definitions.

ghost use Rattle.std.specs.Prelude.{ℕ};
ghost use Rattle.machine_state.specs.Site.{Local};
ghost use Rattle.machine_state.specs.Turn.{Here};
ghost use Rattle.machine_state.specs.Joins.{start_turn, join_turn};
ghost use Rattle.traffic.specs.Beside.{CountsBeside};

/// What comes of a start of a branch does not depend on what is counted, nor on a fault.
#[tactic(auto, using(crate::proofs::JoinsBeside::starts_beside))]
pub fn starts_read_no_counters()
    ensures { (h : Here) (target workspace : ℕ) (l : Local) → CountsBeside (start_turn h target workspace l) }
{}

/// What comes of the end of a branch, or of the process that has started them, does not depend on what is counted, nor
/// on a fault.
#[tactic(auto, using(crate::proofs::JoinsBeside::joins_beside))]
pub fn joins_read_no_counters()
    ensures { (h : Here) (block : ℕ) (l : Local) → CountsBeside (join_turn h block l) }
{}
