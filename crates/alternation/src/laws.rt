//! Laws of the definitions.

ghost use Rattle.std.specs.Prelude.{ℕ, ℤ, Bool};
ghost use Rattle.machine_state.specs.Site.{Local};
ghost use Rattle.machine_state.specs.Turn.{Here};
ghost use Rattle.machine_state.specs.Alternations.{begun, skip_enabled, channel_enabled, waited};
ghost use Rattle.machine_state.specs.Alternations.{skip_disabled, channel_disabled, alternation_ended};
ghost use Rattle.traffic.specs.Beside.{CountsBeside};

/// What comes of an instruction from `alt` to `altwt` does not depend on what is counted, nor on a fault.
#[tactic(auto, using(crate::proofs::AlternationsBeside::begins_beside, crate::proofs::AlternationsBeside::skips_enabled_beside, crate::proofs::AlternationsBeside::channels_enabled_beside, crate::proofs::AlternationsBeside::waits_beside))]
pub fn enabling_reads_no_counters()
    ensures begins { (h : Here) (l : Local) → CountsBeside (begun h l) }
    ensures skips { (h : Here) (guard : Bool) (l : Local) → CountsBeside (skip_enabled h guard l) }
    ensures channels { (h : Here) (guard : Bool) (address : ℕ) (l : Local) →
        CountsBeside (channel_enabled h guard address l) }
    ensures waits { (h : Here) (l : Local) → CountsBeside (waited h l) }
{}

/// What comes of an instruction after `altwt` does not depend on what is counted, nor on a fault.
#[tactic(auto, using(crate::proofs::AlternationsBeside::skips_disabled_beside, crate::proofs::AlternationsBeside::channels_disabled_beside, crate::proofs::AlternationsBeside::ends_beside))]
pub fn disabling_reads_no_counters()
    ensures skips { (h : Here) (guard : Bool) (distance : ℤ) (l : Local) →
        CountsBeside (skip_disabled h guard distance l) }
    ensures channels { (h : Here) (guard : Bool) (address : ℕ) (distance : ℤ) (l : Local) →
        CountsBeside (channel_disabled h guard address distance l) }
    ensures ends { (h : Here) (to : ℕ) (l : Local) → CountsBeside (alternation_ended h to l) }
{}
