//! The rule of `PAR`: what its components use of the names around it.

ghost use Rattle.program_uses.specs.Lowest.{IsLowest};
ghost use Rattle.program_uses.specs.Sets.{has, Joins};
ghost use Rattle.program_uses.specs.Telling.{IsFirst, Among, At};
ghost use Rattle.program_uses.specs.ParRules.{BreaksSharing};

use crate::faults::{CHANNEL_USE, SHARED_VARIABLE, lower, told_unless};
use crate::telling::{UsageFault, earlier, fault_at};
use crate::uses::Uses;

/// The lowest number of the rules that a component of a `PAR` breaks with those before it, by what they use of the
/// `count` names around.
fn fault_of_sharing(count: usize, before: &Uses, component: &Uses) -> Option<u8>
    ensures { IsLowest (BreaksSharing count (has before.now) (has component.now)) result }
{
    lower(
        told_unless(!before.shares_variable(count, component), SHARED_VARIABLE),
        told_unless(!before.shares_end(count, component), CHANNEL_USE),
    )
}

impl Uses {
    /// What a component of a `PAR` uses that begins on this line joins what those before it use. What they share of the
    /// `count` names around is reported.
    pub(crate) fn join_beside(
        &mut self,
        told: &mut Option<UsageFault>,
        count: usize,
        line: u32,
        component: Uses,
    )
        ensures uses { Joins self.old self.new component }
        ensures told { IsFirst (Among told.old (At line (BreaksSharing count (has self.old) (has component))))
            told.new }
    {
        let found = fault_of_sharing(count, self, &component);
        *told = earlier(*told, fault_at(line, found));
        self.join(component);
    }
}
