//! Writing the code of alternations. If a function fails, some pieces more may have come.

ghost use Rattle.std.specs.Prelude.{◌≡◌, IfOk, option_map};
ghost use Rattle.occam_parser.specs.Views.{expression_of};
ghost use Rattle.occam_parser.specs.LineViews.{guard_of, place_of, replicator_of};
ghost use Rattle.occam_parser.specs.BlockViews.{branch_of, all_branches};
ghost use Rattle.scalar_ranges.specs.Scopes.{entries_of};
ghost use Rattle.code_generator.specs.Alternations.{is_tested, StaysSo, Chooses, Receives, Narrows, Tests, WritesStop};
ghost use Rattle.code_generator.specs.Alternations.{exits_in, WritesBranch, WritesBranches, WritesSome};
ghost use Rattle.code_generator.specs.Alternations.{FollowsAlt, FollowsRepeatedAlt};

use crate::calling::Surroundings;
use crate::choices::times;
use crate::guards::{Exits, Guards, Labels, condition_of, source_of, write_choosing, write_ready};
use crate::limits::Limits;
use crate::processes::ProcessWriter;
use code_pieces::{Piece, operations};
use line_pieces::{Home, Setting, label_after};
use module_builder::GenFault;
use occam_parser::{Branch, Expr, Guard, Place, Replicator};
use program_sizes::size_of_guard;
use program_uses::{Repeats, add_name, is_before, repeats_of};
use program_work::reading_of_guard;
use scalar_ranges::{Meaning, narrow_by, test_of, value_of};
use usage_checks::after_input;

/// The turns of a replicator.
#[derive(Clone, Copy)]
pub(crate) struct Replication<'a> {
    /// The index.
    name: &'a [u8],
    repeats: Repeats,
    count: u32,
}

impl<'a> ProcessWriter<'a> {
    /// A guard more, with its condition.
    fn add_guard(
        &mut self,
        limits: Limits,
        guards: &mut Guards,
        guard: &Guard,
    ) -> Result<(), GenFault>
        ensures { IfOk result (λ _. StaysSo self.old self.new) }
    {
        self.walk_over(limits, size_of_guard(guard), reading_of_guard(guard))?;
        let setting = Setting {
            scope: &self.scope,
            homes: &self.frame.homes,
            top: guards.top(),
        };
        let source = source_of(setting, guard)?;
        let others = guards.ready(source);
        let ready = write_ready(&mut self.listing, setting, others, condition_of(guard))?;
        guards.add(source, ready)
    }

    /// The guard under a replicator more, where the index means this.
    fn add_turn(
        &mut self,
        limits: Limits,
        guards: &mut Guards,
        name: &'a [u8],
        index: Meaning,
        guard: &Guard,
    ) -> Result<(), GenFault>
        ensures { IfOk result (λ _. StaysSo self.old self.new) }
    {
        self.scope.begin()?;
        add_name(&mut self.scope, name, index)?;
        self.add_guard(limits, guards, guard)?;
        self.scope.end();
        Ok(())
    }

    /// The guards of branches.
    #[inline(never)]
    fn guards_of(&mut self, limits: Limits, branches: &[Branch<'a>]) -> Result<Guards, GenFault>
        ensures { IfOk result (λ _. StaysSo self.old self.new) }
    {
        let mut guards = Guards::new(self.alloc, self.frame.top);
        for branch in branches {
            self.add_guard(limits, &mut guards, &branch.guard)?;
        }
        Ok(guards)
    }

    /// A guard under a replicator, once for each turn.
    #[inline(never)]
    fn guards_in_turns(
        &mut self,
        limits: Limits,
        turns: Replication<'a>,
        guard: &Guard,
    ) -> Result<Guards, GenFault>
        ensures { IfOk result (λ _. StaysSo self.old self.new) }
    {
        let mut guards = Guards::new(self.alloc, self.frame.top);
        for turn in 0..turns.count {
            let index = turns.repeats.index_in(turn);
            self.add_turn(limits, &mut guards, turns.name, index, guard)?;
        }
        Ok(guards)
    }

    /// Waits for guards, and goes on at one that is ready. Their labels are the result.
    #[inline(never)]
    fn choose(&mut self, guards: &Guards) -> Result<Labels, GenFault>
        ensures { IfOk result (λ _. StaysSo self.old self.new) }
    {
        let labels = Labels::from(self.label)?;
        self.label = labels.of(guards.count())?;
        write_choosing(&mut self.listing, self.alloc, labels, guards)?;
        Ok(labels)
    }

    /// An `ALT`.
    #[cycle(processes)]
    #[inline(never)]
    pub(crate) fn write_alt(
        &mut self,
        around: &Surroundings<'_, 'a>,
        branches: &[Branch<'a>],
    ) -> Result<(), GenFault>
        ensures { IfOk result (λ _. FollowsAlt self.old self.new around.now (all_branches branches.now)) }
    {
        let guards = self.guards_of(around.limits, branches)?;
        let labels = self.choose(&guards)?;
        self.scope.begin()?;
        self.write_branches(around, labels, &guards, branches)?;
        self.scope.end();
        self.write_row(around.limits, labels.end)
    }

    /// The branches of an `ALT`.
    #[cycle(processes)]
    fn write_branches(
        &mut self,
        around: &Surroundings<'_, 'a>,
        labels: Labels,
        guards: &Guards,
        branches: &[Branch<'a>],
    ) -> Result<(), GenFault>
        ensures { IfOk result (λ _. WritesBranches self.old self.new around.now
            (exits_in labels guards.now.sources.items) (all_branches branches.now)) }
    {
        for (number, branch) in branches.iter().enumerate() {
            let exits = labels.exits(guards, number)?;
            self.write_branch(around, exits, branch)?;
        }
        Ok(())
    }

    /// An `ALT` of a branch under a replicator.
    #[cycle(processes)]
    #[inline(never)]
    pub(crate) fn write_repeated_alt(
        &mut self,
        around: &Surroundings<'_, 'a>,
        line: u32,
        replicator: &Replicator<'a>,
        branch: &Branch<'a>,
    ) -> Result<(), GenFault>
        ensures { IfOk result (λ _. FollowsRepeatedAlt self.old self.new around.now line
            (replicator_of replicator.now) (branch_of branch.now)) }
    {
        let counted = is_before(line, around.around.uncounted);
        let repeats = repeats_of(counted, &self.scope, false, replicator);
        let turns = Replication {
            name: replicator.name,
            repeats,
            count: times(repeats),
        };
        let guards = self.guards_in_turns(around.limits, turns, &branch.guard)?;
        let labels = self.choose(&guards)?;
        let names = self.frame.homes.len();
        let top = self.frame.top;
        self.scope.begin()?;
        self.frame.add_home(Home::Nowhere)?;
        self.write_branch_turns(around, labels, &guards, turns, branch)?;
        self.frame.leave(names, top);
        self.scope.end();
        self.write_row(around.limits, labels.end)
    }

    /// A branch under a replicator, once for each turn.
    #[cycle(processes)]
    fn write_branch_turns(
        &mut self,
        around: &Surroundings<'_, 'a>,
        labels: Labels,
        guards: &Guards,
        turns: Replication<'a>,
        branch: &Branch<'a>,
    ) -> Result<(), GenFault>
        ensures { IfOk result (λ _. WritesSome self.old self.new around.now
            (exits_in labels guards.now.sources.items) turns.entry (branch_of branch.now) turns.entry.count) }
    {
        for turn in 0..turns.count {
            add_name(&mut self.scope, turns.name, turns.repeats.index_in(turn))?;
            let exits = labels.exits(guards, turn as usize)?;
            self.write_branch(around, exits, branch)?;
        }
        Ok(())
    }

    /// A branch.
    #[cycle(processes)]
    fn write_branch(
        &mut self,
        around: &Surroundings<'_, 'a>,
        exits: Exits,
        branch: &Branch<'a>,
    ) -> Result<(), GenFault>
        ensures { IfOk result (λ _. WritesBranch self.old self.new around.now exits (branch_of branch.now)) }
    {
        self.write_row(around.limits, exits.here)?;
        let stops = self.write_guard(around.limits, exits.next, &branch.guard)?;
        self.write(around, &branch.process)?;
        self.scope.next();
        self.listing.push(Piece::Jump { to: exits.end })?;
        self.write_stop_at(around.limits, stops)
    }

    /// A guard that is chosen. Where it does not hold, code goes on at the next one that waits for the same. If there
    /// is none, the result is the label where it goes on.
    fn write_guard(
        &mut self,
        limits: Limits,
        next: Option<usize>,
        guard: &Guard,
    ) -> Result<Option<usize>, GenFault>
        ensures { IfOk result (λ stops. Chooses self.old self.new next stops (guard_of guard.now)) }
    {
        let stops = self.write_condition(limits, next, condition_of(guard))?;
        match guard {
            Guard::Input {
                channel,
                target,
                ..
            } => self.receive(channel, target)?,
            Guard::Skip { .. } => {}
        }
        Ok(stops)
    }

    /// The input of a guard.
    fn receive(&mut self, channel: &Place, target: &Place) -> Result<(), GenFault>
        ensures { IfOk result (λ _. Receives self.old self.new (place_of channel.now) (place_of target.now)) }
    {
        let setting = Setting {
            scope: &self.scope,
            homes: &self.frame.homes,
            top: self.frame.top,
        };
        self.listing.write_input(setting, channel, target)?;
        after_input(&mut self.scope, target);
        Ok(())
    }

    /// The condition of a guard that is chosen, which narrows.
    fn write_condition(
        &mut self,
        limits: Limits,
        next: Option<usize>,
        condition: Option<&Expr>,
    ) -> Result<Option<usize>, GenFault>
        ensures { IfOk result (λ stops. Narrows self.old self.new next stops
            (option_map (λ e. expression_of e.now) condition.entry)) }
    {
        let Some(condition) = condition else {
            return Ok(None);
        };
        let stops = self.write_unless(limits, next, condition)?;
        narrow_by(&mut self.scope, condition, true);
        Ok(stops)
    }

    /// A jump to the next guard where a condition does not hold, or to a new label, if it is tested.
    fn write_unless(
        &mut self,
        limits: Limits,
        next: Option<usize>,
        condition: &Expr,
    ) -> Result<Option<usize>, GenFault>
        ensures { IfOk result (λ stops. Tests self.old self.new next stops (expression_of condition.now)) }
    {
        if !self.is_tested(next, condition) {
            return Ok(None);
        }
        if let Some(next) = next {
            self.write_test(limits, condition, next)?;
            return Ok(None);
        }
        let stops = self.label;
        self.label = label_after(stops)?;
        self.write_test(limits, condition, stops)?;
        Ok(Some(stops))
    }

    /// Whether the condition of a guard that is chosen is tested again: if it is not TRUE, and another one waits for
    /// the same or it narrows.
    fn is_tested(&self, next: Option<usize>, condition: &Expr) -> bool
        ensures { result ≡ is_tested (entries_of self.now.scope) next (expression_of condition.now) }
    {
        match value_of(&self.scope, condition) {
            Some(value) => value == 0 && next.is_some(),
            None => next.is_some() || test_of(&self.scope, condition).is_some(),
        }
    }

    /// The process stops at a label, if there is one.
    fn write_stop_at(&mut self, limits: Limits, label: Option<usize>) -> Result<(), GenFault>
        ensures { IfOk result (λ _. WritesStop self.old self.new label) }
    {
        if let Some(label) = label {
            self.write_row(limits, label)?;
            self.listing.operate(operations::STOP_PROCESS)?;
        }
        Ok(())
    }
}
