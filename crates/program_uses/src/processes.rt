//! What processes use.

ghost use Rattle.occam_parser.specs.LineViews.{replicator_of};
ghost use Rattle.std.specs.Prelude.{length, ◌⊎◌};
ghost use Rattle.occam_parser.specs.BlockViews.{process_of, construct_of, body_of, branch_of, all_processes};
ghost use Rattle.scalar_ranges.specs.Scopes.{entries_of, known_of, meaning_of};
ghost use Rattle.program_uses.specs.ActionViews.{around_of};
ghost use Rattle.program_uses.specs.Components.{BreakSharing};
ghost use Rattle.program_uses.specs.Declaring.{add};
ghost use Rattle.program_uses.specs.Indices.{is_sequence};
ghost use Rattle.program_uses.specs.ParRules.{BreaksSharing};
ghost use Rattle.program_uses.specs.Processes.{Collects, uses_of, uses_of_construct, uses_of_body, uses_of_components};
ghost use Rattle.program_uses.specs.Processes.{uses_of_component, uses_of_one};
ghost use Rattle.program_uses.specs.Sets.{has, is_among};
ghost use Rattle.program_uses.specs.Sharing.{Shares, SharesInConstruct, SharesInBody, SharesInTurns};
ghost use Rattle.program_uses.specs.Sharing.{SharesInComponents};
ghost use Rattle.program_uses.specs.Sharing.{SharesInComponent, SharesInOne, uses_apart, SharesApart};
ghost use Rattle.program_uses.specs.Telling.{At};

use crate::actions::{Around, is_before};
use crate::indices::{index_meaning, is_sequence, turns_of};
use crate::telling::UsageFault;
use crate::uses::Uses;
use occam_parser::{Body, Branch, Construct, Process, Replicator};
use scalar_ranges::{Meaning, Scope};

impl Uses {
    /// What a process uses. The scope is afterwards as it was.
    #[cycle(collect)]
    pub fn collect<'a>(
        &mut self,
        told: &mut Option<UsageFault>,
        around: Around,
        scope: &mut Scope<'a>,
        process: &Process<'a>,
    )
        ensures { Collects self.old self.new told.old told.new (known_of scope.old) (known_of scope.new)
            (uses_of (around_of around.entry) (entries_of scope.old) (process_of process.now))
            (Shares (around_of around.entry) (entries_of scope.old) (process_of process.now)) }
    {
        let count = scope.len();
        self.enter_all(scope, &process.declarations);
        self.collect_construct(told, around, scope, process.line, &process.construct);
        scope.leave(count);
    }

    /// What a construct uses that begins on this line.
    #[cycle(collect)]
    fn collect_construct<'a>(
        &mut self,
        told: &mut Option<UsageFault>,
        around: Around,
        scope: &mut Scope<'a>,
        line: u32,
        construct: &Construct<'a>,
    )
        ensures { Collects self.old self.new told.old told.new (known_of scope.old) (known_of scope.new)
            (uses_of_construct (around_of around.entry) (entries_of scope.old) line (construct_of construct.now))
            (SharesInConstruct (around_of around.entry) (entries_of scope.old) line (construct_of construct.now)) }
    {
        match construct {
            Construct::Action(action) => self.act(around, scope, line, action),
            Construct::Seq(processes) => {
                for process in processes {
                    self.collect(told, around, scope, process);
                }
            }
            Construct::Par(processes) => self.collect_par(told, around, scope, line, processes),
            Construct::If(choices) => {
                for choice in choices {
                    self.read(scope, &choice.condition);
                    self.collect(told, around, scope, &choice.process);
                }
            }
            Construct::Alt(branches) => {
                for branch in branches {
                    self.collect_branch(told, around, scope, branch);
                }
            }
            Construct::Replicated { replicator, body } => {
                self.read(scope, &replicator.base);
                self.read(scope, &replicator.count);
                self.collect_replicated(told, around, scope, line, replicator, body);
            }
        }
    }

    /// What the components of a `PAR` use that begins on this line.
    #[cycle(collect)]
    fn collect_par<'a>(
        &mut self,
        told: &mut Option<UsageFault>,
        around: Around,
        scope: &mut Scope<'a>,
        line: u32,
        processes: &[Process<'a>],
    )
        ensures { Collects self.old self.new told.old told.new (known_of scope.old) (known_of scope.new)
            (uses_of_components (around_of around.entry) (entries_of scope.old) (all_processes processes.now))
            (λ f. SharesInComponents (around_of around.entry) (entries_of scope.old) (all_processes processes.now) f
            ⊎ At line (BreakSharing (around_of around.entry) (entries_of scope.old) (all_processes processes.now)) f) }
    {
        let mut before = self.fresh();
        for process in processes {
            before.collect_beside(told, around, scope, line, process);
        }
        self.join(before);
    }

    /// What a component of a `PAR` uses that begins on this line, besides what those before it use.
    #[cycle(collect)]
    fn collect_beside<'a>(
        &mut self,
        told: &mut Option<UsageFault>,
        around: Around,
        scope: &mut Scope<'a>,
        line: u32,
        process: &Process<'a>,
    )
        ensures { Collects self.old self.new told.old told.new (known_of scope.old) (known_of scope.new)
            (uses_of (around_of around.entry) (entries_of scope.old) (process_of process.now))
            (λ f. Shares (around_of around.entry) (entries_of scope.old) (process_of process.now) f
            ⊎ At line (BreaksSharing (length (entries_of scope.old)) (has self.old)
            (is_among (uses_of (around_of around.entry) (entries_of scope.old) (process_of process.now)))) f) }
    {
        let mut used = self.fresh();
        used.collect(told, around, scope, process);
        self.join_beside(told, scope.len(), line, used);
    }

    /// What a body uses in all its turns, under a replicator on this line.
    #[cycle(collect)]
    pub(crate) fn collect_replicated<'a>(
        &mut self,
        told: &mut Option<UsageFault>,
        around: Around,
        scope: &mut Scope<'a>,
        line: u32,
        replicator: &Replicator<'a>,
        body: &Body<'a>,
    )
        ensures { Collects self.old self.new told.old told.new (known_of scope.old) (known_of scope.new)
            (uses_of_body (around_of around.entry) (entries_of scope.old) line (replicator_of replicator.now)
            (body_of body.now))
            (SharesInBody (around_of around.entry) (entries_of scope.old) line (replicator_of replicator.now)
            (body_of body.now)) }
    {
        match body {
            Body::Par(_) => self.collect_apart(told, around, scope, line, replicator, body),
            Body::Seq(_) | Body::If(_) | Body::Alt(_) => {
                self.collect_turns(told, around, scope, line, replicator, body);
            }
        }
    }

    /// What the turns of a body use.
    #[cycle(collect)]
    fn collect_turns<'a>(
        &mut self,
        told: &mut Option<UsageFault>,
        around: Around,
        scope: &mut Scope<'a>,
        line: u32,
        replicator: &Replicator<'a>,
        body: &Body<'a>,
    )
        ensures { Collects self.old self.new told.old told.new (known_of scope.old) (known_of scope.new)
            (uses_of_body (around_of around.entry) (entries_of scope.old) line (replicator_of replicator.now)
            (body_of body.now))
            (SharesInTurns (around_of around.entry) (entries_of scope.old) line (replicator_of replicator.now)
            (is_sequence (body_of body.now)) (body_of body.now)) }
    {
        let sequential = is_sequence(body);
        let counted = is_before(line, around.uncounted);
        let turns = turns_of(counted, scope, sequential, replicator);
        for turn in 0..turns.count {
            let meaning = index_meaning(sequential, turns.index_at(turn));
            self.collect_turn(told, around, scope, replicator.name, meaning, body);
        }
    }

    /// What the turns of a `PAR` use that begins on this line.
    #[cycle(collect)]
    fn collect_apart<'a>(
        &mut self,
        told: &mut Option<UsageFault>,
        around: Around,
        scope: &mut Scope<'a>,
        line: u32,
        replicator: &Replicator<'a>,
        body: &Body<'a>,
    )
        ensures { Collects self.old self.new told.old told.new (known_of scope.old) (known_of scope.new)
            (uses_apart (around_of around.entry) (entries_of scope.old) line (replicator_of replicator.now)
            (body_of body.now))
            (SharesApart (around_of around.entry) (entries_of scope.old) line (replicator_of replicator.now)
            (body_of body.now)) }
    {
        let turns = turns_of(is_before(line, around.uncounted), scope, false, replicator);
        let mut before = self.fresh();
        for turn in 0..turns.count {
            let mut used = self.fresh();
            let meaning = index_meaning(false, turns.index_at(turn));
            used.collect_turn(told, around, scope, replicator.name, meaning, body);
            before.join_beside(told, scope.len(), line, used);
        }
        self.join(before);
    }

    /// What a body uses where its index denotes this.
    #[cycle(collect)]
    pub(crate) fn collect_turn<'a>(
        &mut self,
        told: &mut Option<UsageFault>,
        around: Around,
        scope: &mut Scope<'a>,
        name: &'a [u8],
        meaning: Meaning,
        body: &Body<'a>,
    )
        ensures { Collects self.old self.new told.old told.new (known_of scope.old) (known_of scope.new)
            (uses_of_one (around_of around.entry) (add name.now (meaning_of meaning) (entries_of scope.old))
            (body_of body.now))
            (SharesInOne (around_of around.entry) (add name.now (meaning_of meaning) (entries_of scope.old))
            (body_of body.now)) }
    {
        let count = scope.len();
        self.enter_name(scope, name, meaning);
        self.collect_body(told, around, scope, body);
        scope.leave(count);
    }

    /// What a body uses in one turn.
    #[cycle(collect)]
    fn collect_body<'a>(
        &mut self,
        told: &mut Option<UsageFault>,
        around: Around,
        scope: &mut Scope<'a>,
        body: &Body<'a>,
    )
        ensures { Collects self.old self.new told.old told.new (known_of scope.old) (known_of scope.new)
            (uses_of_one (around_of around.entry) (entries_of scope.old) (body_of body.now))
            (SharesInOne (around_of around.entry) (entries_of scope.old) (body_of body.now)) }
    {
        match body {
            Body::Seq(process) | Body::Par(process) => self.collect(told, around, scope, process),
            Body::If(choice) => {
                self.read(scope, &choice.condition);
                self.collect(told, around, scope, &choice.process);
            }
            Body::Alt(branch) => self.collect_branch(told, around, scope, branch),
        }
    }

    /// What a branch of an `ALT` uses.
    #[cycle(collect)]
    fn collect_branch<'a>(
        &mut self,
        told: &mut Option<UsageFault>,
        around: Around,
        scope: &mut Scope<'a>,
        branch: &Branch<'a>,
    )
        ensures { Collects self.old self.new told.old told.new (known_of scope.old) (known_of scope.new)
            (uses_of_component (around_of around.entry) (entries_of scope.old) (branch_of branch.now))
            (SharesInComponent (around_of around.entry) (entries_of scope.old) (branch_of branch.now)) }
    {
        self.guard(scope, &branch.guard);
        self.collect(told, around, scope, &branch.process);
    }
}
