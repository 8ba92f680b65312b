//! The walk over processes.

ghost use Rattle.occam_layout.specs.declared.mark.Mark.TheVariants as mark;
ghost use Rattle.occam_parser.specs.Terminals.{Mark};
ghost use Rattle.occam_parser.specs.Blocks.{Act, Replicated};
ghost use Rattle.occam_parser.specs.LineViews.{action_of, replicator_of};
ghost use Rattle.occam_parser.specs.BlockViews.{process_of, construct_of, choice_of, branch_of, plain_component};
ghost use Rattle.occam_parser.specs.BlockViews.{body_of};
ghost use Rattle.occam_parser.specs.BlockViews.{all_processes, all_choices, all_branches};
ghost use Rattle.std.specs.Prelude.{◌≡◌, true};
ghost use Rattle.scalar_ranges.specs.Moves.{begin, begin_par, begin_loop};
ghost use Rattle.scalar_ranges.specs.Scopes.{entries_of, known_of};
ghost use Rattle.program_uses.specs.ActionViews.{around_of};
ghost use Rattle.program_uses.specs.Changes.{changed_by, changed_by_body};
ghost use Rattle.program_uses.specs.Listing.{SameNumbers};
ghost use Rattle.usage_checks.specs.AfterProcesses.{unless, begun_turns, repeated};
ghost use Rattle.usage_checks.specs.ProcessRules.{position_in};
ghost use Rattle.program_uses.specs.Telling.{At};
ghost use Rattle.usage_checks.specs.Telling.{Walks};
ghost use Rattle.usage_checks.specs.LineRules.{BreaksReplicator};
ghost use Rattle.usage_checks.specs.Walking.{WalksProcess, WalksConstruct, WalksBlock, WalksComponent};
ghost use Rattle.usage_checks.specs.Walking.{word_of, WalksBody, WalksTurn};
ghost use Rattle.usage_checks.specs.HavingLists.{HasProcess, HasConstruct, HasComponents, HasComponent, HasBody};
ghost use Rattle.usage_checks.specs.HavingLists.{HasTurn};

use crate::channel_rules::Position;
use crate::line_rules::fault_of_replicator;
use crate::telling::Findings;
use loop_scopes::begin_loop;
use occam_parser::{Action, Body, Branch, Choice, Construct, Process, Replicator};
use program_uses::{
    Around, ChangeLists, is_before, is_sequence, repeats_of, variables_changed,
    variables_changed_in,
};
use scalar_ranges::Scope;
use std::alloc::Global;

/// Where a process is, and what is known of the program there.
#[derive(Clone, Copy)]
pub(crate) struct Site<'s> {
    pub(crate) alloc: Global,
    pub(crate) around: Around<'s>,
    pub(crate) position: Position,
    /// What the constructs in the procedure change.
    pub(crate) lists: &'s ChangeLists,
}

impl<'s> Site<'s> {
    /// Where the components of a `PAR` are that begins here, with `count` names.
    fn in_par(self, count: usize) -> Site<'s>
        ensures around { result.around ≡ self.entry.around }
        ensures lists { result.lists ≡ self.entry.lists }
        ensures position { result.position ≡ position_in (Mark mark.Par) count self.entry.position }
    {
        Site {
            position: Position {
                parallel: count,
                ..self.position
            },
            ..self
        }
    }

    /// Where the component under a replicator is that begins here, with `count` names.
    fn in_body(self, body: &Body, count: usize) -> Site<'s>
        ensures around { result.around ≡ self.entry.around }
        ensures lists { result.lists ≡ self.entry.lists }
        ensures position { result.position ≡ position_in (word_of (body_of body.now)) count self.entry.position }
    {
        match body {
            Body::Par(_) => self.in_par(count),
            Body::Seq(_) | Body::If(_) | Body::Alt(_) => self,
        }
    }
}

/// A body ends after its last turn.
fn end_body(scope: &mut Scope, happens: bool)
    ensures { known_of scope.new ≡ repeated happens (known_of scope.old) }
{
    scope.end();
    if !happens {
        scope.end();
    }
}

impl Findings {
    /// The numbers of the variables that a process changes.
    fn changes<'a>(
        &mut self,
        site: Site,
        scope: &mut Scope<'a>,
        process: &Process<'a>,
    ) -> Vec<usize>
        ensures walks { Walks self.old self.new (known_of scope.new) (known_of scope.old) (λ f. ⊥) }
        ensures numbers { self.new.complete ≡ true → SameNumbers result.items
            (changed_by (around_of site.entry.around).signatures (entries_of scope.old) (process_of process.now)) }
    {
        match variables_changed(site.alloc, site.around.signatures, scope, process) {
            Ok(numbers) => numbers,
            Err(_) => {
                self.fail();
                Vec::new(site.alloc)
            }
        }
    }

    /// A replicator on this line.
    fn walk_replicator(&mut self, scope: &Scope, line: u32, replicator: &Replicator)
        ensures { Walks self.old self.new (known_of scope.now) (known_of scope.now)
            (At line (BreaksReplicator (entries_of scope.now) (replicator_of replicator.now))) }
    {
        self.tell(line, fault_of_replicator(scope, replicator));
    }

    /// The body of a replicated `SEQ` on this line begins.
    fn begin_loop<'a>(
        &mut self,
        site: Site,
        scope: &mut Scope<'a>,
        line: u32,
        replicator: &Replicator<'a>,
        body: &Body<'a>,
    )
        requires { HasBody self.old site line (replicator_of replicator.now) (body_of body.now) (known_of scope.old) }
        ensures { Walks self.old self.new (known_of scope.new)
            (begin_loop (changed_by_body (around_of site.entry.around).signatures (entries_of scope.old)
            (replicator_of replicator.now) (body_of body.now)) (known_of scope.old)) (λ f. ⊥) }
    {
        match site.lists.on_line(line) {
            Some(numbers) => self.begin_widened(scope, numbers),
            None => self.begin_found(site, scope, replicator, body),
        }
    }

    /// The same, where the variables that the body changes are not listed.
    fn begin_found<'a>(
        &mut self,
        site: Site,
        scope: &mut Scope<'a>,
        replicator: &Replicator<'a>,
        body: &Body<'a>,
    )
        ensures { Walks self.old self.new (known_of scope.new)
            (begin_loop (changed_by_body (around_of site.entry.around).signatures (entries_of scope.old)
            (replicator_of replicator.now) (body_of body.now)) (known_of scope.old)) (λ f. ⊥) }
    {
        match variables_changed_in(site.alloc, site.around.signatures, scope, replicator, body) {
            Ok(numbers) => self.begin_widened(scope, &numbers),
            Err(_) => self.fail(),
        }
    }

    /// The body of a loop begins that changes the variables with these numbers.
    fn begin_widened(&mut self, scope: &mut Scope, numbers: &[usize])
        ensures { Walks self.old self.new (known_of scope.new) (begin_loop numbers.now (known_of scope.old)) (λ f. ⊥) }
    {
        match begin_loop(scope, numbers) {
            Ok(()) => {}
            Err(_) => self.fail(),
        }
    }

    /// What does not happen begins inside a block without branches.
    fn begin_unless(&mut self, scope: &mut Scope, happens: bool)
        ensures { Walks self.old self.new (known_of scope.new) (unless happens begin (known_of scope.old)) (λ f. ⊥) }
    {
        if !happens {
            self.begin(scope);
        }
    }

    /// The turns of a body under a replicator on this line begin.
    fn begin_turns<'a>(
        &mut self,
        site: Site,
        scope: &mut Scope<'a>,
        line: u32,
        replicator: &Replicator<'a>,
        body: &Body<'a>,
    )
        requires { HasBody self.old site line (replicator_of replicator.now) (body_of body.now) (known_of scope.old) }
        ensures { Walks self.old self.new (known_of scope.new)
            (begun_turns (word_of (body_of body.now)) (changed_by_body (around_of site.entry.around).signatures
            (entries_of scope.old) (replicator_of replicator.now) (body_of body.now)) (known_of scope.old))
            (λ f. ⊥) }
    {
        match body {
            Body::Seq(_) => self.begin_loop(site, scope, line, replicator, body),
            Body::Par(_) => self.begin_par(scope),
            Body::If(_) | Body::Alt(_) => self.begin(scope),
        }
    }

    /// An `IF` or an `ALT` begins.
    fn begin(&mut self, scope: &mut Scope)
        ensures { Walks self.old self.new (known_of scope.new) (begin (known_of scope.old)) (λ f. ⊥) }
    {
        match scope.begin() {
            Ok(()) => {}
            Err(_) => self.fail(),
        }
    }

    /// A `PAR` begins.
    fn begin_par(&mut self, scope: &mut Scope)
        ensures { Walks self.old self.new (known_of scope.new) (begin_par (known_of scope.old)) (λ f. ⊥) }
    {
        match scope.begin_par() {
            Ok(()) => {}
            Err(_) => self.fail(),
        }
    }

    /// An action on this line, with what it passes twice.
    fn walk_act(&mut self, site: Site, scope: &mut Scope, line: u32, action: &Action)
        ensures { WalksConstruct self.old self.new site.entry line (Act (action_of action.now)) (known_of scope.old)
            (known_of scope.new) }
    {
        self.walk_passing(site, scope, line, action);
        self.walk_action(site.position, site.around.signatures, scope, line, action);
    }

    /// A process, with what it declares.
    #[cycle(walk)]
    pub(crate) fn walk<'a>(&mut self, site: Site, scope: &mut Scope<'a>, process: &Process<'a>)
        requires { HasProcess self.old site (process_of process.now) (known_of scope.old) }
        ensures { WalksProcess self.old self.new site.entry (process_of process.now) (known_of scope.old)
            (known_of scope.new) }
    {
        self.walk_declarations(scope, &process.declarations);
        self.walk_construct(site, scope, process.line, &process.construct);
    }

    /// A construct that begins on this line.
    #[cycle(walk)]
    fn walk_construct<'a>(
        &mut self,
        site: Site,
        scope: &mut Scope<'a>,
        line: u32,
        construct: &Construct<'a>,
    )
        requires { HasConstruct self.old site line (construct_of construct.now) (known_of scope.old) }
        ensures { WalksConstruct self.old self.new site.entry line (construct_of construct.now) (known_of scope.old)
            (known_of scope.new) }
    {
        match construct {
            Construct::Action(action) => self.walk_act(site, scope, line, action),
            Construct::Seq(processes) => self.walk_seq(site, scope, processes),
            Construct::Par(processes) => self.walk_par(site, scope, processes),
            Construct::If(choices) => self.walk_if(site, scope, choices),
            Construct::Alt(branches) => self.walk_alt(site, scope, branches),
            Construct::Replicated { replicator, body } => {
                self.walk_replicated(site, scope, line, replicator, body);
            }
        }
    }

    /// The processes of a `SEQ`.
    #[cycle(walk)]
    fn walk_seq<'a>(&mut self, site: Site, scope: &mut Scope<'a>, processes: &[Process<'a>])
        requires { HasComponents self.old site (all_processes processes.now) (known_of scope.old) }
        ensures { WalksBlock self.old self.new site.entry (Mark mark.Seq) (all_processes processes.now)
            (known_of scope.old) (known_of scope.new) }
    {
        for process in processes {
            self.walk_process(site, scope, process);
        }
    }

    /// A process of a `SEQ`.
    #[cycle(walk)]
    fn walk_process<'a>(&mut self, site: Site, scope: &mut Scope<'a>, process: &Process<'a>)
        requires { HasComponent self.old site (plain_component process.now) (known_of scope.old) }
        ensures { WalksComponent self.old self.new site.entry (Mark mark.Seq) (plain_component process.now)
            (known_of scope.old) (known_of scope.new) }
    {
        let count = scope.len();
        self.walk(site, scope, process);
        scope.leave(count);
    }

    /// The components of a `PAR`.
    #[cycle(walk)]
    fn walk_par<'a>(&mut self, site: Site, scope: &mut Scope<'a>, processes: &[Process<'a>])
        requires { HasComponents self.old site (all_processes processes.now) (known_of scope.old) }
        ensures { WalksBlock self.old self.new site.entry (Mark mark.Par) (all_processes processes.now)
            (known_of scope.old) (known_of scope.new) }
    {
        let inner = site.in_par(scope.len());
        self.begin_par(scope);
        for process in processes {
            self.walk_component(inner, scope, process);
        }
        scope.end();
    }

    /// A component of a `PAR`.
    #[cycle(walk)]
    fn walk_component<'a>(&mut self, site: Site, scope: &mut Scope<'a>, process: &Process<'a>)
        requires { HasComponent self.old site (plain_component process.now) (known_of scope.old) }
        ensures { WalksComponent self.old self.new site.entry (Mark mark.Par) (plain_component process.now)
            (known_of scope.old) (known_of scope.new) }
    {
        match site.lists.on_line(process.line) {
            Some(numbers) => self.walk_changing(site, scope, process, numbers),
            None => {
                let numbers = self.changes(site, scope, process);
                self.walk_changing(site, scope, process, &numbers);
            }
        }
    }

    /// A component of a `PAR` that changes the variables with these numbers.
    #[cycle(walk)]
    fn walk_changing<'a>(
        &mut self,
        site: Site,
        scope: &mut Scope<'a>,
        process: &Process<'a>,
        numbers: &[usize],
    )
        requires listed { HasProcess self.old site (process_of process.now) (known_of scope.old) }
        requires numbers { self.old.complete ≡ true → SameNumbers numbers.now
            (changed_by (around_of site.around).signatures (entries_of scope.old) (process_of process.now)) }
        ensures { WalksComponent self.old self.new site.entry (Mark mark.Par) (plain_component process.now)
            (known_of scope.old) (known_of scope.new) }
    {
        self.walk(site, scope, process);
        scope.next_component(numbers);
    }

    /// The choices of an `IF`.
    #[cycle(walk)]
    fn walk_if<'a>(&mut self, site: Site, scope: &mut Scope<'a>, choices: &[Choice<'a>])
        requires { HasComponents self.old site (all_choices choices.now) (known_of scope.old) }
        ensures { WalksBlock self.old self.new site.entry (Mark mark.If) (all_choices choices.now)
            (known_of scope.old) (known_of scope.new) }
    {
        self.begin(scope);
        for choice in choices {
            self.walk_choice(site, scope, choice);
        }
        scope.end();
    }

    /// A choice of an `IF`.
    #[cycle(walk)]
    fn walk_choice<'a>(&mut self, site: Site, scope: &mut Scope<'a>, choice: &Choice<'a>)
        requires { HasComponent self.old site (choice_of choice.now) (known_of scope.old) }
        ensures { WalksComponent self.old self.new site.entry (Mark mark.If) (choice_of choice.now)
            (known_of scope.old) (known_of scope.new) }
    {
        scope.exclude(&choice.condition);
        self.walk_condition(scope, choice.line, &choice.condition);
        self.walk(site, scope, &choice.process);
        scope.next();
    }

    /// The branches of an `ALT`.
    #[cycle(walk)]
    fn walk_alt<'a>(&mut self, site: Site, scope: &mut Scope<'a>, branches: &[Branch<'a>])
        requires { HasComponents self.old site (all_branches branches.now) (known_of scope.old) }
        ensures { WalksBlock self.old self.new site.entry (Mark mark.Alt) (all_branches branches.now)
            (known_of scope.old) (known_of scope.new) }
    {
        self.begin(scope);
        for branch in branches {
            self.walk_branch(site, scope, branch);
        }
        scope.end();
    }

    /// A branch of an `ALT`.
    #[cycle(walk)]
    fn walk_branch<'a>(&mut self, site: Site, scope: &mut Scope<'a>, branch: &Branch<'a>)
        requires { HasComponent self.old site (branch_of branch.now) (known_of scope.old) }
        ensures { WalksComponent self.old self.new site.entry (Mark mark.Alt) (branch_of branch.now)
            (known_of scope.old) (known_of scope.new) }
    {
        self.walk_guard(site.position, scope, branch.line, &branch.guard);
        self.walk(site, scope, &branch.process);
        scope.next();
    }

    /// A construct under a replicator.
    #[cycle(walk)]
    fn walk_replicated<'a>(
        &mut self,
        site: Site,
        scope: &mut Scope<'a>,
        line: u32,
        replicator: &Replicator<'a>,
        body: &Body<'a>,
    )
        requires { HasConstruct self.old site line (Replicated (replicator_of replicator.now) (body_of body.now))
            (known_of scope.old) }
        ensures { WalksConstruct self.old self.new site.entry line
            (Replicated (replicator_of replicator.now) (body_of body.now)) (known_of scope.old) (known_of scope.new) }
    {
        self.walk_replicator(scope, line, replicator);
        self.walk_body(site, scope, line, replicator, body);
    }

    /// A body under a replicator, turn by turn.
    #[cycle(walk)]
    fn walk_body<'a>(
        &mut self,
        site: Site,
        scope: &mut Scope<'a>,
        line: u32,
        replicator: &Replicator<'a>,
        body: &Body<'a>,
    )
        requires { HasConstruct self.old site line (Replicated (replicator_of replicator.now) (body_of body.now))
            (known_of scope.old) }
        ensures { WalksBody self.old self.new site.entry line (replicator_of replicator.now) (body_of body.now)
            (known_of scope.old) (known_of scope.new) }
    {
        let counted = is_before(line, site.around.uncounted);
        let repeats = repeats_of(counted, scope, is_sequence(body), replicator);
        let inner = site.in_body(body, scope.len());
        self.begin_unless(scope, repeats.happens);
        self.begin_turns(site, scope, line, replicator, body);
        for turn in 0..repeats.turns.count {
            self.enter(scope, replicator.name, repeats.index_in(turn));
            self.walk_turn(inner, scope, body);
        }
        end_body(scope, repeats.happens);
    }

    /// The component under a replicator, in one turn.
    #[cycle(walk)]
    fn walk_turn<'a>(&mut self, site: Site, scope: &mut Scope<'a>, body: &Body<'a>)
        requires { HasTurn self.old site (body_of body.now) (known_of scope.old) }
        ensures { WalksTurn self.old self.new site.entry (body_of body.now) (known_of scope.old) (known_of scope.new) }
    {
        match body {
            Body::Seq(process) => self.walk_process(site, scope, process),
            Body::Par(process) => self.walk_component(site, scope, process),
            Body::If(choice) => self.walk_choice(site, scope, choice),
            Body::Alt(branch) => self.walk_branch(site, scope, branch),
        }
    }
}
