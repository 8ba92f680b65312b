//! The weight of a program, item by item.

ghost use Rattle.std.specs.Prelude.{◌≡◌, true, false, [], ◌∷◌, map, None};
ghost use Rattle.std.specs.Option.{option_or};
ghost use Rattle.occam_parser.specs.LineViews.{action_of, declaration_of, formal_of, replicator_of};
ghost use Rattle.occam_parser.specs.BlockViews.{process_of, construct_of, body_of, choice_of, branch_of};
ghost use Rattle.occam_parser.specs.BlockViews.{all_processes, all_choices, all_branches, procedure_of, item_of};
ghost use Rattle.occam_parser.specs.Blocks.{GlobalProcedure};
ghost use Rattle.scalar_ranges.specs.Scopes.{entries_of, known_of, meaning_of};
ghost use Rattle.program_uses.specs.Declaring.{add, add_formals};
ghost use Rattle.program_uses.specs.Entering.{add_outlines};
ghost use Rattle.program_uses.specs.Extending.{Extends};
ghost use Rattle.program_uses.specs.Signatures.{signatures_of};
ghost use Rattle.usage_checks.specs.Sizes.{total, measure_of_action, measures_of, measures_of_construct};
ghost use Rattle.usage_checks.specs.Sizes.{measures_of_body, measures_of_components, measures_of_component};
ghost use Rattle.usage_checks.specs.Sizes.{measures_of_item};
ghost use Rattle.usage_checks.specs.Weighing.{Counts, Sums, Weighs, WeighsIn, end_at, declared_lines};
ghost use Rattle.usage_checks.specs.Weighing.{measures_of_one, measures_in_turns};

use crate::array_ends::{ends_of_instance, is_instance};
use crate::extending::add_formals;
use occam_parser::{
    Action, Body, Branch, Choice, Construct, Declaration, Formal, Item, Proc, Process, Replicator,
};
use program_sizes::{
    GREATEST_SIZE, plus, size_of_action, size_of_condition, size_of_constant, size_of_declarations,
    size_of_guard, size_of_head, size_of_replicator,
};
use program_uses::{Signature, add_name, add_outlines, index_meaning, is_sequence, turns_of};
use scalar_ranges::{Meaning, Scope};
use std::alloc::Global;

/// What is counted of a program so far. It remembers whether memory ran out, so that something may be missing.
#[derive(Clone, Copy)]
pub(crate) struct Weight {
    /// The sum of the sizes, up to just above the greatest one.
    pub(crate) sum: u32,
    /// The first line at which counting ends, if there is one.
    pub(crate) over: Option<u32>,
    pub(crate) complete: bool,
}

/// Counting ends on this line, if the sum is above the greatest size.
fn end_at(line: u32, sum: u32) -> Option<u32>
    ensures { result ≡ end_at line sum }
{
    if sum > GREATEST_SIZE {
        Some(line)
    } else {
        None
    }
}

impl Weight {
    /// Nothing is counted yet.
    pub(crate) fn new() -> Weight
        ensures sum { result.sum ≡ 0 }
        ensures over { result.over ≡ None }
    {
        Weight {
            sum: 0,
            over: None,
            complete: true,
        }
    }

    /// Something of this size.
    fn count(&mut self, size: u32)
        ensures { Counts self.old self.new size }
    {
        self.sum = plus(self.sum, size);
    }

    /// Counting ends on this line, if the sum is above the greatest size and it has not ended before.
    fn end(&mut self, line: u32)
        ensures sum { self.new.sum ≡ self.old.sum }
        ensures over { self.new.over ≡ option_or self.old.over (end_at line self.old.sum) }
        ensures complete { self.new.complete ≡ self.old.complete }
    {
        self.over = self.over.or(end_at(line, self.sum));
    }

    /// Memory ran out.
    fn fail(&mut self)
        ensures { self.new.complete ≡ false }
    {
        self.complete = false;
    }

    /// An action on this line.
    fn weigh_action(&mut self, signatures: &[Signature], scope: &Scope, line: u32, action: &Action)
        ensures { Weighs self.old self.new (measure_of_action (signatures_of signatures.now) (entries_of scope.now)
            line (action_of action.now) ∷ []) }
    {
        let ends = ends_of_instance(scope, signatures, action);
        self.count(plus(size_of_action(action), ends));
        if is_instance(action) {
            self.end(line);
        }
    }

    /// The names of declarations in the scope, with their lines.
    fn enter<'a>(&mut self, scope: &mut Scope<'a>, declarations: &[Declaration<'a>])
        ensures weight { Weighs self.old self.new (declared_lines (map declaration_of declarations.now)) }
        ensures entries { self.new.complete ≡ true → entries_of scope.new
            ≡ add_outlines (map declaration_of declarations.now) (entries_of scope.old) }
        ensures extends { Extends (known_of scope.old) (known_of scope.new) }
    {
        self.count(size_of_declarations(declarations));
        if add_outlines(scope, declarations).is_err() {
            self.fail();
        }
    }

    /// The name of an index in the scope.
    fn enter_index<'a>(&mut self, scope: &mut Scope<'a>, name: &'a [u8], meaning: Meaning)
        ensures weight { Weighs self.old self.new [] }
        ensures entries { self.new.complete ≡ true → entries_of scope.new
            ≡ add name.now (meaning_of meaning) (entries_of scope.old) }
        ensures extends { Extends (known_of scope.old) (known_of scope.new) }
    {
        if add_name(scope, name, meaning).is_err() {
            self.fail();
        }
    }

    /// The names of formals in the scope.
    fn enter_formals<'a>(&mut self, alloc: Global, scope: &mut Scope<'a>, formals: &[Formal<'a>])
        ensures weight { Weighs self.old self.new [] }
        ensures entries { self.new.complete ≡ true → entries_of scope.new
            ≡ add_formals (entries_of scope.old) (map formal_of formals.now) (entries_of scope.old) }
        ensures extends { Extends (known_of scope.old) (known_of scope.new) }
    {
        if add_formals(alloc, scope, formals).is_err() {
            self.fail();
        }
    }

    /// A process. The scope is afterwards as it was.
    #[cycle(weigh)]
    fn weigh<'a>(&mut self, signatures: &[Signature], scope: &mut Scope<'a>, process: &Process<'a>)
        ensures { WeighsIn self.old self.new (known_of scope.old) (known_of scope.new)
            (measures_of (signatures_of signatures.now) (entries_of scope.old) (process_of process.now)) }
    {
        let count = scope.len();
        self.enter(scope, &process.declarations);
        self.weigh_construct(signatures, scope, process.line, &process.construct);
        scope.leave(count);
    }

    /// A construct that begins on this line.
    #[cycle(weigh)]
    fn weigh_construct<'a>(
        &mut self,
        signatures: &[Signature],
        scope: &mut Scope<'a>,
        line: u32,
        construct: &Construct<'a>,
    )
        ensures { WeighsIn self.old self.new (known_of scope.old) (known_of scope.new)
            (measures_of_construct (signatures_of signatures.now) (entries_of scope.old) line
            (construct_of construct.now)) }
    {
        match construct {
            Construct::Action(action) => self.weigh_action(signatures, scope, line, action),
            Construct::Seq(processes) | Construct::Par(processes) => {
                self.count(1);
                self.weigh_processes(signatures, scope, processes);
            }
            Construct::If(choices) => {
                self.count(1);
                self.weigh_choices(signatures, scope, choices);
            }
            Construct::Alt(branches) => {
                self.count(1);
                self.weigh_branches(signatures, scope, branches);
            }
            Construct::Replicated { replicator, body } => {
                self.weigh_replicated(signatures, scope, line, replicator, body);
            }
        }
    }

    /// The processes of a `SEQ` or a `PAR`.
    #[cycle(weigh)]
    fn weigh_processes<'a>(
        &mut self,
        signatures: &[Signature],
        scope: &mut Scope<'a>,
        processes: &[Process<'a>],
    )
        ensures { WeighsIn self.old self.new (known_of scope.old) (known_of scope.new)
            (measures_of_components (signatures_of signatures.now) (entries_of scope.old)
            (all_processes processes.now)) }
    {
        for process in processes {
            self.weigh(signatures, scope, process);
        }
    }

    /// The choices of an `IF`.
    #[cycle(weigh)]
    fn weigh_choices<'a>(
        &mut self,
        signatures: &[Signature],
        scope: &mut Scope<'a>,
        choices: &[Choice<'a>],
    )
        ensures { WeighsIn self.old self.new (known_of scope.old) (known_of scope.new)
            (measures_of_components (signatures_of signatures.now) (entries_of scope.old)
            (all_choices choices.now)) }
    {
        for choice in choices {
            self.weigh_choice(signatures, scope, choice);
        }
    }

    /// A choice of an `IF`.
    #[cycle(weigh)]
    fn weigh_choice<'a>(
        &mut self,
        signatures: &[Signature],
        scope: &mut Scope<'a>,
        choice: &Choice<'a>,
    )
        ensures { WeighsIn self.old self.new (known_of scope.old) (known_of scope.new)
            (measures_of_component (signatures_of signatures.now) (entries_of scope.old) (choice_of choice.now)) }
    {
        self.count(size_of_condition(&choice.condition));
        self.weigh(signatures, scope, &choice.process);
    }

    /// The branches of an `ALT`.
    #[cycle(weigh)]
    fn weigh_branches<'a>(
        &mut self,
        signatures: &[Signature],
        scope: &mut Scope<'a>,
        branches: &[Branch<'a>],
    )
        ensures { WeighsIn self.old self.new (known_of scope.old) (known_of scope.new)
            (measures_of_components (signatures_of signatures.now) (entries_of scope.old)
            (all_branches branches.now)) }
    {
        for branch in branches {
            self.weigh_branch(signatures, scope, branch);
        }
    }

    /// A branch of an `ALT`.
    #[cycle(weigh)]
    fn weigh_branch<'a>(
        &mut self,
        signatures: &[Signature],
        scope: &mut Scope<'a>,
        branch: &Branch<'a>,
    )
        ensures { WeighsIn self.old self.new (known_of scope.old) (known_of scope.new)
            (measures_of_component (signatures_of signatures.now) (entries_of scope.old) (branch_of branch.now)) }
    {
        self.count(size_of_guard(&branch.guard));
        self.weigh(signatures, scope, &branch.process);
    }

    /// A construct under a replicator on this line.
    #[cycle(weigh)]
    fn weigh_replicated<'a>(
        &mut self,
        signatures: &[Signature],
        scope: &mut Scope<'a>,
        line: u32,
        replicator: &Replicator<'a>,
        body: &Body<'a>,
    )
        ensures { WeighsIn self.old self.new (known_of scope.old) (known_of scope.new)
            (measures_of_body (signatures_of signatures.now) (entries_of scope.old) line
            (replicator_of replicator.now) (body_of body.now)) }
    {
        self.count(size_of_replicator(replicator));
        if is_sequence(body) {
            let meaning = index_meaning(true, None);
            self.weigh_turn(signatures, scope, replicator.name, meaning, body);
        } else {
            let over = self.over;
            self.weigh_turns(signatures, scope, replicator, body);
            self.over = over;
            self.end(line);
        }
    }

    /// The turns of a body, until the sum is above the greatest size.
    #[cycle(weigh)]
    fn weigh_turns<'a>(
        &mut self,
        signatures: &[Signature],
        scope: &mut Scope<'a>,
        replicator: &Replicator<'a>,
        body: &Body<'a>,
    )
        ensures weight { Sums self.old self.new (total (measures_in_turns (signatures_of signatures.now)
            (entries_of scope.old) (replicator_of replicator.now) (body_of body.now))) }
        ensures scope { known_of scope.new ≡ known_of scope.old }
    {
        let sequential = is_sequence(body);
        let turns = turns_of(true, scope, sequential, replicator);
        for turn in 0..turns.count {
            if self.sum > GREATEST_SIZE {
                return;
            }
            let meaning = index_meaning(sequential, turns.index_at(turn));
            self.weigh_turn(signatures, scope, replicator.name, meaning, body);
        }
    }

    /// A body where its index denotes this.
    #[cycle(weigh)]
    fn weigh_turn<'a>(
        &mut self,
        signatures: &[Signature],
        scope: &mut Scope<'a>,
        name: &'a [u8],
        meaning: Meaning,
        body: &Body<'a>,
    )
        ensures { WeighsIn self.old self.new (known_of scope.old) (known_of scope.new)
            (measures_of_one (signatures_of signatures.now) (add name.now (meaning_of meaning) (entries_of scope.old))
            (body_of body.now)) }
    {
        let count = scope.len();
        self.enter_index(scope, name, meaning);
        self.weigh_body(signatures, scope, body);
        scope.leave(count);
    }

    /// The one component under a replicator.
    #[cycle(weigh)]
    fn weigh_body<'a>(&mut self, signatures: &[Signature], scope: &mut Scope<'a>, body: &Body<'a>)
        ensures { WeighsIn self.old self.new (known_of scope.old) (known_of scope.new)
            (measures_of_one (signatures_of signatures.now) (entries_of scope.old) (body_of body.now)) }
    {
        match body {
            Body::Seq(process) | Body::Par(process) => self.weigh(signatures, scope, process),
            Body::If(choice) => self.weigh_choice(signatures, scope, choice),
            Body::Alt(branch) => self.weigh_branch(signatures, scope, branch),
        }
    }

    /// A procedure, with its formals and its body.
    fn weigh_procedure<'a>(
        &mut self,
        alloc: Global,
        signatures: &[Signature],
        scope: &mut Scope<'a>,
        proc: &Proc<'a>,
    )
        ensures { WeighsIn self.old self.new (known_of scope.old) (known_of scope.new)
            (measures_of_item (signatures_of signatures.now) (entries_of scope.old)
            (GlobalProcedure (procedure_of proc.now))) }
    {
        let count = scope.len();
        self.count(size_of_head(proc));
        self.enter_formals(alloc, scope, &proc.formals);
        self.weigh(signatures, scope, &proc.body);
        scope.leave(count);
        self.count(1);
    }

    /// An item of the program, with the procedures before it. The scope is afterwards as it was.
    pub(crate) fn weigh_item<'a>(
        &mut self,
        alloc: Global,
        signatures: &[Signature],
        scope: &mut Scope<'a>,
        item: &Item<'a>,
    )
        ensures { WeighsIn self.old self.new (known_of scope.old) (known_of scope.new)
            (measures_of_item (signatures_of signatures.now) (entries_of scope.old) (item_of item.now)) }
    {
        match item {
            Item::Constant(constant) => self.count(size_of_constant(constant)),
            Item::Proc(proc) => self.weigh_procedure(alloc, signatures, scope, proc),
        }
    }
}
