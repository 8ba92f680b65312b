//! What a process changes, and what the constructs in it change.

ghost use Rattle.std.specs.Prelude.{◌≡◌, true, [], drop, IfOk};
ghost use Rattle.occam_parser.specs.LineViews.{replicator_of};
ghost use Rattle.occam_parser.specs.BlockViews.{process_of, construct_of, body_of, branch_of};
ghost use Rattle.scalar_ranges.specs.Scopes.{entries_of, known_of};
ghost use Rattle.program_uses.specs.Changes.{changed_by, changed_by_construct, changed_by_body, changed_by_component};
ghost use Rattle.program_uses.specs.Changes.{changed_by_one, Notes};
ghost use Rattle.program_uses.specs.Listing.{IsListed, Keeps, AreListed, ListsWithin, ListsBody, ListsComponent};
ghost use Rattle.program_uses.specs.Listing.{ListsOne};
ghost use Rattle.program_uses.specs.Signatures.{signatures_of};

use crate::changes::Changes;
use crate::indices::{index_meaning, is_sequence};
use crate::listing::ChangeLists;
use crate::signature::Signature;
use occam_parser::{Body, Branch, Construct, Process, Replicator};
use scalar_ranges::Scope;
use std::alloc::{AllocError, Global};

/// The variables that a process changes, and lists of those that the constructs in it change.
#[derive(Drop)]
struct Finding {
    alloc: Global,
    changes: Changes,
    lists: ChangeLists,
    /// Whether lists are wanted. They take as long as all that is in them, at each construct again.
    are_listed: bool,
}

impl Finding {
    ghost use Rattle.program_uses.specs.Finding.{Finds};

    /// Nothing.
    fn new(alloc: Global, are_listed: bool) -> Finding
        ensures { result.changes.numbers.items ≡ [] }
    {
        Finding {
            alloc,
            changes: Changes::new(alloc),
            lists: ChangeLists::new(alloc),
            are_listed,
        }
    }

    /// On this line a construct begins that changes the variables that were noted since there were `first`.
    fn add_list(&mut self, line: u32, first: usize) -> Result<(), AllocError>
        ensures changes { self.new.changes ≡ self.old.changes }
        ensures listed { IfOk result (λ done. IsListed self.new.lists line
            (drop first self.old.changes.numbers.items)) }
        ensures keeps { Keeps self.old.lists self.new.lists }
    {
        if !self.are_listed {
            return self.lists.add_unlisted(line);
        }
        let numbers = self.changes.since(self.alloc, first)?;
        self.lists.add(line, numbers)
    }

    /// The same. It remembers whether memory ran out.
    fn list(&mut self, line: u32, first: usize)
        ensures notes { Notes self.old.changes self.new.changes [] }
        ensures listed { self.new.changes.complete ≡ true
            → IsListed self.new.lists line (drop first self.old.changes.numbers.items) }
        ensures keeps { Keeps self.old.lists self.new.lists }
    {
        if self.add_list(line, first).is_err() {
            self.changes.complete = false;
        }
    }

    /// What a process changes. The scope is afterwards as it was.
    #[cycle(find)]
    fn find<'a>(&mut self, signatures: &[Signature], scope: &mut Scope<'a>, process: &Process<'a>)
        ensures { Finds self.old self.new (known_of scope.old) (known_of scope.new)
            (changed_by (signatures_of signatures.now) (entries_of scope.old) (process_of process.now))
            (λ t. AreListed t (signatures_of signatures.now) (entries_of scope.old) (process_of process.now)) }
    {
        let count = scope.len();
        let first = self.changes.count();
        self.changes.enter(scope, &process.declarations);
        self.find_in_construct(signatures, scope, &process.construct);
        self.list(process.line, first);
        scope.leave(count);
    }

    /// What a construct changes.
    #[cycle(find)]
    fn find_in_construct<'a>(
        &mut self,
        signatures: &[Signature],
        scope: &mut Scope<'a>,
        construct: &Construct<'a>,
    )
        ensures { Finds self.old self.new (known_of scope.old) (known_of scope.new)
            (changed_by_construct (signatures_of signatures.now) (entries_of scope.old)
            (construct_of construct.now))
            (λ t. ListsWithin t (signatures_of signatures.now) (entries_of scope.old) (construct_of construct.now)) }
    {
        match construct {
            Construct::Action(action) => self.changes.act(signatures, scope, action),
            Construct::Seq(processes) | Construct::Par(processes) => {
                for process in processes {
                    self.find(signatures, scope, process);
                }
            }
            Construct::If(choices) => {
                for choice in choices {
                    self.find(signatures, scope, &choice.process);
                }
            }
            Construct::Alt(branches) => {
                for branch in branches {
                    self.find_in_branch(signatures, scope, branch);
                }
            }
            Construct::Replicated { replicator, body } => {
                self.find_in_body(signatures, scope, replicator, body);
            }
        }
    }

    /// What a body under a replicator changes, in any turn.
    #[cycle(find)]
    fn find_in_body<'a>(
        &mut self,
        signatures: &[Signature],
        scope: &mut Scope<'a>,
        replicator: &Replicator<'a>,
        body: &Body<'a>,
    )
        ensures { Finds self.old self.new (known_of scope.old) (known_of scope.new)
            (changed_by_body (signatures_of signatures.now) (entries_of scope.old) (replicator_of replicator.now)
            (body_of body.now))
            (λ t. ListsBody t (signatures_of signatures.now) (entries_of scope.old) (replicator_of replicator.now)
            (body_of body.now)) }
    {
        let count = scope.len();
        let meaning = index_meaning(is_sequence(body), None);
        self.changes.enter_name(scope, replicator.name, meaning);
        self.find_in_one(signatures, scope, body);
        scope.leave(count);
    }

    /// What the component under a replicator changes.
    #[cycle(find)]
    fn find_in_one<'a>(&mut self, signatures: &[Signature], scope: &mut Scope<'a>, body: &Body<'a>)
        ensures { Finds self.old self.new (known_of scope.old) (known_of scope.new)
            (changed_by_one (signatures_of signatures.now) (entries_of scope.old) (body_of body.now))
            (λ t. ListsOne t (signatures_of signatures.now) (entries_of scope.old) (body_of body.now)) }
    {
        match body {
            Body::Seq(process) | Body::Par(process) => self.find(signatures, scope, process),
            Body::If(choice) => self.find(signatures, scope, &choice.process),
            Body::Alt(branch) => self.find_in_branch(signatures, scope, branch),
        }
    }

    /// What a branch of an `ALT` changes.
    #[cycle(find)]
    fn find_in_branch<'a>(
        &mut self,
        signatures: &[Signature],
        scope: &mut Scope<'a>,
        branch: &Branch<'a>,
    )
        ensures { Finds self.old self.new (known_of scope.old) (known_of scope.new)
            (changed_by_component (signatures_of signatures.now) (entries_of scope.old) (branch_of branch.now))
            (λ t. ListsComponent t (signatures_of signatures.now) (entries_of scope.old) (branch_of branch.now)) }
    {
        self.changes.guard(scope, &branch.guard);
        self.find(signatures, scope, &branch.process);
    }

    /// The lists, if memory was enough for all of them.
    fn all_lists(self) -> Result<ChangeLists, AllocError>
        ensures { IfOk result (λ lists. (lists ≡ self.lists) × (self.changes.complete ≡ true)) }
    {
        if self.changes.complete {
            Ok(self.lists)
        } else {
            Err(AllocError)
        }
    }
}

/// The numbers of the variables that a process changes. The scope is afterwards as it was.
pub fn variables_changed<'a>(
    alloc: Global,
    signatures: &[Signature],
    scope: &mut Scope<'a>,
    process: &Process<'a>,
) -> Result<Vec<usize>, AllocError>
    ensures numbers { IfOk result (λ numbers. numbers.items
        ≡ changed_by (signatures_of signatures.now) (entries_of scope.old) (process_of process.now)) }
    ensures scope { known_of scope.new ≡ known_of scope.old }
{
    let mut finding = Finding::new(alloc, false);
    finding.find(signatures, scope, process);
    finding.changes.all()
}

/// The numbers of the variables that the body of a replicator changes. The scope is afterwards as it was.
pub fn variables_changed_in<'a>(
    alloc: Global,
    signatures: &[Signature],
    scope: &mut Scope<'a>,
    replicator: &Replicator<'a>,
    body: &Body<'a>,
) -> Result<Vec<usize>, AllocError>
    ensures numbers { IfOk result (λ numbers. numbers.items
        ≡ changed_by_body (signatures_of signatures.now) (entries_of scope.old) (replicator_of replicator.now)
        (body_of body.now)) }
    ensures scope { known_of scope.new ≡ known_of scope.old }
{
    let mut finding = Finding::new(alloc, false);
    finding.find_in_body(signatures, scope, replicator, body);
    finding.changes.all()
}

/// What the constructs in a process change. The scope is afterwards as it was.
pub fn list_changes<'a>(
    alloc: Global,
    signatures: &[Signature],
    scope: &mut Scope<'a>,
    process: &Process<'a>,
) -> Result<ChangeLists, AllocError>
    ensures lists { IfOk result (λ lists. AreListed lists (signatures_of signatures.now) (entries_of scope.old)
        (process_of process.now)) }
    ensures scope { known_of scope.new ≡ known_of scope.old }
{
    let mut finding = Finding::new(alloc, true);
    finding.find(signatures, scope, process);
    finding.all_lists()
}
