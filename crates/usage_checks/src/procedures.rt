//! The walk over procedures.

ghost use Rattle.std.specs.Prelude.{◌≡◌, true, length, map, ◌⊎◌};
ghost use Rattle.occam_parser.specs.LineViews.{formal_of};
ghost use Rattle.occam_parser.specs.BlockViews.{process_of, procedure_of};
ghost use Rattle.scalar_ranges.specs.Scopes.{entries_of, known_of};
ghost use Rattle.program_uses.specs.ActionViews.{around_of};
ghost use Rattle.program_uses.specs.Declaring.{add_formals};
ghost use Rattle.program_uses.specs.Processes.{uses_of};
ghost use Rattle.program_uses.specs.Sets.{has, is_among};
ghost use Rattle.program_uses.specs.Sharing.{Shares};
ghost use Rattle.usage_checks.specs.FormalRules.{BreakSizes, BreakFormals};
ghost use Rattle.usage_checks.specs.ItemRules.{in_body, after_procedure, BreaksProcedure};
ghost use Rattle.usage_checks.specs.AfterProcesses.{inside};
ghost use Rattle.usage_checks.specs.NameRules.{with_entries};
ghost use Rattle.usage_checks.specs.ProcessRules.{BreaksIn};
ghost use Rattle.program_uses.specs.Telling.{At};
ghost use Rattle.usage_checks.specs.Telling.{Walks};

use crate::blocks::Site;
use crate::channel_rules::Position;
use crate::formal_rules::{fault_of_sizes, parameters_for};
use crate::main_rules::is_main_name;
use crate::telling::Findings;
use occam_parser::{Formal, Proc, Process};
use program_uses::{Around, Use, Uses, list_changes};
use scalar_ranges::Scope;
use std::alloc::Global;

impl Findings {
    /// The formals of a procedure whose head is on this line.
    fn walk_head<'a>(
        &mut self,
        alloc: Global,
        scope: &mut Scope<'a>,
        line: u32,
        formals: &[Formal<'a>],
    )
        ensures { Walks self.old self.new (known_of scope.new)
            (with_entries (add_formals (entries_of scope.old) (map formal_of formals.now)) (known_of scope.old))
            (λ f. At line (BreakSizes (entries_of scope.old) (map formal_of formals.now)) f
            ⊎ BreakFormals (length (entries_of scope.old)) line (entries_of scope.old) (map formal_of formals.now)
            (entries_of scope.old) f) }
    {
        self.tell(line, fault_of_sizes(scope, formals));
        match parameters_for(alloc, scope, formals) {
            Ok(parameters) => self.walk_formals(scope, line, formals, &parameters),
            Err(_) => self.fail(),
        }
    }

    /// What a process uses, and what the components of the `PAR`s in it share. The scope is afterwards as it was.
    fn uses<'a>(
        &mut self,
        alloc: Global,
        around: Around,
        scope: &mut Scope<'a>,
        process: &Process<'a>,
    ) -> Uses
        ensures walks { Walks self.old self.new (known_of scope.new) (known_of scope.old)
            (Shares (around_of around.entry) (entries_of scope.old) (process_of process.now)) }
        ensures uses { self.new.complete ≡ true → (u : Use) → has result u
            ≡ is_among (uses_of (around_of around.entry) (entries_of scope.old) (process_of process.now)) u }
    {
        let mut used = Uses::new(alloc);
        used.collect(&mut self.first, around, scope, process);
        if !used.is_complete() {
            self.fail();
        }
        used
    }

    /// The body of a procedure, which begins with this scope.
    fn walk_within<'a>(
        &mut self,
        alloc: Global,
        around: Around,
        position: Position,
        scope: &mut Scope<'a>,
        body: &Process<'a>,
    )
        ensures { Walks self.old self.new (known_of scope.new)
            (inside (around_of around.entry) (process_of body.now) (known_of scope.old))
            (BreaksIn (around_of around.entry) position (length (entries_of scope.old)) (process_of body.now)
            (known_of scope.old)) }
    {
        match list_changes(alloc, around.signatures, scope, body) {
            Ok(lists) => {
                let site = Site {
                    alloc,
                    around,
                    position,
                    lists: &lists,
                };
                self.walk(site, scope, body);
            }
            Err(_) => self.fail(),
        }
    }

    /// A procedure, with its formals and its body, but for its name. Returns what its body uses.
    pub(crate) fn walk_procedure<'a>(
        &mut self,
        alloc: Global,
        around: Around,
        scope: &mut Scope<'a>,
        proc: &Proc<'a>,
    ) -> Uses
        ensures walks { Walks self.old self.new (known_of scope.new)
            (after_procedure (around_of around.entry) (procedure_of proc.now) (known_of scope.old))
            (BreaksProcedure (around_of around.entry) (procedure_of proc.now) (known_of scope.old)) }
        ensures uses { let p = procedure_of proc.now in
            self.new.complete ≡ true → (u : Use) → has result u
            ≡ is_among (uses_of (around_of around.entry) (in_body p (known_of scope.old)).entries p.body) u }
    {
        let count = scope.len();
        self.walk_head(alloc, scope, proc.line, &proc.formals);
        let used = self.uses(alloc, around, scope, &proc.body);
        let position = Position {
            formals: count,
            declared: scope.len(),
            parallel: 0,
            is_main: is_main_name(proc.name),
        };
        self.walk_within(alloc, around, position, scope, &proc.body);
        scope.leave(count);
        used
    }
}
