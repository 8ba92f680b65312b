//! The rules of formals, and what is known of them by their head.

ghost use Rattle.std.specs.Prelude.{◌≡◌, IfOk, length, map};
ghost use Rattle.occam_parser.specs.LineViews.{formal_of};
ghost use Rattle.scalar_ranges.specs.Scopes.{entries_of, known_of};
ghost use Rattle.program_uses.specs.Lowest.{IsLowest};
ghost use Rattle.program_uses.specs.Signatures.{parameter_of};
ghost use Rattle.program_uses.specs.Declaring.{add_formals};
ghost use Rattle.usage_checks.specs.Telling.{Walks};
ghost use Rattle.usage_checks.specs.FormalRules.{BreakSizes, parameter_for, BreakFormals};
ghost use Rattle.usage_checks.specs.NameRules.{with_entries};

use crate::declaration_rules::fault_of_any_size;
use crate::telling::Findings;
use occam_parser::Formal;
use program_uses::{Parameter, formal_meaning, lower};
use scalar_ranges::Scope;
use std::alloc::{AllocError, Global};

/// The lowest number of the rules that the sizes of formals break.
pub(crate) fn fault_of_sizes(scope: &Scope, formals: &[Formal]) -> Option<u8>
    ensures { IsLowest (BreakSizes (entries_of scope.now) (map formal_of formals.now)) result }
{
    let mut found = None;
    for formal in formals {
        found = lower(found, fault_of_any_size(scope, &formal.size));
    }
    found
}

/// What is known of formals by their head.
pub fn parameters_for(
    alloc: Global,
    scope: &Scope,
    formals: &[Formal],
) -> Result<Vec<Parameter>, AllocError>
    ensures { IfOk result (λ v. map parameter_of v.items
        ≡ map (parameter_for (entries_of scope.now)) (map formal_of formals.now)) }
{
    let mut parameters = Vec::new(alloc);
    for formal in formals {
        let meaning = formal_meaning(scope, formal);
        let ends = Vec::new(alloc);
        parameters.push(Parameter { meaning, ends })?;
    }
    Ok(parameters)
}

impl Findings {
    /// The names of formals in the scope, with what is known of them.
    pub(crate) fn walk_formals<'a>(
        &mut self,
        scope: &mut Scope<'a>,
        line: u32,
        formals: &[Formal<'a>],
        parameters: &[Parameter],
    )
        requires { map parameter_of parameters.now
            ≡ map (parameter_for (entries_of scope.old)) (map formal_of formals.now) }
        ensures { Walks self.old self.new (known_of scope.new)
            (with_entries (add_formals (entries_of scope.old) (map formal_of formals.now)) (known_of scope.old))
            (BreakFormals (length (entries_of scope.old)) line (entries_of scope.old) (map formal_of formals.now)
            (entries_of scope.old)) }
    {
        let first = scope.len();
        for (place, formal) in formals.iter().enumerate() {
            self.walk_name(scope, first, line, formal.name, parameters[place].meaning);
        }
    }
}
