//! Formals that are declared in a scope.

ghost use Rattle.std.specs.Prelude.{◌≡◌, map, OnOk};
ghost use Rattle.occam_parser.specs.LineViews.{formal_of};
ghost use Rattle.scalar_ranges.specs.Scopes.{entries_of, known_of};
ghost use Rattle.program_uses.specs.Declaring.{add_formals};
ghost use Rattle.program_uses.specs.Extending.{Extends};
ghost use Rattle.program_uses.specs.Signatures.{parameter_of};
ghost use Rattle.usage_checks.specs.FormalRules.{parameter_for};

use crate::formal_rules::parameters_for;
use occam_parser::Formal;
use program_uses::{Parameter, add_name};
use scalar_ranges::Scope;
use std::alloc::{AllocError, Global};

/// The names of formals, with what they denote.
fn add_parameters<'a>(
    scope: &mut Scope<'a>,
    formals: &[Formal<'a>],
    parameters: &[Parameter],
) -> Result<(), AllocError>
    requires { map parameter_of parameters.now
        ≡ map (parameter_for (entries_of scope.old)) (map formal_of formals.now) }
    ensures ok { OnOk result (entries_of scope.new
        ≡ add_formals (entries_of scope.old) (map formal_of formals.now) (entries_of scope.old)) }
    ensures extends { Extends (known_of scope.old) (known_of scope.new) }
{
    for (place, formal) in formals.iter().enumerate() {
        add_name(scope, formal.name, parameters[place].meaning)?;
    }
    Ok(())
}

/// The names of formals, with what they denote in the body of their procedure. What one denotes does not see those
/// before it. If memory runs out, the scope has some entries more and nothing else.
pub fn add_formals<'a>(
    alloc: Global,
    scope: &mut Scope<'a>,
    formals: &[Formal<'a>],
) -> Result<(), AllocError>
    ensures ok { OnOk result (entries_of scope.new
        ≡ add_formals (entries_of scope.old) (map formal_of formals.now) (entries_of scope.old)) }
    ensures extends { Extends (known_of scope.old) (known_of scope.new) }
{
    let parameters = parameters_for(alloc, scope, formals)?;
    add_parameters(scope, formals, &parameters)
}
