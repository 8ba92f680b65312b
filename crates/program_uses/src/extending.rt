//! Names that are declared in a scope.

ghost use Rattle.std.specs.Prelude.{◌≡◌, map, OnOk};
ghost use Rattle.occam_parser.specs.OneOrMore.{as_list, one_or_more_of};
ghost use Rattle.occam_parser.specs.LineViews.{declaration_of, spelling_of};
ghost use Rattle.scalar_ranges.specs.Scopes.{entries_of, known_of, meaning_of};
ghost use Rattle.program_uses.specs.Declaring.{add, add_all, add_outline};
ghost use Rattle.program_uses.specs.Entering.{add_outlines};
ghost use Rattle.program_uses.specs.Extending.{Extends};

use crate::declaring::{channel_meaning, constant_outline, variable_meaning};
use occam_parser::{Declaration, OneOrMore};
use scalar_ranges::{Entry, Meaning, Scope};
use std::alloc::AllocError;

/// One name more.
pub fn add_name<'a>(
    scope: &mut Scope<'a>,
    name: &'a [u8],
    meaning: Meaning,
) -> Result<(), AllocError>
    ensures ok { OnOk result
        (entries_of scope.new ≡ add name.now (meaning_of meaning) (entries_of scope.old)) }
    ensures extends { Extends (known_of scope.old) (known_of scope.new) }
{
    scope.declare(Entry { name, meaning })?;
    Ok(())
}

/// Some names more, which mean the same.
fn add_names<'a>(
    scope: &mut Scope<'a>,
    names: &OneOrMore<&'a [u8]>,
    meaning: Meaning,
) -> Result<(), AllocError>
    ensures ok { OnOk result (entries_of scope.new
        ≡ add_all (as_list (one_or_more_of spelling_of names.now)) (meaning_of meaning) (entries_of scope.old)) }
    ensures extends { Extends (known_of scope.old) (known_of scope.new) }
{
    add_name(scope, names.first, meaning)?;
    for name in &names.others {
        add_name(scope, name, meaning)?;
    }
    Ok(())
}

/// The names of a declaration.
pub fn add_outline<'a>(
    scope: &mut Scope<'a>,
    declaration: &Declaration<'a>,
) -> Result<(), AllocError>
    ensures ok { OnOk result
        (entries_of scope.new ≡ add_outline (declaration_of declaration.now) (entries_of scope.old)) }
    ensures extends { Extends (known_of scope.old) (known_of scope.new) }
{
    match declaration {
        Declaration::Constant(constant) => {
            let meaning = constant_outline(scope, constant.value_type, &constant.value);
            add_name(scope, constant.name, meaning)
        }
        Declaration::Variables(names) => {
            let meaning = variable_meaning(scope, names.value_type, &names.size);
            add_names(scope, &names.names, meaning)
        }
        Declaration::Channels(names) => {
            let meaning = channel_meaning(scope, names.value_type, &names.size);
            add_names(scope, &names.names, meaning)
        }
    }
}

/// The names of declarations.
pub fn add_outlines<'a>(
    scope: &mut Scope<'a>,
    declarations: &[Declaration<'a>],
) -> Result<(), AllocError>
    ensures ok { OnOk result (entries_of scope.new
        ≡ add_outlines (map declaration_of declarations.now) (entries_of scope.old)) }
    ensures extends { Extends (known_of scope.old) (known_of scope.new) }
{
    for declaration in declarations {
        add_outline(scope, declaration)?;
    }
    Ok(())
}
