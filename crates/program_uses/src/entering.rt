//! Names that are declared around a process while its uses are collected.

ghost use Rattle.std.specs.Prelude.{◌≡◌, [], map};
ghost use Rattle.occam_parser.specs.LineViews.{declaration_of};
ghost use Rattle.scalar_ranges.specs.Scopes.{entries_of, blocks_of, meaning_of};
ghost use Rattle.program_uses.specs.Sets.{Adds};
ghost use Rattle.program_uses.specs.Entering.{Enters, uses_of_declarations, add_outlines};
ghost use Rattle.program_uses.specs.Actions.{uses_of_declaration};
ghost use Rattle.program_uses.specs.Declaring.{add, add_outline};

use crate::extending::{add_name, add_outline};
use crate::uses::Uses;
use occam_parser::Declaration;
use scalar_ranges::{Meaning, Scope};

impl Uses {
    /// One name more in the scope.
    pub(crate) fn enter_name<'a>(&mut self, scope: &mut Scope<'a>, name: &'a [u8], meaning: Meaning)
        ensures uses { Adds self.old self.new [] }
        ensures entries { Enters self.new (entries_of scope.old) (entries_of scope.new)
            (add name.now (meaning_of meaning) (entries_of scope.old)) }
        ensures blocks { blocks_of scope.new ≡ blocks_of scope.old }
    {
        match add_name(scope, name, meaning) {
            Ok(()) => {}
            Err(_) => self.fail(),
        }
    }

    /// What a declaration uses, and then its names in the scope.
    fn enter<'a>(&mut self, scope: &mut Scope<'a>, declaration: &Declaration<'a>)
        ensures uses { Adds self.old self.new
            (uses_of_declaration (entries_of scope.old) (declaration_of declaration.now)) }
        ensures entries { Enters self.new (entries_of scope.old) (entries_of scope.new)
            (add_outline (declaration_of declaration.now) (entries_of scope.old)) }
        ensures blocks { blocks_of scope.new ≡ blocks_of scope.old }
    {
        self.declare(scope, declaration);
        match add_outline(scope, declaration) {
            Ok(()) => {}
            Err(_) => self.fail(),
        }
    }

    /// What declarations use, and then their names in the scope.
    pub(crate) fn enter_all<'a>(&mut self, scope: &mut Scope<'a>, declarations: &[Declaration<'a>])
        ensures uses { Adds self.old self.new
            (uses_of_declarations (entries_of scope.old) (map declaration_of declarations.now)) }
        ensures entries { Enters self.new (entries_of scope.old) (entries_of scope.new)
            (add_outlines (map declaration_of declarations.now) (entries_of scope.old)) }
        ensures blocks { blocks_of scope.new ≡ blocks_of scope.old }
    {
        for declaration in declarations {
            self.enter(scope, declaration);
        }
    }
}
