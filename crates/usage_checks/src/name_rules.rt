//! The rules of names that are declared, and their declarations in a scope.

ghost use Rattle.std.specs.Prelude.{◌≡◌, length, map, option_map};
ghost use Rattle.occam_parser.specs.OneOrMore.{as_list, one_or_more_of};
ghost use Rattle.occam_parser.specs.LineViews.{declaration_of, spelling_of};
ghost use Rattle.occam_parser.specs.Blocks.{declaration_line};
ghost use Rattle.scalar_ranges.specs.Scopes.{entries_of, known_of, meaning_of};
ghost use Rattle.program_uses.specs.Lowest.{IsLowest};
ghost use Rattle.program_uses.specs.Declaring.{add, add_all, add_declaration};
ghost use Rattle.program_uses.specs.Entering.{add_declarations};
ghost use Rattle.program_uses.specs.Telling.{At};
ghost use Rattle.usage_checks.specs.Telling.{Walks};
ghost use Rattle.usage_checks.specs.NameRules.{is_of_scope, IsTwice, BreakNames, names_in, declared_meaning};
ghost use Rattle.usage_checks.specs.NameRules.{BreaksDeclared, BreakDeclarations, with_entries};

use crate::declaration_rules::fault_of_declaration;
use crate::telling::Findings;
use occam_parser::{Declaration, OneOrMore};
use program_uses::{DECLARED_TWICE, channel_meaning, constant_meaning, variable_meaning};
use scalar_ranges::{Entry, Meaning, Scope};

/// Whether a declaration is of the innermost scope, whose first one has this number.
fn is_of_scope(first: usize, number: Option<usize>) -> bool
    ensures { result ≡ is_of_scope first number }
{
    match number {
        None => false,
        Some(number) => first <= number,
    }
}

/// The number of a name that the innermost scope has already.
fn twice(scope: &Scope, first: usize, name: &[u8]) -> Option<u8>
    ensures { IsLowest (IsTwice first (entries_of scope.now) name.now) result }
{
    if is_of_scope(first, scope.find(name)) {
        Some(DECLARED_TWICE)
    } else {
        None
    }
}

/// The number of the line of a declaration.
fn line_of(declaration: &Declaration) -> u32
    ensures { result ≡ declaration_line (declaration_of declaration.now) }
{
    match declaration {
        Declaration::Constant(constant) => constant.line,
        Declaration::Variables(names) | Declaration::Channels(names) => names.line,
    }
}

/// What the names of a declaration denote.
fn declared_meaning(scope: &Scope, declaration: &Declaration) -> Meaning
    ensures { meaning_of result ≡ declared_meaning (entries_of scope.now) (declaration_of declaration.now) }
{
    match declaration {
        Declaration::Constant(constant) => {
            constant_meaning(scope, constant.value_type, &constant.value)
        }
        Declaration::Variables(names) => variable_meaning(scope, names.value_type, &names.size),
        Declaration::Channels(names) => channel_meaning(scope, names.value_type, &names.size),
    }
}

impl Findings {
    /// One name more in the scope.
    pub(crate) fn enter<'a>(&mut self, scope: &mut Scope<'a>, name: &'a [u8], meaning: Meaning)
        ensures { Walks self.old self.new (known_of scope.new)
            (with_entries (add name.now (meaning_of meaning)) (known_of scope.old)) (λ f. ⊥) }
    {
        if scope.declare(Entry { name, meaning }).is_err() {
            self.fail();
        }
    }

    /// A name in the scope, of a line of the innermost scope.
    pub(crate) fn walk_name<'a>(
        &mut self,
        scope: &mut Scope<'a>,
        first: usize,
        line: u32,
        name: &'a [u8],
        meaning: Meaning,
    )
        ensures { Walks self.old self.new (known_of scope.new)
            (with_entries (add name.now (meaning_of meaning)) (known_of scope.old))
            (At line (IsTwice first (entries_of scope.old) name.now)) }
    {
        self.tell(line, twice(scope, first, name));
        self.enter(scope, name, meaning);
    }

    /// The names of a line in the scope.
    fn walk_names<'a>(
        &mut self,
        scope: &mut Scope<'a>,
        first: usize,
        line: u32,
        names: &OneOrMore<&'a [u8]>,
        meaning: Meaning,
    )
        ensures { Walks self.old self.new (known_of scope.new)
            (with_entries (add_all (as_list (one_or_more_of spelling_of names.now)) (meaning_of meaning))
            (known_of scope.old))
            (BreakNames first line (meaning_of meaning) (as_list (one_or_more_of spelling_of names.now))
            (entries_of scope.old)) }
    {
        self.walk_name(scope, first, line, names.first, meaning);
        for name in &names.others {
            self.walk_name(scope, first, line, name, meaning);
        }
    }

    /// The names of a declaration in the scope.
    fn walk_all_names<'a>(
        &mut self,
        scope: &mut Scope<'a>,
        first: usize,
        declaration: &Declaration<'a>,
        meaning: Meaning,
    )
        ensures { Walks self.old self.new (known_of scope.new)
            (with_entries (add_all (names_in (declaration_of declaration.now)) (meaning_of meaning))
            (known_of scope.old))
            (BreakNames first (declaration_line (declaration_of declaration.now)) (meaning_of meaning)
            (names_in (declaration_of declaration.now)) (entries_of scope.old)) }
    {
        match declaration {
            Declaration::Constant(constant) => {
                self.walk_name(scope, first, constant.line, constant.name, meaning);
            }
            Declaration::Variables(names) | Declaration::Channels(names) => {
                self.walk_names(scope, first, names.line, &names.names, meaning);
            }
        }
    }

    /// A declaration, and its names in the scope.
    fn walk_declaration<'a>(
        &mut self,
        scope: &mut Scope<'a>,
        first: usize,
        declaration: &Declaration<'a>,
    )
        ensures { Walks self.old self.new (known_of scope.new)
            (with_entries (add_declaration (declaration_of declaration.now)) (known_of scope.old))
            (BreaksDeclared first (declaration_of declaration.now) (entries_of scope.old)) }
    {
        self.tell(
            line_of(declaration),
            fault_of_declaration(scope, declaration),
        );
        let meaning = declared_meaning(scope, declaration);
        self.walk_all_names(scope, first, declaration, meaning);
    }

    /// The declarations before a construct, and their names in the scope.
    pub(crate) fn walk_declarations<'a>(
        &mut self,
        scope: &mut Scope<'a>,
        declarations: &[Declaration<'a>],
    )
        ensures { Walks self.old self.new (known_of scope.new)
            (with_entries (add_declarations (map declaration_of declarations.now)) (known_of scope.old))
            (BreakDeclarations (length (entries_of scope.old)) (map declaration_of declarations.now)
            (entries_of scope.old)) }
    {
        let first = scope.len();
        for declaration in declarations {
            self.walk_declaration(scope, first, declaration);
        }
    }
}
