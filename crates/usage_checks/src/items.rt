//! The walk over the items of a program.

ghost use Rattle.std.specs.Prelude.{◌≡◌, true, None, [], ◌∷◌, ◌++◌, length, map, IfOk, IfSome};
ghost use Rattle.occam_parser.specs.Lines.{Constants};
ghost use Rattle.occam_parser.specs.LineViews.{constant_of};
ghost use Rattle.occam_parser.specs.Blocks.{GlobalProcedure};
ghost use Rattle.occam_parser.specs.BlockViews.{procedure_of, item_of};
ghost use Rattle.scalar_ranges.specs.Entries.{Procedure};
ghost use Rattle.scalar_ranges.specs.Scopes.{entries_of, known_of};
ghost use Rattle.program_uses.specs.ActionViews.{around_of};
ghost use Rattle.program_uses.specs.Declaring.{add, add_declaration};
ghost use Rattle.program_uses.specs.InTurn.{in_turn};
ghost use Rattle.program_uses.specs.Signatures.{parameter_of, parameters_of, signatures_of};
ghost use Rattle.usage_checks.specs.BrokenInTurn.{BreaksInTurn};
ghost use Rattle.usage_checks.specs.ItemRules.{after_named, BreaksNamed, signature_of, outermost, weighed};
ghost use Rattle.usage_checks.specs.ItemRules.{Ends, EndsCounting, after_walk, BreaksWalk, after_item, BreaksItem};
ghost use Rattle.usage_checks.specs.ItemRules.{after_items, BreaksProgram};
ghost use Rattle.usage_checks.specs.ItemViews.{seen_outside};
ghost use Rattle.usage_checks.specs.NameRules.{with_entries, BreaksName, BreaksDeclared};
ghost use Rattle.usage_checks.specs.Telling.{Walks};

use crate::declaration_rules::fault_of_value;
use crate::formal_rules::parameters_for;
use crate::main_rules::fault_of_main;
use crate::telling::Findings;
use crate::weighing::Weight;
use occam_parser::{Constant, Item, Proc};
use program_uses::{Around, Signature, constant_meaning, signed};
use scalar_ranges::{Meaning, OUT_OF_RANGE, Scope};
use std::alloc::{AllocError, Global};

/// What is known after some items of a program.
#[derive(Drop)]
pub(crate) struct Outside<'a> {
    pub(crate) alloc: Global,
    /// The names.
    pub(crate) scope: Scope<'a>,
    /// The procedures, by their numbers.
    pub(crate) signatures: Vec<Signature>,
    /// How large the items are, and from which line on nothing is counted.
    pub(crate) weight: Weight,
}

/// The number of the procedure after these, if it is one.
fn next_number(signatures: &[Signature]) -> Option<u32>
    ensures { IfSome result (λ number. number ≡ length signatures.now) }
{
    u32::try_from(signatures.len()).ok()
}

impl Findings {
    /// A constant of the program.
    fn walk_constant<'a>(&mut self, scope: &mut Scope<'a>, constant: &Constant<'a>)
        ensures { Walks self.old self.new (known_of scope.new)
            (with_entries (add_declaration (Constants (constant_of constant.now))) (known_of scope.old))
            (BreaksDeclared 0 (Constants (constant_of constant.now)) (entries_of scope.old)) }
    {
        let found = fault_of_value(scope, constant.value_type, &constant.value);
        self.tell(constant.line, found);
        let meaning = constant_meaning(scope, constant.value_type, &constant.value);
        self.walk_name(scope, 0, constant.line, constant.name, meaning);
    }

    /// The name of a procedure, which those after it know by how many procedures were before it.
    fn walk_number<'a>(&mut self, scope: &mut Scope<'a>, signatures: &[Signature], proc: &Proc<'a>)
        ensures { let p = procedure_of proc.now in
            Walks self.old self.new (known_of scope.new)
            (with_entries (add p.head.name (Procedure (length signatures.now))) (known_of scope.old))
            (BreaksName 0 p.line p.head.name (entries_of scope.old)) }
    {
        match next_number(signatures) {
            Some(number) => self.walk_name(scope, 0, proc.line, proc.name, Meaning::Proc(number)),
            None => self.fail(),
        }
    }

    /// A procedure, and its name. Returns what is known of it by those that call it.
    fn walk_named<'a>(
        &mut self,
        alloc: Global,
        around: Around,
        scope: &mut Scope<'a>,
        proc: &Proc<'a>,
    ) -> Result<Signature, AllocError>
        ensures walks { Walks self.old self.new (known_of scope.new)
            (after_named (around_of around.entry) (procedure_of proc.now) (known_of scope.old))
            (BreaksNamed (around_of around.entry) (procedure_of proc.now) (known_of scope.old)) }
        ensures signature { IfOk result (λ s. self.new.complete ≡ true → parameters_of s
            ≡ signature_of (around_of around.entry) (procedure_of proc.now) (known_of scope.old)) }
    {
        let first = scope.len();
        let parameters = parameters_for(alloc, scope, &proc.formals);
        let used = self.walk_procedure(alloc, around, scope, proc);
        self.walk_number(scope, around.signatures, proc);
        signed(alloc, parameters?, first, &used)
    }

    /// One procedure more.
    fn sign(&mut self, signatures: &mut Vec<Signature>, signature: Signature)
        ensures { Walks self.old self.new (signatures_of signatures.new.items)
            (signatures_of signatures.old.items ++ parameters_of signature ∷ []) (λ f. ⊥) }
    {
        if signatures.push(signature).is_err() {
            self.fail();
        }
    }

    /// A procedure, with what is known of it afterwards.
    fn walk_signed<'a>(&mut self, outside: &mut Outside<'a>, proc: &Proc<'a>)
        ensures { let item = GlobalProcedure (procedure_of proc.now) in
            Walks self.old self.new (seen_outside outside.new) (after_walk item (seen_outside outside.old))
            (BreaksWalk item (seen_outside outside.old)) }
    {
        let around = Around {
            signatures: &outside.signatures,
            uncounted: outside.weight.over,
        };
        match self.walk_named(outside.alloc, around, &mut outside.scope, proc) {
            Ok(signature) => self.sign(&mut outside.signatures, signature),
            Err(_) => self.fail(),
        }
    }

    /// The names, the processes and the signature of an item.
    fn walk_weighed<'a>(&mut self, outside: &mut Outside<'a>, item: &Item<'a>)
        ensures { Walks self.old self.new (seen_outside outside.new)
            (after_walk (item_of item.now) (seen_outside outside.old))
            (BreaksWalk (item_of item.now) (seen_outside outside.old)) }
    {
        match item {
            Item::Constant(constant) => self.walk_constant(&mut outside.scope, constant),
            Item::Proc(proc) => self.walk_signed(outside, proc),
        }
    }

    /// Counting ends on this line, if there is one.
    fn tell_end(&mut self, line: Option<u32>)
        ensures { Walks self.old self.new line line (Ends None line) }
    {
        if let Some(line) = line {
            self.tell(line, Some(OUT_OF_RANGE));
        }
    }

    /// An item is weighed, and counting may end in it.
    fn weigh<'a>(&mut self, outside: &mut Outside<'a>, item: &Item<'a>)
        requires { outside.old.weight.over ≡ None }
        ensures { Walks self.old self.new (seen_outside outside.new)
            (weighed (item_of item.now) (seen_outside outside.old))
            (EndsCounting (item_of item.now) (seen_outside outside.old)) }
    {
        let signatures = &outside.signatures;
        outside
            .weight
            .weigh_item(outside.alloc, signatures, &mut outside.scope, item);
        if outside.weight.complete {
            self.tell_end(outside.weight.over);
        } else {
            self.fail();
        }
    }

    /// An item is weighed, unless counting has ended.
    fn weigh_unless_ended<'a>(&mut self, outside: &mut Outside<'a>, item: &Item<'a>)
        ensures { Walks self.old self.new (seen_outside outside.new)
            (weighed (item_of item.now) (seen_outside outside.old))
            (EndsCounting (item_of item.now) (seen_outside outside.old)) }
    {
        match outside.weight.over {
            Some(_) => {}
            None => self.weigh(outside, item),
        }
    }

    /// An item of the program.
    fn walk_item<'a>(&mut self, outside: &mut Outside<'a>, item: &Item<'a>)
        ensures { Walks self.old self.new (seen_outside outside.new)
            (after_item (item_of item.now) (seen_outside outside.old))
            (BreaksItem (item_of item.now) (seen_outside outside.old)) }
    {
        self.weigh_unless_ended(outside, item);
        self.walk_weighed(outside, item);
    }

    /// The items of a program, one after the other.
    fn walk_items<'a>(&mut self, outside: &mut Outside<'a>, items: &[Item<'a>])
        ensures { Walks self.old self.new (seen_outside outside.new)
            (in_turn after_item (map item_of items.now) (seen_outside outside.old))
            (BreaksInTurn after_item BreaksItem (map item_of items.now) (seen_outside outside.old)) }
    {
        for item in items {
            self.walk_item(outside, item);
        }
    }

    /// A program, from nothing known.
    pub(crate) fn walk_program<'a>(&mut self, outside: &mut Outside<'a>, items: &[Item<'a>])
        requires { seen_outside outside.old ≡ outermost }
        ensures { Walks self.old self.new (seen_outside outside.new) (after_items (map item_of items.now))
            (BreaksProgram (map item_of items.now)) }
    {
        self.walk_items(outside, items);
        self.tell_first(fault_of_main(items));
    }
}

impl Outside<'_> {
    /// Nothing is known.
    pub(crate) fn new<'a>(alloc: Global) -> Outside<'a>
        ensures { seen_outside result ≡ outermost }
    {
        Outside {
            alloc,
            scope: Scope::new(alloc),
            signatures: Vec::new(alloc),
            weight: Weight::new(),
        }
    }
}
