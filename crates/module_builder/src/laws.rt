//! What holds of all layouts, each law the contract of a function that does nothing.

ghost use Rattle.std.specs.Prelude.{◌≡◌, ◌+◌, ◌<◌, ℕ, List, length, Option, slice_get, Some};
ghost use Rattle.std.specs.List.Sorted.{IsNonDecreasingBy};
ghost use Rattle.module_format.specs.declared.rows.BranchRow.{BranchRow};
ghost use Rattle.module_format.specs.declared.rows.ParRow.{ParRow};
ghost use Rattle.module_builder.specs.declared.item.Label.{Label};
ghost use Rattle.module_builder.specs.declared.draft.ContextName.{ContextName};
ghost use Rattle.module_builder.specs.declared.draft.ContextName.TheVariants.{Procedure, Branch};
ghost use Rattle.module_builder.specs.declared.draft.Draft.{Draft};
ghost use Rattle.module_builder.specs.Limits.{DraftIsWithin};
ghost use Rattle.module_builder.specs.Placing.{label_offset};
ghost use Rattle.module_builder.specs.Ordering.{IsOrder, position};
ghost use Rattle.module_builder.specs.Assembled.{Arrangement, AreInOrder, IsArranged, context_number, first_context};
ghost use Rattle.module_builder.specs.Assembled.{first_entry};
ghost use Rattle.module_builder.specs.declared.item.Item.{Item};
ghost use Rattle.module_builder.specs.Drafts.{Code};
ghost use Rattle.module_builder.specs.Layouts.{offset, Fits, IsLeast, IsBoundary};
ghost use Rattle.module_builder.specs.Spelling.{IsSpelledAt};

/// Each place is an item's first byte or the code's end.
pub fn places_are_boundaries()
    ensures { (lengths : List ℕ) (number : ℕ) → IsBoundary lengths (offset lengths number) }
{}

/// A draft has one least layout at most.
pub fn one_least_layout()
    ensures { (code : Code) (a b : List ℕ) → IsLeast code a → IsLeast code b → a ≡ b }
{}

/// Under a layout that fits, the bytes of each item are in the code where the item begins, and are as many as the
/// layout gives it: the address of a constant is filled up to its length.
pub fn items_are_in_their_places()
    ensures { (code : Code) (lengths : List ℕ) (number : ℕ) (item : Item) → Fits code lengths
        → slice_get code.items number ≡ Some item → IsSpelledAt code lengths number item }
{}

/// A context of a draft that is there has a number that a file can name: no number is too large where the draft is
/// within the limits and its rows are in order.
pub fn contexts_have_numbers()
    ensures procedures { (d : Draft) (offsets : List (Option ℕ)) (a : Arrangement) (row : ℕ) → DraftIsWithin d
        → AreInOrder d offsets a → row < length d.procedures.items
        → context_number d a.procedures a.pars (Procedure row) ≡ Some (1 + position a.procedures row) }
    ensures branches { (d : Draft) (offsets : List (Option ℕ)) (a : Arrangement) (par branch : ℕ)
        (row : ParRow Label ContextName) → DraftIsWithin d → AreInOrder d offsets a
        → slice_get d.pars.items par ≡ Some row → branch < length row.branches.items
        → context_number d a.procedures a.pars (Branch par branch) ≡ Some (first_context d a.pars par + branch) }
{}

/// Rows with the same keys have one order, so a draft has one arrangement at most: one layout and one order of the rows
/// of each kind.
pub fn one_arrangement()
    ensures order { (keys : List ℕ) (a b : List (ℕ × ℕ)) → IsOrder keys a → IsOrder keys b → a ≡ b }
    ensures arrangement { (d : Draft) (a b : Arrangement) → IsArranged d a → IsArranged d b → a ≡ b }
{}

/// A PAR whose branches are placed in order comes before each PAR that begins after the beginning of one of its
/// branches. So a PAR comes before the PARs in it, if what is in a branch is placed after the branch's beginning.
pub fn outer_pars_come_first()
    ensures { (d : Draft) (offsets : List (Option ℕ)) (a : Arrangement) (par branch number : ℕ)
        (outer inner : ParRow Label ContextName) (b : BranchRow Label) → AreInOrder d offsets a
        → slice_get d.pars.items par ≡ Some outer → slice_get d.pars.items number ≡ Some inner
        → IsNonDecreasingBy (λ (r : BranchRow Label). label_offset offsets r.entry) outer.branches.items
        → slice_get outer.branches.items branch ≡ Some b
        → label_offset offsets b.entry < first_entry offsets inner
        → position a.pars par < position a.pars number }
{}
