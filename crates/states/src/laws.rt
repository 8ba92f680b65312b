//! The law of label rows.
ghost use Rattle.std.specs.Prelude.{◌≡◌, ℕ, Some};
ghost use Rattle.std.specs.List.{AllByRecursion};
ghost use Rattle.module_format.specs.Contents.{Contents, Label, label_at};
ghost use Rattle.module_format.specs.Keeping.{Keeps};
ghost use Rattle.states.specs.Rows.{IsRowOf};

/// The label rows of a valid module are rows that states can be compared with: their entries are apart, and lie in the
/// frame of their context.
#[tactic(auto, using(crate::proofs::LabelRows::label_rows))]
pub fn label_rows_are_sound()
    ensures each { (m : Contents) → Keeps m → AllByRecursion (IsRowOf m) m.labels }
    ensures at_offsets { (m : Contents) (at : ℕ) (t : Label) → Keeps m → label_at m at ≡ Some t → IsRowOf m t }
{}
