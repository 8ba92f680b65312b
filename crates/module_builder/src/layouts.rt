//! What a layout says.

ghost use Rattle.std.specs.Prelude.{◌≡◌, None, slice_index_or};

use crate::item::Label;

/// How long each item of a draft is, and where its labels are.
#[derive(Drop)]
pub struct Layout {
    /// The bytes of each item.
    pub lengths: Vec<u8>,
    /// By label: where it is, none for one that is not placed.
    pub places: Vec<Option<u32>>,
}

impl Layout {
    /// Where a label of the draft is, none if it is not placed.
    pub fn place(&self, label: Label) -> Option<u32>
        ensures { result ≡ slice_index_or self.now.places.items label.index None }
    {
        self.places.get(label.index).copied().flatten()
    }
}
