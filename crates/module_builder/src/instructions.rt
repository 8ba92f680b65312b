//! The code of a draft: instructions over labels.

ghost use Rattle.std.specs.Prelude.{◌≡◌, ◌≤◌, ◌++◌, ◌∷◌, [], ◌↔◌, ℕ, None, Some, IfOk, IfSome, OnErr, IsTrue, length};
ghost use Rattle.std.specs.Prelude.{slice_set};
ghost use Rattle.std.specs.Prelude.{slice_index_or};
ghost use Rattle.module_builder.specs.Drafts.{target, nth_label, IsMade, IsPlaced, OfItem, IsComplete};

use crate::item::{Item, Label, Operand};
use std::alloc::{AllocError, Global};
use std::marker::Model;

/// Instructions over labels, in their order.
#[derive(Drop)]
pub struct Instructions {
    items: Vec<Item>,
    /// By label: how many items are before it, if it is placed.
    labels: Vec<Option<usize>>,
}

impl Model for Instructions {
    ghost use Rattle.std.specs.Prelude.{ℕ, ◌≤◌, IfSome, None, slice_index_or, length};
    ghost use Rattle.module_builder.specs.Drafts.{Code};

    ghost Value = { Code };

    ghost view = { λ d. record { items = d.items.items; labels = d.labels.items } };

    ghost invariant = { λ d. (k : ℕ) → IfSome (slice_index_or d.labels.items k None) (λ n. n ≤ length d.items.items) };
}

impl Instructions {
    /// No instruction and no label.
    pub fn new(alloc: Global) -> Self
        ensures { result ≡ record { items = []; labels = [] } }
    {
        Instructions {
            items: Vec::new(alloc),
            labels: Vec::new(alloc),
        }
    }

    /// Makes a label, which is not placed.
    pub fn label(&mut self) -> Result<Label, AllocError>
        ensures made { IfOk result (λ label. (label.index ≡ length self.old.labels)
            × (self.new ≡ record self.old { labels = self.old.labels ++ None ∷ [] })) }
        ensures err { OnErr result (self.new ≡ self.old) }
    {
        let index = self.labels.len();
        self.labels.push(None)?;
        Ok(Label { index })
    }

    /// The label that was made after `number` others, if it was made.
    pub fn nth_label(&self, number: usize) -> Option<Label>
        ensures value { result ≡ nth_label self.now number }
        ensures made { IfSome result (IsMade self.now) }
    {
        if number < self.labels.len() {
            Some(Label { index: number })
        } else {
            None
        }
    }

    /// Whether a label is placed.
    pub fn is_placed(&self, label: Label) -> bool
        ensures { IsTrue result ↔ IsPlaced self.now label }
    {
        self.labels.get(label.index).copied().flatten().is_some()
    }

    /// Places a label before the next item, or at the code's end if none follows.
    pub fn place(&mut self, label: Label)
        requires made { IsMade self.old label }
        requires once { target self.old label ≡ None }
        ensures { self.new
            ≡ record self.old { labels = slice_set self.old.labels label.index (Some (length self.old.items)) } }
    {
        self.labels[label.index] = Some(self.items.len());
    }

    /// Adds an item.
    pub fn push(&mut self, item: Item) -> Result<(), AllocError>
        requires { OfItem (IsMade self.old) item }
        ensures ok { IfOk result (λ _. self.new ≡ record self.old { items = self.old.items ++ item ∷ [] }) }
        ensures err { OnErr result (self.new ≡ self.old) }
    {
        self.items.push(item)?;
        Ok(())
    }

    /// Whether each label that an item refers to is placed.
    pub fn is_complete(&self) -> bool
        ensures { IsTrue result ↔ IsComplete self.now }
    {
        self.items.iter().all(|item| match *item {
            Item::Instruction {
                operand: Operand::DistanceTo(label),
                ..
            } => self.is_placed(label),
            Item::Instruction {
                operand: Operand::Between { from, to },
                ..
            } => self.is_placed(from) && self.is_placed(to),
            _ => true,
        })
    }

    /// The items.
    pub(crate) fn items(&self) -> &[Item]
        ensures { result.now ≡ self.now.items }
    {
        &self.items
    }

    /// By label: how many items are before it, if it is placed.
    pub(crate) fn labels(&self) -> &[Option<usize>]
        ensures value { result.now ≡ self.now.labels }
        ensures within { (k : ℕ) → IfSome (slice_index_or self.now.labels k None) (λ at. at ≤ length self.now.items) }
    {
        &self.labels
    }

    /// How many items are before a label.
    pub(crate) fn target(&self, label: Label) -> usize
        requires { IsPlaced self.now label }
        ensures value { target self.now label ≡ Some result }
        ensures within { result ≤ length self.now.items }
    {
        self.labels[label.index].unwrap()
    }
}
