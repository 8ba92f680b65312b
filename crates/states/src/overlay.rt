//! Facts by index: a sparse set, and for each block of words whether one of them was written.

ghost use Rattle.std.specs.Prelude.{◌≡◌, ◌<◌, ◌≤◌, ◌==◌, ℕ, if◌then◌else◌, length, vec_len, vec_capacity, Some, None};
ghost use Rattle.std.specs.Prelude.{[], ◌/◌, true, IfOk, IfSome, IfNone, IsFalse, slice_index};
ghost use Rattle.states.specs.Blocks.{block_words};
ghost use Rattle.states.specs.Lookup.{lookup, indices, ArePlaced, is_touched, AreTouched};

use crate::blocks::block_words;
use module_format::Fact;
use std::alloc::{AllocError, Global};

/// A fact that was written, and its index.
#[derive(Clone, Copy)]
pub(crate) struct Written {
    pub index: usize,
    pub fact: Fact,
}

/// The facts that were written, for indices below a capacity that is set at construction. Nothing is allocated later.
#[derive(Drop)]
pub(crate) struct Overlay {
    /// For each index where in `written` it may be. The index that is found there decides.
    pub(crate) places: Vec<usize>,
    pub(crate) written: Vec<Written>,
    /// For each block of words whether one of its indices may have been written.
    pub(crate) touched: Vec<bool>,
    ghost placed: { ArePlaced places.items written.items },
    ghost reserved: { vec_len places ≤ vec_capacity written },
    ghost noted: { AreTouched touched.items written.items },
}

impl Overlay {
    pub(crate) fn new(alloc: Global, room: usize) -> Result<Self, AllocError>
        ensures empty { IfOk result (λ o. o.written.items ≡ []) }
        ensures room { IfOk result (λ o. vec_len o.places ≡ room) }
    {
        let places = vec![in alloc; 0; room]?;
        let written = Vec::with_capacity(alloc, room)?;
        let touched = vec![in alloc; false; room / block_words() + 1]?;
        Ok(Overlay {
            places,
            written,
            touched,
        })
    }

    pub(crate) fn copy(&self, alloc: Global) -> Result<Self, AllocError>
        ensures written { IfOk result (λ o. o.written.items ≡ self.now.written.items) }
        ensures room { IfOk result (λ o. vec_len o.places ≡ vec_len self.now.places) }
    {
        let places = Vec::from_slice(alloc, &self.places)?;
        let mut written = Vec::with_capacity(alloc, self.places.len())?;
        written.extend_from_slice(&self.written)?;
        let touched = Vec::from_slice(alloc, &self.touched)?;
        Ok(Overlay {
            places,
            written,
            touched,
        })
    }

    /// Where an index is in the list, if it was written.
    fn place(&self, index: usize) -> Option<usize>
        ensures found { IfSome result (λ p.
            (p < vec_len self.now.written) × (slice_index (indices self.now.written.items) p ≡ index)) }
        ensures none { IfNone result (lookup self.now.written.items index ≡ None) }
    {
        if index >= self.places.len() {
            return None;
        }
        let place = self.places[index];
        if place >= self.written.len() {
            return None;
        }
        if self.written[place].index != index {
            return None;
        }
        Some(place)
    }

    pub(crate) fn get(&self, index: usize) -> Option<Fact>
        ensures { result ≡ lookup self.now.written.items index }
    {
        let place = self.place(index)?;
        Some(self.written[place].fact)
    }

    /// Whether one of the indices of a block of words may have been written.
    pub(crate) fn is_touched(&self, number: usize) -> bool
        ensures { IsFalse result → (j : ℕ) → j / block_words ≡ number → lookup self.now.written.items j ≡ None }
    {
        if number >= self.touched.len() {
            return true;
        }
        self.touched[number]
    }

    /// No fact is written. The time grows with the number of blocks of words.
    pub(crate) fn clear(&mut self)
        ensures empty { self.new.written.items ≡ [] }
        ensures room { vec_len self.new.places ≡ vec_len self.old.places }
    {
        self.written.clear();
        self.touched.fill(false);
    }

    /// One of the indices of a block of words may have been written.
    fn touch(&mut self, number: usize)
        ensures touched { is_touched self.new.touched.items number ≡ true }
        ensures written { self.new.written.items ≡ self.old.written.items }
        ensures room { vec_len self.new.places ≡ vec_len self.old.places }
    {
        if number < self.touched.len() {
            self.touched[number] = true;
        }
    }

    /// Writes a fact for an index of a block one of whose indices may have been written.
    fn put(&mut self, index: usize, fact: Fact)
        requires room { index < vec_len self.old.places }
        requires touched { is_touched self.old.touched.items (index / block_words) ≡ true }
        ensures facts { (j : ℕ) → lookup self.new.written.items j
            ≡ (if j == index then Some fact else lookup self.old.written.items j) }
        ensures room { vec_len self.new.places ≡ vec_len self.old.places }
    {
        match self.place(index) {
            Some(place) => self.written[place] = Written { index, fact },
            None => {
                self.places[index] = self.written.len();
                self.written.push(Written { index, fact }).unwrap();
            }
        }
    }

    /// Writes a fact, in place of the one that was written before.
    pub(crate) fn set(&mut self, index: usize, fact: Fact)
        requires { index < vec_len self.old.places }
        ensures facts { (j : ℕ) → lookup self.new.written.items j
            ≡ (if j == index then Some fact else lookup self.old.written.items j) }
        ensures room { vec_len self.new.places ≡ vec_len self.old.places }
    {
        self.touch(index / block_words());
        self.put(index, fact);
    }
}
