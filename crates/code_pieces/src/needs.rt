//! How many bytes are executed at most.

ghost use Rattle.std.specs.Prelude.{◌≡◌, ◌≢◌, ◌≤◌, ◌<◌, ◌+◌, ◌*◌, IfOk, IfErr, Err, ℕ, List, length};
ghost use Rattle.std.specs.Option.{option_to_list};
ghost use Rattle.module_format.specs.declared.limits.TheConstants.{MAX_BUDGET};
ghost use Rattle.code_pieces.specs.PieceViews.{piece_of, pieces_of};
ghost use Rattle.code_pieces.specs.Numbers.{Numbered, number_at, with_number, nothing_needed, is_stop, turns_at};
ghost use Rattle.code_pieces.specs.Numbers.{at_head, largest_at, successor_need, start_need, needed_before, needs_of};
ghost use Rattle.code_pieces.specs.Numbers as numbers;
ghost use Rattle.code_pieces.specs.Pieces.{StartBranch, Row};
ghost use Rattle.code_pieces.specs.Needed.{Tells, IsKnown, HasLabels, NeedsAreWithin};
ghost use Rattle.code_pieces.specs.WellFormed.{labels_named, AreBelow, AreNamed};

use crate::operations::{END_PROCESS, STOP_PROCESS};
use crate::piece::{Piece, RowEntry, WordFact};
use module_builder::GenFault;
use module_format::MAX_BUDGET;
use prefix_decoder::Fun;
use std::alloc::Global;

/// What is known after a piece: how many bytes are executed from there on at most; by label further on the same; by
/// the head of each loop that ends further on, what is executed after it; and by the head of each loop that begins
/// further on, what a turn costs.
#[derive(Drop)]
pub struct Needs {
    need: u64,
    labels: Vec<u64>,
    ends: Vec<u64>,
    weights: Vec<u64>,
}

/// A sum that is a number of bytes.
fn sum(a: u64, b: u64) -> Result<u64, GenFault>
    ensures ok { IfOk result (λ n. n ≡ a + b) }
    ensures within { IfOk result (λ n. n ≤ MAX_BUDGET) }
    ensures err { IfErr result (λ e. (e ≡ GenFault.Limit) × (MAX_BUDGET < a + b)) }
{
    match a.checked_add(b) {
        Some(number) if number <= MAX_BUDGET => Ok(number),
        _ => Err(GenFault::Limit),
    }
}

/// What is executed from the head of a loop on, if `turns` turns follow the first one.
fn with_turns(need: u64, weight: u64, turns: u64) -> Result<u64, GenFault>
    ensures ok { IfOk result (λ n. n ≡ need + weight * turns) }
    ensures within { IfOk result (λ n. n ≤ MAX_BUDGET) }
    ensures err { IfErr result (λ e. (e ≡ GenFault.Limit) × (MAX_BUDGET < need + weight * turns)) }
{
    match weight.checked_mul(turns) {
        Some(product) => sum(need, product),
        None => Err(GenFault::Limit),
    }
}

/// The number of a label.
fn number_at(numbers: &[u64], label: usize) -> Result<u64, GenFault>
    ensures ok { IfOk result (λ n. (ns : List Numbered) → Tells numbers.now ns → n ≡ number_at label ns) }
    ensures err { IfErr result (λ e. e ≡ GenFault.Invalid) }
    ensures invalid { IfErr result (λ _. length numbers.now ≤ label) }
{
    match numbers.get(label) {
        Some(number) => Ok(*number),
        None => Err(GenFault::Invalid),
    }
}

/// Sets the number of a label.
fn set_number(numbers: &mut [u64], label: usize, number: u64) -> Result<(), GenFault>
    ensures ok { IfOk result (λ _. (ns : List Numbered) → Tells numbers.old ns
        → Tells numbers.new (with_number label number ns)) }
    ensures err { IfErr result (λ e. e ≡ GenFault.Invalid) }
    ensures invalid { IfErr result (λ _. length numbers.old ≤ label) }
{
    if label >= numbers.len() {
        return Err(GenFault::Invalid);
    }
    numbers[label] = number;
    Ok(())
}

/// The largest of the numbers of these labels.
fn largest_at(numbers: &[u64], labels: &[usize]) -> Result<u64, GenFault>
    ensures ok { IfOk result (λ n. (ns : List Numbered) → Tells numbers.now ns → n ≡ largest_at labels.now ns) }
    ensures err { IfErr result (λ e. e ≡ GenFault.Invalid) }
    ensures invalid { IfErr result (λ _. ¬ AreBelow (length numbers.now) labels.now) }
{
    let mut largest = 0u64;
    for label in labels {
        largest = largest.max(number_at(numbers, *label)?);
    }
    Ok(largest)
}

/// What is executed after a PAR, if the start is its first.
fn successor_need(numbers: &[u64], successor: Option<usize>) -> Result<u64, GenFault>
    ensures ok { IfOk result (λ n. (ns : List Numbered) → Tells numbers.now ns → n ≡ successor_need successor ns) }
    ensures err { IfErr result (λ e. e ≡ GenFault.Invalid) }
    ensures invalid { IfErr result (λ _. ¬ AreBelow (length numbers.now) (option_to_list successor)) }
{
    match successor {
        Some(label) => number_at(numbers, label),
        None => Ok(0),
    }
}

/// Whether nothing is executed after an instruction.
fn is_stop(fun: Fun, operand: i32) -> bool
    ensures { result ≡ is_stop fun operand }
{
    match fun {
        Fun::Operate => operand == STOP_PROCESS || operand == END_PROCESS,
        _ => false,
    }
}

/// How many turns a loop has, if it has its head at this label.
fn turns_at(label: usize, entries: &[RowEntry]) -> Option<u32>
    ensures { result ≡ turns_at label entries.now }
{
    for entry in entries {
        if let WordFact::Turning { head, count, .. } = entry.fact
            && head == label
        {
            return Some(count);
        }
    }
    None
}

impl Needs {
    /// What is known after the last piece of code with `labels` labels.
    fn nothing(alloc: Global, labels: usize) -> Result<Needs, GenFault>
        ensures ok { IfOk result (λ v. IsKnown v nothing_needed) }
        ensures labels { IfOk result (λ v. HasLabels labels v) }
        ensures err { IfErr result (λ e. e ≡ GenFault.Memory) }
    {
        Ok(Needs {
            need: 0,
            labels: vec![in alloc; 0; labels]?,
            ends: vec![in alloc; 0; labels]?,
            weights: vec![in alloc; 0; labels]?,
        })
    }

    /// Goes from after the head of a loop with this number of turns to before it, if there is one.
    fn enter_head(&mut self, label: usize, turns: Option<u32>) -> Result<(), GenFault>
        ensures ok { IfOk result (λ _. (n : numbers.Needs) → IsKnown self.old n
            → IsKnown self.new (at_head label turns n)) }
        ensures within { IfOk result (λ _. self.old.need ≤ MAX_BUDGET → self.new.need ≤ MAX_BUDGET) }
        ensures labels { IfOk result (λ _. (labels : ℕ) → HasLabels labels self.old → HasLabels labels self.new) }
        ensures limit { result ≡ Err GenFault.Limit → (n : numbers.Needs) → IsKnown self.old n
            → MAX_BUDGET < (at_head label turns n).need }
        ensures invalid { result ≡ Err GenFault.Invalid → (labels : ℕ) → HasLabels labels self.old → labels ≤ label }
        ensures memory { result ≢ Err GenFault.Memory }
    {
        if let Some(count) = turns {
            let weight = self.need.saturating_sub(number_at(&self.ends, label)?);
            set_number(&mut self.weights, label, weight)?;
            self.need = with_turns(self.need, weight, u64::from(count.saturating_sub(1)))?;
        }
        Ok(())
    }

    /// Notes what is executed from a label on.
    fn enter_label(&mut self, label: usize) -> Result<(), GenFault>
        ensures ok { IfOk result (λ _. (n : numbers.Needs) → IsKnown self.old n
            → IsKnown self.new (record n { labels = with_number label n.need n.labels })) }
        ensures within { IfOk result (λ _. self.old.need ≤ MAX_BUDGET → self.new.need ≤ MAX_BUDGET) }
        ensures labels { IfOk result (λ _. (labels : ℕ) → HasLabels labels self.old → HasLabels labels self.new) }
        ensures err { IfErr result (λ e. e ≡ GenFault.Invalid) }
        ensures invalid { IfErr result (λ _. (labels : ℕ) → HasLabels labels self.old → labels ≤ label) }
    {
        set_number(&mut self.labels, label, self.need)
    }

    /// Goes from after a row to before it.
    fn enter_row(&mut self, label: usize, entries: &[RowEntry]) -> Result<(), GenFault>
        ensures ok { IfOk result (λ _. (n : numbers.Needs) → IsKnown self.old n
            → IsKnown self.new (needed_before (Row label entries.now) 0 n)) }
        ensures within { IfOk result (λ _. self.old.need ≤ MAX_BUDGET → self.new.need ≤ MAX_BUDGET) }
        ensures labels { IfOk result (λ _. (labels : ℕ) → HasLabels labels self.old → HasLabels labels self.new) }
        ensures limit { result ≡ Err GenFault.Limit → (n : numbers.Needs) → IsKnown self.old n
            → MAX_BUDGET < (needed_before (Row label entries.now) 0 n).need }
        ensures invalid { result ≡ Err GenFault.Invalid → (labels : ℕ) → HasLabels labels self.old → labels ≤ label }
        ensures memory { result ≢ Err GenFault.Memory }
    {
        self.enter_label(label)?;
        self.enter_head(label, turns_at(label, entries))?;
        Ok(())
    }

    /// What is executed after a start, by the branch too.
    fn start_need(&self, entry: usize, successor: Option<usize>) -> Result<u64, GenFault>
        ensures ok { IfOk result (λ number. (n : numbers.Needs) → IsKnown self.now n
            → number ≡ start_need entry successor n) }
        ensures limit { result ≡ Err GenFault.Limit → (n : numbers.Needs) → IsKnown self.now n
            → MAX_BUDGET < start_need entry successor n }
        ensures invalid { result ≡ Err GenFault.Invalid → (labels : ℕ) → HasLabels labels self.now
            → ¬ AreBelow labels (labels_named (StartBranch entry successor)) }
        ensures memory { result ≢ Err GenFault.Memory }
    {
        let branch = number_at(&self.labels, entry)?;
        let behind = successor_need(&self.labels, successor)?;
        sum(sum(self.need, branch)?, behind)
    }

    /// Goes from after a piece of `size` bytes to before it.
    fn enter(&mut self, piece: &Piece, size: u32) -> Result<(), GenFault>
        ensures ok { IfOk result (λ _. (n : numbers.Needs) → IsKnown self.old n
            → IsKnown self.new (needed_before (piece_of piece.now) size n)) }
        ensures within { IfOk result (λ _. self.old.need ≤ MAX_BUDGET → self.new.need ≤ MAX_BUDGET) }
        ensures labels { IfOk result (λ _. (labels : ℕ) → HasLabels labels self.old → HasLabels labels self.new) }
        ensures limit { result ≡ Err GenFault.Limit → (n : numbers.Needs) → IsKnown self.old n
            → MAX_BUDGET < (needed_before (piece_of piece.now) size n).need }
        ensures invalid { result ≡ Err GenFault.Invalid → (labels : ℕ) → HasLabels labels self.old
            → ¬ AreBelow labels (labels_named (piece_of piece.now)) }
        ensures memory { result ≢ Err GenFault.Memory }
    {
        let size = u64::from(size);
        match *piece {
            Piece::Direct { fun, operand } if is_stop(fun, operand) => self.need = size,
            Piece::Jump { to } => self.need = sum(size, number_at(&self.labels, to)?)?,
            Piece::JumpUnless { to } => {
                let jumped = number_at(&self.labels, to)?;
                self.need = sum(size, self.need.max(jumped))?;
            }
            Piece::LoopBack { head, .. } => {
                set_number(&mut self.ends, head, self.need)?;
                self.need = sum(size, self.need)?;
            }
            Piece::StartBranch { entry, successor } => {
                self.need = sum(size, self.start_need(entry, successor)?)?;
            }
            Piece::Select { ref targets } => {
                self.need = sum(size, largest_at(&self.labels, targets)?)?;
            }
            Piece::Row { label, ref entries } => self.enter_row(label, entries)?,
            _ => self.need = sum(size, self.need)?,
        }
        Ok(())
    }

    /// What is known before the first of these pieces, which have these sizes, in code with `labels` labels.
    ///
    /// # Errors
    ///
    /// `Limit` if from some piece on more bytes are executed than a budget may be, `Invalid` if a piece names a label
    /// that is not there, `Memory` if memory runs out.
    #[tactic(auto, using(crate::proofs::NeedsWithin::none_within, crate::proofs::NeedsWithin::all_within))]
    pub fn of(
        alloc: Global,
        pieces: &[Piece],
        sizes: &[u32],
        labels: usize,
    ) -> Result<Needs, GenFault>
        requires { length sizes.now ≡ length pieces.now }
        ensures ok { IfOk result (λ v. IsKnown v (needs_of (pieces_of pieces.now) sizes.now)) }
        ensures within { IfOk result (λ _. NeedsAreWithin (pieces_of pieces.now) sizes.now) }
        ensures labels { IfOk result (λ v. HasLabels labels v) }
        ensures limit { result ≡ Err GenFault.Limit → ¬ NeedsAreWithin (pieces_of pieces.now) sizes.now }
        ensures invalid { result ≡ Err GenFault.Invalid → ¬ AreNamed labels (pieces_of pieces.now) }
    {
        let mut needs = Needs::nothing(alloc, labels)?;
        for number in (0..pieces.len()).rev() {
            needs.enter(&pieces[number], sizes[number])?;
        }
        Ok(needs)
    }

    /// How many bytes are executed at most.
    pub fn need(&self) -> u64
        ensures { (n : numbers.Needs) → IsKnown self.now n → result ≡ n.need }
    {
        self.need
    }

    /// How many bytes are executed from a label on at most.
    ///
    /// # Errors
    ///
    /// `Invalid` if there is no such label.
    pub fn at_label(&self, label: usize) -> Result<u64, GenFault>
        ensures ok { IfOk result (λ number. (n : numbers.Needs) → IsKnown self.now n
            → number ≡ number_at label n.labels) }
        ensures err { IfErr result (λ e. e ≡ GenFault.Invalid) }
        ensures invalid { IfErr result (λ _. (labels : ℕ) → HasLabels labels self.now → labels ≤ label) }
    {
        number_at(&self.labels, label)
    }

    /// What a turn of the loop with this head costs.
    ///
    /// # Errors
    ///
    /// `Invalid` if there is no such label.
    pub fn weight(&self, head: usize) -> Result<u64, GenFault>
        ensures ok { IfOk result (λ number. (n : numbers.Needs) → IsKnown self.now n
            → number ≡ number_at head n.weights) }
        ensures err { IfErr result (λ e. e ≡ GenFault.Invalid) }
        ensures invalid { IfErr result (λ _. (labels : ℕ) → HasLabels labels self.now → labels ≤ head) }
    {
        number_at(&self.weights, head)
    }
}
