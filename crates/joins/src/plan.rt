//! What starts go by, for the first of a PAR and for the later ones, and what may be wrong with them.

ghost use Rattle.std.specs.Prelude.{◌≡◌, ◌==◌, ◌||◌, ℕ, if◌then◌else◌, pos, Some, None, IfOk, OnOk, map};
ghost use Rattle.std.specs.BTreeSet.{contains};
ghost use Rattle.std.specs.Ordering.{nat_cmp};
ghost use Rattle.std.specs.List.{list_any};
ghost use Rattle.module_format.specs.declared.rows.EndRow.{EndRow as Row};
ghost use Rattle.module_format.specs.Rows.{BranchRow as Branching};
ghost use Rattle.module_format.specs.Contents.{branch_of, par_of};
ghost use Rattle.machine_state.specs.BranchShares.{frame_base};
ghost use Rattle.machine_state.specs.JoinLookups.{branch_names, names_end, row_names, named_from};
ghost use Rattle.machine_state.specs.StartPlans.{word_in};
ghost use Rattle.machine_state.specs.Views.{holding_view};

use crate::share::Frame;
use machine_state::{Holding, TaggedStore, local_address, place_of};
use module_format::{BranchRow, EndKind, EndRow, ParRow, Parameter};
use std::alloc::{AllocError, Global};
use std::collections::BTreeSet;

/// What a start goes by.
#[derive(Clone, Copy)]
pub(crate) struct Plan<'a> {
    pub row: u32,
    pub par: &'a ParRow,
    pub frame: Frame<'a>,
    /// How many branches are started.
    pub started: u32,
    /// What the branches have not been given.
    pub rest: &'a Holding,
}

/// The address of frame word 0 of a process whose workspace has a depth.
pub(crate) fn frame_base(workspace: u32, depth: i32) -> u32
    ensures { result ≡ frame_base workspace depth }
{
    workspace.wrapping_sub(depth.cast_unsigned().wrapping_mul(4))
}

/// Adds the numbers that are listed.
fn add_listed(numbers: &mut BTreeSet<u64>, listed: &[u16]) -> Result<(), AllocError>
    ensures { OnOk result ((j : ℕ) → contains nat_cmp numbers.new j
        ≡ (contains nat_cmp numbers.old j || list_any (λ (k : ℕ). k == j) listed.now)) }
{
    for number in listed {
        numbers.insert(u64::from(*number))?;
    }
    Ok(())
}

/// Adds the numbers of the parameters that the ends belong to.
fn add_of_ends(numbers: &mut BTreeSet<u64>, ends: &[EndRow]) -> Result<(), AllocError>
    ensures { OnOk result ((j : ℕ) → contains nat_cmp numbers.new j
        ≡ (contains nat_cmp numbers.old j || list_any (λ (e : Row). names_end j e.kind) ends.now)) }
{
    for end in ends {
        if let EndKind::Parameter { number, .. } = end.kind {
            numbers.insert(u64::from(number.unsigned_abs()))?;
        }
    }
    Ok(())
}

/// Adds the numbers of the parameters that a branch names.
fn add_named(numbers: &mut BTreeSet<u64>, branch: &BranchRow) -> Result<(), AllocError>
    ensures { OnOk result ((j : ℕ) → contains nat_cmp numbers.new j
        ≡ (contains nat_cmp numbers.old j || branch_names j (branch_of branch.now))) }
{
    add_listed(numbers, &branch.written_parameters)?;
    add_listed(numbers, &branch.read_parameters)?;
    add_of_ends(numbers, &branch.ends)
}

/// The numbers of the parameters that branches name.
fn numbers_by_branches(alloc: Global, branches: &[BranchRow]) -> Result<BTreeSet<u64>, AllocError>
    ensures { IfOk result (λ numbers. (j : ℕ) → contains nat_cmp numbers j
        ≡ list_any (λ (b : Branching). branch_names j (branch_of b)) branches.now) }
{
    let mut numbers = BTreeSet::new(alloc);
    for branch in branches {
        add_named(&mut numbers, branch)?;
    }
    Ok(numbers)
}

/// The numbers of the parameters that a row names. It takes time n log n in what its branches are given.
fn named_numbers(alloc: Global, par: &ParRow) -> Result<BTreeSet<u64>, AllocError>
    ensures { IfOk result (λ numbers. (j : ℕ) → contains nat_cmp numbers j ≡ row_names (par_of par.now) j) }
{
    numbers_by_branches(alloc, &par.branches)
}

/// The words of the parameters that a row names. It takes time n log n in those and in what its branches are given.
pub(crate) fn named(
    alloc: Global,
    par: &ParRow,
    parameters: &[Parameter],
) -> Result<Vec<Option<i32>>, AllocError>
    ensures { IfOk result (λ v. v.items ≡ named_from (par_of par.now) 0 parameters.now) }
{
    let numbers = named_numbers(alloc, par)?;
    let mut words = Vec::new(alloc);
    for (number, parameter) in parameters.iter().enumerate() {
        words.push(named_word(&numbers, number as u64, parameter.word))?;
    }
    Ok(words)
}

/// The word of the parameter of this number, if it is among the numbers.
fn named_word(numbers: &BTreeSet<u64>, number: u64, word: u16) -> Option<i32>
    ensures { result ≡ (if contains nat_cmp numbers.now number then Some (pos word) else None) }
{
    if numbers.contains(&number) {
        Some(i32::from(word))
    } else {
        None
    }
}

/// What a word of the frame holds, where it may be read.
fn word_in(store: &TaggedStore, holding: &Holding, base: u32, word: Option<i32>) -> Option<u32>
    ensures { result ≡ word_in (holding_view holding.now) store.now.cells base word }
{
    let address = local_address(base, word?);
    if !holding.may_read_word(place_of(address)) {
        return None;
    }
    let value = store.word(address)?;
    Some(value.cast_unsigned())
}

/// What words of the frame hold, where they may be read.
pub(crate) fn addresses(
    alloc: Global,
    store: &TaggedStore,
    holding: &Holding,
    base: u32,
    words: &[Option<i32>],
) -> Result<Vec<Option<u32>>, AllocError>
    ensures { IfOk result (λ v. v.items ≡ map (word_in (holding_view holding.now) store.now.cells base) words.now) }
{
    let mut addresses = Vec::new(alloc);
    for word in words {
        addresses.push(word_in(store, holding, base, *word))?;
    }
    Ok(addresses)
}
