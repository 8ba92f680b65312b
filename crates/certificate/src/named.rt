//! The parameters that the branches of PAR rows name.

ghost use Rattle.std.specs.Prelude.{◌≡◌, ◌||◌, ℤ, length, IfOk};
ghost use Rattle.std.specs.List.{list_any};
ghost use Rattle.std.specs.List.Sorted.{IsStrictlySortedBy};
ghost use Rattle.std.specs.Ordering.{int_cmp};
ghost use Rattle.module_format.specs.Contents.{contents_of, branch_of, par_of};
ghost use Rattle.certificate.specs.Named.{is_one_of, is_parameter_of, parameter_of, is_end_of, names_parameter};
ghost use Rattle.certificate.specs.Named.{AreAllNamed};

use module_format::{BranchRow, EndKind, EndRow, ParRow, Tables};
use std::alloc::{AllocError, Global};

/// Adds the numbers of parameters.
fn add_parameters(numbers: &mut Vec<i32>, parameters: &[u16]) -> Result<(), AllocError>
    ensures { IfOk result (λ _. (j : ℤ) → is_one_of numbers.new.items j
        ≡ (is_one_of numbers.old.items j || is_parameter_of parameters.now j)) }
{
    let mut rest = parameters;
    while let Some((parameter, after)) = rest.split_first() {
        numbers.push(i32::from(*parameter))?;
        rest = after;
    }
    Ok(())
}

/// The number of the parameter whose channel this is, if it is a parameter's.
fn parameter_of(kind: EndKind) -> Option<i32>
    ensures { result ≡ parameter_of kind }
{
    match kind {
        EndKind::Parameter { number, .. } => Some(number),
        _ => None,
    }
}

/// Adds the numbers of the parameters whose channels have these ends.
fn add_ends(numbers: &mut Vec<i32>, ends: &[EndRow]) -> Result<(), AllocError>
    ensures { IfOk result (λ _. (j : ℤ) → is_one_of numbers.new.items j
        ≡ (is_one_of numbers.old.items j || is_end_of ends.now j)) }
{
    let mut rest = ends;
    while let Some((end, after)) = rest.split_first() {
        if let Some(number) = parameter_of(end.kind) {
            numbers.push(number)?;
        }
        rest = after;
    }
    Ok(())
}

/// Adds the numbers of the parameters that a branch names.
fn add_branch(numbers: &mut Vec<i32>, branch: &BranchRow) -> Result<(), AllocError>
    ensures { IfOk result (λ _. (j : ℤ) → is_one_of numbers.new.items j
        ≡ (is_one_of numbers.old.items j || names_parameter j (branch_of branch.now))) }
{
    add_parameters(numbers, &branch.written_parameters)?;
    add_parameters(numbers, &branch.read_parameters)?;
    add_ends(numbers, &branch.ends)?;
    Ok(())
}

/// The numbers of the parameters that the branches of a PAR row name, one branch after the other.
fn numbers_of(alloc: Global, par: &ParRow) -> Result<Vec<i32>, AllocError>
    ensures { IfOk result (λ numbers. (j : ℤ) → is_one_of numbers.items j
        ≡ list_any (names_parameter j) (par_of par.now).branches) }
{
    let mut numbers = Vec::new(alloc);
    let mut rest: &[BranchRow] = &par.branches;
    while let Some((branch, after)) = rest.split_first() {
        add_branch(&mut numbers, branch)?;
        rest = after;
    }
    Ok(numbers)
}

/// The same numbers in rising order, each once.
fn distinct(mut numbers: Vec<i32>) -> Vec<i32>
    ensures same { (j : ℤ) → is_one_of result.items j ≡ is_one_of numbers.items j }
    ensures rise { IsStrictlySortedBy int_cmp result.items }
{
    numbers.sort_unstable();
    numbers.dedup();
    numbers
}

/// For each PAR row, the parameters that its branches name. It takes time n log n in what they are given.
pub(crate) fn named_of(alloc: Global, tables: &Tables) -> Result<Vec<Vec<i32>>, AllocError>
    ensures { let c = contents_of tables.now in
        IfOk result (λ named. AreAllNamed c (length c.pars) named.items) }
{
    let mut named = Vec::new(alloc);
    for index in 0..tables.pars.len() {
        let numbers = numbers_of(alloc, &tables.pars[index])?;
        named.push(distinct(numbers))?;
    }
    Ok(named)
}
