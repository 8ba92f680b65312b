//! Branches by the numbers of their contexts.

ghost use Rattle.std.specs.Prelude.{◌≡◌, None, Some, MatchOption, IfSome, slice_get};
ghost use Rattle.module_format.specs.Contents.{contents_of, par_of, branch_of};
ghost use Rattle.module_format.specs.Contexts.{branch_count};
ghost use Rattle.module_format.specs.Places.{ArePlaces};
ghost use Rattle.certificate.specs.Branches.{numbered_branch};

use module_format::{BranchRow, ParRow, Place, Tables};

/// The branch that is the context of a number, with the number of its PAR row and that row, found in constant time.
pub(crate) fn numbered_branch<'t>(
    tables: &'t Tables,
    places: &[Place],
    number: u32,
) -> Option<(u16, &'t ParRow, &'t BranchRow)>
    requires { ArePlaces (contents_of tables.now) (branch_count (contents_of tables.now).pars) places.now }
    ensures found { MatchOption result (numbered_branch (contents_of tables.now) number ≡ None)
        (λ found. numbered_branch (contents_of tables.now) number ≡ Some (par_of found.1.now, branch_of found.2.now)) }
    ensures row { IfSome result
        (λ found. slice_get (contents_of tables.now).pars found.0 ≡ Some (par_of found.1.now)) }
{
    let number = number as usize;
    let first = tables.first_branch();
    if number < first {
        return None;
    }
    let place = places.get(number - first)?;
    let row = &tables.pars[usize::from(place.par)];
    Some((place.par, row, &row.branches[usize::from(place.branch)]))
}
