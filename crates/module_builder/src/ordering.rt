//! The order of rows in a file.

ghost use Rattle.std.specs.Prelude.{◌≡◌, IfOk, length, slice_set};
ghost use Rattle.module_builder.specs.Ordering.{IsOrder};
ghost use Rattle.module_builder.specs.Numbered.{ArePlaces};

use std::alloc::{AllocError, Global};

/// The order of rows with these keys: each by its key and its number. Rows with equal keys keep their order.
pub(crate) fn order_of(alloc: Global, keys: &[u32]) -> Result<Vec<(u32, usize)>, AllocError>
    ensures order { IfOk result (λ v. IsOrder keys.now v.items) }
    ensures len { IfOk result (λ v. length v.items ≡ length keys.now) }
{
    let mut order = Vec::with_capacity(alloc, keys.len())?;
    for number in 0..keys.len() {
        order.push((keys[number], number))?;
    }
    order.sort()?;
    Ok(order)
}

/// Sets the place of a row, if there is that row.
fn set_place(places: &mut [usize], row: usize, place: usize)
    ensures { places.new ≡ slice_set places.old row place }
{
    if row < places.len() {
        places[row] = place;
    }
}

/// By row: how many rows are before it in an order.
pub(crate) fn places_in(
    alloc: Global,
    order: &[(u32, usize)],
    count: usize,
) -> Result<Vec<usize>, AllocError>
    ensures { IfOk result (λ v. ArePlaces order.now count v.items) }
{
    let mut places = vec![in alloc; order.len(); count]?;
    let mut place = order.len();
    while place > 0 {
        place -= 1;
        set_place(&mut places, order[place].1, place);
    }
    Ok(places)
}
