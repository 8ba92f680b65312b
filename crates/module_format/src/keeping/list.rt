//! Rules that the items of a list keep one after the other.

ghost use Rattle.std.specs.Prelude.{◌≡◌, ◌↔◌, IsTrue, map};
ghost use Rattle.module_format.specs.Order.{InOrder};

use crate::listed::Listed;

/// Whether each item keeps its rule, where the first one finds `low`.
pub(crate) fn all_keep<C, T: Listed<C>>(context: &C, low: T::Low, items: &[T]) -> bool
    ensures { IsTrue result ↔ InOrder (T.Keeps context.now) T.listing.behind low (map T.listing.view items.now) }
{
    let mut low = low;
    for item in items {
        if !item.keeps(context, low) {
            return false;
        }
        low = item.after();
    }
    true
}
