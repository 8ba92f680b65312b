//! Lists of items that follow one another.

ghost use Rattle.std.specs.Prelude.{◌≡◌, ◌++◌, List, [], ◌∷◌, IfOk, None, map};
ghost use Rattle.module_format.specs.Order.{behind_all};
ghost use Rattle.module_format.specs.Meaning.{Walk, walk};
ghost use Rattle.module_format.specs.Reading.{list_at};
ghost use Rattle.module_format.specs.Taking.{Takes};

use crate::listed::Listed;
use crate::reading::cursor::Cursor;
use smallvec::SmallVec;
use std::alloc::{AllocError, AllocFailed, Global};
use std::default::MadeWith;

/// What the items of a list are kept in.
pub(crate) trait Items<T: Drop>: Drop {
    ghost items: { Self → List T };

    fn empty(alloc: Global) -> Self
        ensures { items result ≡ [] };

    /// Reserves capacity for `count` more items.
    fn reserve(&mut self, count: usize) -> Result<(), AllocError>
        ensures { items self.new ≡ items self.old };

    fn add(&mut self, item: T) -> Result<(), AllocFailed<T>>
        ensures { IfOk result (λ _. items self.new ≡ items self.old ++ item ∷ []) };
}

impl<T: Drop> Items<T> for Vec<T> {
    ghost items = { λ v. v.items };

    fn empty(alloc: Global) -> Vec<T> {
        Vec::new(alloc)
    }

    fn reserve(&mut self, count: usize) -> Result<(), AllocError> {
        self.reserve_exact(count)
    }

    fn add(&mut self, item: T) -> Result<(), AllocFailed<T>> {
        self.push(item)
    }
}

impl<T: MadeWith<Global> + Drop, const N: usize> Items<T> for SmallVec<T, N> {
    ghost items = { λ v. v.items };

    fn empty(alloc: Global) -> SmallVec<T, N> {
        SmallVec::new(alloc)
    }

    fn reserve(&mut self, count: usize) -> Result<(), AllocError> {
        if count <= N {
            return Ok(());
        }
        self.reserve(count)
    }

    fn add(&mut self, item: T) -> Result<(), AllocFailed<T>> {
        self.push(item)
    }
}

/// Reads the items of a list, one after the other.
pub(crate) trait Reader {
    type Item: Drop;

    ghost walk: { Walk Self Self.Item };

    fn read(&mut self, from: &mut Cursor<'_>) -> Self::Item
        ensures takes { Takes (λ size. walk.listing.reads (walk.context self.old) size (walk.state self.old))
            from.old (walk.listing.view result) from.new }
        ensures next { from.new.failure ≡ None
            → walk.state self.new ≡ walk.listing.behind (walk.state self.old) (walk.listing.view result) }
        ensures same { walk.context self.new ≡ walk.context self.old };
}

/// Adds as many items as a number says to an empty list, as long as none fails. Capacity is reserved for all of them
/// at once, but for no more than there are bytes left, since each item has at least one byte.
#[inline(always)]
pub(crate) fn fill<R: Reader, L: Items<R::Item>>(
    reader: &mut R,
    count: u32,
    items: &mut L,
    from: &mut Cursor<'_>,
)
    requires { L.items items.old ≡ [] }
    ensures takes { Takes (λ size. list_at (R.walk.listing.reads (R.walk.context reader.old) size) R.walk.listing.behind
        count (R.walk.state reader.old)) from.old (map R.walk.listing.view (L.items items.new)) from.new }
    ensures last { from.new.failure ≡ None → R.walk.state reader.new
        ≡ behind_all R.walk.listing.behind (R.walk.state reader.old) (map R.walk.listing.view (L.items items.new)) }
    ensures same { R.walk.context reader.new ≡ R.walk.context reader.old }
{
    if from.has_failed() {
        return;
    }
    if items.reserve(from.at_most_left(count)).is_err() {
        from.run_out_of_memory();
        return;
    }
    for _ in 0..count {
        let item = reader.read(from);
        if from.has_failed() {
            return;
        }
        if items.add(item).is_err() {
            from.run_out_of_memory();
            return;
        }
    }
}

/// Items that are each read by itself, after one that left `low`.
#[derive(Drop)]
struct Behind<'c, C, T: Listed<C>> {
    context: &'c C,
    low: T::Low,
}

impl<C, T: Listed<C>> Reader for Behind<'_, C, T> {
    type Item = T;

    ghost walk = { walk (λ r. r.context.now) (λ r. r.low) T.listing };

    fn read(&mut self, from: &mut Cursor<'_>) -> T {
        let item = T::read(self.context, self.low, from);
        self.low = item.after();
        item
    }
}

/// As many items as a number says, the first of them after `low`.
#[inline(always)]
pub(crate) fn read_list<C, T: Listed<C>, L: Items<T>>(
    context: &C,
    low: T::Low,
    count: u32,
    from: &mut Cursor<'_>,
) -> L
    ensures { Takes (λ size. list_at (T.listing.reads context.now size) T.listing.behind count low)
        from.old (map T.listing.view (L.items result)) from.new }
{
    let mut reader = Behind { context, low };
    let mut items = L::empty(from.alloc());
    fill(&mut reader, count, &mut items, from);
    items
}
