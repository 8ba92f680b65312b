//! What is counted of a whole program.

ghost use Rattle.std.specs.Prelude.{◌≡◌, map, sum_by, option_map, option_and_then};
ghost use Rattle.occam_parser.specs.BlockViews.{item_of, procedure_of};
ghost use Rattle.program_work.specs.Readings.{capped};
ghost use Rattle.program_work.specs.Programs.{procedure_in, main_of, reading_of_item, is_too_much_to_write, names_in};
ghost use Rattle.program_work.specs.Sums.{sums_of_main};

use crate::lines::reading_of_constant;
use crate::reading::size_of_count;
use crate::sums::{GREATEST_WORK, Sums, sums_of};
use occam_parser::{Item, Proc};

/// A procedure, with the names of its formals.
fn sums_of_proc(proc: &Proc) -> Sums
    ensures { result ≡ sums_of_main (Some (procedure_of proc.now)) }
{
    sums_of(&proc.body).with_names(size_of_count(proc.formals.len()))
}

/// The last item, if it is a procedure.
fn sums_of_last(item: Option<&Item>) -> Sums
    ensures { result ≡ sums_of_main (option_and_then procedure_in (option_map (λ i. item_of i.now) item.entry)) }
{
    match item {
        Some(Item::Proc(proc)) => sums_of_proc(proc),
        _ => Sums::nothing(),
    }
}

/// The last item of some, if it is a procedure.
fn sums_of_main(items: &[Item]) -> Sums
    ensures { result ≡ sums_of_main (main_of (map item_of items.now)) }
{
    sums_of_last(items.last())
}

/// The lines of constants among items.
fn reading_of_items(items: &[Item]) -> u32
    ensures { result ≡ capped (sum_by reading_of_item (map item_of items.now)) }
{
    let mut reading: u32 = 0;
    for item in items {
        reading = reading.saturating_add(reading_of_item(item));
    }
    reading
}

/// An item, if it is a constant.
fn reading_of_item(item: &Item) -> u32
    ensures { result ≡ capped (reading_of_item (item_of item.now)) }
{
    match item {
        Item::Constant(constant) => reading_of_constant(constant),
        Item::Proc(_) => 0,
    }
}

/// Whether writing the code of a program may take too long: the readings of its constants and the work of its last
/// procedure are above [`GREATEST_WORK`], or a turn of a replicated `IF` has a work out of proportion to its size.
pub fn is_too_much_to_write(items: &[Item]) -> bool
    ensures { result ≡ is_too_much_to_write (map item_of items.now) }
{
    let main = sums_of_main(items);
    reading_of_items(items).saturating_add(main.work) > GREATEST_WORK || main.is_steep
}

/// How many names a program declares outside the bodies of the procedures that come before its last item, as far as a
/// `u32` goes: its items, and of its last procedure the formals, all that is declared in the body, and the indices.
pub fn names_in(items: &[Item]) -> u32
    ensures { result ≡ capped (names_in (map item_of items.now)) }
{
    size_of_count(items.len()).saturating_add(sums_of_main(items).names)
}
