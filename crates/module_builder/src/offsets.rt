//! Where the items of a draft begin, and what they need by that.

ghost use Rattle.std.specs.Prelude.{◌≡◌, ◌≤◌, ℕ, List, sum, length, map, IfOk};
ghost use Rattle.std.specs.List.{AllByRecursion};
ghost use Rattle.module_builder.specs.Drafts.{IsPlaced, IsComplete, OfItem, OfOperand};
ghost use Rattle.module_builder.specs.Layouts.{offset, place, value, load_len, bytes_of, needed};

use crate::instructions::Instructions;
use crate::item::{Item, Label, Operand};
use crate::sizes::spelling_len;
use module_format::MAX_LONG_CODE;
use std::alloc::{AllocError, Global};

/// A length for each item of a draft, and where each item begins by them.
pub(crate) trait Offsets {
    /// The bytes of each item.
    ghost lengths: { Self → List ℕ };

    /// Where an item begins, or the code's end.
    fn offset(&self, number: usize) -> u32
        requires { number ≤ length (lengths self.now) }
        ensures value { result ≡ offset (lengths self.now) number }
        ensures within { result ≤ sum (lengths self.now) }
        ensures short { result ≤ MAX_LONG_CODE };

    /// The code's end.
    fn end(&self) -> u32
        ensures value { result ≡ sum (lengths self.now) }
        ensures short { result ≤ MAX_LONG_CODE };
}

/// Where a label is.
fn place<P: Offsets>(places: &P, code: &Instructions, label: Label) -> u32
    requires placed { IsPlaced code.now label }
    requires count { length (P.lengths places.now) ≡ length code.now.items }
    ensures value { result ≡ place code.now (P.lengths places.now) label }
    ensures short { result ≤ MAX_LONG_CODE }
{
    places.offset(code.target(label))
}

/// The operand of an instruction that ends here.
pub(crate) fn value<P: Offsets>(places: &P, code: &Instructions, end: u32, operand: Operand) -> i32
    requires placed { OfOperand (IsPlaced code.now) operand }
    requires count { length (P.lengths places.now) ≡ length code.now.items }
    requires short { end ≤ MAX_LONG_CODE }
    ensures { result ≡ value code.now (P.lengths places.now) end operand }
{
    match operand {
        Operand::Number(number) => number,
        Operand::DistanceTo(label) => place(places, code, label) as i32 - end as i32,
        Operand::Between { from, to } => {
            place(places, code, to) as i32 - place(places, code, from) as i32
        }
    }
}

/// The bytes of `ldc` in the address of a constant, which ends here.
pub(crate) fn load_len<P: Offsets>(places: &P, end: u32, offset: u16) -> u8
    requires { end ≤ sum (P.lengths places.now) }
    ensures value { result ≡ load_len (P.lengths places.now) end offset }
    ensures small { result ≤ 8 }
{
    spelling_len((places.end() - end + 3 + u32::from(offset)) as i32)
}

/// The bytes that an item takes, if it ends here.
pub(crate) fn bytes_of<P: Offsets>(places: &P, code: &Instructions, end: u32, item: Item) -> u8
    requires placed { OfItem (IsPlaced code.now) item }
    requires count { length (P.lengths places.now) ≡ length code.now.items }
    requires short { end ≤ MAX_LONG_CODE }
    requires within { end ≤ sum (P.lengths places.now) }
    ensures { result ≡ bytes_of code.now (P.lengths places.now) end item }
{
    match item {
        Item::Instruction { fun: _, operand } => spelling_len(value(places, code, end, operand)),
        Item::ConstantAddress { offset } => load_len(places, end, offset) + 2,
    }
}

/// The bytes that each item takes by these places.
pub(crate) fn needed<P: Offsets>(
    alloc: Global,
    places: &P,
    code: &Instructions,
) -> Result<Vec<u8>, AllocError>
    requires complete { IsComplete code.now }
    requires count { length (P.lengths places.now) ≡ length code.now.items }
    ensures { IfOk result (λ v. v.items ≡ needed code.now (P.lengths places.now)) }
{
    let items = code.items();
    let mut needed = Vec::with_capacity(alloc, items.len())?;
    for (number, item) in items.iter().enumerate() {
        needed.push(bytes_of(places, code, places.offset(number + 1), *item))?;
    }
    Ok(needed)
}
