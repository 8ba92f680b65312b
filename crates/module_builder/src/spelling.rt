//! The bytes of a draft's code.

ghost use Rattle.std.specs.Prelude.{◌≡◌, ◌≤◌, ◌++◌, pos, length, sum, IfOk, IfErr};
ghost use Rattle.prefix_decoder.specs.Spelling.{spelling};
ghost use Rattle.module_builder.specs.Drafts.{IsComplete, IsPlaced, OfItem};
ghost use Rattle.module_builder.specs.Layouts.{Fits};
ghost use Rattle.module_builder.specs.Spelling.{constants_start, address, spelled_item, spelled};

use crate::draft::Draft;
use crate::fault::GenFault;
use crate::instructions::Instructions;
use crate::item::Item;
use crate::layouts::Layout;
use crate::offsets::{Offsets, load_len, value};
use crate::spacing::Spacing;
use module_format::MAX_LONG_CODE;
use prefix_decoder::{Fun, encode};
use std::alloc::{AllocError, Global};

/// The operation `ldpi`.
const LDPI: i32 = 0x1b;

/// Where the constants begin after code of this length: at the next word.
fn constants_start(code_len: u32) -> u32
    requires { code_len ≤ MAX_LONG_CODE }
    ensures { result ≡ constants_start code_len }
{
    (code_len + 3) / 4 * 4
}

/// Appends an instruction.
fn push_instruction(bytes: &mut Vec<u8>, fun: Fun, operand: i32) -> Result<(), AllocError>
    ensures { IfOk result (λ _. bytes.new.items ≡ bytes.old.items ++ spelling fun operand) }
{
    bytes.extend_from_slice(encode(fun, operand).as_slice())
}

/// Appends the address of a constant, which ends here.
fn push_address(
    bytes: &mut Vec<u8>,
    spacing: &Spacing,
    end: u32,
    offset: u16,
) -> Result<(), AllocError>
    requires { end ≤ sum spacing.now.lengths.items }
    ensures { IfOk result (λ _. bytes.new.items ≡ bytes.old.items ++ address spacing.now.lengths.items end offset) }
{
    let distance = constants_start(spacing.end()) + u32::from(offset) - end;
    let load = encode(Fun::LoadConstant, distance as i32);
    bytes.extend_from_slice(load.as_slice())?;
    if load.len() < usize::from(load_len(spacing, end, offset)) {
        push_instruction(bytes, Fun::AddConstant, 0)?;
    }
    push_instruction(bytes, Fun::Operate, LDPI)
}

/// Appends an item, which ends here.
fn push_item(
    bytes: &mut Vec<u8>,
    code: &Instructions,
    spacing: &Spacing,
    end: u32,
    item: Item,
) -> Result<(), AllocError>
    requires placed { OfItem (IsPlaced code.now) item }
    requires count { length spacing.now.lengths.items ≡ length code.now.items }
    requires within { end ≤ sum spacing.now.lengths.items }
    ensures { IfOk result (λ _. bytes.new.items
        ≡ bytes.old.items ++ spelled_item code.now spacing.now.lengths.items end item) }
{
    match item {
        Item::Instruction { fun, operand } => {
            push_instruction(bytes, fun, value(spacing, code, end, operand))
        }
        Item::ConstantAddress { offset } => push_address(bytes, spacing, end, offset),
    }
}

/// The code of a draft under a layout that fits: its instructions in their order, each as long as the layout has
/// it.
///
/// # Errors
///
/// `Memory` if memory runs out.
pub fn spell(alloc: Global, draft: &Draft, layout: &Layout) -> Result<Vec<u8>, GenFault>
    requires complete { IsComplete draft.now.code }
    requires fits { Fits draft.now.code layout.now.lengths.items }
    ensures code { IfOk result (λ v. v.items ≡ spelled draft.now.code layout.now.lengths.items) }
    ensures err { IfErr result (λ e. e ≡ GenFault.Memory) }
{
    let lengths = Vec::from_slice(alloc, &layout.lengths)?;
    let spacing = Spacing::of(alloc, lengths)?;
    let mut bytes = Vec::new(alloc);
    for (number, item) in draft.code.items().iter().enumerate() {
        push_item(
            &mut bytes,
            &draft.code,
            &spacing,
            spacing.offset(number + 1),
            *item,
        )?;
    }
    Ok(bytes)
}
