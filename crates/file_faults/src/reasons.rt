//! Why a file is no module.

ghost use Rattle.std.specs.Prelude.{◌≡◌, ◌++◌, OnOk, string_bytes};
ghost use Rattle.file_faults.specs.FileFaults.{ended_text, field_text, file_fault, has_text, left_text, limit_of};
ghost use Rattle.file_faults.specs.FileFaults.{limit_text, order_text, range_text, size_text, why, words_of};

use crate::fields::{Group, Role, field_of};
use crate::names::{push_numbered, push_place, push_value};
use crate::walking::{Found, found_at, value_at};
use crate::walks::Walk;
use module_format::{
    FormatFault, LEFT_OVER, LIMIT, MAGIC, MAX_BRANCHES, MAX_BUDGET, MAX_CODE, MAX_CONSTANTS,
    MAX_DATA_WORDS, MAX_LABELS, MAX_LONG_CODE, MAX_MESSAGE, MAX_PARAMETERS, MAX_PARS,
    MAX_PROCEDURES, MAX_TABLES, ORDER, RANGE, TRUNCATED,
};
use std::alloc::AllocError;

/// The limit of a number.
fn limit_of(is_two: bool, role: Role) -> u64
    ensures { result ≡ limit_of is_two role }
{
    match role {
        Role::CodeSize if is_two => u64::from(MAX_LONG_CODE),
        Role::CodeSize => u64::from(MAX_CODE),
        Role::ConstantsSize => u64::from(MAX_CONSTANTS),
        Role::DataWords => u64::from(MAX_DATA_WORDS),
        Role::Budget => MAX_BUDGET,
        Role::CountOf(Group::Procedures) => u64::from(MAX_PROCEDURES),
        Role::CountOf(Group::Parameters) => u64::from(MAX_PARAMETERS),
        Role::CountOf(Group::Labels) => u64::from(MAX_LABELS),
        Role::CountOf(Group::Pars) => u64::from(MAX_PARS),
        Role::CountOf(Group::Branches) => u64::from(MAX_BRANCHES),
        Role::CountOf(Group::Tables) => u64::from(MAX_TABLES),
        _ => u64::from(MAX_MESSAGE),
    }
}

/// The words of a fault by its number, which stand before, after or without its field.
#[tactic(auto, unfolding(crate::specs::FileFaults::words_of))]
fn words_of(number: u8) -> &'static str
    ensures { result.now ≡ words_of number }
{
    match number {
        MAGIC => "the file begins with neither TPM1 nor TPM2",
        TRUNCATED => "the file ends within ",
        ORDER => ", and has to come after what is before it",
        LIMIT => ", and its limit is ",
        _ => "memory ran out",
    }
}

/// Appends a field by its place and its name.
#[tactic(auto, unfolding(crate::specs::FileFaults::field_text))]
fn push_field(text: &mut String, walk: Walk) -> Result<(), AllocError>
    ensures { OnOk result (string_bytes text.new ≡ string_bytes text.old ++ field_text walk) }
{
    push_place(text, walk)?;
    text.push_str(field_of(walk.field).name)
}

/// Appends the same, and what it has.
#[tactic(auto, unfolding(crate::specs::FileFaults::has_text))]
fn push_has(text: &mut String, walk: Walk, value: u64) -> Result<(), AllocError>
    ensures { OnOk result (string_bytes text.new ≡ string_bytes text.old ++ has_text walk value) }
{
    push_field(text, walk)?;
    text.push_str(" is ")?;
    push_value(text, field_of(walk.field).number, value)
}

/// Appends in which field a file ends.
#[tactic(auto, unfolding(crate::specs::FileFaults::ended_text))]
fn push_ended(text: &mut String, walk: Walk) -> Result<(), AllocError>
    ensures { OnOk result (string_bytes text.new ≡ string_bytes text.old ++ ended_text walk) }
{
    text.push_str(words_of(TRUNCATED))?;
    push_field(text, walk)
}

/// Appends which field does not come after what is before it.
#[tactic(auto, unfolding(crate::specs::FileFaults::order_text))]
fn push_order(text: &mut String, walk: Walk, value: u64) -> Result<(), AllocError>
    ensures { OnOk result (string_bytes text.new ≡ string_bytes text.old ++ order_text walk value) }
{
    push_has(text, walk, value)?;
    text.push_str(words_of(ORDER))
}

/// Appends how large the code or the data area is, if a number has to be within it.
#[tactic(auto, unfolding(crate::specs::FileFaults::size_text))]
fn push_size(text: &mut String, role: Role, code: u64, words: u64) -> Result<(), AllocError>
    ensures { OnOk result (string_bytes text.new ≡ string_bytes text.old ++ size_text role code words) }
{
    match role {
        Role::WithinCode => push_numbered(text, ", and the code has ", code, " bytes"),
        Role::WithinData => push_numbered(text, ", and the data area has ", words, " words"),
        _ => text.push_str(""),
    }
}

/// Appends which field has a value that may not be there, and what is wanted of it.
#[tactic(auto, unfolding(crate::specs::FileFaults::range_text))]
fn push_range(text: &mut String, walk: Walk, value: u64) -> Result<(), AllocError>
    ensures { OnOk result (string_bytes text.new ≡ string_bytes text.old ++ range_text walk value) }
{
    let field = field_of(walk.field);
    push_has(text, walk, value)?;
    text.push_str("; wanted: ")?;
    text.push_str(field.wanted)?;
    push_size(text, field.role, walk.code, walk.data_words)
}

/// Appends which field is above its limit.
#[tactic(auto, unfolding(crate::specs::FileFaults::limit_text))]
fn push_limit(text: &mut String, walk: Walk, value: u64) -> Result<(), AllocError>
    ensures { OnOk result (string_bytes text.new ≡ string_bytes text.old ++ limit_text walk value) }
{
    let limit = limit_of(walk.is_two, field_of(walk.field).role);
    push_has(text, walk, value)?;
    push_numbered(text, words_of(LIMIT), limit, "")
}

/// Appends how many bytes come after the last row.
#[tactic(auto, unfolding(crate::specs::FileFaults::left_text))]
fn push_left(text: &mut String, count: usize) -> Result<(), AllocError>
    ensures { OnOk result (string_bytes text.new ≡ string_bytes text.old ++ left_text count) }
{
    push_numbered(text, "", count as u64, " bytes come after the last row")
}

/// Appends why a file is no module, by the number of its fault, at the field that was found.
#[tactic(auto, unfolding(crate::specs::FileFaults::why))]
fn push_why(
    text: &mut String,
    bytes: &[u8],
    fault: FormatFault,
    found: Found,
) -> Result<(), AllocError>
    ensures { OnOk result (string_bytes text.new ≡ string_bytes text.old ++ why bytes.now fault found) }
{
    let walk = found.walk;
    let value = value_at(bytes, found);
    match fault.number {
        TRUNCATED => push_ended(text, walk),
        ORDER => push_order(text, walk, value),
        RANGE => push_range(text, walk, value),
        LEFT_OVER => push_left(text, bytes.len().saturating_sub(fault.offset)),
        LIMIT => push_limit(text, walk, value),
        _ => text.push_str(words_of(fault.number)),
    }
}

/// Appends why a file is no module, which has this fault.
pub fn push_file_fault(
    text: &mut String,
    bytes: &[u8],
    fault: FormatFault,
) -> Result<(), AllocError>
    ensures { OnOk result (string_bytes text.new ≡ string_bytes text.old ++ file_fault bytes.now fault) }
{
    push_why(text, bytes, fault, found_at(bytes, fault.offset))
}
