//! A field of a file by its place and its name, with what it has.
#![tactic(auto, unfolding(crate::specs::Names::item_text, crate::specs::Names::place_text))]

ghost use Rattle.std.specs.Prelude.{◌≡◌, ◌++◌, OnOk, string_bytes};
ghost use Rattle.std.specs.Fmt.{decimal};
ghost use Rattle.file_faults.specs.Names.{item_of, item_text, place_text, register_name, signed_of, value_text};

use crate::fields::{Group, Number, group_of};
use crate::walks::{Walk, count_of};
use std::alloc::AllocError;

/// The number of the one of a group that is here, from 0 on.
fn item_of(walk: Walk, group: Group) -> u64
    ensures { result ≡ item_of walk group }
{
    count_of(walk.counts, group).saturating_sub(count_of(walk.left, group))
}

/// The register of a fact.
fn register_name(number: u64) -> &'static str
    ensures { result.now ≡ register_name number }
{
    match number {
        0 => "A, ",
        1 => "B, ",
        _ => "C, ",
    }
}

/// Appends a number between words.
pub(crate) fn push_numbered(
    text: &mut String,
    before: &str,
    number: u64,
    after: &str,
) -> Result<(), AllocError>
    ensures { OnOk result (string_bytes text.new
        ≡ string_bytes text.old ++ (before.now ++ (decimal number ++ after.now))) }
{
    write!(text, "{before}{number}{after}")
}

/// Appends the one of a group that is here, by its number.
fn push_item(text: &mut String, walk: Walk, group: Group) -> Result<(), AllocError>
    ensures { OnOk result (string_bytes text.new ≡ string_bytes text.old ++ item_text walk group) }
{
    let number = item_of(walk, group);
    match group {
        Group::File => text.push_str(""),
        Group::Registers => text.push_str(register_name(number)),
        _ => push_numbered(text, group_of(group).words, number, ", "),
    }
}

/// Appends the row, the branch and the item of a field of a group.
pub(crate) fn push_place(text: &mut String, walk: Walk) -> Result<(), AllocError>
    ensures { OnOk result (string_bytes text.new ≡ string_bytes text.old ++ place_text walk) }
{
    let outer = group_of(walk.group).outer;
    push_item(text, walk, group_of(outer).outer)?;
    push_item(text, walk, outer)?;
    push_item(text, walk, walk.group)
}

/// The signed word that a number is.
fn signed_of(value: u64) -> i128
    ensures { result ≡ signed_of value }
{
    if value < 2_147_483_648 {
        return i128::from(value);
    }
    i128::from(value) - 4_294_967_296
}

/// Appends the number of a field.
pub(crate) fn push_value(text: &mut String, number: Number, value: u64) -> Result<(), AllocError>
    ensures { OnOk result (string_bytes text.new ≡ string_bytes text.old ++ value_text number value) }
{
    match number {
        Number::SignedWord => {
            let signed = signed_of(value);
            write!(text, "{signed}")
        }
        _ => write!(text, "{value}"),
    }
}
