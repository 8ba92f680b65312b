//! The names from before a procedure, which each instance takes over from one that has ended.

ghost use Rattle.std.specs.Prelude.{◌≡◌, ◌≤◌, [], true, IfOk, option_map};
ghost use Rattle.scalar_ranges.specs.Moves.{outermost};
ghost use Rattle.scalar_ranges.specs.Scopes.{entries_of, blocks_of, entry_of, meaning_of};
ghost use Rattle.code_generator.specs.Calls.{with_entry};

use module_builder::GenFault;
use occam_parser::ValueType;
use scalar_ranges::{Entry, Meaning, Scope};
use std::alloc::Global;

/// A scope outside of all blocks, of an instance that has ended.
#[derive(Drop)]
pub(crate) struct Spare<'a> {
    pub(crate) scope: Scope<'a>,
    /// How many names from before a procedure it has had at most, whose spellings it knows.
    pub(crate) spelled: usize,
    ghost plain: { blocks_of scope ≡ [] },
}

/// Whether both are one type.
fn is_same_type(first: ValueType, second: ValueType) -> bool
    ensures { result ≡ true → first ≡ second }
{
    matches!(
        (first, second),
        (ValueType::Int, ValueType::Int) | (ValueType::Byte, ValueType::Byte)
    )
}

/// Whether both are one constant, array or procedure.
fn is_same(first: Meaning, second: Meaning) -> bool
    ensures { result ≡ true → meaning_of first ≡ meaning_of second }
{
    match (first, second) {
        (
            Meaning::Constant { value_type, value },
            Meaning::Constant {
                value_type: other_type,
                value: other,
            },
        ) => is_same_type(value_type, other_type) && value == other,
        (
            Meaning::Array {
                kind,
                value_type,
                size,
                range,
            },
            Meaning::Array {
                kind: other_kind,
                value_type: other_type,
                size: other_size,
                range: other_range,
            },
        ) => {
            is_same_type(value_type, other_type)
                && kind == other_kind
                && size == other_size
                && range == other_range
        }
        (Meaning::Proc(number), Meaning::Proc(other)) => number == other,
        _ => false,
    }
}

/// Whether two entries are there and say the same of one name.
fn are_same(first: Option<Entry<'_>>, second: Option<Entry<'_>>) -> bool
    ensures { result ≡ true → option_map entry_of first.entry ≡ option_map entry_of second.entry }
{
    match (first, second) {
        (Some(one), Some(other)) => one.name == other.name && is_same(one.meaning, other.meaning),
        _ => false,
    }
}

/// The outermost names that two scopes share.
#[derive(Clone, Copy)]
pub(crate) struct SharedNames {
    pub(crate) names: usize,
    /// The bytes of all of them.
    pub(crate) letters: usize,
}

/// How many bytes the name of an entry has.
fn letters_of(entry: Option<Entry<'_>>) -> usize {
    match entry {
        Some(entry) => entry.name.len(),
        None => 0,
    }
}

/// Those of the `count` outermost names of two scopes that are the same, up to the first that is another one.
pub(crate) fn shared(first: &Scope<'_>, second: &Scope<'_>, count: usize) -> SharedNames
    ensures same { outermost result.names (entries_of first.now) ≡ outermost result.names (entries_of second.now) }
    ensures few { result.names ≤ count }
{
    let mut letters: usize = 0;
    for number in 0..count {
        let entry = first.entry(number);
        if !are_same(entry, second.entry(number)) {
            return SharedNames {
                names: number,
                letters,
            };
        }
        letters = letters.saturating_add(letters_of(entry));
    }
    SharedNames {
        names: count,
        letters,
    }
}

/// An entry more, if there is one.
fn declare_if<'a>(names: &mut Scope<'a>, entry: Option<Entry<'a>>) -> Result<(), GenFault>
    ensures entries { IfOk result (λ _. entries_of names.new
        ≡ with_entry (option_map entry_of entry.entry) (entries_of names.old)) }
    ensures blocks { blocks_of names.new ≡ blocks_of names.old }
{
    if let Some(entry) = entry {
        names.declare(entry)?;
    }
    Ok(())
}

/// The scope that is kept and was used last, or one without names.
pub(crate) fn taken<'a>(alloc: Global, spares: &mut Vec<Spare<'a>>) -> Spare<'a> {
    match spares.pop() {
        Some(spare) => spare,
        None => Spare {
            scope: Scope::new(alloc),
            spelled: 0,
        },
    }
}

/// The names become the `count` outermost ones of a scope, of which they have the first ones that are `kept`.
fn extend<'a>(
    names: &mut Scope<'a>,
    scope: &Scope<'a>,
    kept: usize,
    count: usize,
) -> Result<(), GenFault>
    requires plain { blocks_of names.old ≡ [] }
    requires same { outermost kept (entries_of names.old) ≡ outermost kept (entries_of scope.now) }
    requires few { kept ≤ count }
    ensures entries { IfOk result (λ _. entries_of names.new ≡ outermost count (entries_of scope.now)) }
    ensures plain { blocks_of names.new ≡ [] }
{
    names.leave(kept);
    for number in kept..count {
        declare_if(names, scope.entry(number))?;
    }
    Ok(())
}

impl<'a> Spare<'a> {
    /// It has the `count` outermost names of a scope.
    pub(crate) fn become_outermost(
        &mut self,
        scope: &Scope<'a>,
        kept: usize,
        count: usize,
    ) -> Result<(), GenFault>
        requires same { outermost kept (entries_of self.old.scope) ≡ outermost kept (entries_of scope.now) }
        requires few { kept ≤ count }
        ensures { IfOk result (λ _. entries_of self.new.scope ≡ outermost count (entries_of scope.now)) }
    {
        self.spelled = self.spelled.max(count);
        extend(&mut self.scope, scope, kept, count)
    }
}
