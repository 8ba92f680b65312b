//! What is known of the names in a part of a program.

ghost use Rattle.std.specs.Prelude.{◌≡◌, [], ◌∷◌, option_map, OnOk, OnErr, IfErr};
ghost use Rattle.scalar_ranges.specs.Entries.{meaning_in, number_in, entry_at};
ghost use Rattle.scalar_ranges.specs.EntryViews.{meaning_of, entry_of};
ghost use Rattle.scalar_ranges.specs.Naming.{names_from};
ghost use Rattle.scalar_ranges.specs.LeftViews.{known_now};
ghost use Rattle.scalar_ranges.specs.Nesting.{names_of, FitTogether, FitTogether-prop};

use crate::deferred::Deferred;
use crate::names::Names;
use occam_parser::ValueType;
use std::alloc::{AllocFailed, Global};
use word_arithmetic::Range;

/// What a scalar is.
#[derive(Clone, Copy, PartialEq, Eq)]
pub enum ScalarKind {
    /// A line declares it.
    Variable,
    /// A `VAL` parameter.
    Value,
    /// A parameter that is a variable. Its range is always that of its type.
    Reference,
    /// The replicator of a `SEQ`.
    Index,
}

/// What an array is.
#[derive(Clone, Copy, PartialEq, Eq)]
pub enum ArrayKind {
    /// A constant.
    Table,
    /// A line declares it, or it is a parameter that is a variable.
    Variable,
    /// A `VAL` parameter.
    Value,
}

/// What a name denotes. A constant has no value, and an array no size, if its declaration breaks a rule.
#[derive(Clone, Copy)]
pub enum Meaning {
    /// A constant, or the replicator of a `PAR`, an `IF` or an `ALT`.
    Constant {
        value_type: ValueType,
        value: Option<i32>,
    },
    Scalar {
        kind: ScalarKind,
        value_type: ValueType,
        /// Where its value lies.
        range: Range,
    },
    Array {
        kind: ArrayKind,
        value_type: ValueType,
        size: Option<u32>,
        /// Where each element lies: the hull of a table's items, else the range of the type.
        range: Range,
    },
    Channel {
        value_type: ValueType,
    },
    Channels {
        value_type: ValueType,
        size: Option<u32>,
    },
    /// A procedure, by its number among the procedures of the program.
    Proc(u32),
}

/// A name, and what it denotes.
#[derive(Clone, Copy)]
pub struct Entry<'a> {
    pub name: &'a [u8],
    pub meaning: Meaning,
}

/// A declaration of a name: its number, and what it says of the name.
#[derive(Clone, Copy)]
pub struct Declared {
    pub number: usize,
    pub meaning: Meaning,
}

/// The names that are known at a place of a program: entries that are numbered from the outermost declaration on.
#[derive(Drop)]
pub struct Scope<'a> {
    pub(crate) alloc: Global,
    /// The entries, and the blocks of branches around.
    pub(crate) known: Deferred<'a>,
    /// Where each name is among the entries.
    pub(crate) names: Names<'a>,
    ghost named: { names_from names.rows.items ≡ names_of (known_now known).entries },
    /// Each block begins with the outermost of the entries in it, and each of its ends is such entries, but for ranges.
    pub ghost nested: { FitTogether known } by { FitTogether-prop known },
}

impl<'a> Scope<'a> {
    ghost use Rattle.scalar_ranges.specs.Scopes.{entries_of, blocks_of};

    /// A scope without names.
    pub fn new(alloc: Global) -> Scope<'a>
        ensures entries { entries_of result ≡ [] }
        ensures blocks { blocks_of result ≡ [] }
    {
        Scope {
            alloc,
            known: Deferred::new(alloc),
            names: Names::new(alloc),
        }
    }

    /// One entry more, the innermost one. If memory runs out, the scope is as it was, and the entry is handed back.
    pub fn declare(&mut self, entry: Entry<'a>) -> Result<(), AllocFailed<Entry<'a>>>
        ensures ok { OnOk result (entries_of self.new ≡ entry_of entry.entry ∷ entries_of self.old) }
        ensures err { OnErr result (entries_of self.new ≡ entries_of self.old) }
        ensures back { IfErr result (λ failed. entry_of failed.value ≡ entry_of entry.entry) }
        ensures blocks { blocks_of self.new ≡ blocks_of self.old }
    {
        if self.names.push(entry.name).is_err() {
            return Err(AllocFailed { value: entry });
        }
        if self.known.declare(entry).is_err() {
            self.names.pop();
            return Err(AllocFailed { value: entry });
        }
        Ok(())
    }

    /// The number of the innermost declaration of a name.
    pub fn find(&self, name: &[u8]) -> Option<usize>
        ensures number { result ≡ number_in name.now (entries_of self.now) }
    {
        self.names.find(name)
    }

    /// The innermost declaration of a name.
    pub fn lookup(&self, name: &[u8]) -> Option<Declared>
        ensures number { option_map (λ found. found.number) result ≡ number_in name.now (entries_of self.now) }
        ensures meaning { option_map (λ found. meaning_of found.meaning) result
            ≡ meaning_in name.now (entries_of self.now) }
    {
        let number = self.find(name)?;
        let meaning = self.known.meaning(number)?;
        Some(Declared { number, meaning })
    }

    /// What the innermost declaration of a name says of it.
    pub fn meaning(&self, name: &[u8]) -> Option<Meaning>
        ensures { option_map meaning_of result ≡ meaning_in name.now (entries_of self.now) }
    {
        match self.find(name) {
            None => None,
            Some(number) => self.known.meaning(number),
        }
    }

    /// The entry with this number, counted from the outermost one on, whether or not its name is hidden; `None` if
    /// there are at most `number` entries. [`len`](Scope::len) returns how many there are.
    pub fn entry(&self, number: usize) -> Option<Entry<'a>>
        ensures { option_map entry_of result ≡ entry_at number (entries_of self.now) }
    {
        self.known.entry(number)
    }
}
