//! Lists of rows and of their items.

ghost use Rattle.std.specs.Prelude.{map};
ghost use Rattle.std.specs.List.{flat_map, AllByRecursion};
ghost use Rattle.module_format.specs.Meaning.{Meaning};
ghost use Rattle.module_format.specs.Writable.{Writes};

use crate::tables::Version;
use crate::writing::writer::Writer;

/// What is written to a file as an item of a list.
pub(crate) trait Put: Drop {
    ghost meaning: { Meaning Self };

    fn put(&self, version: Version, out: &mut Writer)
        requires { meaning.Fits (meaning.view self.now) }
        ensures { Writes out.old (meaning.bytes version (meaning.view self.now)) out.new };
}

pub(crate) fn put_all<T: Put>(out: &mut Writer, version: Version, items: &[T])
    requires { AllByRecursion T.meaning.Fits (map T.meaning.view items.now) }
    ensures { Writes out.old (flat_map (T.meaning.bytes version) (map T.meaning.view items.now)) out.new }
{
    for item in items {
        item.put(version, out);
    }
}
