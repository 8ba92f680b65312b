//! The variables that constructs change, listed by the lines on which the constructs begin.

ghost use Rattle.std.specs.Prelude.{◌≡◌, ℕ, List, option_map, OnOk};
ghost use Rattle.std.specs.List.Sorted.{IsStrictlyIncreasing};
ghost use Rattle.program_uses.specs.Listing.{list_on, SameNumbers, IsListed, Keeps};

use std::alloc::{AllocError, Global};
use std::collections::BTreeMap;

/// The same numbers in rising order, each once.
fn distinct(mut numbers: Vec<usize>) -> Vec<usize>
    ensures same { SameNumbers result.items numbers.items }
    ensures rising { IsStrictlyIncreasing result.items }
{
    numbers.sort_unstable();
    numbers.dedup();
    numbers
}

/// The numbers of the variables that constructs change, by the line on which each of them begins. A number is in a list
/// once. A line on which several constructs begin has no list, nor has any if no lists are wanted.
#[derive(Drop)]
pub struct ChangeLists {
    pub(crate) lists: BTreeMap<u32, Option<Vec<usize>>>,
}

impl ChangeLists {
    /// No lists.
    pub(crate) fn new(alloc: Global) -> ChangeLists {
        ChangeLists {
            lists: BTreeMap::new(alloc),
        }
    }

    /// The numbers of the variables that the construct changes that begins on this line, if there is a list of them.
    pub fn on_line(&self, line: u32) -> Option<&[usize]>
        ensures { option_map (λ numbers. numbers.now) result ≡ list_on line self.now }
    {
        match self.lists.get(&line) {
            Some(Some(numbers)) => Some(numbers.as_slice()),
            Some(None) | None => None,
        }
    }

    /// A construct begins on this line that changes the variables with these numbers.
    pub(crate) fn add(&mut self, line: u32, numbers: Vec<usize>) -> Result<(), AllocError>
        ensures ok { OnOk result (IsListed self.new line numbers.items) }
        ensures keeps { Keeps self.old self.new }
    {
        let list = if self.lists.contains_key(&line) {
            None
        } else {
            Some(distinct(numbers))
        };
        self.lists.insert(line, list)?;
        Ok(())
    }

    /// A construct begins on this line, of which there is no list.
    pub(crate) fn add_unlisted(&mut self, line: u32) -> Result<(), AllocError>
        ensures ok { OnOk result ((numbers : List ℕ) → IsListed self.new line numbers) }
        ensures keeps { Keeps self.old self.new }
    {
        self.lists.insert(line, None)?;
        Ok(())
    }
}
