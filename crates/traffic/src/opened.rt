//! Which data words have channels of a process.

ghost use Rattle.std.specs.Prelude.{◌≡◌, ℕ, Option, None, true, IfOk, replicate};
ghost use Rattle.std.specs.List.{Contains};
ghost use Rattle.machine_state.specs.declared.process.Channel.{Channel as Opened};
ghost use Rattle.traffic.specs.OpenedCells.{listed, is_of, KeepsAll, AreListed, KeepsListed, ListsAt};

use machine_state::Channel;
use std::alloc::{AllocError, Global};

/// The data words in which each process has opened channels, by process number.
///
/// So the channels of one process are found in time linear in their count.
#[derive(Drop)]
pub(crate) struct OpenedCells {
    pub(crate) lists: Vec<Vec<usize>>,
    /// Whether the data word of each channel is in the list of its opener.
    pub(crate) are_all: bool,
}

/// Whether the channel of a data word, if there is one, is this opener's.
fn is_of(cell: Option<Channel>, opener: u64) -> bool
    ensures { result ≡ is_of cell opener }
{
    match cell {
        Some(channel) => channel.opener == opener,
        None => false,
    }
}

/// A data word is listed for the process, unless it has no list or memory runs out. Returns whether it is.
fn push_cell(lists: &mut Vec<Vec<usize>>, cell: usize, opener: u64) -> bool
    ensures kept { KeepsAll lists.old.items lists.new.items }
    ensures added { result ≡ true → Contains (listed lists.new.items opener) cell }
{
    match lists.get_mut(opener as usize) {
        Some(cells) => cells.push(cell).is_ok(),
        None => false,
    }
}

/// Reserves capacity for this many more data words of a process.
fn reserve_list(lists: &mut Vec<Vec<usize>>, opener: u64, count: usize) -> Result<(), AllocError>
    ensures { KeepsAll lists.old.items lists.new.items }
{
    match lists.get_mut(opener as usize) {
        Some(cells) => cells.reserve(count),
        None => Ok(()),
    }
}

impl OpenedCells {
    /// There is no channel yet, and the root has a list.
    pub(crate) fn new(alloc: Global) -> Result<Self, AllocError>
        ensures { IfOk result (λ opened. (n : ℕ) → AreListed opened (replicate n None)) }
    {
        Ok(OpenedCells {
            lists: vec![in alloc; Vec::new(alloc)]?,
            are_all: true,
        })
    }

    /// How many processes have a list: those with a lower number.
    pub(crate) fn count(&self) -> usize {
        self.lists.len()
    }

    /// The next process by number has a list too.
    pub(crate) fn add_list(&mut self) -> Result<(), AllocError>
        ensures { KeepsListed self.old self.new }
    {
        let alloc = *self.lists.allocator();
        self.lists.push(Vec::new(alloc))?;
        Ok(())
    }

    /// Reserves capacity for this many more data words of a process.
    pub(crate) fn reserve(&mut self, opener: u64, count: usize) -> Result<(), AllocError>
        ensures { KeepsListed self.old self.new }
    {
        reserve_list(&mut self.lists, opener, count)
    }

    /// A data word is listed for the process, if it has a list and memory suffices.
    fn add(&mut self, cell: usize, opener: u64)
        ensures { (before : Option Opened) → ListsAt cell before opener self.old self.new }
    {
        if !push_cell(&mut self.lists, cell, opener) {
            self.are_all = false;
        }
    }

    /// A data word, which had this channel or none, has a channel of this opener from now on.
    #[tactic(auto, using(crate::proofs::ListedCells::already_listed))]
    pub(crate) fn enlist(&mut self, cell: usize, before: Option<Channel>, opener: u64)
        ensures { ListsAt cell before opener self.old self.new }
    {
        if !is_of(before, opener) {
            self.add(cell, opener);
        }
    }
}
