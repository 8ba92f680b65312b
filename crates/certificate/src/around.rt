//! The lengths of the channels that a context knows, kept while contexts are visited one after the other.

ghost use Rattle.std.specs.Prelude.{◌≡◌, ◌<◌, ℕ, ℤ, None, Option, Some, MatchOption, IfOk, map, length};
ghost use Rattle.std.specs.Ordering.{int_cmp};
ghost use Rattle.std.specs.BTreeMap.{get};
ghost use Rattle.module_format.specs.Contents.{Contents, contents_of};
ghost use Rattle.module_format.specs.Contexts.{branch_count};
ghost use Rattle.module_format.specs.Keeping.{Keeps};
ghost use Rattle.module_format.specs.Places.{ArePlaces};
ghost use Rattle.certificate.specs.Branches.{numbered_branch};
ghost use Rattle.certificate.specs.Rights.{listed_length};
ghost use Rattle.certificate.specs.Around.{nearer, IsAround, IsRowOf};

use crate::branches::numbered_branch;
use module_format::{ChannelRow, Place, Tables};
use std::alloc::{AllocError, Global};
use std::collections::BTreeMap;

/// What the words of channels have.
fn lengths_of(
    alloc: Global,
    lengths: &BTreeMap<i32, u32>,
    channels: &[ChannelRow],
) -> Result<Vec<Option<u32>>, AllocError>
    ensures { IfOk result (λ saved. saved.items
        ≡ map (λ channel. get int_cmp lengths.now channel.word) channels.now) }
{
    let mut saved = Vec::new(alloc);
    for channel in channels {
        saved.push(lengths.get(&channel.word).copied())?;
    }
    Ok(saved)
}

/// Gives the words of channels their lengths.
fn give(lengths: &mut BTreeMap<i32, u32>, channels: &[ChannelRow]) -> Result<(), AllocError>
    ensures { IfOk result (λ _. (k : ℤ) → get int_cmp lengths.new k
        ≡ nearer (listed_length channels.now k) (get int_cmp lengths.old k)) }
{
    for index in (0..channels.len()).rev() {
        let channel = channels[index];
        lengths.insert(channel.word, channel.length)?;
    }
    Ok(())
}

/// Restores what the words of channels had.
fn restore(
    lengths: &mut BTreeMap<i32, u32>,
    channels: &[ChannelRow],
    saved: &[Option<u32>],
) -> Result<(), AllocError>
    requires { length saved.now ≡ length channels.now }
    ensures { (had : ℤ → Option ℕ) → saved.now ≡ map (λ channel. had channel.word) channels.now
        → ((k : ℤ) → listed_length channels.now k ≡ None → get int_cmp lengths.old k ≡ had k)
        → IfOk result (λ _. (k : ℤ) → get int_cmp lengths.new k ≡ had k) }
{
    for index in 0..channels.len() {
        let word = channels[index].word;
        match saved[index] {
            Some(length) => {
                lengths.insert(word, length)?;
            }
            None => {
                lengths.remove(&word);
            }
        }
    }
    Ok(())
}

/// The PAR row of which a context is a branch.
fn row_of(tables: &Tables, places: &[Place], context: u32) -> Option<u16>
    requires { ArePlaces (contents_of tables.now) (branch_count (contents_of tables.now).pars) places.now }
    ensures { IsRowOf (contents_of tables.now) context result }
{
    let (row, _par, _branch) = numbered_branch(tables, places, context)?;
    Some(row)
}

/// A walk over contexts, which knows the length of each channel at the one where it is.
#[derive(Drop)]
pub(crate) struct Around {
    /// Where it is.
    context: u32,
    /// The lengths of channels by their words.
    pub lengths: BTreeMap<i32, u32>,
    /// For each PAR row around the context, outermost first, what the words of its channels had before.
    saved: Vec<Vec<Option<u32>>>,
}

impl Around {
    /// At the root.
    pub fn new(alloc: Global) -> Around
        ensures { (c : Contents) → Keeps c → IsAround c result }
    {
        Around {
            context: 0,
            lengths: BTreeMap::new(alloc),
            saved: Vec::new(alloc),
        }
    }

    /// Goes outwards until the context is a branch of this PAR row, or of none.
    fn leave_until(
        &mut self,
        tables: &Tables,
        places: &[Place],
        row: Option<u16>,
    ) -> Result<(), AllocError>
        requires keeps { Keeps (contents_of tables.now) }
        requires places { ArePlaces (contents_of tables.now) (branch_count (contents_of tables.now).pars) places.now }
        requires around { IsAround (contents_of tables.now) self.now }
        ensures around { IfOk result (λ _. IsAround (contents_of tables.now) self.new) }
        ensures outside { IfOk result (λ _. row ≡ None
            → numbered_branch (contents_of tables.now) self.new.context ≡ None) }
    {
        while let Some((number, par, _branch)) = numbered_branch(tables, places, self.context) {
            if row == Some(number) {
                break;
            }
            if let Some(saved) = self.saved.pop() {
                restore(&mut self.lengths, &par.channels, &saved)?;
            }
            self.context = u32::from(par.context);
        }
        Ok(())
    }

    /// Goes to a context. It takes time in proportion to the channels of the rows that are left and entered, and
    /// their logarithm. Rows that come one inside the other are each entered once.
    pub fn enter(
        &mut self,
        alloc: Global,
        tables: &Tables,
        places: &[Place],
        context: u32,
    ) -> Result<(), AllocError>
        requires keeps { Keeps (contents_of tables.now) }
        requires places { ArePlaces (contents_of tables.now) (branch_count (contents_of tables.now).pars) places.now }
        requires around { IsAround (contents_of tables.now) self.now }
        ensures around { IfOk result (λ _. IsAround (contents_of tables.now) self.new) }
        ensures there { IfOk result (λ _. self.new.context ≡ context) }
    {
        let row = row_of(tables, places, context);
        if row_of(tables, places, self.context) == row {
            self.context = context;
            return Ok(());
        }
        let Some((_number, par, _branch)) = numbered_branch(tables, places, context) else {
            self.leave_until(tables, places, None)?;
            self.context = context;
            return Ok(());
        };
        let outer = u32::from(par.context);
        self.leave_until(tables, places, row_of(tables, places, outer))?;
        self.enter(alloc, tables, places, outer)?;
        let saved = lengths_of(alloc, &self.lengths, &par.channels)?;
        self.saved.push(saved)?;
        give(&mut self.lengths, &par.channels)?;
        self.context = context;
        Ok(())
    }
}
