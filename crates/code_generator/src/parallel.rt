//! Writing the code of a `PAR`. Its branches are written first, since how many words each takes is known only then. If
//! a function fails, some pieces more may have come.

ghost use Rattle.std.specs.Prelude.{◌≡◌, ◌++◌, IfOk, Some};
ghost use Rattle.occam_parser.specs.LineViews.{replicator_of};
ghost use Rattle.occam_parser.specs.BlockViews.{process_of, plain_component, all_processes};
ghost use Rattle.program_uses.specs.Indices.{seen_repeats};
ghost use Rattle.line_pieces.specs.Opening.{starts_code, opener_code};
ghost use Rattle.code_generator.specs.Branches.{IsKept, EntersBranch, LeavesBranch, WritesComponent, WritesPar};
ghost use Rattle.code_generator.specs.Branches.{WritesTurns, WritesRepeatedPar};
ghost use Rattle.code_generator.specs.Written.{site_of};

use crate::calling::Surroundings;
use crate::context::Context;
use crate::limits::Limits;
use crate::processes::ProcessWriter;
use code_pieces::{Par, Piece, Workspace};
use line_pieces::{
    Access, Branch, ChannelPlace, Fork, Home, Listing, Notes, facts_in, label_after, row_word,
};
use module_builder::GenFault;
use module_format::ChannelRow;
use occam_parser::{Process, Replicator};
use program_uses::{Repeats, add_name, is_before, repeats_of, variables_changed};
use scalar_ranges::{Meaning, Scope};
use std::alloc::{AllocError, Global};
use std::collections::BTreeMap;
use std::mem;

/// What is around a branch while its code is written.
#[derive(Drop)]
pub(crate) struct Outside {
    context: Context,
    top: u32,
    listing: Listing,
}

/// How much a branch uses of what is outside.
fn count_of(notes: &Notes) -> usize {
    notes.words.len() + notes.ends.len()
}

/// The word of the variable with this number, if it is a scalar.
fn scalar_word(scope: &Scope, homes: &[Home], number: usize) -> Option<u32> {
    match (scope.entry(number)?.meaning, homes.get(number)?) {
        (Meaning::Scalar { .. }, Home::Word(word) | Home::Passed(word)) => Some(*word),
        _ => None,
    }
}

/// A branch writes each scalar outside that it changes, of which these are the numbers. What is known of one after the
/// `PAR` is what is known where the branch ends, even if no code stores into it: it may be passed as a variable, or be
/// assigned to in a loop without turns.
fn note_changed(
    code: &mut Listing,
    scope: &Scope,
    homes: &[Home],
    changed: &[usize],
) -> Result<(), AllocError> {
    for number in changed {
        if let Some(word) = scalar_word(scope, homes, *number) {
            code.notes.words.insert(word, Access::Writes)?;
        }
    }
    Ok(())
}

/// The channels from this word on, of which a branch has ends, by their words.
fn add_channels(
    branch: &Branch,
    lengths: &mut BTreeMap<u32, u32>,
    outside: u32,
) -> Result<(), GenFault> {
    for (end, length) in &branch.notes.ends {
        if let ChannelPlace::Word(word) = end.place
            && outside <= word
        {
            lengths.insert(word, *length)?;
        }
    }
    Ok(())
}

/// The channels that are within the process that begins the `PAR`, of which branches have ends.
fn channels_of(
    alloc: Global,
    branches: &[Branch],
    outside: u32,
) -> Result<Vec<ChannelRow>, GenFault> {
    let mut lengths = BTreeMap::new(alloc);
    for branch in branches {
        add_channels(branch, &mut lengths, outside)?;
    }
    let mut channels = Vec::new(alloc);
    for (word, length) in &lengths {
        channels.push(ChannelRow {
            word: row_word(*word)?,
            length: *length,
        })?;
    }
    Ok(channels)
}

impl<'a> ProcessWriter<'a> {
    /// A `PAR` begins.
    fn begin_fork(&mut self) -> Result<Fork, GenFault>
        ensures scope { IfOk result (λ _. self.new.scope ≡ self.old.scope) }
        ensures frame { IfOk result (λ _. self.new.frame ≡ self.old.frame) }
    {
        let known = facts_in(self.alloc, &self.scope, &self.frame)?;
        self.spent.count_par()?;
        Ok(Fork::new(self.alloc, known, self.frame.top))
    }

    /// A `PAR` under a replicator begins. The lines of its branches are within that of the replicator.
    fn begin_turns(&mut self) -> Result<Fork, GenFault>
        ensures scope { IfOk result (λ _. self.new.scope ≡ self.old.scope) }
        ensures frame { IfOk result (λ _. self.new.frame ≡ self.old.frame) }
    {
        let fork = self.begin_fork()?;
        self.listing.enter_line();
        Ok(fork)
    }

    /// The code of a branch begins, which has its entry at this label.
    fn begin_branch(
        &mut self,
        limits: Limits,
        fork: &Fork,
        entry: usize,
        process: &Process,
    ) -> Result<Outside, GenFault>
        ensures { IfOk result (λ outside. EntersBranch self.old self.new outside) }
    {
        self.listing.find(process)?;
        if fork.is_full() {
            return Err(GenFault::Limit);
        }
        self.label = label_after(entry)?;
        let context = self.context.branch(entry, fork.next)?;
        let workspace = context.workspace()?;
        let listing = self.listing.branch(self.alloc, fork.next, fork.pieces);
        let outside = Outside {
            context: mem::replace(&mut self.context, context),
            top: mem::replace(&mut self.frame.top, context.first_word()),
            listing: mem::replace(&mut self.listing, listing),
        };
        self.write_within(limits, workspace, entry)?;
        Ok(outside)
    }

    /// The code from a label on has its workspace there.
    fn write_within(
        &mut self,
        limits: Limits,
        workspace: Workspace,
        label: usize,
    ) -> Result<(), GenFault>
        ensures { IfOk result (λ _. site_of self.new ≡ site_of self.old) }
    {
        self.listing.push(Piece::Within(workspace))?;
        self.write_row(limits, label)
    }

    /// The process of a branch ends, which changes the variables with these numbers. The block of its `PAR` is at this
    /// word.
    fn close_branch(&mut self, block: u32, changed: &[usize]) -> Result<(), GenFault>
        ensures scope { IfOk result (λ _. self.new.scope ≡ self.old.scope) }
        ensures frame { IfOk result (λ _. self.new.frame ≡ self.old.frame) }
    {
        self.listing.write_end(block)?;
        let (scope, homes) = (&self.scope, &self.frame.homes);
        note_changed(&mut self.listing, scope, homes, changed)?;
        self.spent.count_notes(count_of(&self.listing.notes))
    }

    /// The code of a branch ends, which has its entry at this label and changes the variables with these numbers.
    fn end_branch(
        &mut self,
        fork: &mut Fork,
        entry: usize,
        outside: Outside,
        changed: &[usize],
    ) -> Result<(), GenFault>
        ensures { IfOk result (λ _. LeavesBranch self.old self.new outside) }
    {
        let block = outside.context.depth;
        self.close_branch(block, changed)?;
        let branch = mem::replace(&mut self.context, outside.context);
        let code = mem::replace(&mut self.listing, outside.listing);
        self.frame.top = outside.top;
        self.listing.go_on_after(&code)?;
        fork.add(self.alloc, entry, branch.depth, code)
    }

    /// These branches start. The first one has the label after the `PAR` too.
    fn write_starts(&mut self, branches: &[Branch], successor: usize) -> Result<(), GenFault>
        ensures code { IfOk result (λ _. self.new.listing
            ≡ self.old.listing ++ starts_code self.old.label (Some successor) branches.now) }
        ensures scope { IfOk result (λ _. self.new.scope ≡ self.old.scope) }
        ensures frame { IfOk result (λ _. self.new.frame ≡ self.old.frame) }
    {
        let mut goes_on = Some(successor);
        for branch in branches {
            let from = self.label;
            self.label = label_after(from)?;
            self.listing.write_start(from, branch, goes_on)?;
            goes_on = None;
        }
        Ok(())
    }

    /// The code of the process that begins a `PAR`, up to where it ends.
    fn write_opener(
        &mut self,
        branches: &[Branch],
        channels: &[ChannelRow],
        successor: usize,
    ) -> Result<(), GenFault>
        ensures code { IfOk result (λ _. self.new.listing ≡ self.old.listing
            ++ opener_code self.old.context.depth self.old.label successor channels.now branches.now) }
        ensures scope { IfOk result (λ _. self.new.scope ≡ self.old.scope) }
        ensures frame { IfOk result (λ _. self.new.frame ≡ self.old.frame) }
    {
        let depth = self.context.depth;
        let from = self.label;
        self.label = label_after(from)?;
        let count = branches.len() + 1;
        let ends = i32::try_from(count).ok().ok_or(GenFault::Limit)?;
        self.listing.write_empty_channels(channels)?;
        self.listing.write_block(depth, from, successor, ends)?;
        self.write_starts(branches, successor)?;
        self.listing.write_end(depth)
    }

    /// The code of a `PAR` whose branches are written.
    fn write_fork(&mut self, limits: Limits, fork: Fork) -> Result<(), GenFault>
        ensures { IfOk result (λ _. IsKept self.old self.new) }
    {
        if fork.branches.is_empty() {
            return Ok(());
        }
        let successor = self.label;
        self.label = label_after(successor)?;
        let opener = self.context.workspace()?;
        let channels = channels_of(self.alloc, &fork.branches, self.listing.notes.outside)?;
        self.write_opener(&fork.branches, &channels, successor)?;
        let branches = self.listing.take_branches(self.alloc, fork.branches)?;
        self.write_within(limits, opener, successor)?;
        self.listing.push(Piece::Par(Par {
            opener,
            successor,
            channels,
            branches,
        }))?;
        Ok(())
    }

    /// The code of a `PAR` under a replicator whose branches are written.
    fn write_turns_fork(&mut self, limits: Limits, fork: Fork) -> Result<(), GenFault>
        ensures { IfOk result (λ _. IsKept self.old self.new) }
    {
        self.listing.leave_line()?;
        self.write_fork(limits, fork)
    }

    /// A `PAR`.
    #[cycle(processes)]
    #[inline(never)]
    pub(crate) fn write_par(
        &mut self,
        around: &Surroundings<'_, 'a>,
        processes: &[Process<'a>],
    ) -> Result<(), GenFault>
        ensures { IfOk result (λ _. WritesPar self.old self.new around.now (all_processes processes.now)) }
    {
        let mut fork = self.begin_fork()?;
        self.scope.begin_par()?;
        for process in processes {
            self.write_component(around, &mut fork, process)?;
        }
        self.scope.end();
        self.write_fork(around.limits, fork)
    }

    /// A component of a `PAR`.
    #[cycle(processes)]
    fn write_component(
        &mut self,
        around: &Surroundings<'_, 'a>,
        fork: &mut Fork,
        process: &Process<'a>,
    ) -> Result<(), GenFault>
        ensures { IfOk result (λ _. WritesComponent self.old self.new around.now (plain_component process.now)) }
    {
        let signatures = around.around.signatures;
        let changed = variables_changed(self.alloc, signatures, &mut self.scope, process)?;
        let entry = self.label;
        let outside = self.begin_branch(around.limits, fork, entry, process)?;
        self.write(around, process)?;
        self.end_branch(fork, entry, outside, &changed)?;
        self.scope.next_component(&changed);
        Ok(())
    }

    /// A `PAR` of a process under a replicator on this line.
    #[cycle(processes)]
    #[inline(never)]
    pub(crate) fn write_repeated_par(
        &mut self,
        around: &Surroundings<'_, 'a>,
        line: u32,
        replicator: &Replicator<'a>,
        process: &Process<'a>,
    ) -> Result<(), GenFault>
        ensures { IfOk result (λ _. WritesRepeatedPar self.old self.new around.now line
            (replicator_of replicator.now) (process_of process.now)) }
    {
        let counted = is_before(line, around.around.uncounted);
        let repeats = repeats_of(counted, &self.scope, false, replicator);
        if !repeats.happens {
            return Ok(());
        }
        let names = self.frame.homes.len();
        let top = self.frame.top;
        let mut fork = self.begin_turns()?;
        self.scope.begin_par()?;
        self.frame.add_home(Home::Nowhere)?;
        self.write_components(around, &mut fork, replicator.name, repeats, process)?;
        self.frame.leave(names, top);
        self.scope.end();
        self.write_turns_fork(around.limits, fork)
    }

    /// The components of a `PAR` under a replicator.
    #[cycle(processes)]
    fn write_components(
        &mut self,
        around: &Surroundings<'_, 'a>,
        fork: &mut Fork,
        name: &'a [u8],
        repeats: Repeats,
        process: &Process<'a>,
    ) -> Result<(), GenFault>
        ensures { IfOk result (λ _. WritesTurns self.old self.new around.now name.now (seen_repeats repeats)
            repeats.turns.count (plain_component process.now)) }
    {
        for turn in 0..repeats.turns.count {
            add_name(&mut self.scope, name, repeats.index_in(turn))?;
            self.write_component(around, fork, process)?;
        }
        Ok(())
    }
}
