//! What rows say of their branches, judged once when a module is read.

ghost use Rattle.std.specs.Prelude.{◌≡◌};
ghost use Rattle.module_format.specs.Contents.{par_of};
ghost use Rattle.module_format.specs.Order.{InOrder, least_word};
ghost use Rattle.module_format.specs.Pars.{ChannelKeeps, behind_channel};
ghost use Rattle.certificate.specs.Siblings.{brings_channel};

use crate::modules::Module;
use crate::rights::listed_length;
use crate::siblings::{have_common_end, is_beside_all};
use module_format::{BranchRow, ChannelRow, EndKind, EndRow, ParRow, Place};
use std::alloc::{AllocError, Global};

/// What is judged of a branch.
#[derive(Clone, Copy)]
pub(crate) struct Judged {
    /// Its PAR row.
    pub row: usize,
    /// How many branches the row has before it.
    pub number: usize,
    /// The context of its PAR.
    pub giver: u32,
    /// Whether it is beside the branches before it.
    pub is_beside: bool,
    /// Whether it has no end that a branch before it has.
    pub has_other_ends: bool,
    /// Whether the context of its PAR has its ends, but for those of channels that the PAR brings.
    pub has_ends: bool,
    /// Whether it has no word of the block of its PAR, and none of a channel of it.
    pub leaves_hidden_words: bool,
    /// Whether the context of its PAR has its words.
    pub has_words: bool,
    /// Whether its label says something only of words that it may read, and that scheduling does not take.
    pub label_is_seen: bool,
}

/// Whether a PAR brings the channel of an end.
fn brings_channel(par: &ParRow, kind: EndKind) -> bool
    requires { InOrder ChannelKeeps behind_channel least_word par.now.channels.items }
    ensures { result ≡ brings_channel (par_of par.now) kind }
{
    match kind {
        EndKind::FrameWord(word) => listed_length(&par.channels, word).is_some(),
        _ => false,
    }
}

impl Module<'_> {
    ghost use Rattle.std.specs.Prelude.{◌≡◌, ◌||◌, ◌+ℤ◌, pos, not, map, length, IfOk};
    ghost use Rattle.std.specs.List.{AllByRecursion, list_any, list_all};
    ghost use Rattle.module_format.specs.declared.rows.EndRow.{EndRow};
    ghost use Rattle.module_format.specs.Contents.{branch_of, par_of};
    ghost use Rattle.module_format.specs.Contexts.{branch_count};
    ghost use Rattle.module_format.specs.Order.{InOrder, least_word};
    ghost use Rattle.module_format.specs.Pars.{GiftsKeep, ChannelKeeps, behind_channel};
    ghost use Rattle.certificate.specs.Rights.{may_read_word, has_end};
    ghost use Rattle.certificate.specs.Siblings.{first_branches, is_beside_first, has_other_ends};
    ghost use Rattle.certificate.specs.Siblings.{has_other_ends_than_first, brings_channel, has_ends_of};
    ghost use Rattle.certificate.specs.Siblings.{leaves_hidden_words, leaves_own_hidden_words};
    ghost use Rattle.certificate.specs.Judged.{IsJudged, AreJudged};

    /// The first `count` branches of a PAR row, or all of them; none where there is no such row.
    fn first_branches(&self, row: usize, count: usize) -> &[BranchRow]
        ensures are { map branch_of result.now ≡ first_branches self.now row count }
        ensures kept { AllByRecursion (λ row. GiftsKeep (branch_of row)) result.now }
    {
        let Some(par) = self.tables().pars.get(row) else {
            return &[];
        };
        let branches = &par.branches;
        if count < branches.len() {
            &branches[..count]
        } else {
            branches
        }
    }

    /// Whether a branch is beside each of the first `count` branches of a row.
    fn judge_beside(&self, context: u32, row: usize, count: usize) -> bool
        ensures { result ≡ is_beside_first self.now context row count }
    {
        match self.branch(context) {
            Some((_row, branch)) => is_beside_all(branch, self.first_branches(row, count)),
            None => true,
        }
    }

    /// Whether a context has one of these ends.
    fn has_any_end(&self, context: u32, ends: &[EndRow]) -> bool
        ensures { result ≡ list_any (has_end self.now context) ends.now }
    {
        ends.iter().any(|end| self.has_end(context, *end))
    }

    /// Whether a context has no end that a branch has. For a branch it takes time linear in the ends of both.
    fn has_other_ends(&self, context: u32, other: &BranchRow) -> bool
        requires { GiftsKeep (branch_of other.now) }
        ensures { result ≡ has_other_ends self.now context (branch_of other.now) }
    {
        match (self.context(context), self.branch(context)) {
            (Some(_), Some((_row, branch))) => !have_common_end(&branch.ends, &other.ends),
            _ => !self.has_any_end(context, &other.ends),
        }
    }

    /// Whether a context has no end that one of the first `count` branches of a row has.
    fn judge_other_ends(&self, context: u32, row: usize, count: usize) -> bool
        ensures { result ≡ has_other_ends_than_first self.now context row count }
    {
        let mut rest = self.first_branches(row, count);
        while let Some((other, after)) = rest.split_first() {
            if !self.has_other_ends(context, other) {
                return false;
            }
            rest = after;
        }
        true
    }

    /// Whether a context has an end, or a PAR brings its channel.
    fn has_end_to_give(&self, giver: u32, par: &ParRow, end: &EndRow) -> bool
        requires { InOrder ChannelKeeps behind_channel least_word par.now.channels.items }
        ensures { result ≡ (has_end self.now giver end.now || brings_channel (par_of par.now) end.now.kind) }
    {
        self.has_end(giver, *end) || brings_channel(par, end.kind)
    }

    /// Whether a context has all these ends, but for those of channels that a PAR brings.
    fn has_ends_to_give(&self, giver: u32, par: &ParRow, ends: &[EndRow]) -> bool
        requires { InOrder ChannelKeeps behind_channel least_word par.now.channels.items }
        ensures { let p = par_of par.now in
            result ≡ list_all (λ (e : EndRow). has_end self.now giver e || brings_channel p e.kind) ends.now }
    {
        let mut rest = ends;
        while let Some((end, after)) = rest.split_first() {
            if !self.has_end_to_give(giver, par, end) {
                return false;
            }
            rest = after;
        }
        true
    }

    /// Whether a context has the ends of a branch, but for those of channels that its PAR brings.
    fn judge_ends(&self, giver: u32, context: u32) -> bool
        ensures { result ≡ has_ends_of self.now giver context }
    {
        match self.branch(context) {
            Some((par, branch)) => self.has_ends_to_give(giver, par, &branch.ends),
            None => true,
        }
    }

    /// Whether a context has not this word of its frame.
    fn leaves_word(&self, context: u32, word: i64) -> bool
        ensures { result ≡ not (may_read_word self.now context word) }
    {
        !self.may_read_word(context, word)
    }

    /// Whether a context has not the word after this one.
    fn leaves_next_word(&self, context: u32, word: i32) -> bool
        ensures { result ≡ not (may_read_word self.now context (word +ℤ pos 1)) }
    {
        self.leaves_word(context, i64::from(word) + 1)
    }

    /// Whether a context has none of the words of these channels.
    fn leaves_channels(&self, context: u32, channels: &[ChannelRow]) -> bool
        ensures { result ≡ list_all (λ c. not (may_read_word self.now context c.word)) channels.now }
    {
        channels.iter().all(|channel| self.leaves_word(context, i64::from(channel.word)))
    }

    /// Whether a context has no word of the block of a PAR, and none of a channel of it.
    fn leaves_hidden_words(&self, context: u32, par: &ParRow) -> bool
        ensures { result ≡ leaves_hidden_words self.now context (par_of par.now) }
    {
        self.leaves_word(context, i64::from(par.block))
            && self.leaves_next_word(context, par.block)
            && self.leaves_channels(context, &par.channels)
    }

    /// Whether a branch has no word of the block of its PAR, and none of a channel of it.
    fn judge_hidden_words(&self, context: u32) -> bool
        ensures { result ≡ leaves_own_hidden_words self.now context }
    {
        match self.branch(context) {
            Some((par, _branch)) => self.leaves_hidden_words(context, par),
            None => true,
        }
    }

    /// The context of the PAR of a branch.
    fn giver_of(&self, context: u32) -> u32 {
        match self.branch(context) {
            Some((par, _branch)) => u32::from(par.context),
            None => 0,
        }
    }

    /// Judges a branch in its place.
    fn judge(&self, context: u32, place: &Place) -> Judged
        ensures { IsJudged self.now context result }
    {
        let row = usize::from(place.par);
        let number = usize::from(place.branch);
        let giver = self.giver_of(context);
        Judged {
            row,
            number,
            giver,
            is_beside: self.judge_beside(context, row, number),
            has_other_ends: self.judge_other_ends(context, row, number),
            has_ends: self.judge_ends(giver, context),
            leaves_hidden_words: self.judge_hidden_words(context),
            has_words: self.judge_words(giver, context),
            label_is_seen: self.judge_label(context),
        }
    }

    /// Judges all branches, in the order of their contexts.
    pub(crate) fn judge_branches(
        &self,
        alloc: Global,
        places: &[Place],
    ) -> Result<Vec<Judged>, AllocError>
        requires { length places.now ≡ branch_count self.now.pars }
        ensures { IfOk result (λ judged. AreJudged self.now judged.items) }
    {
        let mut judged = Vec::with_capacity(alloc, places.len())?;
        let mut context = self.tables().first_branch() as u32;
        for place in places {
            judged.push(self.judge(context, place))?;
            context += 1;
        }
        Ok(judged)
    }

    /// Whether a branch is beside each of the first `count` branches of a PAR row: neither writes a word, or what a
    /// parameter names, that the other one writes or reads. For the branches before it in its own row it takes constant
    /// time, since that was judged when the module was read. A context that is no branch has nothing of others.
    pub fn is_beside_first(&self, context: u32, row: usize, count: usize) -> bool
        ensures { result ≡ is_beside_first self.now context row count }
    {
        match self.judged(context) {
            Some(judged) if judged.row == row && judged.number == count => judged.is_beside,
            _ => self.judge_beside(context, row, count),
        }
    }

    /// Whether a context has no end that one of the first `count` branches of a PAR row has. Of a branch and those
    /// before it in its own row it takes constant time, since that was judged when the module was read.
    pub fn has_other_ends_than_first(&self, context: u32, row: usize, count: usize) -> bool
        ensures { result ≡ has_other_ends_than_first self.now context row count }
    {
        match self.judged(context) {
            Some(judged) if judged.row == row && judged.number == count => judged.has_other_ends,
            _ => self.judge_other_ends(context, row, count),
        }
    }

    /// Whether a context has the ends of a branch, but for those of channels that the PAR of the branch brings. Of the
    /// context of that PAR it takes constant time, since that was judged when the module was read.
    pub fn has_ends_of(&self, giver: u32, context: u32) -> bool
        ensures { result ≡ has_ends_of self.now giver context }
    {
        match self.judged(context) {
            Some(judged) if judged.giver == giver => judged.has_ends,
            _ => self.judge_ends(giver, context),
        }
    }

    /// Whether a branch has no word of the block of its PAR, and none of a channel of it. It takes constant time, since
    /// that was judged when the module was read.
    pub fn leaves_own_hidden_words(&self, context: u32) -> bool
        ensures { result ≡ leaves_own_hidden_words self.now context }
    {
        match self.judged(context) {
            Some(judged) => judged.leaves_hidden_words,
            None => self.judge_hidden_words(context),
        }
    }
}
