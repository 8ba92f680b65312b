//! What the tables alone say of PAR rows and the labels after them, judged once when a module is read.

ghost use Rattle.std.specs.Prelude.{◌≡◌};
ghost use Rattle.certificate.specs.Starting.{is_loop};

use crate::entries::say_of_hidden;
use crate::modules::Module;
use crate::rights::is_among;
use module_format::{ChannelRow, Entry, Fact};
use std::alloc::{AllocError, Global};

/// What is judged of a PAR row.
#[derive(Clone, Copy)]
pub(crate) struct JudgedRow {
    /// Whether no branch writes a word of a loop that the label after the PAR has.
    pub leaves_loops: bool,
    /// Whether the label after the PAR says nothing of the words of its block and its channels.
    pub hides_words: bool,
    /// Whether the context of the row may write the words of all its channels.
    pub owns_channels: bool,
}

/// Whether this is of a loop.
fn is_loop(fact: Fact) -> bool
    ensures { result ≡ is_loop fact }
{
    match fact {
        Fact::Loop { .. } => true,
        _ => false,
    }
}

impl Module<'_> {
    ghost use Rattle.std.specs.Prelude.{◌≡◌, ◌&&◌, ◌||◌, ◌+ℤ◌, pos, length, IfOk};
    ghost use Rattle.std.specs.List.{list_any, list_all};
    ghost use Rattle.module_format.specs.declared.rows.ChannelRow.{ChannelRow};
    ghost use Rattle.certificate.specs.Rights.{may_write_word};
    ghost use Rattle.certificate.specs.Starting.{is_loop, is_written_in, is_written_loop_in, leaves_loops_of};
    ghost use Rattle.certificate.specs.Starting.{hides_words_of, owns_channels_of};
    ghost use Rattle.certificate.specs.Judged.{AreRowsJudged, IsRowJudged};

    /// Whether a branch of a PAR row writes a word. It takes time logarithmic in what they write.
    fn is_written(&self, row: usize, word: i64) -> bool
        ensures { result ≡ is_written_in self.now row word }
    {
        is_among(self.written_words(row), word)
    }

    /// Whether a branch of a PAR row writes a word or the next one.
    fn writes_pair(&self, row: usize, word: i32) -> bool
        ensures { let m = self.now in
            result ≡ (is_written_in m row word || is_written_in m row (word +ℤ pos 1)) }
    {
        self.is_written(row, i64::from(word)) || self.is_written(row, i64::from(word) + 1)
    }

    /// Whether an entry is of a loop of which a branch of a PAR row writes a word.
    fn writes_loop(&self, row: usize, entry: &Entry) -> bool
        ensures { result ≡ is_written_loop_in self.now row entry.now }
    {
        is_loop(entry.fact) && self.writes_pair(row, entry.word)
    }

    /// Whether one of some entries is.
    fn writes_any_loop(&self, row: usize, entries: &[Entry]) -> bool
        ensures { result ≡ list_any (is_written_loop_in self.now row) entries.now }
    {
        entries.iter().any(|entry| self.writes_loop(row, entry))
    }

    /// Whether no branch writes a word of a loop that the label after a PAR has.
    fn judge_loops(&self, row: usize) -> bool
        ensures { result ≡ leaves_loops_of self.now row }
    {
        let Some(par) = self.tables().pars.get(row) else {
            return true;
        };
        match self.label_at(par.successor) {
            Some(label) => !self.writes_any_loop(row, &label.entries),
            None => true,
        }
    }

    /// Whether the label after a PAR says nothing of the words of its block and its channels.
    fn judge_hidden(&self, row: usize) -> bool
        ensures { result ≡ hides_words_of self.now row }
    {
        let Some(par) = self.tables().pars.get(row) else {
            return true;
        };
        match self.label_at(par.successor) {
            Some(label) => !say_of_hidden(&label.entries, par),
            None => true,
        }
    }

    /// Whether a context may write the words of these channels.
    fn writes_channels(&self, context: u32, channels: &[ChannelRow]) -> bool
        ensures { result ≡ list_all (λ (c : ChannelRow). may_write_word self.now context c.word) channels.now }
    {
        channels.iter().all(|channel| self.may_write_word(context, i64::from(channel.word)))
    }

    /// Whether the context of a PAR row may write the words of all its channels.
    fn judge_channels(&self, row: usize) -> bool
        ensures { result ≡ owns_channels_of self.now row }
    {
        match self.tables().pars.get(row) {
            Some(par) => self.writes_channels(u32::from(par.context), &par.channels),
            None => true,
        }
    }

    /// Judges a PAR row.
    fn judge_par(&self, row: usize) -> JudgedRow
        ensures { IsRowJudged self.now row result }
    {
        JudgedRow {
            leaves_loops: self.judge_loops(row),
            hides_words: self.judge_hidden(row),
            owns_channels: self.judge_channels(row),
        }
    }

    /// Judges all PAR rows.
    pub(crate) fn judge_pars(&self, alloc: Global) -> Result<Vec<JudgedRow>, AllocError>
        ensures { IfOk result (λ judged. AreRowsJudged self.now judged.items) }
    {
        let count = self.tables().pars.len();
        let mut judged = Vec::with_capacity(alloc, count)?;
        for row in 0..count {
            judged.push(self.judge_par(row))?;
        }
        Ok(judged)
    }

    /// Whether no branch writes a word of a loop that the label after a PAR has, if there is that label. It takes
    /// constant time, since that was judged when the module was read. Where there is no such row, nothing is written.
    pub fn leaves_loops_of(&self, row: usize) -> bool
        ensures { result ≡ leaves_loops_of self.now row }
    {
        match self.judged_row(row) {
            Some(judged) => judged.leaves_loops,
            None => self.judge_loops(row),
        }
    }

    /// Whether the label after a PAR says nothing of the two words of its block and of its channels, if there is that
    /// label. It takes constant time, since that was judged when the module was read. Where there is no such row,
    /// nothing is hidden.
    pub fn hides_words_of(&self, row: usize) -> bool
        ensures { result ≡ hides_words_of self.now row }
    {
        match self.judged_row(row) {
            Some(judged) => judged.hides_words,
            None => self.judge_hidden(row),
        }
    }

    /// Whether the context of a PAR row may write the words of all its channels. It takes constant time, since that was
    /// judged when the module was read. Where there is no such row, there are no channels.
    pub fn owns_channels_of(&self, row: usize) -> bool
        ensures { result ≡ owns_channels_of self.now row }
    {
        match self.judged_row(row) {
            Some(judged) => judged.owns_channels,
            None => self.judge_channels(row),
        }
    }
}
