//! What the tables alone say of the start of a branch.

use crate::entries::is_unknown;
use crate::modules::Module;
use crate::spans::leaves_scheduling;
use module_format::Entry;

impl Module<'_> {
    ghost use Rattle.std.specs.Prelude.{◌≡◌};
    ghost use Rattle.std.specs.List.{list_all};
    ghost use Rattle.certificate.specs.Starting.{gives_words, is_read_beside_scheduling, entry_is_seen, label_is_seen};
    ghost use Rattle.certificate.specs.Words.{all_words};

    /// Whether a context may write the words that a branch writes, and read those that it reads.
    pub(crate) fn judge_words(&self, giver: u32, context: u32) -> bool
        ensures { result ≡ gives_words self.now giver context }
    {
        match self.branch(context) {
            Some((_par, branch)) => {
                self.writes_intervals(giver, &branch.writes)
                    && self.reads_intervals(giver, &branch.reads)
            }
            None => true,
        }
    }

    /// Whether a context may read `count` words from the first one on, and scheduling takes none of them.
    fn sees_words(&self, context: u32, workspace: i32, first: i32, count: u32) -> bool
        ensures { result ≡ all_words (is_read_beside_scheduling self.now context workspace) first count }
    {
        self.may_read_words(context, first, count) && leaves_scheduling(workspace, first, count)
    }

    /// Whether an entry says something only of such words.
    fn sees_entry(&self, context: u32, workspace: i32, entry: &Entry) -> bool
        ensures { result ≡ entry_is_seen self.now context workspace entry.now }
    {
        is_unknown(entry.fact) || self.sees_words(context, workspace, entry.word, entry.span)
    }

    /// Whether all these entries do.
    fn sees_entries(&self, context: u32, workspace: i32, entries: &[Entry]) -> bool
        ensures { result ≡ list_all (entry_is_seen self.now context workspace) entries.now }
    {
        entries
            .iter()
            .all(|entry| self.sees_entry(context, workspace, entry))
    }

    /// Whether the label of a branch does.
    pub(crate) fn judge_label(&self, context: u32) -> bool
        ensures { result ≡ label_is_seen self.now context }
    {
        let Some((_par, branch)) = self.branch(context) else {
            return true;
        };
        match self.label_at(branch.entry) {
            Some(label) => self.sees_entries(context, branch.workspace, &label.entries),
            None => true,
        }
    }

    /// Whether a context may write the words that a branch writes, and read those that it reads. Of the context of the
    /// PAR of the branch it takes constant time, since that was judged when the module was read. A context that is no
    /// branch is given nothing.
    pub fn gives_words(&self, giver: u32, context: u32) -> bool
        ensures { result ≡ gives_words self.now giver context }
    {
        match self.judged(context) {
            Some(judged) if judged.giver == giver => judged.has_words,
            _ => self.judge_words(giver, context),
        }
    }

    /// Whether the label at which a branch begins says something only of words that the branch may read, and of none
    /// that scheduling takes below its workspace. It takes constant time, since that was judged when the module was
    /// read.
    pub fn label_is_seen(&self, context: u32) -> bool
        ensures { result ≡ label_is_seen self.now context }
    {
        match self.judged(context) {
            Some(judged) => judged.label_is_seen,
            None => self.judge_label(context),
        }
    }
}
