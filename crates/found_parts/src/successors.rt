//! What a PAR wants of the label after it that is not so.

ghost use Rattle.std.specs.Prelude.{◌≡◌};
ghost use Rattle.module_format.specs.Contents.{par_of, label_of, label_at};
ghost use Rattle.found_parts.specs.Firsts.{first_of};
ghost use Rattle.found_parts.specs.Successors.{said_word, block_word, hidden_word, context_fault, depth_fault};
ghost use Rattle.found_parts.specs.Successors.{is_unsaid, register_fault, word_fault, label_fault, successor_fault};

use crate::faults::{StartFault, is_same, unless};
use certificate::Module;
use fact_texts::is_unknown;
use module_format::{ChannelRow, Entry, Fact, LabelRow, ParRow, Stack};

/// A word, if an entry says something of it.
#[tactic(auto, unfolding(crate::specs::Successors::said_word))]
fn said_word(entry: &Entry, word: i64) -> Option<i64>
    ensures { result ≡ said_word entry.now word }
{
    let first = i64::from(entry.word);
    if !is_unknown(entry.fact) && first <= word && word < first + i64::from(entry.span) {
        return Some(word);
    }
    None
}

/// The first word of a channel of which an entry says something.
fn channel_word(entry: &Entry, channels: &[ChannelRow]) -> Option<i64>
    ensures { result ≡ first_of (λ c. said_word entry.now c.word) channels.now }
{
    for channel in channels {
        let word = said_word(entry, i64::from(channel.word));
        if word.is_some() {
            return word;
        }
    }
    None
}

/// The first word of the block of which an entry says something.
fn block_word(par: &ParRow, entry: &Entry) -> Option<i64>
    ensures { result ≡ block_word (par_of par.now) entry.now }
{
    let first = i64::from(par.block);
    said_word(entry, first).or(said_word(entry, first + 1))
}

/// The first word of the block, or of a channel, of which an entry says something.
fn hidden_word(par: &ParRow, entry: &Entry) -> Option<i64>
    ensures { result ≡ hidden_word (par_of par.now) entry.now }
{
    block_word(par, entry).or(channel_word(entry, &par.channels))
}

/// The first such word of which one of some entries says something.
fn entries_word(par: &ParRow, entries: &[Entry]) -> Option<i64>
    ensures { result ≡ first_of (hidden_word (par_of par.now)) entries.now }
{
    for entry in entries {
        let word = hidden_word(par, entry);
        if word.is_some() {
            return word;
        }
    }
    None
}

/// The label is of another context.
fn context_fault(par: &ParRow, row: &LabelRow) -> Option<StartFault>
    ensures { result ≡ context_fault (par_of par.now) (label_of row.now) }
{
    let offset = par.successor;
    unless(
        row.context == par.context,
        StartFault::LabelContext { offset },
    )
}

/// The label is at another depth.
fn depth_fault(par: &ParRow, row: &LabelRow) -> Option<StartFault>
    ensures { result ≡ depth_fault (par_of par.now) (label_of row.now) }
{
    let fault = StartFault::LabelDepth {
        offset: par.successor,
        depth: row.depth,
        block: par.block,
    };
    unless(is_same(row.depth, par.block), fault)
}

/// Whether nothing is said of the registers.
fn is_unsaid(stack: Stack<Fact>) -> bool
    ensures { result ≡ is_unsaid stack }
{
    is_unknown(stack.a) && is_unknown(stack.b) && is_unknown(stack.c)
}

/// The label says something of a register.
fn register_fault(par: &ParRow, row: &LabelRow) -> Option<StartFault>
    ensures { result ≡ register_fault (par_of par.now) (label_of row.now) }
{
    let offset = par.successor;
    unless(is_unsaid(row.stack), StartFault::LabelRegister { offset })
}

/// The label says something of a word of the block, or of a channel.
fn word_fault(par: &ParRow, row: &LabelRow) -> Option<StartFault>
    ensures { result ≡ word_fault (par_of par.now) (label_of row.now) }
{
    let word = entries_word(par, &row.entries)?;
    Some(StartFault::LabelWord {
        offset: par.successor,
        word,
    })
}

/// What is wanted of the label after a PAR.
fn label_fault(par: &ParRow, row: &LabelRow) -> Option<StartFault>
    ensures { result ≡ label_fault (par_of par.now) (label_of row.now) }
{
    let place = context_fault(par, row).or(depth_fault(par, row));
    place.or(register_fault(par, row)).or(word_fault(par, row))
}

/// The same, and that there is one.
pub(crate) fn successor_fault(module: &Module, par: &ParRow) -> Option<StartFault>
    ensures { let p = par_of par.now in
        result ≡ successor_fault p (label_at «module».now p.successor) }
{
    match module.label_at(par.successor) {
        Some(row) => label_fault(par, row),
        None => Some(StartFault::NoLabel {
            offset: par.successor,
        }),
    }
}
