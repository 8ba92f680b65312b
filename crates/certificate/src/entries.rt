//! What the entries of a label say of words.

ghost use Rattle.std.specs.Prelude.{◌≡◌, ◌||◌, ◌+ℤ◌, pos};
ghost use Rattle.std.specs.List.{list_any};
ghost use Rattle.module_format.specs.declared.rows.ChannelRow.{ChannelRow};
ghost use Rattle.module_format.specs.Contents.{par_of};
ghost use Rattle.module_format.specs.Facts.{end_of};
ghost use Rattle.certificate.specs.Starting.{is_unknown, says_of_word, says_of_hidden, EntriesRise};

use module_format::{ChannelRow, Entry, Fact, ParRow};

/// Whether this says nothing.
pub(crate) fn is_unknown(fact: Fact) -> bool
    ensures { result ≡ is_unknown fact }
{
    match fact {
        Fact::Unknown => true,
        _ => false,
    }
}

/// The word after those of an entry.
fn end_of(entry: &Entry) -> i64
    ensures { result ≡ end_of entry.now }
{
    i64::from(entry.word) + i64::from(entry.span)
}

/// Whether one of some entries, which rise, says something of a word. It takes time logarithmic in them.
fn say_of(entries: &[Entry], word: i64) -> bool
    requires { EntriesRise entries.now }
    ensures { result ≡ list_any (says_of_word word) entries.now }
{
    let index = entries.partition_point(|entry| end_of(entry) <= word);
    match entries.get(index) {
        Some(entry) => !is_unknown(entry.fact) && i64::from(entry.word) <= word,
        None => false,
    }
}

/// Whether one of some entries says something of a word of a block.
fn say_of_block(entries: &[Entry], block: i32) -> bool
    requires { EntriesRise entries.now }
    ensures { let e = entries.now in
        result ≡ (list_any (says_of_word block) e || list_any (says_of_word (block +ℤ pos 1)) e) }
{
    say_of(entries, i64::from(block)) || say_of(entries, i64::from(block) + 1)
}

/// Whether one of some entries says something of a channel.
fn say_of_any(entries: &[Entry], channels: &[ChannelRow]) -> bool
    requires { EntriesRise entries.now }
    ensures { result ≡ list_any (λ (c : ChannelRow). list_any (says_of_word c.word) entries.now) channels.now }
{
    let mut rest = channels;
    while let Some((channel, after)) = rest.split_first() {
        if say_of(entries, i64::from(channel.word)) {
            return true;
        }
        rest = after;
    }
    false
}

/// Whether one of some entries says something of a word of the block of a PAR, or of one of its channels. It takes time
/// logarithmic in the entries for each channel.
pub(crate) fn say_of_hidden(entries: &[Entry], par: &ParRow) -> bool
    requires { EntriesRise entries.now }
    ensures { result ≡ list_any (says_of_hidden (par_of par.now)) entries.now }
{
    say_of_block(entries, par.block) || say_of_any(entries, &par.channels)
}
