//! What a PAR wants where its first branch is started.

ghost use Rattle.std.specs.Prelude.{◌≡◌, ◌&&◌, ◌≤◌, ◌≤ℤ◌, ◌<ℤ◌, ℤ, Bool, true, pos, ◌+ℤ◌, length};
ghost use Rattle.std.specs.List.{list_all};
ghost use Rattle.word_arithmetic.specs.Word.{least_word};
ghost use Rattle.module_format.specs.declared.rows.ChannelRow.{ChannelRow};
ghost use Rattle.module_format.specs.Contents.{par_of};
ghost use Rattle.certificate.specs.Rights.{may_write_word};
ghost use Rattle.states.specs.State.{is_same_number};
ghost use Rattle.states.specs.Below.{holds_constant};
ghost use Rattle.states.specs.Views.{state_of};
ghost use Rattle.par_rules.specs.Openings.{is_code_address, block_is_prepared, channel_is_empty, is_start_of};
ghost use Rattle.par_rules.specs.Openings.{is_as_given, number_is_as_given, named_are_as_given, is_prepared};
ghost use Rattle.par_rules.specs.Finding.{IsInRow};

use crate::found::Found;
use certificate::Module;
use module_format::{ChannelRow, Fact, ParRow, Region, Step};
use states::{State, WordFact};

/// Whether a word has this number, which is no loop's.
pub(crate) fn holds_constant(fact: WordFact, number: i64) -> bool
    ensures { result ≡ holds_constant fact number }
{
    match fact {
        WordFact::Alone(Fact::Number { lo, hi }) => {
            i64::from(lo) == number && i64::from(hi) == number
        }
        _ => false,
    }
}

/// Whether a word is the address of this code offset.
fn is_code_address(fact: WordFact, to: u32) -> bool
    ensures { result ≡ is_code_address fact to }
{
    match fact {
        WordFact::Alone(Fact::CodeAddress { offset }) => offset == to,
        _ => false,
    }
}

/// Whether a number is one above another.
fn is_one_more(value: i32, count: i64) -> bool
    ensures { result ≡ is_same_number value (count +ℤ pos 1) }
{
    i64::from(value) - 1 == count
}

/// Whether a word has the number one above this, which is no loop's.
fn holds_one_more(fact: WordFact, count: i64) -> bool
    ensures { result ≡ holds_constant fact (count +ℤ pos 1) }
{
    match fact {
        WordFact::Alone(Fact::Number { lo, hi }) => is_one_more(lo, count)
            && is_one_more(hi, count),
        _ => false,
    }
}

/// Whether the word after this one has the number one above a count.
fn next_holds_one_more(state: &State, word: i32, count: i64) -> bool
    ensures { result ≡ holds_constant ((state_of state.now).frame (word +ℤ pos 1)) (count +ℤ pos 1) }
{
    holds_one_more(state.fact_of(i64::from(word) + 1), count)
}

/// Whether a context may write the word after this one.
fn writes_next(module: &Module, context: u32, word: i32) -> bool
    ensures { result ≡ may_write_word «module».now context (word +ℤ pos 1) }
{
    module.may_write_word(context, i64::from(word) + 1)
}

/// How many branches a PAR has.
fn branch_count(par: &ParRow) -> i64
    ensures { result ≡ pos (length (par_of par.now).branches) }
{
    par.branches.len() as i64
}

/// Whether the word after that of the block may be written, and has one more than the number of branches.
fn branches_are_counted(module: &Module, state: &State, par: &ParRow) -> bool
    ensures { let s = state_of state.now in
        let p = par_of par.now in
        let word = p.block +ℤ pos 1 in
        result ≡ (may_write_word «module».now s.context word
        && holds_constant (s.frame word) (pos (length p.branches) +ℤ pos 1)) }
{
    writes_next(module, state.context, par.block)
        && next_holds_one_more(state, par.block, branch_count(par))
}

/// Whether the word of the block may be written, and has the address of the successor.
fn successor_is_there(module: &Module, state: &State, par: &ParRow) -> bool
    ensures { let s = state_of state.now in
        let p = par_of par.now in
        result ≡ (may_write_word «module».now s.context p.block && is_code_address (s.frame p.block) p.successor) }
{
    module.may_write_word(state.context, i64::from(par.block))
        && is_code_address(state.fact_at(par.block), par.successor)
}

/// Whether the words of the block may be written, and have the address of the successor and one more than the number
/// of branches.
fn block_is_prepared(module: &Module, state: &State, par: &ParRow) -> bool
    ensures { result ≡ block_is_prepared «module».now (state_of state.now) (par_of par.now) }
{
    successor_is_there(module, state, par) && branches_are_counted(module, state, par)
}

/// Whether a word is the address of the first byte of what the parameter with this number names.
fn is_start_of(parameter: usize, fact: WordFact) -> bool
    ensures { result ≡ is_start_of parameter fact }
{
    match fact {
        WordFact::Alone(
            Fact::Pointer {
                region: Region::Parameter(number),
                lo,
                hi,
                step: Step::Word,
            },
        ) => usize::from(number) == parameter && lo == 0 && hi == 0,
        _ => false,
    }
}

/// Whether the word of a parameter may be read, and has what the procedure was given.
fn is_as_given(module: &Module, state: &State, parameter: usize) -> bool
    ensures { result ≡ is_as_given «module».now (state_of state.now) parameter }
{
    match module.parameters(state.context).get(parameter) {
        Some(row) => {
            module.may_read_word(state.context, i64::from(row.word))
                && is_start_of(parameter, state.fact_at(i32::from(row.word)))
        }
        None => false,
    }
}

/// The same of the parameter with this number; there is none below 0.
fn number_is_as_given(module: &Module, state: &State, number: i32) -> bool
    ensures { result ≡ number_is_as_given «module».now (state_of state.now) number }
{
    number >= 0 && is_as_given(module, state, number.unsigned_abs() as usize)
}

/// The same of the parameters with these numbers.
fn numbers_are_as_given(module: &Module, state: &State, numbers: &[i32]) -> bool
    ensures { result ≡ list_all (number_is_as_given «module».now (state_of state.now)) numbers.now }
{
    numbers
        .iter()
        .all(|number| number_is_as_given(module, state, *number))
}

/// The same of all parameters that the branches of a PAR row name, each of which is asked once.
fn all_are_as_given(module: &Module, state: &State, found: &Found) -> bool
    requires { IsInRow «module».now found.now }
    ensures { let test = named_are_as_given «module».now (state_of state.now) in
        result ≡ list_all test (par_of found.now.par.now).branches }
{
    numbers_are_as_given(module, state, module.named_parameters_of(found.row))
}

/// Whether a context may write the words of these channels.
fn writes_channels(module: &Module, context: u32, channels: &[ChannelRow]) -> bool
    ensures { result ≡ list_all (λ c. may_write_word «module».now context c.word) channels.now }
{
    channels.iter().all(|channel| module.may_write_word(context, i64::from(channel.word)))
}

/// Whether the words of all channels of a PAR row may be written. In the context of the row it takes constant time.
fn owns_channels(module: &Module, state: &State, found: &Found) -> bool
    requires { IsInRow «module».now found.now }
    ensures { let context = (state_of state.now).context in
        result ≡ list_all (λ (c : ChannelRow). may_write_word «module».now context c.word)
        (par_of found.now.par.now).channels }
{
    if u32::from(found.par.context) == state.context {
        module.owns_channels_of(found.row)
    } else {
        writes_channels(module, state.context, &found.par.channels)
    }
}

/// What is left of channels once those are passed that come first and whose words are from one up to `end`.
fn past_channels(channels: &[ChannelRow], word: i64, end: i64) -> &[ChannelRow]
    ensures few { length result.now ≤ length channels.now }
    ensures same { (test : ℤ → Bool) → ((k : ℤ) → word ≤ℤ k → k <ℤ end → test k ≡ true)
        → list_all (λ (c : ChannelRow). test c.word) channels.now
        ≡ list_all (λ (c : ChannelRow). test c.word) result.now }
{
    let mut rest = channels;
    while let Some((channel, later)) = rest.split_first() {
        let other = i64::from(channel.word);
        if other < word || end <= other {
            break;
        }
        rest = later;
    }
    rest
}

/// Whether the words of all channels have the least word. Those that follow each other are asked together.
fn channels_are_least(state: &State, channels: &[ChannelRow]) -> bool
    ensures { let s = state_of state.now in
        result ≡ list_all (λ c. holds_constant (s.frame c.word) least_word) channels.now }
{
    let mut rest = channels;
    while let Some((channel, later)) = rest.split_first() {
        let word = i64::from(channel.word);
        let end = state.constant_until(word, i64::from(i32::MAX) + 1, i64::from(i32::MIN));
        if end <= word {
            return false;
        }
        rest = past_channels(later, word, end);
    }
    true
}

/// Whether the words of all channels of a PAR row may be written, and have the least word.
fn channels_are_empty(module: &Module, state: &State, found: &Found) -> bool
    requires { IsInRow «module».now found.now }
    ensures { let p = par_of found.now.par.now in
        result ≡ list_all (channel_is_empty «module».now (state_of state.now)) p.channels }
{
    owns_channels(module, state, found) && channels_are_least(state, &found.par.channels)
}

/// Whether all is prepared that a PAR wants. It takes the time of a look-up for each channel and for each parameter
/// that a branch names.
pub(crate) fn is_prepared(module: &Module, state: &State, found: &Found) -> bool
    requires { IsInRow «module».now found.now }
    ensures { result ≡ is_prepared «module».now (state_of state.now) (par_of found.now.par.now) }
{
    block_is_prepared(module, state, found.par)
        && channels_are_empty(module, state, found)
        && all_are_as_given(module, state, found)
}
