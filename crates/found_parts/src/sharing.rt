//! What a branch has in common with one that is started already.

ghost use Rattle.std.specs.Prelude.{◌≡◌, map};
ghost use Rattle.module_format.specs.Contents.{branch_of};
ghost use Rattle.module_format.specs.Pars.{intervals_meet};
ghost use Rattle.states.specs.Views.{state_of};
ghost use Rattle.found_parts.specs.Firsts.{first_of, among};
ghost use Rattle.found_parts.specs.Sharing.{greater, lesser, words_between, meeting, common_words, listed, common_number};
ghost use Rattle.found_parts.specs.Sharing.{words_in_common, numbers_in_common, in_common, shared_with, shared_in};

use certificate::Module;
use fact_texts::RangeText;
use module_format::{BranchRow, Interval};
use rulings::reach::is_listed;
use states::{Mode, State};

/// What two branches have in common.
#[derive(Clone, Copy)]
pub enum Common {
    /// These words.
    Words { words: RangeText },
    /// What the parameter of this number names.
    Parameter { number: u16 },
}

/// What a branch has in common with another one, where one of them writes it.
#[derive(Clone, Copy)]
pub struct Shared {
    pub what: Common,
    /// Where the other one begins.
    pub entry: u32,
}

/// Whether two intervals have a word in common.
fn intervals_meet(interval: &Interval, other: &Interval) -> bool
    ensures { result ≡ intervals_meet interval.now other.now }
{
    interval.lo < other.hi && other.lo < interval.hi
}

/// The greater of two words.
fn greater(word: i32, other: i32) -> i32
    ensures { result ≡ greater word other }
{
    if word < other { other } else { word }
}

/// The lesser of two words.
fn lesser(word: i32, other: i32) -> i32
    ensures { result ≡ lesser word other }
{
    if word < other { word } else { other }
}

/// The words from the first one up to an end.
fn words_between(first: i32, end: i32) -> RangeText
    ensures { result ≡ words_between first end }
{
    RangeText {
        lo: i64::from(first),
        hi: i64::from(end) - 1,
    }
}

/// The words that two intervals have in common.
fn meeting(interval: &Interval, other: &Interval) -> Option<RangeText>
    ensures { result ≡ meeting interval.now other.now }
{
    if !intervals_meet(interval, other) {
        return None;
    }
    let first = greater(interval.lo, other.lo);
    let end = lesser(interval.hi, other.hi);
    Some(words_between(first, end))
}

/// The words that an interval has in common with the first of some that it meets.
fn words_with(other: &Interval, intervals: &[Interval]) -> Option<RangeText>
    ensures { result ≡ first_of (meeting other.now) intervals.now }
{
    for interval in intervals {
        let words = meeting(other, interval);
        if words.is_some() {
            return words;
        }
    }
    None
}

/// The first words that intervals have in common with others.
fn common_words(intervals: &[Interval], others: &[Interval]) -> Option<RangeText>
    ensures { result ≡ common_words intervals.now others.now }
{
    for other in others {
        let words = words_with(other, intervals);
        if words.is_some() {
            return words;
        }
    }
    None
}

/// A number, if it is listed.
fn listed(numbers: &[u16], number: u16) -> Option<u16>
    ensures { result ≡ listed numbers.now number }
{
    if is_listed(numbers, number) {
        Some(number)
    } else {
        None
    }
}

/// The first number that is listed of some others.
fn common_number(numbers: &[u16], others: &[u16]) -> Option<u16>
    ensures { result ≡ common_number numbers.now others.now }
{
    for other in others {
        let number = listed(numbers, *other);
        if number.is_some() {
            return number;
        }
    }
    None
}

/// The first words that one of two branches writes, and the other one writes or reads.
fn words_in_common(branch: &BranchRow, other: &BranchRow) -> Option<RangeText>
    ensures { result ≡ words_in_common (branch_of branch.now) (branch_of other.now) }
{
    let written = common_words(&branch.writes, &other.writes);
    let read_there = common_words(&branch.writes, &other.reads);
    written
        .or(read_there)
        .or(common_words(&branch.reads, &other.writes))
}

/// The first parameter of which one of two branches writes what it names, and the other one writes or reads that.
fn number_in_common(branch: &BranchRow, other: &BranchRow) -> Option<u16>
    ensures { result ≡ numbers_in_common (branch_of branch.now) (branch_of other.now) }
{
    let written = common_number(&branch.written_parameters, &other.written_parameters);
    let read_there = common_number(&branch.written_parameters, &other.read_parameters);
    let read_here = common_number(&branch.read_parameters, &other.written_parameters);
    written.or(read_there).or(read_here)
}

/// What two branches have in common that one of them writes.
fn in_common(branch: &BranchRow, other: &BranchRow) -> Option<Common>
    ensures { result ≡ in_common (branch_of branch.now) (branch_of other.now) }
{
    if let Some(words) = words_in_common(branch, other) {
        return Some(Common::Words { words });
    }
    let number = number_in_common(branch, other)?;
    Some(Common::Parameter { number })
}

/// What a branch has in common with another one that is not itself.
fn shared_with(branch: &BranchRow, other: &BranchRow) -> Option<Shared>
    ensures { result ≡ shared_with (branch_of branch.now) (branch_of other.now) }
{
    if other.entry == branch.entry {
        return None;
    }
    let what = in_common(branch, other)?;
    Some(Shared {
        what,
        entry: other.entry,
    })
}

/// What a branch has in common with one of the first branches of some.
fn shared_among(branch: &BranchRow, others: &[BranchRow], count: u32) -> Option<Shared>
    ensures { result ≡ among (shared_with (branch_of branch.now)) count (map branch_of others.now) }
{
    let mut left = count;
    for other in others {
        if left == 0 {
            return None;
        }
        let shared = shared_with(branch, other);
        if shared.is_some() {
            return shared;
        }
        left -= 1;
    }
    None
}

/// What a branch has in common with one that the process has started.
#[tactic(auto, unfolding(crate::specs::Sharing::shared_in))]
pub fn shared_in(module: &Module, state: &State, branch: &BranchRow) -> Option<Shared>
    ensures { result ≡ shared_in «module».now (state_of state.now) (branch_of branch.now) }
{
    match state.mode {
        Mode::Starting { row, started } => {
            let par = module.tables().pars.get(row as usize)?;
            shared_among(branch, &par.branches, started)
        }
        _ => None,
    }
}
