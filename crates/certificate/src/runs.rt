//! Runs of neighbouring channels of which a branch has the ends.

ghost use Rattle.std.specs.Prelude.{◌≡◌, ⊤, ◌<◌, ◌+◌, ◌^◌, false, MatchOption, IfOk, length};
ghost use Rattle.std.specs.Ordering.{int_cmp};
ghost use Rattle.std.specs.BTreeMap.{get};
ghost use Rattle.module_format.specs.Order.{InOrder};
ghost use Rattle.module_format.specs.Pars.{EndKeeps, EndKindKeeps, behind_end, first_key};
ghost use Rattle.certificate.specs.Runs.{further, end_further, lists_end, word_length, HasRun, IsCount, AreRuns};

use crate::rights::place_of;
use module_format::{EndKind, EndRow};
use std::alloc::{AllocError, Global};
use std::collections::BTreeMap;

/// Neighbouring channels of which a context has the ends in one direction, all with messages of one length.
#[derive(Clone, Copy)]
pub struct ChannelRun {
    /// How many there are.
    pub count: u32,
    /// The bytes of their messages; none where no PAR row around the context lists them.
    pub length: Option<u32>,
}

/// The channel after this one, where it has a number.
fn next_kind(kind: EndKind) -> Option<EndKind>
    ensures { MatchOption result (EndKindKeeps (further kind 1) → ⊥) (λ next. next ≡ further kind 1) }
{
    match kind {
        EndKind::FrameWord(word) => Some(EndKind::FrameWord(word.checked_add(1)?)),
        EndKind::Parameter { number, element } => {
            let element = element.checked_add(1)?;
            Some(EndKind::Parameter { number, element })
        }
        EndKind::Link(link) => Some(EndKind::Link(link.checked_add(1)?)),
    }
}

/// The run from the channel after this one on, where its end in the same direction is among those that have their runs.
fn next_run(ends: &[EndRow], runs: &[ChannelRun], end: EndRow) -> Option<ChannelRun>
    requires order { InOrder EndKeeps behind_end first_key ends.now }
    requires many { length runs.now ≡ length ends.now }
    ensures { let next = end_further end 1 in
        MatchOption result (lists_end ends.now next ≡ false) (HasRun ends.now runs.now next) }
{
    let kind = next_kind(end.kind)?;
    let direction = end.direction;
    let index = place_of(ends, &EndRow { kind, direction })?;
    Some(runs[index])
}

/// How many channels neighbour each other from one with such messages on, where the run of the next one is known.
fn count_from(length: Option<u32>, next: Option<ChannelRun>) -> u32
    requires { MatchOption next ⊤ (λ run. run.count + 1 < 2 ^ 32) }
    ensures { MatchOption next (result ≡ 1) (λ run. IsCount length run result) }
{
    match next {
        Some(run) if run.length == length => run.count + 1,
        _ => 1,
    }
}

/// The length of a channel in a word, where words have these; no other channel has its own.
fn length_of(lengths: &BTreeMap<i32, u32>, kind: EndKind) -> Option<u32>
    ensures { result ≡ word_length (get int_cmp lengths.now) kind }
{
    match kind {
        EndKind::FrameWord(word) => lengths.get(&word).copied(),
        _ => None,
    }
}

/// From the channel of each end on, the run of channels with ends in its direction, where words have these lengths. It
/// takes time n log n in the ends.
pub(crate) fn runs_of(
    alloc: Global,
    ends: &[EndRow],
    lengths: &BTreeMap<i32, u32>,
) -> Result<Vec<ChannelRun>, AllocError>
    requires order { InOrder EndKeeps behind_end first_key ends.now }
    requires few { length ends.now < 2 ^ 16 }
    ensures { IfOk result (λ runs. AreRuns (get int_cmp lengths.now) ends.now runs.items) }
{
    let mut runs = Vec::new(alloc);
    let none = ChannelRun {
        count: 0,
        length: None,
    };
    runs.resize(ends.len(), none)?;
    for index in (0..ends.len()).rev() {
        let end = ends[index];
        let length = length_of(lengths, end.kind);
        let next = next_run(ends, &runs, end);
        let count = count_from(length, next);
        runs[index] = ChannelRun { count, length };
    }
    Ok(runs)
}
