//! How many inputs and channels each process has enabled, by process number.

ghost use Rattle.std.specs.Prelude.{◌≡◌, ◌+◌, ◌<◌, ◌^◌, ◌&&◌, IfSome, slice_get, slice_index};
ghost use Rattle.traffic.specs.EnabledCounts.{enabler_of, is_counted, one_fewer, one_more, handed_over};

use machine_state::Channel;

/// Who has enabled the channel of a data word, if there is one.
pub(crate) fn enabler_of(cell: Option<Channel>) -> Option<u64>
    ensures { result ≡ enabler_of cell }
{
    match cell {
        Some(channel) => channel.enabled,
        None => None,
    }
}

/// How many this process has enabled, if it is counted.
pub(crate) fn count_of(counts: &[usize], process: u64) -> Option<usize>
    ensures { result ≡ slice_get counts.now process }
{
    counts.get(process as usize).copied()
}

/// Whether no process without a count has something enabled, if that was so, once this process has something enabled
/// too.
pub(crate) fn are_still_all(were_all: bool, counts: &[usize], process: Option<u64>) -> bool
    ensures { result ≡ (were_all && is_counted counts.now process) }
{
    were_all
        && match process {
            Some(process) => (process as usize) < counts.len(),
            None => true,
        }
}

/// One fewer is enabled by this process, if it is counted.
fn take_one(counts: &mut Vec<usize>, process: Option<u64>)
    ensures { counts.new.items ≡ one_fewer process counts.old.items }
{
    let Some(process) = process else {
        return;
    };
    if let Some(count) = counts.get_mut(process as usize) {
        *count = count.saturating_sub(1);
    }
}

/// One more is.
fn give_one(counts: &mut Vec<usize>, process: Option<u64>)
    requires { IfSome process (λ p. slice_index counts.old.items p + 1 < 2 ^ 64) }
    ensures { counts.new.items ≡ one_more process counts.old.items }
{
    let Some(process) = process else {
        return;
    };
    if let Some(count) = counts.get_mut(process as usize) {
        *count += 1;
    }
}

/// What one process had enabled is enabled by another from now on, or by none.
pub(crate) fn hand_over(counts: &mut Vec<usize>, before: Option<u64>, after: Option<u64>)
    requires { IfSome after (λ p. slice_index (one_fewer before counts.old.items) p + 1 < 2 ^ 64) }
    ensures { counts.new.items ≡ handed_over before after counts.old.items }
{
    take_one(counts, before);
    give_one(counts, after);
}
