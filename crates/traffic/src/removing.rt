//! Removes the channels of one opener; no process has them enabled any more.

ghost use Rattle.std.specs.Prelude.{◌≡◌, []};
ghost use Rattle.machine_state.specs.Joins.{without_channels};
ghost use Rattle.traffic.specs.OpenedCells.{AreListed};
ghost use Rattle.traffic.specs.Removing.{channel_in, Removes, IsGone, AreIn};

use crate::counts::hand_over;
use crate::opened::OpenedCells;
use machine_state::Channel;

/// The channel of a data word, if there is one.
fn channel_in(channels: &[Option<Channel>], cell: usize) -> Option<Channel>
    ensures { result ≡ channel_in channels.now cell }
{
    channels.get(cell).copied().flatten()
}

/// The channel of a data word is no more, if it is this opener's.
fn remove_at(channels: &mut Vec<Option<Channel>>, counts: &mut Vec<usize>, cell: usize, opener: u64)
    ensures removes { Removes opener channels.old.items channels.new.items counts.old.items counts.new.items }
    ensures gone { IsGone opener channels.new.items cell }
{
    let Some(channel) = channel_in(channels, cell) else {
        return;
    };
    if channel.opener == opener {
        channels[cell] = None;
        hand_over(counts, channel.enabled, None);
    }
}

/// The channels of this opener in some data words are no more. None of the words is listed any more.
fn remove_listed(
    channels: &mut Vec<Option<Channel>>,
    counts: &mut Vec<usize>,
    cells: &mut Vec<usize>,
    opener: u64,
)
    ensures removes { Removes opener channels.old.items channels.new.items counts.old.items counts.new.items }
    ensures gone { AreIn cells.old.items opener channels.old.items → AreIn [] opener channels.new.items }
    ensures empty { cells.new.items ≡ [] }
{
    while let Some(cell) = cells.pop() {
        remove_at(channels, counts, cell, opener);
    }
}

/// The channels of this opener are no more, in whatever data words they are.
fn remove_searched(channels: &mut Vec<Option<Channel>>, counts: &mut Vec<usize>, opener: u64)
    ensures removes { Removes opener channels.old.items channels.new.items counts.old.items counts.new.items }
    ensures gone { AreIn [] opener channels.new.items }
{
    for cell in 0..channels.len() {
        remove_at(channels, counts, cell, opener);
    }
}

/// The channels of this opener are no more. If all are listed, no others are searched.
pub(crate) fn remove_all(
    channels: &mut Vec<Option<Channel>>,
    counts: &mut Vec<usize>,
    opened: &mut OpenedCells,
    opener: u64,
)
    requires { AreListed opened.old channels.old.items }
    ensures channels { channels.new.items ≡ without_channels opener channels.old.items }
    ensures removes { Removes opener channels.old.items channels.new.items counts.old.items counts.new.items }
    ensures listed { AreListed opened.new channels.new.items }
{
    if !opened.are_all {
        remove_searched(channels, counts, opener);
    } else if let Some(cells) = opened.lists.get_mut(opener as usize) {
        remove_listed(channels, counts, cells, opener);
    }
}
