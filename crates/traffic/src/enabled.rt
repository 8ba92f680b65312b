//! What a process has enabled in its alternation.

ghost use Rattle.std.specs.Prelude.{◌≡◌, Some, None, false};
ghost use Rattle.std.specs.List.{list_any};
ghost use Rattle.machine_state.specs.Alternations.{is_by};

use machine_state::{Channel, InputLink};

/// Whether it is this process that has enabled something.
fn is_by(enabled: Option<u64>, process: u64) -> bool
    ensures { result ≡ is_by enabled process }
{
    enabled == Some(process)
}

/// Whether this process has enabled one of the links.
pub(crate) fn any_input(inputs: &[InputLink], process: u64) -> bool
    ensures { result ≡ list_any (λ input. is_by input.enabled process) inputs.now }
{
    inputs.iter().any(|input| is_by(input.enabled, process))
}

/// Whether this process has enabled one of the channels.
pub(crate) fn any_channel(channels: &[Option<Channel>], process: u64) -> bool
    ensures { result ≡ list_any (λ cell. elim cell [
      | None ↦ false
      | Some channel ↦ is_by channel.enabled process
    ]) channels.now }
{
    channels.iter().any(|cell| match cell {
        Some(channel) => is_by(channel.enabled, process),
        None => false,
    })
}
