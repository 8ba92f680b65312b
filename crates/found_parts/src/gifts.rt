//! What a branch is given that is not there to be given.

ghost use Rattle.std.specs.Prelude.{◌≡◌};
ghost use Rattle.module_format.specs.Contents.{branch_of, par_of};
ghost use Rattle.found_parts.specs.Firsts.{first_of};
ghost use Rattle.found_parts.specs.Gifts.{written_words_fault, read_words_fault, parameter_fault};
ghost use Rattle.found_parts.specs.Gifts.{parameters_fault, given_word, block_word, gifts_fault, hidden_fault};

use crate::asked::{Asked, first_within};
use crate::faults::{StartFault, unless};
use certificate::Module;
use module_format::{BranchRow, ChannelRow, Interval, ParRow};
use rulings::Place;

/// The first word that the branch writes and the context may not write.
fn written_words_fault(module: &Module, context: u32, intervals: &[Interval]) -> Option<StartFault>
    ensures { result ≡ written_words_fault «module».now context intervals.now }
{
    let word = first_within(&Asked::Written { module, context }, intervals)?;
    Some(StartFault::Unwritable { word })
}

/// The first word that the branch reads and the context may not read.
fn read_words_fault(module: &Module, context: u32, intervals: &[Interval]) -> Option<StartFault>
    ensures { result ≡ read_words_fault «module».now context intervals.now }
{
    let word = first_within(&Asked::Read { module, context }, intervals)?;
    Some(StartFault::Unreadable { word })
}

/// A parameter, if the context may not use what it names: write it, or read it.
fn parameter_fault(
    place: &Place,
    context: u32,
    is_written: bool,
    parameter: u16,
) -> Option<StartFault>
    ensures { result ≡ parameter_fault is_written place.now.module.now context parameter }
{
    let number = i32::from(parameter);
    if is_written {
        let bytes = place.writable_bytes(context, parameter);
        return unless(bytes.is_some(), StartFault::UnwritableParameter { number });
    }
    let bytes = place.readable_bytes(context, parameter);
    unless(bytes.is_some(), StartFault::UnreadableParameter { number })
}

/// The first of some parameters of which this is so.
fn first_fault(
    place: &Place,
    context: u32,
    is_written: bool,
    parameters: &[u16],
) -> Option<StartFault>
    ensures { result ≡ first_of (parameter_fault is_written place.now.module.now context) parameters.now }
{
    for parameter in parameters {
        let fault = parameter_fault(place, context, is_written, *parameter);
        if fault.is_some() {
            return fault;
        }
    }
    None
}

/// The first parameter that the branch uses otherwise than the context may.
fn parameters_fault(module: &Module, context: u32, branch: &BranchRow) -> Option<StartFault>
    ensures { result ≡ parameters_fault «module».now context (branch_of branch.now) }
{
    let place = Place {
        module,
        at: 0,
        len: 0,
    };
    let written = first_fault(&place, context, true, &branch.written_parameters);
    written.or(first_fault(&place, context, false, &branch.read_parameters))
}

/// The first word or parameter that the branch uses otherwise than the context may that starts it.
pub(crate) fn gifts_fault(module: &Module, context: u32, branch: &BranchRow) -> Option<StartFault>
    ensures { result ≡ gifts_fault «module».now context (branch_of branch.now) }
{
    let written = written_words_fault(module, context, &branch.writes);
    let read = read_words_fault(module, context, &branch.reads);
    written
        .or(read)
        .or(parameters_fault(module, context, branch))
}

/// A word, if a context may read it.
fn given_word(module: &Module, context: u32, word: i64) -> Option<StartFault>
    ensures { result ≡ given_word «module».now context word }
{
    if module.may_read_word(context, word) {
        return Some(StartFault::Given { word });
    }
    None
}

/// The first word of the block of a PAR that a context may read.
fn block_word(module: &Module, context: u32, par: &ParRow) -> Option<StartFault>
    ensures { result ≡ block_word «module».now context (par_of par.now) }
{
    let first = i64::from(par.block);
    given_word(module, context, first).or(given_word(module, context, first + 1))
}

/// The word of a channel, if a context may read it.
fn given_channel(module: &Module, context: u32, channel: &ChannelRow) -> Option<StartFault>
    ensures { result ≡ given_word «module».now context channel.now.word }
{
    given_word(module, context, i64::from(channel.word))
}

/// The first word of channels that a context may read.
fn channel_word(module: &Module, context: u32, channels: &[ChannelRow]) -> Option<StartFault>
    ensures { result ≡ first_of (λ c. given_word «module».now context c.word) channels.now }
{
    for channel in channels {
        let fault = given_channel(module, context, channel);
        if fault.is_some() {
            return fault;
        }
    }
    None
}

/// The first word of the block of a PAR, or of a channel of it, that a context may read.
pub(crate) fn hidden_fault(module: &Module, context: u32, par: &ParRow) -> Option<StartFault>
    ensures { result ≡ hidden_fault «module».now context (par_of par.now) }
{
    block_word(module, context, par).or(channel_word(module, context, &par.channels))
}
