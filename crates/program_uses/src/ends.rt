//! The ends that a procedure uses of its channels.

ghost use Rattle.std.specs.Prelude.{◌≡◌, IfOk, OnOk, fold, map};
ghost use Rattle.program_uses.specs.Ends.{is_parameter, of_parameters, sorted_ends, pushed_at, with_end};
ghost use Rattle.program_uses.specs.Sets.{members_of};
ghost use Rattle.program_uses.specs.Signatures.{parameter_of, parameters_of};

use crate::signature::{Parameter, Signature};
use crate::uses::{End, Uses};
use std::alloc::{AllocError, Global};
use std::collections::BTreeSet;

/// An end of a channel, with the number of the channel.
#[derive(Clone, Copy, PartialEq, Eq, PartialOrd, Ord)]
pub struct ChannelEnd {
    pub channel: usize,
    pub end: End,
}

/// Whether a channel is one of `count` parameters, the first of which has this number.
fn is_parameter(first: usize, count: usize, channel: usize) -> bool
    ensures { result ≡ is_parameter first count channel }
{
    first <= channel && channel - first < count
}

/// The ends that are used of `count` parameters, the first of which has this number, in rising order: by channel, by
/// element, and an input before an output.
fn sorted_ends(
    alloc: Global,
    uses: &Uses,
    first: usize,
    count: usize,
) -> Result<BTreeSet<ChannelEnd>, AllocError>
    ensures { IfOk result (λ ends. ends.keys ≡ sorted_ends (of_parameters first count (members_of uses.now))) }
{
    let mut ends = BTreeSet::new(alloc);
    let mut rest = uses.ends();
    while let Some(end) = rest.next() {
        if is_parameter(first, count, end.channel) {
            ends.insert(*end)?;
        }
    }
    Ok(ends)
}

/// One end more of the parameter at a place, if there is one.
fn push_end(parameters: &mut Vec<Parameter>, place: usize, end: End) -> Result<(), AllocError>
    ensures { OnOk result (map parameter_of parameters.new.items
        ≡ pushed_at place end (map parameter_of parameters.old.items)) }
{
    if let Some(parameter) = parameters.get_mut(place) {
        parameter.ends.push(end)?;
    }
    Ok(())
}

/// One end more of the parameter whose channel it is of, if that is one of these, the first of which has this number.
fn add_end(
    parameters: &mut Vec<Parameter>,
    first: usize,
    used: ChannelEnd,
) -> Result<(), AllocError>
    ensures { OnOk result (map parameter_of parameters.new.items
        ≡ with_end first (map parameter_of parameters.old.items) used) }
{
    match used.channel.checked_sub(first) {
        Some(place) => push_end(parameters, place, used.end),
        None => Ok(()),
    }
}

/// Ends of the parameters whose channels they are of, the first of which has this number.
fn add_ends(
    parameters: &mut Vec<Parameter>,
    first: usize,
    ends: &BTreeSet<ChannelEnd>,
) -> Result<(), AllocError>
    ensures { OnOk result (map parameter_of parameters.new.items
        ≡ fold (with_end first) (map parameter_of parameters.old.items) ends.now.keys) }
{
    let mut rest = ends.iter();
    while let Some(used) = rest.next() {
        add_end(parameters, first, *used)?;
    }
    Ok(())
}

/// What is known of a procedure: of its formals by their head, and of those that are channels the ends that its body
/// uses. The first formal has this number.
pub fn signed(
    alloc: Global,
    parameters: Vec<Parameter>,
    first: usize,
    used: &Uses,
) -> Result<Signature, AllocError>
    ensures { IfOk result (λ s. parameters_of s
        ≡ fold (with_end first) (map parameter_of parameters.items) (sorted_ends (members_of used.now))) }
{
    let mut parameters = parameters;
    let ends = sorted_ends(alloc, used, first, parameters.len())?;
    add_ends(&mut parameters, first, &ends)?;
    Ok(Signature { parameters })
}
