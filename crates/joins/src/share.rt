//! What a branch is given, by its row.

ghost use Rattle.std.specs.Prelude.{◌≡◌, ◌<◌, ◌^◌, ◌+ℤ◌, ◌-ℤ◌, ◌*ℤ◌, pos, nat_abs, ◌++◌, map, flat_map};
ghost use Rattle.std.specs.Prelude.{option_to_list, IfOk};
ghost use Rattle.std.specs.Option.{option_map};
ghost use Rattle.module_format.specs.Contents.{branch_of};
ghost use Rattle.machine_state.specs.BranchShares.{words_of, address_of, region_of, region_size, end_named, share_of};
ghost use Rattle.machine_state.specs.Memory.{data_start};
ghost use Rattle.machine_state.specs.Stretches.{stretch_view};
ghost use Rattle.joins.specs.Sharing.{share_view};

use machine_state::{DATA_START, End, LINK_WORDS, Stretch, local_address, place_of};
use module_format::{BranchRow, EndKind, EndRow, Interval, Parameter, ParameterKind};
use std::alloc::{AllocError, Global};

/// Where the frame of a PAR lies, and what its parameters point at.
#[derive(Clone, Copy)]
pub(crate) struct Frame<'a> {
    /// The address of frame word 0.
    pub base: u32,
    pub parameters: &'a [Parameter],
    /// The address that the word of each parameter held at the first start, if it is known.
    pub addresses: &'a [Option<u32>],
}

/// What a branch is given: the bytes to write, those only to read, and the ends.
#[derive(Drop)]
pub(crate) struct Share {
    pub writes: Vec<Stretch>,
    pub reads: Vec<Stretch>,
    pub ends: Vec<End>,
}

/// The place of a frame word, in numbers without bound.
fn place_of_word(base: u32, word: i32) -> i64
    ensures { result ≡ pos base -ℤ pos data_start +ℤ pos 4 *ℤ word }
{
    i64::from(base) - i64::from(DATA_START) + 4 * i64::from(word)
}

/// How many words lie between two.
fn distance(words: Interval) -> u64
    ensures value { result ≡ nat_abs (words.hi -ℤ words.lo) }
    ensures bound { result < 2 ^ 33 }
{
    (i64::from(words.hi) - i64::from(words.lo)).unsigned_abs()
}

/// The places of frame words.
fn words_of(base: u32, words: Interval) -> Stretch
    ensures { stretch_view result ≡ words_of base words }
{
    Stretch {
        start: place_of_word(base, words.lo),
        size: 4 * distance(words),
    }
}

/// The address that the word of a parameter held at the first start, if it is known.
fn address_of(addresses: &[Option<u32>], number: usize) -> Option<u32>
    ensures { result ≡ address_of addresses.now number }
{
    *addresses.get(number)?
}

/// How many bytes a parameter of this kind points at.
fn region_size(kind: ParameterKind) -> u32
    ensures { result ≡ region_size kind }
{
    match kind {
        ParameterKind::ReadRegion { size, .. } | ParameterKind::WrittenRegion { size, .. } => size,
        _ => 0,
    }
}

/// The places that a parameter points at, if its address is known.
fn region_of(parameters: &[Parameter], addresses: &[Option<u32>], number: usize) -> Option<Stretch>
    ensures { region_of parameters.now addresses.now number ≡ option_to_list (option_map stretch_view result) }
{
    let address = address_of(addresses, number)?;
    let parameter = parameters.get(number)?;
    Some(Stretch {
        start: i64::from(place_of(address)),
        size: u64::from(region_size(parameter.kind)),
    })
}

/// The end that a row names, if the address of its parameter is known.
fn end_named(base: u32, addresses: &[Option<u32>], end: EndRow) -> Option<End>
    ensures { end_named base addresses.now end ≡ option_to_list result }
{
    let direction = end.direction;
    let address = match end.kind {
        EndKind::FrameWord(word) => local_address(base, word),
        EndKind::Parameter { number, element } => {
            let address = address_of(addresses, number.unsigned_abs() as usize)?;
            address.wrapping_add(element.wrapping_mul(4))
        }
        EndKind::Link(link) => LINK_WORDS + 4 * u32::from(link),
    };
    Some(End { address, direction })
}

fn add_words(stretches: &mut Vec<Stretch>, base: u32, words: &[Interval]) -> Result<(), AllocError>
    ensures { IfOk result (λ _. map stretch_view stretches.new.items
        ≡ map stretch_view stretches.old.items ++ map (words_of base) words.now) }
{
    for interval in words {
        stretches.push(words_of(base, *interval))?;
    }
    Ok(())
}

fn add_regions(
    stretches: &mut Vec<Stretch>,
    parameters: &[Parameter],
    addresses: &[Option<u32>],
    numbers: &[u16],
) -> Result<(), AllocError>
    ensures { IfOk result (λ _. map stretch_view stretches.new.items
        ≡ map stretch_view stretches.old.items ++ flat_map (region_of parameters.now addresses.now) numbers.now) }
{
    for number in numbers {
        if let Some(stretch) = region_of(parameters, addresses, usize::from(*number)) {
            stretches.push(stretch)?;
        }
    }
    Ok(())
}

/// The bytes that words of the frame and regions of parameters have.
fn stretches_of(
    alloc: Global,
    frame: Frame,
    words: &[Interval],
    numbers: &[u16],
) -> Result<Vec<Stretch>, AllocError>
    ensures { IfOk result (λ v. map stretch_view v.items ≡ map (words_of frame.entry.base) words.now
        ++ flat_map (region_of frame.entry.parameters.now frame.entry.addresses.now) numbers.now) }
{
    let mut stretches = Vec::new(alloc);
    add_words(&mut stretches, frame.base, words)?;
    add_regions(&mut stretches, frame.parameters, frame.addresses, numbers)?;
    Ok(stretches)
}

fn ends_of(
    alloc: Global,
    base: u32,
    addresses: &[Option<u32>],
    rows: &[EndRow],
) -> Result<Vec<End>, AllocError>
    ensures { IfOk result (λ v. v.items ≡ flat_map (end_named base addresses.now) rows.now) }
{
    let mut ends = Vec::new(alloc);
    for row in rows {
        if let Some(end) = end_named(base, addresses, *row) {
            ends.push(end)?;
        }
    }
    Ok(ends)
}

/// What a branch is given.
pub(crate) fn share_of(alloc: Global, frame: Frame, branch: &BranchRow) -> Result<Share, AllocError>
    ensures { IfOk result (λ share. share_view share ≡
        share_of frame.entry.base frame.entry.parameters.now frame.entry.addresses.now (branch_of branch.now)) }
{
    Ok(Share {
        writes: stretches_of(alloc, frame, &branch.writes, &branch.written_parameters)?,
        reads: stretches_of(alloc, frame, &branch.reads, &branch.read_parameters)?,
        ends: ends_of(alloc, frame.base, frame.addresses, &branch.ends)?,
    })
}
