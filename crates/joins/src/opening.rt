//! What the first start of a PAR finds out, which the later ones go by too.

ghost use Rattle.std.specs.Prelude.{◌≡◌, ◌∷◌, ◌++◌, IfOk, map, length, pos};
ghost use Rattle.module_format.specs.Contents.{par_of};
ghost use Rattle.module_format.specs.declared.rows.ChannelRow.{ChannelRow as Row};
ghost use Rattle.machine_state.specs.StartPlans.{hidden, with_ends};
ghost use Rattle.machine_state.specs.BranchShares.{frame_address};
ghost use Rattle.joins.specs.Opened.{IsOpening, opened_rest, word_stretch};
ghost use Rattle.machine_state.specs.Views.{holding_view};
ghost use Rattle.joins.specs.Sharing.{share_view};

use crate::given::end_set::EndSet;
use crate::given::less;
use crate::plan::{addresses, frame_base, named};
use crate::share::Share;
use machine_state::{End, Holding, Stretch, TaggedStore, local_address, place_of};
use module_format::{ChannelRow, Direction, ParRow, Parameter};
use std::alloc::{AllocError, Global};

/// What the first start of a PAR finds out.
#[derive(Drop)]
pub(crate) struct Opening {
    /// The address of frame word 0.
    pub base: u32,
    /// The words of the parameters that the row names.
    pub words: Vec<Option<i32>>,
    /// What they hold, where they may be read.
    pub addresses: Vec<Option<u32>>,
    /// What the branches can be given: what is held, with the ends of the PAR's channels, and without the words of
    /// these and of the block.
    pub rest: Holding,
}

/// The places of the word at an address.
fn word_places(address: u32) -> Stretch
    ensures { result ≡ word_stretch address }
{
    Stretch {
        start: i64::from(place_of(address)),
        size: 4,
    }
}

/// The places of the words of the block and the channels.
fn hidden_places(alloc: Global, base: u32, par: &ParRow) -> Result<Vec<Stretch>, AllocError>
    ensures { let block = frame_address base par.now.block in
        IfOk result (λ v. v.items ≡ word_stretch block ∷ word_stretch (frame_address block (pos 1))
        ∷ map (λ (c : Row). word_stretch (frame_address base c.word)) par.now.channels.items) }
{
    let block = local_address(base, par.block);
    let mut places = Vec::new(alloc);
    places.push(word_places(block))?;
    places.push(word_places(local_address(block, 1)))?;
    add_channels(&mut places, base, &par.channels)?;
    Ok(places)
}

/// The words that no branch has: those of the block and the channels.
fn hidden(alloc: Global, base: u32, par: &ParRow) -> Result<Share, AllocError>
    ensures { IfOk result (λ share. share_view share ≡ hidden base (par_of par.now)) }
{
    let writes = hidden_places(alloc, base, par)?;
    Ok(Share {
        writes,
        reads: Vec::new(alloc),
        ends: Vec::new(alloc),
    })
}

fn add_channels(
    writes: &mut Vec<Stretch>,
    base: u32,
    channels: &[ChannelRow],
) -> Result<(), AllocError>
    ensures { let words = map (λ (c : Row). word_stretch (frame_address base c.word)) channels.now in
        IfOk result (λ _. writes.new.items ≡ writes.old.items ++ words) }
{
    for channel in channels {
        writes.push(word_places(local_address(base, channel.word)))?;
    }
    Ok(())
}

/// Both ends of each channel, each once. It takes time n log n in the ends and the channels.
fn add_ends(
    alloc: Global,
    ends: &mut Vec<End>,
    base: u32,
    channels: &[ChannelRow],
) -> Result<(), AllocError>
    ensures { let addresses = map (λ (c : Row). frame_address base c.word) channels.now in
        IfOk result (λ _. ends.new.items ≡ with_ends addresses ends.old.items) }
{
    let mut held = EndSet::of(alloc, ends)?;
    for channel in channels {
        let address = local_address(base, channel.word);
        let input = End {
            address,
            direction: Direction::In,
        };
        let output = End {
            address,
            direction: Direction::Out,
        };
        if held.insert(input)? {
            ends.push(input)?;
            ends.push(output)?;
        }
    }
    Ok(())
}

/// What the branches of a PAR can be given of a holding.
fn rest(
    alloc: Global,
    store: &TaggedStore,
    holding: &Holding,
    base: u32,
    par: &ParRow,
) -> Result<Holding, AllocError>
    ensures { let p = par_of par.now in
        IfOk result (λ h. holding_view h ≡ opened_rest (length store.now.cells) (holding_view holding.now) base p) }
{
    let hidden = hidden(alloc, base, par)?;
    let mut rest = less(alloc, store.size(), holding, &hidden)?;
    add_ends(alloc, &mut rest.ends, base, &par.channels)?;
    Ok(rest)
}

/// What the first start of a PAR finds out, where the process has this workspace and holds this.
pub(crate) fn prepare(
    alloc: Global,
    store: &TaggedStore,
    holding: &Holding,
    workspace: u32,
    par: &ParRow,
    parameters: &[Parameter],
) -> Result<Opening, AllocError>
    ensures { let h = holding_view holding.now in
        IfOk result (IsOpening store.now.cells h workspace (par_of par.now) parameters.now) }
{
    let base = frame_base(workspace, par.depth);
    let words = named(alloc, par, parameters)?;
    let addresses = addresses(alloc, store, holding, base, &words)?;
    let rest = rest(alloc, store, holding, base, par)?;
    Ok(Opening {
        base,
        words,
        addresses,
        rest,
    })
}
