//! What may be wrong with a start.
#![tactic(auto, using(crate::proofs::Mapped::all_of_mapped))]

ghost use Rattle.std.specs.Prelude.{◌≡◌, ◌&&◌, ◌+◌, ◌*◌, ◌%◌, ◌^◌, ◌++◌, ℕ, ℤ, Option, [], true, pos, length};
ghost use Rattle.std.specs.Prelude.{IfOk};
ghost use Rattle.std.specs.List.{list_all, list_any};
ghost use Rattle.std.specs.Int.{w32, cast_signed};
ghost use Rattle.word_arithmetic.specs.Word.{least_word};
ghost use Rattle.module_format.specs.declared.rows.ChannelRow.{ChannelRow as Row};
ghost use Rattle.machine_state.specs.declared.spans.Stretch.{Stretch as Kept};
ghost use Rattle.machine_state.specs.Stretches.{stretch_view};
ghost use Rattle.module_format.specs.Contents.{contents_of};
ghost use Rattle.machine_state.specs.Holding.{may_write, may_read_word, may_write_word};
ghost use Rattle.machine_state.specs.StartPlans.{scheduling_places, word_passes, block_addresses, channel_addresses};
ghost use Rattle.machine_state.specs.StartPlans.{word_is_defined, holds_word, is_prepared, is_next};
ghost use Rattle.machine_state.specs.BranchShares.{frame_address};
ghost use Rattle.machine_state.specs.Memory.{place_of, data_start};
ghost use Rattle.machine_state.specs.Spans.{is_among_ends, differ, writes_place, stretches_over};
ghost use Rattle.machine_state.specs.Views.{holding_view};
ghost use Rattle.module_format.specs.Contents.{par_of};
ghost use Rattle.joins.specs.Finding.{found_view};
ghost use Rattle.joins.specs.Planning.{plan_view};
ghost use Rattle.joins.specs.Sharing.{share_view};

use crate::found::Found;
use crate::given::end_set::EndSet;
use crate::plan::Plan;
use crate::share::Share;
use machine_state::{DATA_START, End, Holding, Stretch, TaggedStore, local_address, place_of};
use module_format::{BranchRow, ChannelRow, ParRow, Tables};
use std::alloc::{AllocError, Global};

/// Whether no end occurs twice. It takes time n log n.
fn differ(alloc: Global, ends: &[End]) -> Result<bool, AllocError>
    ensures { IfOk result (λ all. all ≡ differ ends.now) }
{
    let mut seen = EndSet::new(alloc);
    for end in ends {
        if !seen.insert(*end)? {
            return Ok(false);
        }
    }
    Ok(true)
}

/// Whether all wanted ends are among these. It takes time n log n in both.
fn are_listed(alloc: Global, ends: &[End], wanted: &[End]) -> Result<bool, AllocError>
    ensures { IfOk result (λ all. all ≡ list_all (is_among_ends ends.now) wanted.now) }
{
    let held = EndSet::of(alloc, ends)?;
    Ok(wanted.iter().all(|end| held.contains(*end)))
}

/// Whether all wanted ends are among these, each once. It takes time n log n in both.
pub(crate) fn ends_are_there(
    alloc: Global,
    ends: &[End],
    wanted: &[End],
) -> Result<bool, AllocError>
    ensures { IfOk result (λ there. there ≡ (list_all (is_among_ends ends.now) wanted.now && differ wanted.now)) }
{
    if !are_listed(alloc, ends, wanted)? {
        return Ok(false);
    }
    differ(alloc, wanted)
}

/// Whether the words that scheduling takes below a workspace may all be written.
#[tactic(auto, unfolding(machine_state::specs::Holding::may_write_word))]
pub(crate) fn may_schedule(holding: &Holding, workspace: u32) -> bool
    ensures { result ≡ list_all (word_passes (may_write (holding_view holding.now))) (scheduling_places workspace) }
{
    holding.may_write_word(place_of(local_address(workspace, -1)))
        && holding.may_write_word(place_of(local_address(workspace, -2)))
        && holding.may_write_word(place_of(local_address(workspace, -3)))
}

/// Whether a place is among some stretches.
fn any_covers(stretches: &[Stretch], place: u64) -> bool
    ensures { result ≡ list_any (λ (s : Kept). stretches_over (stretch_view s) place) stretches.now }
{
    stretches.iter().any(|stretch| stretch.covers(place))
}

/// Whether a place is among those that a share writes.
#[tactic(auto, using(crate::proofs::Mapped::any_of_mapped))]
fn writes_place(share: &Share, place: u64) -> bool
    ensures { result ≡ writes_place (share_view share.now) place }
{
    any_covers(&share.writes, place)
}

/// Whether a place is there, and among those that a share writes.
fn is_own(rest: &Holding, share: &Share, place: u64) -> bool
    ensures { result ≡ (may_write (holding_view rest.now) place && writes_place (share_view share.now) place) }
{
    rest.may_write(place) && writes_place(share, place)
}

/// The same of all four bytes of a word.
fn is_own_word(rest: &Holding, share: &Share, place: u32) -> bool
    ensures { let h = holding_view rest.now in
        let s = share_view share.now in
        result ≡ word_passes (λ (p : ℕ). may_write h p && writes_place s p) place }
{
    let place = u64::from(place);
    is_own(rest, share, place)
        && is_own(rest, share, place + 1)
        && is_own(rest, share, place + 2)
        && is_own(rest, share, place + 3)
}

/// Whether the words that scheduling takes below a workspace are there, and among those that a share writes.
pub(crate) fn scheduling_is_own(rest: &Holding, share: &Share, workspace: u32) -> bool
    ensures { let h = holding_view rest.now in
        let s = share_view share.now in
        result ≡ list_all (word_passes (λ (p : ℕ). may_write h p && writes_place s p)) (scheduling_places workspace) }
{
    is_own_word(rest, share, place_of(local_address(workspace, -1)))
        && is_own_word(rest, share, place_of(local_address(workspace, -2)))
        && is_own_word(rest, share, place_of(local_address(workspace, -3)))
}

/// Whether the words of the channels of a PAR may be written.
fn may_take(holding: &Holding, base: u32, channels: &[ChannelRow]) -> bool
    ensures { let h = holding_view holding.now in
        result ≡ list_all (λ (c : Row). may_write_word h (place_of (frame_address base c.word))) channels.now }
{
    channels.iter().all(|c| holding.may_write_word(place_of(local_address(base, c.word))))
}

/// Whether the words of the block and of the channels of a PAR may be written.
pub(crate) fn may_open(holding: &Holding, base: u32, par: &ParRow) -> bool
    ensures { let h = holding_view holding.now in
        let p = par_of par.now in
        result ≡ list_all (λ a. may_write_word h (place_of a)) (block_addresses base p ++ channel_addresses base p) }
{
    let block = local_address(base, par.block);
    holding.may_write_word(place_of(block))
        && holding.may_write_word(place_of(local_address(block, 1)))
        && may_take(holding, base, &par.channels)
}

/// Whether the words of the parameters that a row names may be read.
pub(crate) fn may_read_named(holding: &Holding, base: u32, words: &[Option<i32>]) -> bool
    ensures { let h = holding_view holding.now in
        result ≡ list_all (λ (named : Option ℤ). elim named [
          | None ↦ true
          | Some word ↦ may_read_word h (place_of (frame_address base word))
        ]) words.now }
{
    words.iter().all(|named| match named {
        None => true,
        Some(word) => holding.may_read_word(place_of(local_address(base, *word))),
    })
}

/// Whether the words of the channels of a PAR are defined.
fn are_defined(store: &TaggedStore, base: u32, channels: &[ChannelRow]) -> bool
    ensures { result ≡
        list_all (λ (c : Row). word_is_defined store.now.cells (frame_address base c.word)) channels.now }
{
    channels
        .iter()
        .all(|c| store.word(local_address(base, c.word)).is_some())
}

/// Whether the words of the block and of the channels of a PAR are defined.
pub(crate) fn is_defined(store: &TaggedStore, base: u32, par: &ParRow) -> bool
    ensures { let p = par_of par.now in
        result ≡ list_all (word_is_defined store.now.cells) (block_addresses base p ++ channel_addresses base p) }
{
    let block = local_address(base, par.block);
    store.word(block).is_some()
        && store.word(local_address(block, 1)).is_some()
        && are_defined(store, base, &par.channels)
}

/// Whether the words of the parameters that a row names are defined.
pub(crate) fn named_are_defined(store: &TaggedStore, base: u32, words: &[Option<i32>]) -> bool
    ensures { result ≡ list_all (λ (named : Option ℤ). elim named [
      | None ↦ true
      | Some word ↦ word_is_defined store.now.cells (frame_address base word)
    ]) words.now }
{
    words.iter().all(|named| match named {
        None => true,
        Some(word) => store.word(local_address(base, *word)).is_some(),
    })
}

/// Whether the word at an address is this.
fn holds_word(store: &TaggedStore, address: u32, value: i32) -> bool
    ensures { result ≡ holds_word store.now.cells address value }
{
    match store.word(address) {
        None => false,
        Some(word) => word.cast_unsigned() == value.cast_unsigned(),
    }
}

/// Whether the word at an address is one more than the number of branches.
fn counts(store: &TaggedStore, address: u32, branches: &[BranchRow]) -> bool
    ensures { result ≡ holds_word store.now.cells address (pos (length branches.now + 1)) }
{
    match store.word(address) {
        None => false,
        Some(word) => word.cast_unsigned() as usize == branches.len() + 1,
    }
}

/// Whether the channels of a PAR are empty.
fn are_empty(store: &TaggedStore, base: u32, channels: &[ChannelRow]) -> bool
    ensures { result ≡
        list_all (λ (c : Row). holds_word store.now.cells (frame_address base c.word) least_word) channels.now }
{
    channels.iter().all(|c| holds_word(store, local_address(base, c.word), i32::MIN))
}

/// The address of a code offset.
fn address_of(tables: &Tables, offset: u32) -> u32
    ensures { result ≡ (data_start + 4 * tables.now.data_words + offset) % 2 ^ 32 }
{
    let code_start = DATA_START.wrapping_add(tables.data_words.wrapping_mul(4));
    code_start.wrapping_add(offset)
}

/// Whether the word at the block has the address of a code offset.
fn points_at(store: &TaggedStore, tables: &Tables, block: u32, offset: u32) -> bool
    ensures { let code_start = data_start + 4 * tables.now.data_words in
        result ≡ holds_word store.now.cells block (cast_signed w32 ((code_start + offset) % 2 ^ 32)) }
{
    holds_word(store, block, address_of(tables, offset).cast_signed())
}

/// Whether the channels of a PAR are empty, by their addresses.
fn channels_are_empty(store: &TaggedStore, base: u32, par: &ParRow) -> bool
    ensures { let addresses = channel_addresses base (par_of par.now) in
        result ≡ list_all (λ a. holds_word store.now.cells a least_word) addresses }
{
    are_empty(store, base, &par.channels)
}

/// Whether the block has the address of the successor and one more than the number of branches, and the channels are
/// empty.
pub(crate) fn is_prepared(store: &TaggedStore, tables: &Tables, plan: Plan) -> bool
    ensures { result ≡ is_prepared (contents_of tables.now) store.now.cells (plan_view [] plan.entry) }
{
    let block = local_address(plan.frame.base, plan.par.block);
    if !points_at(store, tables, block, plan.par.successor) {
        return false;
    }
    if !counts(store, local_address(block, 1), &plan.par.branches) {
        return false;
    }
    channels_are_empty(store, plan.frame.base, plan.par)
}

/// Whether the branch is the next, and its workspace is where the row says.
pub(crate) fn is_next(plan: Plan, found: Found, workspace: u32) -> bool
    ensures { result ≡ is_next (plan_view [] plan.entry) (found_view found.entry) workspace }
{
    found.number == plan.started as usize
        && workspace == local_address(plan.frame.base, found.branch.workspace)
}
