//! What is left of a holding, and what a branch is given of it.

ghost use Rattle.std.specs.Prelude.{◌≡◌, ◌&&◌, ◌||◌, ◌++◌, ◌+◌, ◌<◌, ◌^◌, not, ℕ, IfOk, filter, length, nat_lt, map};
ghost use Rattle.std.specs.List.{list_all};
ghost use Rattle.module_format.specs.Contents.{contents_of};
ghost use Rattle.machine_state.specs.declared.holding.End.{End as HeldEnd};
ghost use Rattle.machine_state.specs.Covering.{covered};
ghost use Rattle.machine_state.specs.Holding.{may_write, may_read};
ghost use Rattle.machine_state.specs.BranchShares.{holding_of};
ghost use Rattle.machine_state.specs.Spans.{runs, less, is_among_ends, all_pass_within, stretches_over};
ghost use Rattle.machine_state.specs.Stretches.{stretch_view};
ghost use Rattle.machine_state.specs.Views.{holding_view};
ghost use Rattle.machine_state.specs.World.{constants_start};
ghost use Rattle.joins.specs.Sharing.{share_view};

pub(crate) mod end_set;

use crate::given::end_set::EndSet;
use crate::share::Share;
use machine_state::{End, Holding, Span, Stretch, all_lie_in, places_within, without};
use module_format::Tables;
use std::alloc::{AllocError, Global};

/// Both, the first in front.
pub(crate) fn both(alloc: Global, some: &[Span], others: &[Span]) -> Result<Vec<Span>, AllocError>
    ensures { IfOk result (λ v. v.items ≡ some.now ++ others.now) }
{
    let mut spans = Vec::from_slice(alloc, some)?;
    spans.extend_from_slice(others)?;
    Ok(spans)
}

/// The ends but for these. It takes time n log n in both.
fn ends_without(alloc: Global, ends: &[End], taken: &[End]) -> Result<Vec<End>, AllocError>
    ensures { IfOk result (λ v. v.items ≡ filter (λ (end : HeldEnd). not (is_among_ends taken.now end)) ends.now) }
{
    let gone = EndSet::of(alloc, taken)?;
    let mut left = Vec::new(alloc);
    for end in ends {
        if !gone.contains(*end) {
            left.push(*end)?;
        }
    }
    Ok(left)
}

/// What is taken of a holding in a memory of `end` places: some that are written by another one from now on, and some
/// that are read.
#[derive(Clone, Copy)]
struct Taking<'a> {
    end: u32,
    holding: &'a Holding,
    writes: &'a [Span],
    reads: &'a [Span],
}

impl Taking<'_> {
    /// What may still be written.
    fn left_to_write(&self, alloc: Global) -> Result<Vec<Span>, AllocError>
        ensures { let h = holding_view self.now.holding.now in
            let test = λ (p : ℕ). may_write h p && not (covered self.now.writes.now p)
            && not (covered self.now.reads.now p) in
            IfOk result (λ v. v.items ≡ runs test 0 self.now.end) }
    {
        let taken = both(alloc, self.writes, self.reads)?;
        without(alloc, &self.holding.writes, &taken, self.end)
    }

    /// What may still be read only.
    fn left_to_read(&self, alloc: Global) -> Result<Vec<Span>, AllocError>
        ensures { let h = holding_view self.now.holding.now in
            let test = λ (p : ℕ). may_read h p && not (covered self.now.writes.now p)
            && (not (may_write h p) || covered self.now.reads.now p) in
            IfOk result (λ v. v.items ≡ runs test 0 self.now.end) }
    {
        let holding = self.holding;
        let kept = without(alloc, &holding.writes, self.reads, self.end)?;
        let held = both(alloc, &holding.writes, &holding.reads)?;
        let taken = both(alloc, self.writes, &kept)?;
        without(alloc, &held, &taken, self.end)
    }
}

/// What is left of a holding in a memory of `end` places, without a share.
pub(crate) fn less(
    alloc: Global,
    end: u32,
    holding: &Holding,
    share: &Share,
) -> Result<Holding, AllocError>
    ensures { IfOk result (λ left. holding_view left ≡ less end (holding_view holding.now) (share_view share.now)) }
{
    let writes = places_within(alloc, &share.writes, end)?;
    let reads = places_within(alloc, &share.reads, end)?;
    let taking = Taking {
        end,
        holding,
        writes: &writes,
        reads: &reads,
    };
    Ok(Holding {
        writes: taking.left_to_write(alloc)?,
        reads: taking.left_to_read(alloc)?,
        ends: ends_without(alloc, &holding.ends, &share.ends)?,
    })
}

/// Whether all of the stretches lie in a memory of `end` places, where these spans cover each of their places.
fn lie_within(
    alloc: Global,
    end: u32,
    stretches: &[Stretch],
    held: &[Span],
) -> Result<bool, AllocError>
    ensures { IfOk result (λ all. all ≡ list_all (all_pass_within end (covered held.now)) (map stretch_view stretches.now)) }
{
    if !all_lie_in(stretches, end) {
        return Ok(false);
    }
    let places = places_within(alloc, stretches, end)?;
    let missing = without(alloc, &places, held, end)?;
    Ok(missing.is_empty())
}

/// Whether what a share writes may be written, and what it reads may be read.
pub(crate) fn is_held(
    alloc: Global,
    end: u32,
    holding: &Holding,
    share: &Share,
) -> Result<bool, AllocError>
    ensures { let h = holding_view holding.now in
        let s = share_view share.now in
        IfOk result (λ held. held ≡
        (list_all (all_pass_within end (may_write h)) s.writes && list_all (all_pass_within end (may_read h)) s.reads)) }
{
    let writes = lie_within(alloc, end, &share.writes, &holding.writes)?;
    if !writes {
        return Ok(false);
    }
    let readable = both(alloc, &holding.writes, &holding.reads)?;
    let reads = lie_within(alloc, end, &share.reads, &readable)?;
    Ok(reads)
}

/// The place of the first constant.
fn constants_start(tables: &Tables) -> u64
    requires code { length tables.now.code.now < 2 ^ 32 }
    ensures value { result ≡ constants_start (contents_of tables.now) }
    ensures bound { result < 2 ^ 40 }
{
    let words = tables.data_words;
    let code = tables.code.len() as u64;
    4 * u64::from(words) + code + (4 - code % 4) % 4
}

/// Where the constants lie.
fn constants(tables: &Tables) -> Stretch
    requires code { length tables.now.code.now < 2 ^ 32 }
    ensures { (p : ℕ) → let m = contents_of tables.now in
        stretches_over (stretch_view result) p
        ≡ (nat_lt p (constants_start m + length m.constants) && not (nat_lt p (constants_start m))) }
{
    Stretch {
        start: constants_start(tables) as i64,
        size: tables.constants.len() as u64,
    }
}

/// What a new branch holds in a memory of `end` places: its share, and the constants to read.
pub(crate) fn given(
    alloc: Global,
    end: u32,
    tables: &Tables,
    share: &Share,
) -> Result<Holding, AllocError>
    requires code { length tables.now.code.now < 2 ^ 32 }
    ensures { IfOk result (λ h. holding_view h ≡ holding_of (contents_of tables.now) end (share_view share.now)) }
{
    let writes = places_within(alloc, &share.writes, end)?;
    let reads = places_within(alloc, &share.reads, end)?;
    let readable = both(alloc, &reads, &[constants(tables).within(end)])?;
    Ok(Holding {
        writes: without(alloc, &writes, &[], end)?,
        reads: without(alloc, &readable, &writes, end)?,
        ends: Vec::from_slice(alloc, &share.ends)?,
    })
}
