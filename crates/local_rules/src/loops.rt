//! The rule of `lend`, which ends a turn of a loop.

ghost use Rattle.std.specs.Prelude.{◌≡◌, ◌<◌, ◌+◌, ◌+ℤ◌, pos, FitsSigned, Some, IfSome, IsTrue};
ghost use Rattle.std.specs.Int.{w32};
ghost use Rattle.module_format.specs.Contents.{Contents, label_of, label_at};
ghost use Rattle.states.specs.Below.{below_at};
ghost use Rattle.states.specs.Rows.{AreApart};
ghost use Rattle.states.specs.Views.{state_of, CanWrite, BelongsTo};
ghost use Rattle.local_rules.specs.LoopRules.{after_loop, begins_at, is_beside_workspace, last_index, loop_block};
ghost use Rattle.local_rules.specs.LoopRules.{word_pointed, Permits, block_at, block_of, beginning, turns, OwnsBlock};
ghost use Rattle.local_rules.specs.LoopRules.{begins_of, MayGoOn};
ghost use Rattle.std.specs.Option.{option_map};
ghost use Rattle.module_format.specs.Keeping.{Keeps};
ghost use Rattle.machine_state.specs.declared.op.Op.TheVariants.{LoopEnd};
ghost use Rattle.local_rules.specs.LocalRules.{local_operation_rule};
ghost use Rattle.rulings.specs.Telling.{Advances};
ghost use Rattle.rulings.specs.Places.{site_of};

use module_format::{Fact, LabelRow, Region, Stack};
use rulings::combinators::{outside_alternation, outside_starts, uses};
use rulings::{Continuation, Place};
use states::{Known, Loop, Rule, State, WordFact, compare, cost_at, label_rows_are_sound};

/// The block of a loop: two words of the frame, its index and, after it, its count.
#[derive(Clone, Copy)]
pub struct Block {
    /// The word that has the index.
    pub word: i32,
    /// The loop.
    pub turning: Loop,
    /// Its last index.
    pub last: i32,
}

/// The word of the frame that a pointer leads to, if that is known exactly.
#[tactic(auto, unfolding(crate::specs::LoopRules::word_pointed))]
fn word_pointed(fact: Fact) -> Option<i32>
    ensures { result ≡ word_pointed fact }
{
    match fact {
        Fact::Pointer {
            region: Region::Frame,
            lo,
            hi,
            ..
        } if lo == hi && lo % 4 == 0 => Some(lo >> 2),
        _ => None,
    }
}

/// The last index of a loop, if it is a word.
#[tactic(auto, unfolding(crate::specs::LoopRules::last_index))]
fn last_index(turning: Loop) -> Option<i32>
    ensures { result ≡ last_index turning }
{
    let last = i64::from(turning.base) + i64::from(turning.count) - 1;
    i32::try_from(last).ok()
}

/// The block that begins at a word, if that word is the index of a loop and the next one its count.
#[tactic(auto, unfolding(crate::specs::LoopRules::loop_block))]
fn loop_block(word: i32, first: WordFact, second: WordFact) -> Option<Block>
    ensures { result ≡ loop_block word first second }
{
    match (first, second) {
        (WordFact::Index(turning), WordFact::Count(other)) if turning == other => Some(Block {
            word,
            turning,
            last: last_index(turning)?,
        }),
        _ => None,
    }
}

/// Whether a word of the frame and the next one are none of the three below the workspace.
fn is_beside_workspace(depth: i32, word: i32) -> bool
    ensures { result ≡ is_beside_workspace depth word }
{
    depth <= word || i64::from(word) + 4 < i64::from(depth)
}

/// What it would cost the state to go on at the label of an offset if it might pay this number, as `cost_at` says and
/// remembers it.
fn cost_with(place: &Place, state: &mut State, number: u64, to: u32) -> Result<u64, Rule>
    requires { BelongsTo place.now.module.now state.old }
    ensures cost { result
        ≡ below_at place.now.module.now to (record (state_of state.old) { number = number }) }
    ensures state { state_of state.new ≡ state_of state.old }
    ensures belongs { BelongsTo place.now.module.now state.new }
{
    let own = state.number;
    state.number = number;
    let cost = cost_at(state, to);
    state.number = own;
    cost
}

/// Whether the state may go on at the label of an offset with this number to pay from, or with as much of it as 64 bits
/// hold. What is remembered tells so from the second time on.
fn may_go_on(place: &Place, state: &mut State, number: u128, to: u32) -> bool
    requires { BelongsTo place.now.module.now state.old }
    ensures yes { IsTrue result → MayGoOn place.now.module.now to number (state_of state.old) }
    ensures state { state_of state.new ≡ state_of state.old }
    ensures belongs { BelongsTo place.now.module.now state.new }
{
    let most = number.min(u128::from(u64::MAX)) as u64;
    cost_with(place, state, most, to).is_ok()
}

/// What the state may pay for a turn of the loop: its number, and the loop's weight besides.
fn with_weight(state: &State, block: Block) -> u128
    ensures { result ≡ (state_of state.now).number + block.turning.weight }
{
    u128::from(state.number) + u128::from(block.turning.weight)
}

/// Whether the loop, which has more than one turn, may turn, as the label's row tells: its weight pays for the turn that
/// begins.
#[tactic(auto, unfolding(crate::specs::LoopRules::turns))]
fn pays_turn(state: &State, block: Block, to: u32, row: &LabelRow) -> Result<bool, Rule>
    requires some { 1 < block.turning.count }
    requires apart { AreApart row.now.entries.items }
    ensures { Permits result block (begins_at to (label_of row.now)) (state_of state.now) }
{
    compare(with_weight(state, block), state, row)?;
    Ok(true)
}

/// Whether the loop may turn: it has more than one turn, and its weight pays for the one that begins.
#[tactic(auto, unfolding(crate::specs::LoopRules::turns))]
fn may_turn(
    place: &Place,
    state: &mut State,
    block: Block,
    to: u32,
    row: &LabelRow,
) -> Result<bool, Rule>
    requires belongs { BelongsTo place.now.module.now state.old }
    requires label { label_at place.now.module.now to ≡ Some (label_of row.now) }
    requires apart { AreApart row.now.entries.items }
    ensures permits { Permits result block (begins_at to (label_of row.now)) (state_of state.old) }
    ensures state { state_of state.new ≡ state_of state.old }
    ensures belongs { BelongsTo place.now.module.now state.new }
{
    if block.turning.count < 2 {
        return Ok(false);
    }
    if may_go_on(place, state, with_weight(state, block), to) {
        return Ok(true);
    }
    pays_turn(state, block, to, row)
}

/// The loop is over.
fn leave(state: &mut State, block: Block)
    requires first { CanWrite state.old block.word }
    requires second { CanWrite state.old (block.word +ℤ pos 1) }
    requires fits { FitsSigned w32 (block.word +ℤ pos 1) }
    ensures state { state_of state.new ≡ after_loop block (state_of state.old) }
    ensures belongs { (m : Contents) → BelongsTo m state.old → BelongsTo m state.new }
{
    let Block { word, last, .. } = block;
    state.write(word + 1, Fact::Number { lo: 0, hi: 0 });
    state.write(word, Fact::Number { lo: last, hi: last });
}

/// The block at a word, if the context may write its words and scheduling does not take them.
#[tactic(auto, unfolding(crate::specs::LoopRules::block_at, crate::specs::LoopRules::provided))]
fn block_at(place: &Place, state: &State, word: i32) -> Option<Block>
    requires { BelongsTo place.now.module.now state.now }
    ensures block { result ≡ block_at (site_of place.now) (state_of state.now) word }
    ensures own { IfSome result (OwnsBlock place.now.module.now) }
{
    let first = state.writable_word(i64::from(word))?;
    let second = state.writable_word(i64::from(word) + 1)?;
    if !is_beside_workspace(state.depth, word) {
        return None;
    }
    loop_block(word, state.fact_at(first), state.fact_at(second))
}

/// The block to which a pointer leads.
fn block_of(place: &Place, state: &State, fact: Fact) -> Option<Block>
    requires { BelongsTo place.now.module.now state.now }
    ensures block { result ≡ block_of (site_of place.now) (state_of state.now) fact }
    ensures own { IfSome result (OwnsBlock place.now.module.now) }
{
    block_at(place, state, word_pointed(fact)?)
}

/// The label where a turn begins, with its code offset: this far back from the next instruction.
#[tactic(auto, unfolding(crate::specs::LoopRules::beginning))]
fn beginning<'p>(place: &'p Place, distance: Fact) -> Option<(u32, &'p LabelRow)>
    requires { Keeps place.now.module.now }
    ensures found { option_map begins_of result ≡ beginning (site_of place.now) distance }
    ensures label { IfSome result
        (λ found. label_at place.now.module.now found.0 ≡ Some (label_of found.1.now)) }
    ensures apart { IfSome result (λ found. AreApart found.1.now.entries.items) }
{
    let Fact::Number { lo, hi } = distance else {
        return None;
    };
    if lo != hi || lo < 1 {
        return None;
    }
    let to = place.target(-lo);
    if to as usize > place.at {
        return None;
    }
    label_rows_are_sound();
    Some((to, place.module.label_at(to)?))
}

/// The loop ends, or it turns.
fn turns(
    place: &Place,
    state: &mut State,
    block: Block,
    to: u32,
    row: &LabelRow,
) -> Result<Continuation, Rule>
    requires belongs { BelongsTo place.now.module.now state.old }
    requires own { OwnsBlock place.now.module.now block }
    requires label { label_at place.now.module.now to ≡ Some (label_of row.now) }
    requires apart { AreApart row.now.entries.items }
    ensures ruling { let begins = begins_at to (label_of row.now) in
        Advances result (state_of state.new) (turns block begins (state_of state.old)) }
    ensures belongs { BelongsTo place.now.module.now state.new }
{
    let may_turn = may_turn(place, state, block, to, row)?;
    leave(state, block);
    Ok(if may_turn {
        Continuation::FallsOrLeads { to }
    } else {
        Continuation::Falls
    })
}

#[tactic(auto, unfolding(crate::specs::LocalRules::local_operation_rule, crate::specs::LoopRules::finds))]
pub(crate) fn end_turn(place: &Place, state: &mut State) -> Result<Continuation, Rule>
    requires { BelongsTo place.now.module.now state.old }
    ensures ruling { let ruling = local_operation_rule (site_of place.now) LoopEnd (state_of state.old) in
        Advances result (state_of state.new) ruling }
    ensures belongs { BelongsTo place.now.module.now state.new }
{
    let distance = uses(state.stack.a)?;
    let block = uses(state.stack.b)?;
    outside_alternation(state.mode)?;
    let (to, row) = beginning(place, distance).ok_or(Rule::Forward)?;
    let block = block_of(place, state, block).ok_or(Rule::Forward)?;
    outside_starts(state.mode)?;
    place.schedules(state)?;
    place.pays(state)?;
    state.stack = Stack::of_empty(Known::UNKNOWN);
    turns(place, state, block, to, row)
}
