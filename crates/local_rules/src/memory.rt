//! The rules of instructions that make pointers, and of those that read memory through them.

ghost use Rattle.std.specs.Prelude.{◌+ℤ◌, pos, ◌+◌, ℤ};
ghost use Rattle.rulings.specs.Reach.{word_of_byte, words_touched};
ghost use Rattle.module_format.specs.Contents.{Contents};
ghost use Rattle.states.specs.Views.{state_of, BelongsTo};
ghost use Rattle.rulings.specs.Pointers.{byte_read, word_read};
ghost use Rattle.local_rules.specs.MemoryRules.{loads_word, loads_byte, with_fact_a, shifts_pointer, subscripts};
ghost use Rattle.local_rules.specs.MemoryRules.{place_fact, loads_place};
ghost use Rattle.rulings.specs.Rulings.{settles};
ghost use Rattle.rulings.specs.Telling.{Gives, Advances};
ghost use Rattle.rulings.specs.Places.{site_of};

use crate::shifting::{element_of, is_stepped, words_behind, words_further};
use module_format::{Fact, Region, Step};
use rulings::combinators::{alone, outside_starts, uses};
use rulings::pointers::{bounds_of, constant_of, pointer_of};
use rulings::reading::{byte_read, sum_reached};
use rulings::{Continuation, Place};
use states::{Known, Rule, State};

/// A becomes this, outside alternations and starts.
pub(crate) fn with_fact_a(
    place: &Place,
    state: &mut State,
    fact: Fact,
) -> Result<Continuation, Rule>
    ensures ruling { Advances result (state_of state.new)
        (with_fact_a (site_of place.now) fact (state_of state.old)) }
    ensures belongs { (m : Contents) → BelongsTo m state.old → BelongsTo m state.new }
{
    alone(state.mode)?;
    state.stack.a = Known::of(fact);
    place.goes_on(state)
}

/// `ldnlp`: A is shifted by a number of words.
pub(crate) fn load_non_local_pointer(
    place: &Place,
    state: &mut State,
    words: i32,
) -> Result<Continuation, Rule>
    ensures ruling { Advances result (state_of state.new)
        (shifts_pointer (site_of place.now) words (state_of state.old)) }
    ensures belongs { (m : Contents) → BelongsTo m state.old → BelongsTo m state.new }
{
    let fact = uses(state.stack.a)?;
    let fact = words_further(words, fact)?;
    outside_starts(state.mode)?;
    state.stack.a = Known::of(fact);
    place.goes_on(state)
}

/// `bsub` and `wsub`: the byte, or the word, of number B after A.
pub(crate) fn subscript(
    place: &Place,
    state: &mut State,
    element: Step,
) -> Result<Continuation, Rule>
    ensures ruling { Advances result (state_of state.new)
        (subscripts element (site_of place.now) (state_of state.old)) }
    ensures belongs { (m : Contents) → BelongsTo m state.old → BelongsTo m state.new }
{
    let a = uses(state.stack.a)?;
    let b = uses(state.stack.b)?;
    let number = bounds_of(b)?;
    let pointer = pointer_of(a)?;
    let fact = element_of(element, pointer, number)?;
    state.pop();
    with_fact_a(place, state, fact)
}

/// The address of a place at this offset from the first byte of the code: it is one of the code, or of the constants,
/// which begin at a word.
#[tactic(auto, unfolding(rulings::specs::Rulings::settles, crate::specs::MemoryRules::place_fact))]
fn place_fact(place: &Place, offset: i128) -> Result<Fact, Rule>
    ensures { Gives (λ fact. fact) result (settles (place_fact place.now.module.now offset)) }
{
    let tables = place.module.tables();
    let Ok(offset) = u64::try_from(offset) else {
        return Err(Rule::Pointer);
    };
    let code = tables.code.len() as u64;
    if offset < code {
        return Ok(Fact::CodeAddress {
            offset: offset as u32,
        });
    }
    let behind = code + (4 - code % 4) % 4;
    if offset < behind || offset - behind >= tables.constants.len() as u64 {
        return Err(Rule::Pointer);
    }
    let constant = (offset - behind) as i32;
    Ok(Fact::Pointer {
        region: Region::Constants,
        lo: constant,
        hi: constant,
        step: if is_stepped(constant) {
            Step::Word
        } else {
            Step::Byte
        },
    })
}

/// The address of a place at this distance after the instruction.
fn place_behind(place: &Place, distance: i32) -> Result<Fact, Rule>
    ensures { let there = pos (place.now.at + place.now.len) +ℤ distance in
        Gives (λ fact. fact) result (settles (place_fact place.now.module.now there)) }
{
    let next = place.at as i128 + place.len as i128;
    place_fact(place, next + i128::from(distance))
}

/// `ldpi`: the address at this distance after the instruction.
pub(crate) fn load_pointer_to_instruction(
    place: &Place,
    state: &mut State,
) -> Result<Continuation, Rule>
    ensures ruling { Advances result (state_of state.new) (loads_place (site_of place.now) (state_of state.old)) }
    ensures belongs { (m : Contents) → BelongsTo m state.old → BelongsTo m state.new }
{
    let fact = uses(state.stack.a)?;
    let distance = constant_of(fact)?;
    let fact = place_behind(place, distance)?;
    with_fact_a(place, state, fact)
}

/// `ldnl`: the word that is a number of words after A.
pub(crate) fn load_non_local(
    place: &Place,
    state: &mut State,
    words: i32,
) -> Result<Continuation, Rule>
    requires { BelongsTo place.now.module.now state.old }
    ensures ruling { Advances result (state_of state.new)
        (loads_word (site_of place.now) words (state_of state.old)) }
    ensures belongs { BelongsTo place.now.module.now state.new }
{
    let fact = uses(state.stack.a)?;
    let pointer = words_behind(words, pointer_of(fact)?)?;
    place.reads_bytes(state, pointer, 4)?;
    sum_reached(state, pointer, 4);
    let fact = place.word_read(state, pointer);
    with_fact_a(place, state, fact)
}

/// `lb`: the byte at A.
pub(crate) fn load_byte(place: &Place, state: &mut State) -> Result<Continuation, Rule>
    requires { BelongsTo place.now.module.now state.old }
    ensures ruling { Advances result (state_of state.new) (loads_byte (site_of place.now) (state_of state.old)) }
    ensures belongs { BelongsTo place.now.module.now state.new }
{
    let fact = uses(state.stack.a)?;
    let pointer = pointer_of(fact)?;
    place.reads_bytes(state, pointer, 1)?;
    sum_reached(state, pointer, 1);
    let fact = byte_read(state, pointer);
    with_fact_a(place, state, fact)
}
