//! What each parameter of a call is passed: it is found once, before any question is asked of it.

ghost use Rattle.std.specs.Prelude.{◌≡◌, ◌≤◌, length, map};
ghost use Rattle.module_format.specs.Contents.{Contents};
ghost use Rattle.states.specs.Spans.{together};
ghost use Rattle.states.specs.Views.{state_of, BelongsTo};
ghost use Rattle.call_rules.specs.Callings.{first_lent, count_lent, summed, passed_to, call_in};

use crate::calling::{Calling, MAX_LENT};
use crate::lent::{Lent, lent_to};
use arrayvec::ArrayVec;
use module_format::{Fact, Parameter, ParameterKind, ProcedureRow};
use rulings::Place;
use states::{State, Together, WordFact};

/// What a parameter is passed.
#[derive(Clone, Copy)]
pub(crate) struct Passed {
    pub parameter: Parameter,
    /// What is known of the word in which it is passed.
    pub fact: WordFact,
    /// What an instruction learns that reads the word.
    pub plain: Fact,
    /// What it is lent.
    pub lent: Option<Lent>,
    /// What is known together of the words of the frame that it is lent: of no words, if it is lent none of the frame.
    pub words: Together,
}

impl Default for Passed {
    /// A word of which nothing is known, for a parameter that is any number.
    fn default() -> Passed {
        Passed {
            parameter: Parameter {
                word: 0,
                kind: ParameterKind::Value {
                    lo: i32::MIN,
                    hi: i32::MAX,
                },
            },
            fact: WordFact::Alone(Fact::Unknown),
            plain: Fact::Unknown,
            lent: None,
            words: Together {
                lo: i32::MAX,
                hi: i32::MIN,
                are_numbers: true,
                are_alone: true,
            },
        }
    }
}

/// Neighbouring words of the frame, and what is known of them together.
#[derive(Clone, Copy)]
pub(crate) struct Summed {
    pub first: i32,
    pub count: u32,
    pub all: Together,
}

/// The first word of the frame that is lent: word 0, if nothing is.
fn first_lent(lent: Option<Lent>) -> i32
    ensures { result ≡ first_lent lent }
{
    match lent {
        Some(lent) => lent.first_word(),
        None => 0,
    }
}

/// How many words of the frame are lent.
fn count_lent(lent: Option<Lent>) -> u32
    ensures { result ≡ count_lent lent }
{
    match lent {
        Some(lent) => lent.frame_words(),
        None => 0,
    }
}

/// What is known together of the words of the frame that are lent, which are summed from now on. If they are the words
/// of the one before, they are not asked again.
fn sums_lent(state: &mut State, before: Summed, lent: Option<Lent>) -> Summed
    requires { before.all ≡ together (state_of state.old).frame before.first before.count }
    ensures state { state_of state.new ≡ state_of state.old }
    ensures belongs { (m : Contents) → BelongsTo m state.old → BelongsTo m state.new }
    ensures value { result ≡ summed (state_of state.old).frame lent }
{
    let (first, count) = (first_lent(lent), count_lent(lent));
    if first == before.first && count == before.count {
        return before;
    }
    state.sum_words(first, count);
    Summed {
        first,
        count,
        all: state.together(first, count),
    }
}

/// What each parameter is passed. The words of the frame that are lent are summed from now on.
pub(crate) fn all_passed(
    place: &Place,
    state: &mut State,
    callee: &ProcedureRow,
) -> ArrayVec<Passed, MAX_LENT>
    requires { length callee.now.parameters.items ≤ 64 }
    ensures state { state_of state.new ≡ state_of state.old }
    ensures belongs { (m : Contents) → BelongsTo m state.old → BelongsTo m state.new }
    ensures passed { let call = call_in place.now.module.now state.old callee.now in
        result.items ≡ map (passed_to call) call.callee.parameters }
{
    let mut all = ArrayVec::new();
    let mut summed = Summed {
        first: 0,
        count: 0,
        all: state.together(0, 0),
    };
    for parameter in &callee.parameters {
        let calling = Calling {
            place: *place,
            state,
            callee,
        };
        let fact = calling.given(parameter);
        let lent = lent_to(parameter.kind, fact);
        summed = sums_lent(state, summed, lent);
        all.push(Passed {
            parameter: *parameter,
            fact,
            plain: fact.plain(),
            lent,
            words: summed.all,
        });
    }
    all
}

/// What each parameter is lent.
pub(crate) fn all_lent(all: &[Passed]) -> ArrayVec<Option<Lent>, MAX_LENT>
    requires { length all.now ≤ 64 }
    ensures { result.items ≡ map (λ x. x.lent) all.now }
{
    let mut lent = ArrayVec::new();
    for passed in all {
        lent.push(passed.lent);
    }
    lent
}
