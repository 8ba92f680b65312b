//! What a PAR wants at its first start that is not so.

ghost use Rattle.std.specs.Prelude.{◌≡◌, length, map};
ghost use Rattle.module_format.specs.Contents.{branch_of, par_of};
ghost use Rattle.module_format.specs.Contexts.{parameters_at};
ghost use Rattle.states.specs.Below.{holds_constant};
ghost use Rattle.states.specs.Views.{state_of};
ghost use Rattle.par_rules.specs.Openings.{is_code_address, is_start_of};
ghost use Rattle.found_parts.specs.Firsts.{first_of};
ghost use Rattle.found_parts.specs.Openings.{is_wanted, unlike, unwritable, unreadable, prepared, block_fault, count_wanted};
ghost use Rattle.found_parts.specs.Openings.{channel_fault, parameter_word, given_fault, end_fault};
ghost use Rattle.found_parts.specs.Openings.{listed_fault, named_fault, opening_fault};

use crate::faults::{StartFault, Wanted, unless};
use certificate::Module;
use module_format::{BranchRow, ChannelRow, EndKind, EndRow, Fact, ParRow, Region, Step};
use states::{State, WordFact};

/// Whether a word has this number, which is no loop's.
fn holds_constant(fact: WordFact, number: i128) -> bool
    ensures { result ≡ holds_constant fact number }
{
    match fact {
        WordFact::Alone(Fact::Number { lo, hi }) => {
            i128::from(lo) == number && i128::from(hi) == number
        }
        _ => false,
    }
}

/// Whether a word is the address of this code offset.
fn is_code_address(fact: WordFact, to: u32) -> bool
    ensures { result ≡ is_code_address fact to }
{
    match fact {
        WordFact::Alone(Fact::CodeAddress { offset }) => offset == to,
        _ => false,
    }
}

/// Whether a word is the address of the first byte of what a parameter names.
fn is_start_of(parameter: usize, fact: WordFact) -> bool
    ensures { result ≡ is_start_of parameter fact }
{
    match fact {
        WordFact::Alone(
            Fact::Pointer {
                region: Region::Parameter(number),
                lo,
                hi,
                step: Step::Word,
            },
        ) => usize::from(number) == parameter && lo == 0 && hi == 0,
        _ => false,
    }
}

/// Whether a word is what is wanted.
fn is_wanted(wanted: Wanted, fact: WordFact) -> bool
    ensures { result ≡ is_wanted wanted fact }
{
    match wanted {
        Wanted::Code { offset } => is_code_address(fact, offset),
        Wanted::Number { number } => holds_constant(fact, number),
        Wanted::Parameter { number } => {
            number >= 0 && is_start_of(number.unsigned_abs() as usize, fact)
        }
    }
}

/// A word, if it is not what is wanted.
fn unlike(state: &State, word: i64, wanted: Wanted) -> Option<StartFault>
    ensures { result ≡ unlike (state_of state.now) word wanted }
{
    let found = state.fact_of(word);
    let fault = StartFault::Word {
        word,
        wanted,
        found,
    };
    unless(is_wanted(wanted, found), fault)
}

/// A word, if the context may not write it.
fn unwritable(module: &Module, state: &State, word: i64) -> Option<StartFault>
    ensures { result ≡ unwritable «module».now (state_of state.now) word }
{
    unless(
        module.may_write_word(state.context, word),
        StartFault::Unwritable { word },
    )
}

/// A word, if the context may not read it.
fn unreadable(module: &Module, state: &State, word: i64) -> Option<StartFault>
    ensures { result ≡ unreadable «module».now (state_of state.now) word }
{
    unless(
        module.may_read_word(state.context, word),
        StartFault::Unreadable { word },
    )
}

/// A word, if it may not be written or is not what is wanted.
fn prepared(module: &Module, state: &State, word: i64, wanted: Wanted) -> Option<StartFault>
    ensures { result ≡ prepared «module».now (state_of state.now) word wanted }
{
    unwritable(module, state, word).or(unlike(state, word, wanted))
}

/// How many branches a PAR has.
fn branch_count(par: &ParRow) -> u64
    ensures { result ≡ length (par_of par.now).branches }
{
    par.branches.len() as u64
}

/// What the second word of the block has to be: one more than the number of branches.
fn count_wanted(par: &ParRow) -> Wanted
    ensures { result ≡ count_wanted (par_of par.now) }
{
    Wanted::Number {
        number: i128::from(branch_count(par)) + 1,
    }
}

/// What a PAR wants of its block.
fn block_fault(module: &Module, state: &State, par: &ParRow) -> Option<StartFault>
    ensures { result ≡ block_fault «module».now (state_of state.now) (par_of par.now) }
{
    let first = i64::from(par.block);
    let address = Wanted::Code {
        offset: par.successor,
    };
    let second = prepared(module, state, first + 1, count_wanted(par));
    prepared(module, state, first, address).or(second)
}

/// What a PAR wants of the word of a channel.
#[tactic(auto, unfolding(crate::specs::Openings::channel_fault))]
fn channel_fault(module: &Module, state: &State, channel: &ChannelRow) -> Option<StartFault>
    ensures { result ≡ channel_fault «module».now (state_of state.now) channel.now }
{
    let least = Wanted::Number {
        number: i128::from(i32::MIN),
    };
    prepared(module, state, i64::from(channel.word), least)
}

/// What a PAR wants of the words of its channels.
fn channels_fault(module: &Module, state: &State, channels: &[ChannelRow]) -> Option<StartFault>
    ensures { result ≡ first_of (channel_fault «module».now (state_of state.now)) channels.now }
{
    for channel in channels {
        let fault = channel_fault(module, state, channel);
        if fault.is_some() {
            return fault;
        }
    }
    None
}

/// The word of a parameter, if there is one of this number.
fn parameter_word(module: &Module, context: u32, number: i32) -> Option<i64>
    ensures { result ≡ parameter_word (parameters_at «module».now context) number }
{
    if number < 0 {
        return None;
    }
    let parameter = module
        .parameters(context)
        .get(number.unsigned_abs() as usize)?;
    Some(i64::from(parameter.word))
}

/// What a PAR wants of the word of a parameter: that the context may read it, and that it is as it was given.
#[tactic(auto, unfolding(crate::specs::Openings::given_fault))]
fn given_fault(module: &Module, state: &State, number: i32) -> Option<StartFault>
    ensures { result ≡ given_fault «module».now (state_of state.now) number }
{
    match parameter_word(module, state.context, number) {
        Some(word) => {
            unreadable(module, state, word).or(unlike(state, word, Wanted::Parameter { number }))
        }
        None => Some(StartFault::UnreadableParameter { number }),
    }
}

/// The same of the parameter whose channel has an end, if it is a parameter's.
#[tactic(auto, unfolding(crate::specs::Openings::end_fault))]
fn end_fault(module: &Module, state: &State, kind: EndKind) -> Option<StartFault>
    ensures { result ≡ end_fault «module».now (state_of state.now) kind }
{
    match kind {
        EndKind::Parameter { number, .. } => given_fault(module, state, number),
        _ => None,
    }
}

/// The same of the first of some parameters.
fn listed_fault(module: &Module, state: &State, parameters: &[u16]) -> Option<StartFault>
    ensures { result ≡ first_of (listed_fault «module».now (state_of state.now)) parameters.now }
{
    for number in parameters {
        let fault = given_fault(module, state, i32::from(*number));
        if fault.is_some() {
            return fault;
        }
    }
    None
}

/// The same of the parameters whose channels have these ends.
fn ends_fault(module: &Module, state: &State, ends: &[EndRow]) -> Option<StartFault>
    ensures { result ≡ first_of (λ e. end_fault «module».now (state_of state.now) e.kind) ends.now }
{
    for end in ends {
        let fault = end_fault(module, state, end.kind);
        if fault.is_some() {
            return fault;
        }
    }
    None
}

/// The same of all parameters that a branch names.
#[tactic(auto, unfolding(crate::specs::Openings::named_fault))]
fn named_fault(module: &Module, state: &State, branch: &BranchRow) -> Option<StartFault>
    ensures { result ≡ named_fault «module».now (state_of state.now) (branch_of branch.now) }
{
    let written = listed_fault(module, state, &branch.written_parameters);
    let read = listed_fault(module, state, &branch.read_parameters);
    written.or(read).or(ends_fault(module, state, &branch.ends))
}

/// The same of all parameters that the branches name.
fn branches_fault(module: &Module, state: &State, branches: &[BranchRow]) -> Option<StartFault>
    ensures { result ≡ first_of (named_fault «module».now (state_of state.now)) (map branch_of branches.now) }
{
    for branch in branches {
        let fault = named_fault(module, state, branch);
        if fault.is_some() {
            return fault;
        }
    }
    None
}

/// What a PAR wants of words at its first start.
pub(crate) fn opening_fault(module: &Module, state: &State, par: &ParRow) -> Option<StartFault>
    ensures { result ≡ opening_fault «module».now (state_of state.now) (par_of par.now) }
{
    let block = block_fault(module, state, par);
    let channels = channels_fault(module, state, &par.channels);
    block
        .or(channels)
        .or(branches_fault(module, state, &par.branches))
}
