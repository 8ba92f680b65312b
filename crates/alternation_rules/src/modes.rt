//! The modes in which the instructions of an alternation are allowed, and the channels of its guards.

ghost use Rattle.std.specs.Prelude.{◌≡◌};
ghost use Rattle.states.specs.Views.{state_of, BelongsTo};
ghost use Rattle.rulings.specs.Telling.{Admits, Gives, Leaves};
ghost use Rattle.rulings.specs.Places.{site_of};
ghost use Rattle.alternation_rules.specs.AlternationRules.{while_plain, while_enabling, while_disabling};
ghost use Rattle.alternation_rules.specs.AlternationRules.{may_receive, keeps_selection};

use module_format::{Direction, EndKind, EndRow, Fact};
use rulings::Place;
use rulings::combinators::wants;
use states::{Mode, Rule, State, WordFact};

/// An instruction that begins an alternation.
#[tactic(auto, unfolding(crate::specs::AlternationRules::while_plain))]
pub(crate) fn while_plain(mode: Mode) -> Result<(), Rule>
    ensures { Admits result (while_plain mode) }
{
    match mode {
        Mode::Plain => Ok(()),
        Mode::Enabling | Mode::Disabling { .. } | Mode::Starting { .. } => Err(Rule::Alternation),
    }
}

/// An instruction that is allowed between `alt` and `altwt` only.
#[tactic(auto, unfolding(crate::specs::AlternationRules::while_enabling))]
pub(crate) fn while_enabling(mode: Mode) -> Result<(), Rule>
    ensures { Admits result (while_enabling mode) }
{
    match mode {
        Mode::Enabling => Ok(()),
        Mode::Plain | Mode::Disabling { .. } | Mode::Starting { .. } => Err(Rule::Alternation),
    }
}

/// An instruction that is allowed between `altwt` and `altend` only: how many guards are disabled.
#[tactic(auto, unfolding(crate::specs::AlternationRules::while_disabling))]
pub(crate) fn while_disabling(mode: Mode) -> Result<u32, Rule>
    ensures { Gives (λ done. done) result (while_disabling mode) }
{
    match mode {
        Mode::Disabling { done } => Ok(done),
        Mode::Plain | Mode::Enabling | Mode::Starting { .. } => Err(Rule::Alternation),
    }
}

/// Whether the state's context has the end by which a channel is received from.
pub(crate) fn may_receive(place: &Place, state: &State, kind: EndKind) -> bool
    ensures { result ≡ may_receive (site_of place.now) (state_of state.now) kind }
{
    let direction = Direction::In;
    place
        .module
        .has_end(state.context, EndRow { kind, direction })
}

/// The context may write the word at the workspace, and it is unknown from now on.
#[tactic(auto, unfolding(crate::specs::AlternationRules::keeps_selection))]
pub(crate) fn keeps_selection(place: &Place, state: &mut State) -> Result<(), Rule>
    requires { BelongsTo place.now.module.now state.old }
    ensures test { Leaves result (state_of state.new) (keeps_selection (site_of place.now) (state_of state.old)) }
    ensures belongs { BelongsTo place.now.module.now state.new }
{
    let word = place.writes_word(state, 0)?;
    state.write(word, Fact::Unknown);
    Ok(())
}
