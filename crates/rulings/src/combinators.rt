//! The tests that the rules of all families are made of, each with the rule that it keeps.

ghost use Rattle.std.specs.Prelude.{◌≡◌, IfOk, true};
ghost use Rattle.rulings.specs.Rulings.{outside_alternation, outside_starts, alone, uses, forward, in_bounds, wants};
ghost use Rattle.rulings.specs.Telling.{Admits, Gives};

use module_format::Fact;
use states::{Known, Mode, Rule};

/// An instruction that is not allowed in an alternation.
#[tactic(auto, unfolding(crate::specs::Rulings::outside_alternation))]
pub fn outside_alternation(mode: Mode) -> Result<(), Rule>
    ensures { Admits result (outside_alternation mode) }
{
    match mode {
        Mode::Plain | Mode::Starting { .. } => Ok(()),
        Mode::Enabling | Mode::Disabling { .. } => Err(Rule::Alternation),
    }
}

/// An instruction that is not allowed among the starts of a PAR.
#[tactic(auto, unfolding(crate::specs::Rulings::outside_starts))]
pub fn outside_starts(mode: Mode) -> Result<(), Rule>
    ensures { Admits result (outside_starts mode) }
{
    match mode {
        Mode::Plain | Mode::Enabling | Mode::Disabling { .. } => Ok(()),
        Mode::Starting { .. } => Err(Rule::Par),
    }
}

/// An instruction that is allowed in neither.
pub fn alone(mode: Mode) -> Result<(), Rule>
    ensures { Admits result (alone mode) }
{
    outside_alternation(mode)?;
    outside_starts(mode)
}

/// A register that is used is known.
#[tactic(auto, unfolding(crate::specs::Rulings::uses))]
pub fn uses(known: Known) -> Result<Fact, Rule>
    ensures { Gives (λ fact. fact) result (uses known) }
{
    match known.fact {
        Fact::Unknown => Err(Rule::UnknownRegister),
        fact => Ok(fact),
    }
}

/// A jump by `distance` bytes from the next instruction leads forward.
#[tactic(auto, unfolding(crate::specs::Rulings::forward))]
pub fn forward(distance: i32) -> Result<(), Rule>
    ensures { Admits result (forward distance) }
{
    if distance < 0 {
        return Err(Rule::Forward);
    }
    Ok(())
}

/// What is wanted of numbers holds.
#[tactic(auto, unfolding(crate::specs::Rulings::in_bounds))]
pub fn in_bounds(holds: bool) -> Result<(), Rule>
    ensures { Admits result (in_bounds holds) }
{
    if !holds {
        return Err(Rule::Number);
    }
    Ok(())
}

/// A test that holds, else this rule is broken.
#[tactic(auto, unfolding(crate::specs::Rulings::wants))]
pub fn wants(holds: bool, rule: Rule) -> Result<(), Rule>
    ensures test { Admits result (wants holds rule) }
    ensures held { IfOk result (λ _. holds ≡ true) }
{
    if !holds {
        return Err(rule);
    }
    Ok(())
}
