//! The guards of an alternation.

ghost use Rattle.std.specs.Prelude.{◌≡◌, Some};
ghost use Rattle.states.specs.Views.{state_of};
ghost use Rattle.found_parts.specs.Guards.{registers_text, guard_text, next_text, is_disabling, next_of, next_guard};

use crate::names::{ChannelName, WordName};
use fact_texts::FactText;
use machine_state::Op;
use module_format::Stack;
use state_texts::KnownText;
use states::{Guard, GuardKind, GuardName, Known, Mode, State};
use std::fmt;

/// The registers by which an operation enables or disables a guard: with the name of a link, and with the word that a
/// guard is known by.
#[derive(Clone, Copy)]
pub struct GuardRegisters {
    pub op: Op,
    pub stack: Stack<Known>,
}

impl fmt::Display for GuardRegisters {
    ghost output = { λ registers. Some (registers_text registers.op registers.stack) };

    fn fmt<W: fmt::Write>(&self, f: &mut fmt::Formatter<W>) -> fmt::Result {
        let Stack { a, b, c } = self.stack;
        match self.op {
            Op::EnableSkip => write!(f, "; A is {}", KnownText(a)),
            Op::EnableChannel => {
                write!(f, "; A is {} and B is {}", KnownText(a), WordName(b.fact))
            }
            Op::DisableSkip => write!(f, "; A is {} and B is {}", FactText(a.fact), KnownText(b)),
            Op::DisableChannel => write!(
                f,
                "; A is {}, B is {} and C is {}",
                FactText(a.fact),
                KnownText(b),
                WordName(c.fact)
            ),
            _ => write!(f, ""),
        }
    }
}

/// A guard: what it waits for, and what its truth is known by.
#[derive(Clone, Copy)]
struct GuardText(Guard);

impl fmt::Display for GuardText {
    ghost output = { λ guard. Some (guard_text guard.0) };

    fn fmt<W: fmt::Write>(&self, f: &mut fmt::Formatter<W>) -> fmt::Result {
        let Guard { kind, name, .. } = self.0;
        match (kind, name) {
            (GuardKind::Channel(kind), GuardName::Constant(value)) => {
                write!(f, "{} by {value}", ChannelName(kind))
            }
            (GuardKind::Channel(kind), GuardName::Word(word)) => {
                write!(f, "{} by word {word}", ChannelName(kind))
            }
            (GuardKind::Skip, GuardName::Constant(value)) => write!(f, "a skip by {value}"),
            (GuardKind::Skip, GuardName::Word(word)) => write!(f, "a skip by word {word}"),
        }
    }
}

/// The guard that is disabled next.
#[derive(Clone, Copy)]
pub enum NextGuard {
    /// The guard of this number.
    Guard { number: u32, guard: Guard },
    /// All are disabled.
    None,
}

impl fmt::Display for NextGuard {
    ghost output = { λ next. Some (next_text next) };

    fn fmt<W: fmt::Write>(&self, f: &mut fmt::Formatter<W>) -> fmt::Result {
        match *self {
            NextGuard::Guard { number, guard } => {
                write!(f, "guard {number} is next: {}", GuardText(guard))
            }
            NextGuard::None => write!(f, "no guard is left"),
        }
    }
}

/// Whether an operation disables a guard, or ends an alternation.
fn is_disabling(op: Op) -> bool
    ensures { result ≡ is_disabling op }
{
    matches!(
        op,
        Op::DisableChannel | Op::DisableSkip | Op::AlternationEnd
    )
}

/// The guard that is disabled next, after this number of guards.
fn next_of(guards: &[Guard], done: u32) -> NextGuard
    ensures { result ≡ next_of guards.now done }
{
    match guards.get(done as usize) {
        Some(guard) => NextGuard::Guard {
            number: done,
            guard: *guard,
        },
        None => NextGuard::None,
    }
}

/// The guard that is disabled next, if guards are being disabled and the operation asks for it.
#[tactic(auto, unfolding(crate::specs::Guards::next_guard))]
pub fn next_guard(op: Op, state: &State) -> Option<NextGuard>
    ensures { result ≡ next_guard op (state_of state.now) }
{
    if !is_disabling(op) {
        return None;
    }
    match state.mode {
        Mode::Disabling { done } => Some(next_of(&state.guards, done)),
        _ => None,
    }
}
