//! Why the pass stops before the end of the code.

ghost use Rattle.std.specs.Prelude.{◌≡◌, ◌<◌, ◌^◌};

use crate::Refusal;
use states::{MEMORY, Rule};

/// A rule that is broken, and the code offset where.
#[derive(Clone, Copy, Debug)]
pub struct Breach {
    pub rule: Rule,
    pub offset: u32,
}

/// Why the pass stops before the end of the code.
#[derive(Clone, Copy, Debug)]
pub enum Stop {
    Broken(Breach),
    /// Memory ran out.
    Memory,
}

/// The rule is broken at this code offset.
pub fn broken(rule: Rule, at: usize) -> Breach
    requires { at < 2 ^ 32 }
    ensures { result ≡ record { rule = rule; offset = at } }
{
    Breach {
        rule,
        offset: at as u32,
    }
}

impl From<Stop> for Refusal {
    ghost use Rattle.verifier.specs.Judging.{refusal_of};

    ghost from_gives = { λ stop refusal. refusal ≡ refusal_of stop };

    fn from(stop: Stop) -> Refusal {
        match stop {
            Stop::Broken(breach) => Refusal {
                number: breach.rule.number(),
                offset: breach.offset,
            },
            Stop::Memory => Refusal {
                number: MEMORY,
                offset: 0,
            },
        }
    }
}
