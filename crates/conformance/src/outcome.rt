//! What comes of a statement.

ghost use Rattle.std.specs.Prelude.{◌≡◌, ◌⊎◌, ◌↔◌, if◌then◌else◌};

use crate::answer::Answer;

/// What comes of a statement.
#[derive(Clone, Copy, PartialEq)]
pub enum Outcome {
    /// It asks nothing.
    Set,
    /// The answer is the expected one.
    Held,
    /// The answer is another one.
    Differs,
    /// The statement cannot be read.
    Unreadable,
    /// Memory ran out.
    OutOfMemory,
}

impl Outcome {
    /// What comes of a question whose answer is the expected one, or is not.
    pub fn of(is_expected: bool) -> Self
        ensures { result ≡ (if is_expected then Outcome.Held else Outcome.Differs) }
    {
        if is_expected {
            Outcome::Held
        } else {
            Outcome::Differs
        }
    }

    /// What comes of a statement that asks nothing and can be read, or cannot.
    pub fn set(is_read: bool) -> Self
        ensures { result ≡ (if is_read then Outcome.Set else Outcome.Unreadable) }
    {
        if is_read {
            Outcome::Set
        } else {
            Outcome::Unreadable
        }
    }
}

/// Compares an answer with the expected one.
pub fn judged(answer: &Answer, expected: &str) -> Outcome
    ensures held { (result ≡ Outcome.Held) ↔ (answer.now.text ≡ expected.now) }
    ensures cases { (result ≡ Outcome.Held) ⊎ (result ≡ Outcome.Differs) }
{
    Outcome::of(answer.as_str() == expected)
}
