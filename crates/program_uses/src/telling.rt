//! Which fault of a program is reported.

ghost use Rattle.std.specs.Prelude.{◌≡◌};
ghost use Rattle.program_uses.specs.Telling.{is_before, earlier, fault_at};

/// A rule that a program breaks.
#[derive(Clone, Copy, PartialEq, Eq)]
pub struct UsageFault {
    /// The number of the rule.
    pub number: u8,
    /// The line on which it is broken.
    pub line: u32,
}

/// Whether a fault is reported before another one.
fn is_before(fault: UsageFault, other: UsageFault) -> bool
    ensures { result ≡ is_before fault other }
{
    fault.line < other.line || (fault.line == other.line && fault.number < other.number)
}

/// The one of two faults that is reported, if there are any.
pub fn earlier(first: Option<UsageFault>, second: Option<UsageFault>) -> Option<UsageFault>
    ensures { result ≡ earlier first second }
{
    match (first, second) {
        (None, second) => second,
        (Some(first), None) => Some(first),
        (Some(first), Some(second)) => {
            if is_before(second, first) {
                Some(second)
            } else {
                Some(first)
            }
        }
    }
}

/// A fault on this line, if there is one.
pub fn fault_at(line: u32, number: Option<u8>) -> Option<UsageFault>
    ensures { result ≡ fault_at line number }
{
    Some(UsageFault {
        number: number?,
        line,
    })
}
