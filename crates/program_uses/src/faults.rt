//! The numbers of the usage rules, and which of several broken rules is reported.

ghost use Rattle.std.specs.Prelude.{◌≡◌};
ghost use Rattle.program_uses.specs.Lowest.{lower, told_unless};

/// The number of the fault that a name is declared twice in one scope.
pub const DECLARED_TWICE: u8 = 10;
/// The number of the fault that a constant is wanted.
pub const CONSTANT_WANTED: u8 = 12;
/// The number of the fault that a procedure is called with other actuals than it has formals.
pub const OTHER_ACTUAL: u8 = 13;
/// The number of the fault that components of a `PAR` share a variable that one of them changes.
pub const SHARED_VARIABLE: u8 = 14;
/// The number of the fault that a channel may not be used so.
pub const CHANNEL_USE: u8 = 15;
/// The number of the fault that an instance passes something twice.
pub const PASSED_TWICE: u8 = 18;
/// The number of the fault that the last item is no `main` with links.
pub const NO_MAIN: u8 = 19;
/// The number that is reported at line 0 if memory ran out.
pub const MEMORY: u8 = 20;

/// The lower one of two numbers, if there are any.
pub fn lower(first: Option<u8>, second: Option<u8>) -> Option<u8>
    ensures { result ≡ lower first second }
{
    match (first, second) {
        (None, second) => second,
        (Some(first), None) => Some(first),
        (Some(first), Some(second)) => Some(first.min(second)),
    }
}

/// A number, if something does not hold.
pub fn told_unless(holds: bool, number: u8) -> Option<u8>
    ensures { result ≡ told_unless holds number }
{
    if holds { None } else { Some(number) }
}
