//! What two parts of an expression give together.

ghost use Rattle.std.specs.Prelude.{◌≡◌};
ghost use Rattle.scalar_ranges.specs.Steps.{paired};

/// Both parts, each of which is checked: of two faults it is the one with the lower number.
pub(crate) fn paired<A: Copy, B: Copy>(
    first: Result<A, u8>,
    second: Result<B, u8>,
) -> Result<(A, B), u8>
    ensures { result ≡ paired first second }
{
    match (first, second) {
        (Ok(first), Ok(second)) => Ok((first, second)),
        (Ok(_), Err(fault)) => Err(fault),
        (Err(fault), Ok(_)) => Err(fault),
        (Err(first), Err(second)) => Err(first.min(second)),
    }
}
