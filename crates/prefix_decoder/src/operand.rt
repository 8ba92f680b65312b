//! What the T414 does to the operand register with one instruction byte. Between two bytes the register
//! is a word whose low nibble is 0, at the start of an instruction it is 0.
ghost use Rattle.std.specs.Prelude.{◌≡◌};
ghost use Rattle.prefix_decoder.specs.Functions.{nibble};
ghost use Rattle.prefix_decoder.specs.Operand.{IsRegister, with_nibble, prefixed, negated, after_prefix};

use crate::function::NEGATIVE_PREFIX;

/// The register with the byte's nibble in its low bits: the operand with which the byte's function runs.
pub fn with_nibble(register: i32, byte: u8) -> i32
    requires { IsRegister register }
    ensures { result ≡ with_nibble register (nibble byte) }
{
    register + i32::from(byte & 0xf)
}

/// What `pfix` leaves in the register: the operand shifted left by a nibble.
pub fn prefixed(operand: i32) -> i32
    ensures value { result ≡ prefixed operand }
    ensures register { IsRegister result }
{
    operand << 4
}

/// What `nfix` leaves in the register: the operand's complement shifted left by a nibble.
pub fn negated(operand: i32) -> i32
    ensures value { result ≡ negated operand }
    ensures register { IsRegister result }
{
    prefixed(!operand)
}

/// What the prefix with this code leaves in the register.
pub fn after_prefix(code: u8, operand: i32) -> i32
    ensures value { result ≡ after_prefix code operand }
    ensures register { IsRegister result }
{
    if code == NEGATIVE_PREFIX {
        negated(operand)
    } else {
        prefixed(operand)
    }
}
