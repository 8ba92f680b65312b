ghost use Rattle.std.specs.Prelude.{◌≡◌, ◌+◌, ◌*◌, ◌%◌, ◌<◌, ◌≤◌, ◌++◌, [], length};
ghost use Rattle.arrayvec.specs.ArrayVec.{array_vec_len};
ghost use Rattle.prefix_decoder.specs.Spelling.{IsSpelling, spelling, natural_spelling, code_spelling};

use crate::function::{Fun, NEGATIVE_PREFIX, PREFIX};
use arrayvec::ArrayVec;

/// The most bytes that an instruction takes: one for each nibble of an operand.
pub(crate) const MAX_LEN: usize = 8;

/// The instruction byte of a function's code and the low nibble of an operand.
fn instruction_byte(code: u8, operand: u32) -> u8
    requires { code < 16 }
    ensures { result ≡ 16 * code + operand % 16 }
{
    code << 4 | (operand & 0xf) as u8
}

/// Appends the spelling of the function with this code and a natural operand.
fn push_natural(bytes: &mut ArrayVec<u8, MAX_LEN>, code: u8, operand: u32)
    requires code { code < 16 }
    requires room { array_vec_len bytes.old + length (natural_spelling 7 code operand) ≤ 8 }
    ensures { bytes.new.items ≡ bytes.old.items ++ natural_spelling 7 code operand }
{
    if operand >= 16 {
        push_natural(bytes, PREFIX, operand >> 4);
    }
    bytes.push(instruction_byte(code, operand));
}

/// Writes the spelling of the function with this code and its operand.
fn push_spelling(bytes: &mut ArrayVec<u8, MAX_LEN>, code: u8, operand: i32)
    requires code { code < 16 }
    requires empty { bytes.old.items ≡ [] }
    ensures { bytes.new.items ≡ code_spelling code operand }
{
    let word = operand.cast_unsigned();
    if operand >= 0 {
        push_natural(bytes, code, word);
    } else {
        push_natural(bytes, NEGATIVE_PREFIX, !word >> 4);
        bytes.push(instruction_byte(code, word));
    }
}

/// The one spelling of a function and its operand: 1 to 8 bytes, prefixes first.
pub fn encode(fun: Fun, operand: i32) -> ArrayVec<u8, MAX_LEN>
    ensures value { result.items ≡ spelling fun operand }
    ensures spells { IsSpelling fun operand result.items }
    ensures length { (1 ≤ array_vec_len result) × (array_vec_len result ≤ 8) }
{
    let mut bytes = ArrayVec::new();
    push_spelling(&mut bytes, fun.code(), operand);
    bytes
}
