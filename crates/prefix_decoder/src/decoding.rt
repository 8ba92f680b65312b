ghost use Rattle.std.specs.Prelude.{◌≡◌, ◌≤◌, ◌↔◌, ◌++◌, ℕ, ℤ, pos, List, length, drop, IfOk, IfSome, Ok, Err};
ghost use Rattle.prefix_decoder.specs.declared.function.Fun.{Fun};
ghost use Rattle.prefix_decoder.specs.Spelling.{IsSpelling};
ghost use Rattle.prefix_decoder.specs.Fetching.{read, fetched, StandsAt, EndsTooSoon, IsSecondSpelling, IsTooLong};

use crate::encoding::{MAX_LEN, encode};
use crate::function::Fun;
use crate::operand::{after_prefix, with_nibble};

/// One instruction of the code.
#[derive(Clone, Copy, Debug, PartialEq, Eq)]
pub struct Instr {
    /// The function.
    pub fun: Fun,
    /// Its operand.
    pub operand: i32,
    /// The bytes that it takes, prefixes included: 1 to 8.
    pub len: usize,
}

/// Why there is no instruction at a place of the code.
#[derive(Clone, Copy, Debug, PartialEq, Eq)]
pub enum DecodeFault {
    /// P1: the code ends before a byte that is no prefix, within the first eight.
    EndOfCode,
    /// P2: the bytes up to the first that is no prefix aren't the one spelling of an instruction.
    SecondSpelling,
    /// P3: the first eight bytes are all prefixes.
    TooLong,
}

/// What the T414 reads from these bytes on.
fn decode(bytes: &[u8]) -> Result<Instr, DecodeFault>
    ensures { result ≡ read 8 bytes.now (pos 0) 0 }
{
    let mut register = 0;
    for index in 0..MAX_LEN {
        if index >= bytes.len() {
            return Err(DecodeFault::EndOfCode);
        }
        let byte = bytes[index];
        let code = byte >> 4;
        let operand = with_nibble(register, byte);
        if let Some(fun) = Fun::from_code(code) {
            return Ok(Instr {
                fun,
                operand,
                len: index + 1,
            });
        }
        register = after_prefix(code, operand);
    }
    Err(DecodeFault::TooLong)
}

/// The instruction of one byte at a place of the code, if a byte that is no prefix is there.
#[inline(always)]
fn single(code: &[u8], at: usize) -> Option<Instr>
    ensures { IfSome result (λ instr. fetched code.now at ≡ Ok instr) }
{
    if at >= code.len() {
        return None;
    }
    let byte = code[at];
    let fun = Fun::from_code(byte >> 4)?;
    Some(Instr {
        fun,
        operand: with_nibble(0, byte),
        len: 1,
    })
}

/// What is read at a place of the code, if it is in its one spelling.
fn instruction_at(code: &[u8], at: usize) -> Result<Instr, DecodeFault>
    ensures { result ≡ fetched code.now at }
{
    if let Some(instr) = single(code, at) {
        return Ok(instr);
    }
    let bytes = &code[at.min(code.len())..];
    let instr = decode(bytes)?;
    if &bytes[..instr.len] != encode(instr.fun, instr.operand).as_slice() {
        return Err(DecodeFault::SecondSpelling);
    }
    Ok(instr)
}

/// The instruction whose one spelling is at a place of the code. Beyond the end of the code that is `EndOfCode`.
pub fn fetch(code: &[u8], at: usize) -> Result<Instr, DecodeFault>
    ensures exact { result ≡ fetched code.now at }

    // What is returned is there, and what is there is returned, whatever follows it.
    ensures found { IfOk result (StandsAt code.now at) }
    ensures length { IfOk result (λ i. (1 ≤ i.len) × (i.len ≤ 8)) }
    ensures only { (f : Fun) (e : ℤ) (bytes rest : List ℕ) → IsSpelling f e bytes → drop at code.now ≡ bytes ++ rest
        → result ≡ Ok (record { fun = f; operand = e; len = length bytes }) }

    ensures end_of_code { (result ≡ Err DecodeFault.EndOfCode) ↔ EndsTooSoon (drop at code.now) }
    ensures second_spelling { (result ≡ Err DecodeFault.SecondSpelling) ↔ IsSecondSpelling (drop at code.now) }
    ensures too_long { (result ≡ Err DecodeFault.TooLong) ↔ IsTooLong (drop at code.now) }
{
    instruction_at(code, at)
}
