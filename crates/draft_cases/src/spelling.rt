//! How instructions are spelled, and which instruction bytes spell.

use conformance::{Answer, Outcome, judged};
use module_cases::{Words, function, question};
use prefix_decoder::operand::{negated, prefixed, with_nibble};
use prefix_decoder::{DecodeFault, Fun, Instr, encode, fetch};

/// The most bytes of code that are asked about.
const MOST: usize = 9;

/// The next word as a byte of two hexadecimal digits.
fn byte(words: &mut Words) -> u8 {
    let byte = u8::from_str_radix(words.word(), 16).ok();
    words.require(byte.is_some());
    byte.unwrap_or(0)
}

/// Appends the code of a function, and whether that code is its own alone.
fn put_code(words: &mut Words, out: &mut Answer) {
    match function(words.word()) {
        Some(fun) => {
            out.great(u64::from(fun.code()));
            out.put(" ");
            out.truth(Fun::from_code(fun.code()) == Some(fun));
        }
        None => out.put("none"),
    }
}

/// Appends whether a function has a code.
fn put_known(words: &mut Words, out: &mut Answer) {
    let code = u8::try_from(words.number()).ok();
    words.require(code.is_some());
    out.truth(Fun::from_code(code.unwrap_or(0)).is_some());
}

/// Appends what the operand register is after each of two bytes, and before the second one.
fn put_register(words: &mut Words, out: &mut Answer) {
    let operand = with_nibble(0, byte(words));
    let register = negated(operand);
    out.number(i64::from(operand));
    out.put(" ");
    out.number(i64::from(register));
    out.put(" ");
    out.number(i64::from(with_nibble(register, byte(words))));
}

/// Appends the spelling of a function and its operand.
fn put_spelling(words: &mut Words, out: &mut Answer) {
    match function(words.word()) {
        Some(fun) => {
            for byte in encode(fun, words.integer()).as_slice() {
                out.hexadecimal(*byte);
            }
        }
        None => words.fail(),
    }
}

fn put_fetched(fetched: Result<Instr, DecodeFault>, out: &mut Answer) {
    match fetched {
        Ok(Instr { fun, operand, len }) => {
            out.great(u64::from(fun.code()));
            out.put(" ");
            out.number(i64::from(operand));
            out.put(" ");
            out.great(len as u64);
        }
        Err(DecodeFault::EndOfCode) => out.put("P1"),
        Err(DecodeFault::SecondSpelling) => out.put("P2"),
        Err(DecodeFault::TooLong) => out.put("P3"),
    }
}

/// Appends the instruction at an offset of bytes of code: the code of its function, its operand and its length; or the
/// fault.
fn put_instruction(words: &mut Words, out: &mut Answer) {
    let at = usize::try_from(words.great()).unwrap_or(usize::MAX);
    let count = usize::try_from(words.count()).unwrap_or(0).min(MOST);
    let mut code = [0; MOST];
    for place in code.iter_mut().take(count) {
        *place = byte(words);
    }
    put_fetched(fetch(&code[..count], at), out);
}

/// What is asked: `NAME ARGUMENTS = ANSWER`.
pub(crate) fn ask_spelling(name: &str, rest: &str, out: &mut Answer) -> Outcome {
    let (arguments, expected) = question(rest);
    let mut words = Words::of(arguments);
    match name {
        "code" => put_code(&mut words, out),
        "is_code" => put_known(&mut words, out),
        "register" => put_register(&mut words, out),
        "prefixed" => out.number(i64::from(prefixed(words.integer()))),
        "encode" => put_spelling(&mut words, out),
        "fetch" => put_instruction(&mut words, out),
        _ => words.fail(),
    }
    if words.is_read() {
        judged(out, expected)
    } else {
        Outcome::Unreadable
    }
}
