//! Drafts that the lines of a block write.

use crate::draft_code::{add_code, label, make_labels};
use crate::draft_rows::add_row;
use conformance::unindented;
use module_builder::Draft;
use module_cases::Words;
use module_format::Version;
use std::alloc::Global;

/// Appends bytes, each two hexadecimal digits.
fn add_bytes(bytes: &mut Vec<u8>, words: &mut Words) {
    for _ in 0..words.count() {
        match u8::from_str_radix(words.word(), 16) {
            Ok(byte) => words.require(bytes.push(byte).is_ok()),
            Err(_) => words.fail(),
        }
    }
}

/// `1` or `2`.
fn version(words: &mut Words) -> Version {
    match words.number() {
        2 => Version::Two,
        number => {
            words.require(number == 1);
            Version::One
        }
    }
}

/// `WORDS BASE BUDGET FINISH`, of which the last is a label, or `-` for none.
fn set_numbers(draft: &mut Draft, words: &mut Words) {
    draft.data_words = words.number();
    draft.base = words.number();
    draft.budget = words.great();
    draft.finish = match words.given() {
        Some(digits) => label(&draft.code, digits, words),
        None => None,
    };
}

/// `LINK LENGTH`: output links 0 to 3, and input links from 4 on.
fn set_length(lengths: &mut [u32; 8], words: &mut Words) {
    match lengths.get_mut(words.number() as usize) {
        Some(length) => *length = words.number(),
        None => words.fail(),
    }
}

/// Adds a line to a draft.
fn add_words(alloc: Global, draft: &mut Draft, words: &mut Words) {
    match words.word() {
        "version" => draft.version = version(words),
        "long" => draft.has_long_operations = true,
        "numbers" => set_numbers(draft, words),
        "link" => set_length(&mut draft.lengths, words),
        "constants" => add_bytes(&mut draft.constants, words),
        "labels" => make_labels(&mut draft.code, words),
        "code" => add_code(&mut draft.code, words),
        name => add_row(alloc, draft, name, words),
    }
}

/// Adds a copy of a line to a draft. `false` if it cannot be read or memory runs out.
fn add_copy(alloc: Global, draft: &mut Draft, line: &str, copy: i64) -> bool {
    let mut words = Words::of_copy(line, copy);
    add_words(alloc, draft, &mut words);
    words.is_read()
}

/// How often a line is there, and the line: `times COUNT LINE`, or else once.
fn repeated(line: &str) -> (i64, &str) {
    let Some(rest) = line.strip_prefix("times ") else {
        return (1, line);
    };
    let (digits, copied) = rest.split_once(' ').unwrap_or((rest, ""));
    match digits.parse::<i64>() {
        Ok(count) => (count, copied),
        Err(_) => (1, line),
    }
}

/// Adds a line, as often as it is there, to a draft.
fn add_line(alloc: Global, draft: &mut Draft, line: &str) -> bool {
    let (count, line) = repeated(line);
    for copy in 0..count {
        if !add_copy(alloc, draft, line, copy) {
            return false;
        }
    }
    true
}

/// Adds the lines of a block to a draft. `false` if one cannot be read or memory runs out.
pub(crate) fn add_lines(alloc: Global, draft: &mut Draft, block: &[&str]) -> bool {
    for line in block {
        if !add_line(alloc, draft, unindented(line)) {
            return false;
        }
    }
    true
}
