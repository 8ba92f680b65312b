//! The calls that are repeated on a source.

use conformance::{Calls, Failure, mixed, refusal};
use occam_layout::{Line, lines};
use occam_parser::{Program, parse};
use std::alloc::Global;
use usage_checks::check;

/// The levels and the numbers of tokens.
fn lines_repeatedly(alloc: Global, source: &[u8], times: u64) -> Result<u64, Failure> {
    let mut checksum = 0;
    for _ in 0..times {
        match lines(alloc, source) {
            Ok(rows) => checksum = summed(checksum, &rows),
            Err(fault) => return Err(refusal(fault.number, occam_layout::MEMORY)),
        }
    }
    Ok(checksum)
}

/// A checksum with the levels and the numbers of tokens of these lines in it.
fn summed(checksum: u64, rows: &[Line]) -> u64 {
    let mut checksum = checksum;
    for line in rows {
        checksum = mixed(checksum, u64::from(line.level));
        checksum = mixed(checksum, line.tokens.len() as u64);
    }
    checksum
}

/// How many procedures a program has that breaks no usage rule.
fn check_program(alloc: Global, program: Program) -> Result<u64, Failure> {
    match check(alloc, program) {
        Ok(checked) => Ok(checked.signatures().len() as u64),
        Err(fault) => Err(refusal(fault.number, usage_checks::MEMORY)),
    }
}

/// How many lines were read as a program; or, of `check`, which takes the program, how many procedures it has.
fn parse_once(alloc: Global, rows: &[Line], is_checked: bool) -> Result<u64, Failure> {
    match parse(alloc, rows) {
        Ok(program) if is_checked => check_program(alloc, program),
        Ok(_) => Ok(rows.len() as u64),
        Err(fault) => Err(refusal(fault.number, occam_parser::MEMORY)),
    }
}

/// The same, again and again.
fn parse_repeatedly(
    alloc: Global,
    rows: &[Line],
    is_checked: bool,
    times: u64,
) -> Result<u64, Failure> {
    let mut checksum = 0;
    for _ in 0..times {
        match parse_once(alloc, rows, is_checked) {
            Ok(count) => checksum = mixed(checksum, count),
            Err(failure) => return Err(failure),
        }
    }
    Ok(checksum)
}

/// The same, of the lines of this source.
fn of_source(alloc: Global, source: &[u8], is_checked: bool, times: u64) -> Result<u64, Failure> {
    match lines(alloc, source) {
        Ok(rows) => parse_repeatedly(alloc, &rows, is_checked, times),
        Err(fault) => Err(refusal(fault.number, occam_layout::MEMORY)),
    }
}

/// The calls. The time of `check` itself is what it takes longer than `parse`.
pub struct Repeated;

impl Calls for Repeated {
    fn repeat(alloc: Global, name: &str, bytes: &[u8], times: u64) -> Result<u64, Failure> {
        match name {
            "lines" => lines_repeatedly(alloc, bytes, times),
            "parse" => of_source(alloc, bytes, false, times),
            "check" => of_source(alloc, bytes, true, times),
            _ => Err(Failure::Unknown),
        }
    }
}
