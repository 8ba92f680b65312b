//! Calls that are repeated, so that their time can be taken from outside.

ghost use Rattle.std.specs.Prelude.{◌≡◌, ◌↔◌, ◌≤◌, IfOk};
ghost use Rattle.std.specs.Process.{exit_status};
ghost use Rattle.conformance.specs.declared.repeating.Failure.TheVariants.{Memory};

use crate::cases::try_named;
use crate::kind::Kind;
use std::alloc::Global;
use std::process::ExitCode;
use std::rt::{Env, Files};
use std::{env, fs, io};

/// Why a call that is repeated has no checksum.
#[derive(Clone, Copy)]
pub enum Failure {
    /// Memory ran out.
    Memory,
    /// The call refused its input, or the machine stands still.
    Refused,
    /// There is no such call.
    Unknown,
}

/// Calls that can be repeated on the bytes of one file.
pub trait Calls {
    /// Repeats the call of this name on these bytes, and returns a checksum of its results.
    fn repeat(alloc: Global, name: &str, bytes: &[u8], times: u64) -> Result<u64, Failure>;
}

/// A checksum with one more number in it.
pub fn mixed(checksum: u64, number: u64) -> u64 {
    checksum.wrapping_mul(31).wrapping_add(number)
}

/// A refusal by number, of which one reports that memory ran out.
pub fn refusal(number: u8, memory: u8) -> Failure
    ensures { (result ≡ Memory) ↔ (number ≡ memory) }
{
    if number == memory {
        Failure::Memory
    } else {
        Failure::Refused
    }
}

/// What the words after `time` ask for: a call, the file that it is given, and how often it is repeated.
#[derive(Clone, Copy)]
struct Repetition<'t> {
    call: &'t str,
    file: &'t str,
    times: u64,
}

/// What these words of the command line ask to be repeated, if they do.
fn asked(words: &[String]) -> Option<Repetition> {
    match words {
        [_, time, call, file, times] if time.as_str() == "time" => Some(Repetition {
            call: call.as_str(),
            file: file.as_str(),
            times: times.parse().ok()?,
        }),
        _ => None,
    }
}

/// Prints a checksum, or says why there is none.
fn print(rt: &(impl Print + Eprint), checksum: Result<u64, Failure>) -> io::Result<ExitCode>
    ensures { IfOk result (λ code. exit_status code ≤ 2) }
{
    match checksum {
        Ok(checksum) => {
            println!(rt; "{checksum}")?;
            Ok(ExitCode::from(0))
        }
        Err(Failure::Memory) => Err(io::ErrorKind::OutOfMemory.into()),
        Err(Failure::Refused) => {
            eprintln!(rt; "the call refused its input")?;
            Ok(ExitCode::from(1))
        }
        Err(Failure::Unknown) => {
            eprintln!(rt; "there is no such call")?;
            Ok(ExitCode::from(2))
        }
    }
}

/// Repeats a call on the bytes of a file.
fn repeat<C: Calls, R: Files + Print + Eprint + AllocGlobal>(
    rt: &R,
    asked: Repetition,
) -> io::Result<ExitCode>
    ensures { IfOk result (λ code. exit_status code ≤ 2) }
{
    let bytes = fs::read(rt, asked.file)?;
    print(rt, C::repeat(rt.alloc(), asked.call, &bytes, asked.times))
}

/// The program. If its arguments are `time CALL FILE TIMES`, it repeats a call on the bytes of a file, and prints a checksum
/// of the results. The status is then 0, 1 if the call refused its input or memory ran out, and 2 if there is no such call.
///
/// With any other arguments it tries cases, and prints each that differs and then how many came out how. An argument names
/// a kind of cases, or a file with cases of the kind that is named before it; if the last one names a kind, its cases are
/// read from standard input. The status is 1 if a case differs or cannot be read, and else 0.
pub fn try_or_repeat<K: Kind, C: Calls, R: Env + Files + Input + Print + Eprint + AllocGlobal>(
    rt: &R,
) -> io::Result<ExitCode>
    ensures { IfOk result (λ code. exit_status code ≤ 2) }
{
    let words: Vec<String> = env::args(rt)?.collect(rt.alloc())?;
    match asked(&words) {
        Some(asked) => repeat::<C, R>(rt, asked),
        None => try_named::<K, R>(rt, &words),
    }
}
