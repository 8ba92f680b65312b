//! The listing of a module's code.

ghost use Rattle.std.specs.Prelude.{◌≡◌, ◌+◌, ◌<◌, ◌≤◌, ◌++◌, length, IfOk, OnOk, Some, string_bytes};
ghost use Rattle.module_format.specs.Contents.{contents_of};
ghost use Rattle.listings.specs.Listing.{entry_name, entry_of, entry_text, line_of, listed_entry, listed_line};
ghost use Rattle.listings.specs.Listing.{listed_size, listing, operation_of};

use crate::names::{function_name, operation_name};
use certificate::Module;
use machine_state::Op;
use module_format::Tables;
use prefix_decoder::{Fun, Instr, fetch};
use std::alloc::{AllocError, Global};
use std::fmt;

/// What is listed at an offset of the code.
#[derive(Clone, Copy)]
pub enum Entry {
    /// An operation.
    Operation(Op),
    /// A function and its operand; `opr` with the number of an operation that the module does not have.
    Function(Fun, i32),
    /// A byte from which no instruction is read.
    Unread,
}

impl fmt::Display for Entry {
    ghost output = { λ entry. Some (entry_text entry) };

    fn fmt<W: fmt::Write>(&self, f: &mut fmt::Formatter<W>) -> fmt::Result {
        match self {
            Entry::Operation(op) => write!(f, "{}", operation_name(*op)),
            Entry::Function(fun, operand) => write!(f, "{} {operand}", function_name(*fun)),
            Entry::Unread => write!(f, "?"),
        }
    }
}

impl Entry {
    /// The name alone.
    pub fn name(self) -> &'static str
        ensures { result.now ≡ entry_name self }
    {
        match self {
            Entry::Operation(op) => operation_name(op),
            Entry::Function(fun, _) => function_name(fun),
            Entry::Unread => "?",
        }
    }
}

/// The operation of an operand of `opr`; `None` where the module does not have it.
fn operation_of(operand: i32, has_long_operations: bool) -> Option<Op>
    ensures { result ≡ operation_of has_long_operations operand }
{
    match Op::of(operand)? {
        Op::Long(_) if !has_long_operations => None,
        op => Some(op),
    }
}

/// What is listed of an instruction.
pub fn entry_of(instr: Instr, has_long_operations: bool) -> Entry
    ensures { result ≡ entry_of has_long_operations instr.fun instr.operand }
{
    let Instr { fun, operand, .. } = instr;
    match fun {
        Fun::Operate => match operation_of(operand, has_long_operations) {
            Some(op) => Entry::Operation(op),
            None => Entry::Function(fun, operand),
        },
        _ => Entry::Function(fun, operand),
    }
}

/// What is listed at an offset of the code, and how many bytes it takes.
fn entry_at(tables: &Tables<'_>, at: usize) -> (Entry, usize)
    requires { at < length tables.now.code.now }
    ensures entry { result.0 ≡ listed_entry (contents_of tables.now) at }
    ensures size { result.1 ≡ listed_size (contents_of tables.now) at }
    ensures within { (1 ≤ result.1) × (at + result.1 ≤ length tables.now.code.now) }
{
    match fetch(tables.code, at) {
        Ok(instr) => (entry_of(instr, tables.has_long_operations), instr.len),
        Err(_) => (Entry::Unread, 1),
    }
}

/// The line of an offset.
#[tactic(auto, using(fact_texts::proofs::SixDigits::six_digits_written))]
fn line_of(alloc: Global, at: usize, bytes: &[u8], entry: Entry) -> Result<String, AllocError>
    ensures { IfOk result (λ line. string_bytes line ≡ line_of at bytes.now entry) }
{
    let bytes = hex::encode(alloc, bytes)?;
    format!(in alloc; "{at:06} {bytes} {entry}\n")
}

/// Appends the line of an offset, and returns how many bytes are listed there.
pub fn push_line(
    alloc: Global,
    text: &mut String,
    tables: &Tables<'_>,
    at: usize,
) -> Result<usize, AllocError>
    requires { at < length tables.now.code.now }
    ensures line { OnOk result
        (string_bytes text.new ≡ string_bytes text.old ++ listed_line (contents_of tables.now) at) }
    ensures size { IfOk result (λ size. size ≡ listed_size (contents_of tables.now) at) }
    ensures within { IfOk result (λ size. (1 ≤ size) × (at + size ≤ length tables.now.code.now)) }
{
    let (entry, size) = entry_at(tables, at);
    let line = line_of(alloc, at, &tables.code[at..at + size], entry)?;
    text.push_str(&line)?;
    Ok(size)
}

/// One line for each instruction of the code: the offset, the bytes and the name, with the operand of a
/// direct function. Where no instruction is read, the line is of one byte.
pub fn listing(alloc: Global, module: &Module<'_>) -> Result<String, AllocError>
    ensures { IfOk result (λ text. string_bytes text ≡ listing «module».now) }
{
    let tables = module.tables();
    let mut text = String::new(alloc);
    let mut at = 0;
    while at < tables.code.len() {
        at += push_line(alloc, &mut text, tables, at)?;
    }
    Ok(text)
}
