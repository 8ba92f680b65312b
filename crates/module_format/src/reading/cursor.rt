//! A cursor over the bytes of a file, which keeps its first failure.
//!
//! Readers that are called in several places are inlined. Where no call takes a cursor's address, its fields stay in
//! registers, and reading takes half the time.
#![tactic(auto, unfolding(crate::proofs::Opening::reading_cursor))]

ghost use Rattle.std.specs.Prelude.{◌≤◌, length};
ghost use Rattle.module_format.specs.Order.{IsBytes};

use crate::fault::{FormatFault, FormatFaultKind, ReadError};
use byteorder::{ByteOrder, LittleEndian};
use std::alloc::Global;

/// What is left of a file. Once it has failed, it reads nothing and keeps that failure.
#[derive(Drop)]
pub(crate) struct Cursor<'a> {
    alloc: Global,
    failure: Option<ReadError>,
    rest: &'a [u8],
    size: usize,
    ghost fits: { IsBytes rest.now },
    ghost inside: { length rest.now ≤ size },
}

impl<'a> Cursor<'a> {
    ghost use Rattle.std.specs.Prelude.{◌≡◌, ◌≤◌, ◌+◌, ◌^◌, ◌<◌, ◌==◌, nat_eq, length, drop, min, IfSome, is_some};
    ghost use Rattle.std.specs.Prelude.{None};
    ghost use Rattle.std.specs.Prelude.{true, false};
    ghost use Rattle.std.specs.List.{starts_with};
    ghost use Rattle.module_format.specs.declared.fault.FormatFaultKind.TheVariants.{Truncated};
    ghost use Rattle.module_format.specs.Taking.{Takes, Stays, failure_after, failure_of, memory_after};
    ghost use Rattle.module_format.specs.Reading.{place, number_at, int_at, byte_taken, bytes_taken};

    /// At the front of a file.
    pub(crate) fn new(alloc: Global, bytes: &'a [u8]) -> Cursor<'a>
        ensures failure { result.failure ≡ None }
        ensures size { result.size ≡ length bytes.now }
        ensures rest { result.rest.now ≡ bytes.now }
    {
        Cursor {
            alloc,
            failure: None,
            rest: bytes,
            size: bytes.len(),
        }
    }

    /// The allocator of what is read.
    pub(crate) fn alloc(&self) -> Global
        ensures { result ≡ self.now.alloc }
    {
        self.alloc
    }

    /// The offset in the file of what is left of it.
    pub(crate) fn place(&self) -> usize
        ensures value { result ≡ place self.now.size self.now.rest.now }
        ensures fits { result + length self.now.rest.now < 2 ^ 64 }
    {
        self.size - self.rest.len()
    }

    /// As many as a number says, but no more than there are bytes left.
    pub(crate) fn at_most_left(&self, count: u32) -> usize
        ensures { result ≡ min (length self.now.rest.now) count }
    {
        self.rest.len().min(count as usize)
    }

    /// Whether nothing is left.
    pub(crate) fn is_at_end(&self) -> bool
        ensures { result ≡ (length self.now.rest.now == 0) }
    {
        self.rest.is_empty()
    }

    /// Whether there is a failure.
    pub(crate) fn has_failed(&self) -> bool
        ensures { result ≡ is_some self.now.failure }
    {
        self.failure.is_some()
    }

    /// The failure, if there is one.
    pub(crate) fn outcome(&self) -> Result<(), ReadError>
        ensures { self.now.failure ≡ failure_of result }
    {
        match self.failure {
            None => Ok(()),
            Some(failure) => Err(failure),
        }
    }

    /// Fails at an offset, unless it has failed before.
    pub(crate) fn fail(&mut self, at: usize, kind: FormatFaultKind)
        ensures failure { self.new.failure ≡ failure_after self.old.failure false kind at }
        ensures stays { Stays self.old self.new }
    {
        if self.failure.is_none() {
            self.failure = Some(ReadError::Fault(FormatFault::new(kind, at)));
        }
    }

    /// Fails with out of memory, unless it has failed before.
    pub(crate) fn run_out_of_memory(&mut self)
        ensures failure { self.new.failure ≡ memory_after self.old.failure }
        ensures stays { Stays self.old self.new }
    {
        if self.failure.is_none() {
            self.failure = Some(ReadError::Memory);
        }
    }

    /// Fails at an offset unless a test of the field there holds.
    pub(crate) fn check(&mut self, at: usize, holds: bool, kind: FormatFaultKind)
        ensures failure { self.new.failure ≡ failure_after self.old.failure holds kind at }
        ensures stays { Stays self.old self.new }
    {
        if !holds {
            self.fail(at, kind);
        }
    }

    /// Advances by `len` bytes, and returns what was left before them.
    fn advance(&mut self, len: usize) -> Option<&'a [u8]>
        ensures advanced { IfSome result (λ ahead. (self.old.failure ≡ None) × (self.new.failure ≡ None)
            × (len ≤ length self.old.rest.now)
            × (ahead.now ≡ self.old.rest.now) × (self.new.rest.now ≡ drop len self.old.rest.now)) }
        ensures failed { result ≡ None
            → (self.new.failure ≡ failure_after self.old.failure false Truncated self.old.size)
            × (self.old.failure ≡ None → length self.old.rest.now < len) }
        ensures same { self.new.size ≡ self.old.size }
    {
        if self.failure.is_some() {
            return None;
        }
        if self.rest.len() < len {
            self.fail(self.size, FormatFaultKind::Truncated);
            return None;
        }
        let ahead = self.rest;
        self.rest = &ahead[len..];
        Some(ahead)
    }

    /// Goes over the bytes of a text, if it is there.
    pub(crate) fn skip(&mut self, text: &[u8]) -> bool
        ensures skipped { result ≡ true → (self.old.failure ≡ None) × (self.new.failure ≡ None)
            × (starts_with nat_eq self.old.rest.now text.now ≡ true)
            × (self.new.rest.now ≡ drop (length text.now) self.old.rest.now) }
        ensures not_there { result ≡ false
            → (self.new.failure ≡ self.old.failure) × (self.new.rest.now ≡ self.old.rest.now)
            × (self.old.failure ≡ None → starts_with nat_eq self.old.rest.now text.now ≡ false) }
        ensures same { self.new.size ≡ self.old.size }
    {
        if self.failure.is_some() || !self.rest.starts_with(text) {
            return false;
        }
        self.rest = &self.rest[text.len()..];
        true
    }

    pub(crate) fn u8(&mut self) -> u8
        ensures { Takes byte_taken self.old result self.new }
    {
        match self.advance(1) {
            Some([byte, ..]) => *byte,
            _ => 0,
        }
    }

    pub(crate) fn u16(&mut self) -> u16
        ensures { Takes (λ size. number_at size 2) self.old result self.new }
    {
        match self.advance(2) {
            Some(ahead) => LittleEndian::read_u16(ahead),
            None => 0,
        }
    }

    pub(crate) fn u32(&mut self) -> u32
        ensures { Takes (λ size. number_at size 4) self.old result self.new }
    {
        match self.advance(4) {
            Some(ahead) => LittleEndian::read_u32(ahead),
            None => 0,
        }
    }

    pub(crate) fn u64(&mut self) -> u64
        ensures { Takes (λ size. number_at size 8) self.old result self.new }
    {
        match self.advance(8) {
            Some(ahead) => LittleEndian::read_u64(ahead),
            None => 0,
        }
    }

    pub(crate) fn i32(&mut self) -> i32
        ensures { Takes int_at self.old result self.new }
    {
        match self.advance(4) {
            Some(ahead) => LittleEndian::read_i32(ahead),
            None => 0,
        }
    }

    /// As many bytes as a length says.
    pub(crate) fn bytes(&mut self, len: u32) -> &'a [u8]
        ensures { Takes (λ size. bytes_taken size len) self.old result.now self.new }
    {
        let len = len as usize;
        match self.advance(len) {
            Some(ahead) => &ahead[..len],
            None => &[],
        }
    }
}
