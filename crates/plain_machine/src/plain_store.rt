//! Memory as plain bytes.

ghost use Rattle.std.specs.Prelude.{◌≡◌, ◌+◌, ◌<◌, ◌≤◌, ◌^◌, ◌&&◌, ◌||◌, ◌==◌, nat_lt, nat_le, length, replicate, IfOk};
ghost use Rattle.std.specs.Prelude.{Some};
ghost use Rattle.prefix_decoder.specs.Operand.{IsRegister};
ghost use Rattle.machine_state.specs.LocalStep.{address, copied};
ghost use Rattle.machine_state.specs.Memory.{place_of, scheduling_word, with_byte};
ghost use Rattle.plain_machine.specs.Plain.{defined};
ghost use Rattle.plain_machine.specs.PlainByte.{byte_step, operand_after, IsByteSafe};
ghost use Rattle.plain_machine.specs.PlainRun.{CanRun, HasRun, TurnsWithin, executed_with, point_of};
ghost use Rattle.plain_machine.specs.PlainStep.{state_of, plain_word, plain_code_offset, with_plain_word, Does};
ghost use Rattle.plain_machine.specs.PlainStep.{HasWord, HasBytes, plain_byte};
ghost use Rattle.plain_machine.specs.Waiting.{parked};

use crate::decoding::DecodedCode;
use crate::flow::PlainFlow;
use crate::registers::PlainRegisters;
use crate::{bytes, bytewise, parking, running, words};
use machine_state::{End, LoadStore, Word, place_of};
use std::alloc::{AllocError, Global};
use std::marker::Model;

/// Memory as the T414 has it: bytes without tags. Each is defined, and may be read and written.
#[derive(Drop)]
pub struct PlainStore {
    bytes: Vec<u8>,
}

impl Model for PlainStore {
    ghost use Rattle.std.specs.Prelude.{List, ℕ};

    ghost Value = { List ℕ };

    ghost view = { λ s. s.bytes.items };
}

impl PlainStore {
    /// A memory of these bytes.
    pub fn new(bytes: Vec<u8>) -> Self
        ensures { result ≡ bytes.items }
    {
        PlainStore { bytes }
    }

    /// A memory of `size` bytes, each 0.
    ///
    /// # Errors
    ///
    /// If memory runs out.
    pub fn zeroed(alloc: Global, size: u32) -> Result<Self, AllocError>
        ensures { IfOk result (λ store. store ≡ replicate size 0) }
    {
        Ok(PlainStore {
            bytes: vec![in alloc; 0; size as usize]?,
        })
    }

    /// Executes this byte of the process that runs, of code that begins at this address: a prefix goes to the
    /// operand, and any other byte completes an instruction. `operand` is 0 between two instructions. Nothing is
    /// tested.
    #[inline(always)]
    pub(crate) fn execute_byte(
        &mut self,
        registers: &mut PlainRegisters,
        operand: &mut i32,
        byte: u8,
        code_start: u32,
    ) -> PlainFlow
        requires small { registers.old.at + 1 < 2 ^ 32 }
        requires register { IsRegister operand.old }
        requires safe { IsByteSafe byte operand.old (state_of registers.old self.old) }
        ensures step { let step = byte_step code_start byte operand.old (state_of registers.old self.old) in
            Does step result registers.new self.new }
        ensures operand { operand.new ≡ operand_after byte operand.old }
        ensures register { IsRegister operand.new }
    {
        bytewise::execute_byte(&mut self.bytes, registers, operand, byte, code_start)
    }

    /// Executes instructions of the process that runs, one after the other, until one asks something of others, of code
    /// that begins at this address. `executed` counts their bytes, but not the last one of what asks something. Returns
    /// what that leaves to be done; and nothing after a loop's end or a call with which `limit` bytes or more are
    /// counted, or if no instruction is to be read. Nothing is tested.
    #[inline(always)]
    pub(crate) fn run(
        &mut self,
        registers: &mut PlainRegisters,
        executed: &mut u64,
        code: &DecodedCode,
        code_start: u32,
        limit: u64,
    ) -> Option<PlainFlow>
        requires code { length code.now < 2 ^ 32 }
        requires can { CanRun code_start code.now executed.old (point_of registers.old self.old) }
        ensures run { let from = point_of registers.old self.old in
            HasRun code_start code.now from executed.old result (state_of registers.new self.new) executed.new }
        ensures turns { let from = point_of registers.old self.old in
            TurnsWithin code_start code.now from executed.old limit (executed_with result executed.new) }
    {
        running::execute_instructions(
            &mut self.bytes,
            registers,
            executed,
            code,
            code_start,
            limit,
        )
    }

    /// The process that runs leaves: its word W-1 takes the address where it goes on, of code that begins at this
    /// address.
    #[inline]
    pub(crate) fn park(&mut self, registers: &PlainRegisters, code_start: u32)
        requires { HasWord (defined self.old) (scheduling_word registers.now.workspace 0) }
        ensures { defined self.new ≡ parked code_start registers.now (defined self.old) }
    {
        parking::park(&mut self.bytes, registers, code_start);
    }

    /// The process with this workspace runs, where its word W-1 says. A, B and C are not its own, and stay.
    #[inline]
    pub(crate) fn resume(&self, registers: &mut PlainRegisters, code_start: u32, workspace: u32)
        requires { HasWord (defined self.now) (scheduling_word workspace 0) }
        ensures { let back = address (plain_word (defined self.now) (scheduling_word workspace 0)) in
            let offset = plain_code_offset code_start back in
            registers.new ≡ record registers.old { workspace = workspace; at = offset } }
    {
        parking::resume(&self.bytes, registers, code_start, workspace);
    }

    /// Writes the byte at an address in memory.
    #[inline]
    pub(crate) fn set_byte(&mut self, address: u32, byte: u8)
        requires { place_of address < length self.old }
        ensures { defined self.new ≡ with_byte (defined self.old) (place_of address) (Some byte) }
    {
        bytes::set_byte(&mut self.bytes, place_of(address) as usize, byte);
    }

    /// The byte at an address in memory.
    #[inline]
    pub(crate) fn byte(&self, address: u32) -> u8
        requires { place_of address < length self.now }
        ensures { result ≡ plain_byte (defined self.now) address }
    {
        words::load_byte(&self.bytes, address)
    }

    /// The word at an address in memory.
    #[inline]
    pub(crate) fn word(&self, address: u32) -> i32
        requires { HasWord (defined self.now) address }
        ensures { result ≡ plain_word (defined self.now) address }
    {
        words::load(&self.bytes, address)
    }

    /// Writes the word at an address in memory.
    #[inline]
    pub(crate) fn set_word(&mut self, address: u32, value: i32)
        requires { HasWord (defined self.old) address }
        ensures { defined self.new ≡ with_plain_word address value (defined self.old) }
    {
        words::store(&mut self.bytes, address, value);
    }

    /// `count` bytes from one address on go to another, as they were before. All lie in memory.
    #[inline]
    pub(crate) fn copy(&mut self, source: u32, target: u32, count: u32)
        requires source { HasBytes (defined self.old) source count }
        requires target { HasBytes (defined self.old) target count }
        ensures { let before = defined self.old in
            defined self.new ≡ copied before (place_of source) (place_of target) count before }
    {
        words::copy(&mut self.bytes, source, target, count);
    }

    /// Whether the place lies in memory.
    #[inline]
    fn has(&self, place: usize) -> bool
        ensures { result ≡ nat_lt place (length self.now) }
    {
        place < self.bytes.len()
    }

    /// Whether all of `count` places from this one on lie in memory.
    fn has_all(&self, place: u32, count: u32) -> bool
        ensures { result ≡ (count == 0) || nat_le (place + count) (length self.now) }
    {
        count == 0 || place as usize + count as usize <= self.bytes.len()
    }
}

#[tactic(auto, using(crate::proofs::PlainBytes::tests, crate::proofs::PlainBytes::bounds))]
impl LoadStore for PlainStore {
    ghost use Rattle.plain_machine.specs.Plain.{defined, all_memory, no_roles};

    ghost cells = { λ s. defined s };

    ghost holding = { λ s. all_memory (length s) };

    ghost roles = { λ s. no_roles };

    fn can_load_byte(&self, address: u32) -> bool {
        self.has(place_of(address) as usize)
    }

    fn can_store_byte(&self, address: u32) -> bool {
        self.has(place_of(address) as usize)
    }

    fn can_load_word(&self, address: u32) -> bool {
        self.has(place_of(address) as usize + 3)
    }

    fn can_store_word(&self, address: u32) -> bool {
        self.has(place_of(address) as usize + 3)
    }

    fn can_load_bytes(&self, address: u32, count: u32) -> bool {
        self.has_all(place_of(address), count)
    }

    fn can_store_bytes(&self, address: u32, count: u32) -> bool {
        self.has_all(place_of(address), count)
    }

    fn has_end(&self, _end: End) -> bool {
        false
    }

    fn defines_bytes(&self, address: u32, count: u32) -> bool {
        self.has_all(place_of(address), count)
    }

    #[inline]
    fn load_byte(&self, address: u32) -> Option<u8> {
        Some(bytes::byte_at(&self.bytes, place_of(address) as usize))
    }

    #[inline]
    fn write_byte(&mut self, address: u32, byte: u8) {
        bytes::set_byte(&mut self.bytes, place_of(address) as usize, byte);
    }

    #[inline]
    fn load_word(&self, address: u32) -> Word {
        Some(bytes::word_at(&self.bytes, place_of(address) as usize))
    }

    #[inline]
    fn write_word(&mut self, address: u32, value: i32) {
        bytes::set_word(&mut self.bytes, place_of(address) as usize, value);
    }

    #[tactic(auto, using(crate::proofs::PlainBytes::outside))]
    fn put_byte(&mut self, address: u32, byte: u8) {
        let place = place_of(address) as usize;
        if place < self.bytes.len() {
            bytes::set_byte(&mut self.bytes, place, byte);
        }
    }

    fn lend(&self, address: u32, count: u32) -> &[u8] {
        let place = place_of(address) as usize;
        match self.bytes.get(place..place + count as usize) {
            Some(bytes) => bytes,
            None => &[],
        }
    }

    fn copy_defined(&mut self, from: u32, to: u32, count: u32) {
        bytes::copy(
            &mut self.bytes,
            place_of(from) as usize,
            place_of(to) as usize,
            count as usize,
        );
    }
}
