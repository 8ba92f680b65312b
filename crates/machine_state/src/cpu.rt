//! The running process, and what its instructions ask.

ghost use Rattle.std.specs.Prelude.{◌≡◌, ◌+◌, ◌-◌, ◌%◌, ◌^◌, ◌≤◌, ◌==◌, ◌&&◌, not, nat_lt, int_le, nat_abs, pos};
ghost use Rattle.std.specs.Prelude.{negsuc};
ghost use Rattle.std.specs.Prelude.{IfOk, IsTrue, false};
ghost use Rattle.std.specs.Option.{ok_or};
ghost use Rattle.std.specs.Int.{w32, cast_unsigned};
ghost use Rattle.machine_state.specs.Holding.{may_write, may_read, may_write_word, may_read_word};
ghost use Rattle.machine_state.specs.LocalStep.{outside_alternation, outside_starts, alone, while_enabling};
ghost use Rattle.machine_state.specs.LocalStep.{while_disabling, target, channel};
ghost use Rattle.machine_state.specs.LocalStep.{holds_scheduling_words, without_scheduling_words};
ghost use Rattle.machine_state.specs.LocalStep.{may_read_bytes, may_write_bytes, are_defined, places_meet};
ghost use Rattle.machine_state.specs.LocalStep.{is_beside_scheduling};
ghost use Rattle.machine_state.specs.Memory.{place_of, local_address, word_at, byte_at};
ghost use Rattle.machine_state.specs.Performing.{site_of, value_or_fault, Admits, Finds};

use crate::address::{local_address, place_of};
use crate::fault::FaultKind;
use crate::holding::End;
use crate::process::{Mode, Registers, Word};
use crate::request::Request;
use crate::store::Store;
use module_format::Direction;

/// The running process over a store.
#[derive(Drop)]
pub struct Cpu<S> {
    pub registers: Registers,
    pub mode: Mode,
    /// The address of the first byte of the code.
    pub code_start: u32,
    /// The bytes of the code.
    pub code_length: u32,
    /// Whether the module has the operations of two words.
    pub has_long_operations: bool,
    pub store: S,
}

/// Whether `size` bytes at one address meet `other_size` bytes at another.
fn places_meet(one: u32, size: u32, other: u32, other_size: u32) -> bool
    ensures { result ≡ places_meet (place_of one) size (place_of other) other_size }
{
    let one = u64::from(place_of(one));
    let other = u64::from(place_of(other));
    one < other + u64::from(other_size) && other < one + u64::from(size)
}

/// How a process goes on after an instruction, or what it asks of others.
#[derive(Clone, Copy)]
pub enum Flow {
    /// After the instruction.
    Next,
    /// At a code offset, by an instruction after which the process may go to the back of the ready list.
    Jump { to: u32 },
    /// At a code offset, by an instruction after which the process goes on.
    Land { to: u32 },
    /// It stops for good.
    Stop,
    /// It asks this of others, and continues as the one that grants it says.
    Ask(Request),
}

impl<S> Cpu<S> {
    /// The value of a register that an instruction uses: it is defined, else `Undefined`.
    pub fn used(&self, register: Word) -> Result<i32, FaultKind>
        ensures { result ≡ ok_or register FaultKind.Undefined }
    {
        register.ok_or(FaultKind::Undefined)
    }

    /// The result of an operation: there is one, else `ErrorFlag`.
    pub fn computed(&self, value: Option<i32>) -> Result<i32, FaultKind>
        ensures { result ≡ ok_or value FaultKind.ErrorFlag }
    {
        value.ok_or(FaultKind::ErrorFlag)
    }

    /// The code offset after the present instruction, whose last byte is at `at`.
    pub fn next(&self) -> u64
        ensures { result ≡ self.now.registers.at + 1 }
    {
        u64::from(self.registers.at) + 1
    }

    /// Passes where a test holds, else this fault.
    pub fn check(&self, holds: bool, kind: FaultKind) -> Result<(), FaultKind>
        ensures { result ≡ value_or_fault holds tt kind }
    {
        if holds { Ok(()) } else { Err(kind) }
    }

    /// The address of a word that a register holds: it is a multiple of 4, else `Unaligned`.
    pub fn aligned(&self, value: i32) -> Result<u32, FaultKind>
        ensures { let at = cast_unsigned w32 value in
            result ≡ value_or_fault (at % 4 == 0) at FaultKind.Unaligned }
    {
        let address = value.cast_unsigned();
        self.check(address % 4 == 0, FaultKind::Unaligned)?;
        Ok(address)
    }

    /// A count from the least to the most, else `CountRange`.
    pub fn count(&self, least: u32, most: u32, value: i32) -> Result<u32, FaultKind>
        ensures value { let holds = int_le (pos least) value && int_le value (pos most) in
            result ≡ value_or_fault holds (nat_abs value) FaultKind.CountRange }
        ensures bounds { IfOk result (λ n. (least ≤ n) × (n ≤ most)) }
    {
        let number = i64::from(value);
        let is_between = i64::from(least) <= number && number <= i64::from(most);
        self.check(is_between, FaultKind::CountRange)?;
        Ok(value.unsigned_abs())
    }

    /// Passes where the offset lies in the code, else `OutsideCode`.
    pub fn in_code(&self, offset: u64) -> Result<(), FaultKind>
        ensures { result ≡ value_or_fault (nat_lt offset self.now.code_length) tt FaultKind.OutsideCode }
    {
        self.check(offset < u64::from(self.code_length), FaultKind::OutsideCode)
    }

    /// Passes outside alternations, else `AlternationOrder`.
    #[tactic(auto, unfolding(crate::specs::LocalStep::outside_alternation))]
    pub fn outside_alternation(&self) -> Result<(), FaultKind>
        ensures { Admits result (outside_alternation self.now.mode) }
    {
        match self.mode {
            Mode::Plain | Mode::Starting => Ok(()),
            Mode::Enabling { .. } | Mode::Disabling { .. } => Err(FaultKind::AlternationOrder),
        }
    }

    /// Passes outside the starts of a PAR, else `JoinOrder`.
    #[tactic(auto, unfolding(crate::specs::LocalStep::outside_starts))]
    pub fn outside_starts(&self) -> Result<(), FaultKind>
        ensures { Admits result (outside_starts self.now.mode) }
    {
        match self.mode {
            Mode::Plain | Mode::Enabling { .. } | Mode::Disabling { .. } => Ok(()),
            Mode::Starting => Err(FaultKind::JoinOrder),
        }
    }

    /// Passes outside alternations and the starts of a PAR, else `AlternationOrder` or `JoinOrder`.
    pub fn alone(&self) -> Result<(), FaultKind>
        ensures { Admits result (alone self.now.mode) }
    {
        self.outside_alternation()?;
        self.outside_starts()
    }

    /// Passes between `alt` and `altwt`, else `AlternationOrder` or `JoinOrder`.
    #[tactic(auto, unfolding(crate::specs::LocalStep::while_enabling))]
    pub fn while_enabling(&self) -> Result<(), FaultKind>
        ensures { Admits result (while_enabling self.now.mode) }
    {
        match self.mode {
            Mode::Enabling { .. } => Ok(()),
            Mode::Plain | Mode::Disabling { .. } => Err(FaultKind::AlternationOrder),
            Mode::Starting => Err(FaultKind::JoinOrder),
        }
    }

    /// What is selected between `altwt` and `altend`; elsewhere `AlternationOrder` or `JoinOrder`.
    #[tactic(auto, unfolding(crate::specs::LocalStep::while_disabling))]
    pub fn while_disabling(&self) -> Result<Word, FaultKind>
        ensures { Finds result (while_disabling self.now.mode) }
    {
        match self.mode {
            Mode::Disabling { selection } => Ok(selection),
            Mode::Plain | Mode::Enabling { .. } => Err(FaultKind::AlternationOrder),
            Mode::Starting => Err(FaultKind::JoinOrder),
        }
    }

    /// Whether `count` bytes at an address are apart from the three words that scheduling takes.
    pub fn is_apart_from_scheduling(&self, address: u32, count: u32) -> bool
        ensures { let lowest = place_of (local_address self.now.registers.workspace (negsuc 2)) in
            result ≡ not (places_meet (place_of address) count lowest 12) }
    {
        !places_meet(
            address,
            count,
            local_address(self.registers.workspace, -3),
            12,
        )
    }

    /// Whether `count` bytes at an address are apart from each of these words, wherever it lies.
    fn is_beside_scheduling(&self, address: u32, count: u32) -> bool
        ensures { result ≡ is_beside_scheduling self.now.registers.workspace (place_of address) count }
    {
        let workspace = self.registers.workspace;
        !places_meet(address, count, local_address(workspace, -1), 4)
            && !places_meet(address, count, local_address(workspace, -2), 4)
            && !places_meet(address, count, local_address(workspace, -3), 4)
    }

    /// The code offset at a distance from the next instruction, modulo 2^32.
    pub fn target(&self, distance: i32) -> u32
        ensures { result ≡ target (self.now.registers.at + 1) distance }
    {
        self.registers
            .at
            .wrapping_add(1)
            .wrapping_add_signed(distance)
    }

    /// The address after the present instruction, modulo 2^32.
    pub fn next_address(&self) -> u32
        ensures { result ≡ (self.now.code_start + (self.now.registers.at + 1)) % 2 ^ 32 }
    {
        self.code_start.wrapping_add(self.target(0))
    }

    /// The code offset of an address, modulo 2^32.
    pub fn code_offset(&self, address: u32) -> u32
        ensures { result ≡ (address + 2 ^ 32 - self.now.code_start) % 2 ^ 32 }
    {
        address.wrapping_sub(self.code_start)
    }
}

impl<S: Store> Cpu<S> {
    /// The word at an address that may be read, else `NotOwn`.
    pub fn read(&self, address: u32) -> Result<Word, FaultKind>
        ensures { let place = place_of address in
            let can_load = may_read_word (S.holding self.now.store) place in
            result ≡ value_or_fault can_load (word_at (S.cells self.now.store) place) FaultKind.NotOwn }
    {
        self.check(self.store.can_load_word(address), FaultKind::NotOwn)?;
        Ok(self.store.load_word(address))
    }

    /// The address of a channel of which the process holds this end: it is a multiple of 4, else `Unaligned`, and the
    /// end is held, else `EndNotHeld`.
    #[tactic(auto, unfolding(crate::specs::LocalStep::channel, crate::specs::LocalStep::aligned, crate::specs::LocalStep::holds))]
    pub fn channel(&self, value: i32, direction: Direction) -> Result<u32, FaultKind>
        ensures { Finds result (channel (site_of S.LoadStore self.now) value direction) }
    {
        let address = self.aligned(value)?;
        self.check(
            self.store.has_end(End { address, direction }),
            FaultKind::EndNotHeld,
        )?;
        Ok(address)
    }

    /// The byte at an address that may be read, else `NotOwn`.
    pub fn read_byte(&self, address: u32) -> Result<Option<u8>, FaultKind>
        ensures { let place = place_of address in
            let can_load = may_read (S.holding self.now.store) place in
            result ≡ value_or_fault can_load (byte_at (S.cells self.now.store) place) FaultKind.NotOwn }
    {
        self.check(self.store.can_load_byte(address), FaultKind::NotOwn)?;
        Ok(self.store.load_byte(address))
    }

    /// Passes where the byte at an address may be written, else `NotOwn`.
    pub fn writable_byte(&self, address: u32) -> Result<(), FaultKind>
        ensures { let can_store = may_write (S.holding self.now.store) (place_of address) in
            result ≡ value_or_fault can_store tt FaultKind.NotOwn }
    {
        self.check(self.store.can_store_byte(address), FaultKind::NotOwn)
    }

    /// Whether `count` bytes may be read at one address and written at another, and the two blocks do not meet.
    pub fn may_copy(&self, from: u32, to: u32, count: u32) -> bool
        ensures value { let holding = S.holding self.now.store in
            let apart = not (places_meet (place_of from) count (place_of to) count) in
            result ≡ (may_read_bytes holding from count && may_write_bytes holding to count && apart) }
        ensures apart { IsTrue result → places_meet (place_of from) count (place_of to) count ≡ false }
    {
        self.store.can_load_bytes(from, count)
            && self.store.can_store_bytes(to, count)
            && !places_meet(from, count, to, count)
    }

    /// Whether `count` bytes at an address are defined once the three words that scheduling takes are not.
    #[tactic(auto, using(crate::proofs::Defined::defined_once_scheduled))]
    pub fn stays_defined(&self, address: u32, count: u32) -> bool
        requires { 1 ≤ count }
        ensures { let later = without_scheduling_words (S.cells self.now.store) self.now.registers.workspace in
            result ≡ are_defined later address count }
    {
        self.store.defines_bytes(address, count) && self.is_beside_scheduling(address, count)
    }

    /// The value of the word at an address that may be written: it is defined, else `Undefined`.
    pub fn own_word(&self, address: u32) -> Result<i32, FaultKind>
        requires { IsTrue (may_write_word (S.holding self.now.store) (place_of address)) }
        ensures { let word = word_at (S.cells self.now.store) (place_of address) in
            result ≡ ok_or word FaultKind.Undefined }
    {
        self.used(self.store.load_word(address))
    }

    /// Passes where the word at an address may be written, else `NotOwn`.
    pub fn writable(&self, address: u32) -> Result<(), FaultKind>
        ensures { let can_store = may_write_word (S.holding self.now.store) (place_of address) in
            result ≡ value_or_fault can_store tt FaultKind.NotOwn }
    {
        self.check(self.store.can_store_word(address), FaultKind::NotOwn)
    }

    /// Passes where the process may write the three words below its workspace, which scheduling takes, else
    /// `NotOwn`.
    pub fn schedulable(&self) -> Result<(), FaultKind>
        ensures { let holds = holds_scheduling_words (S.holding self.now.store) self.now.registers.workspace in
            result ≡ value_or_fault holds tt FaultKind.NotOwn }
    {
        let workspace = self.registers.workspace;
        self.writable(local_address(workspace, -1))?;
        self.writable(local_address(workspace, -2))?;
        self.writable(local_address(workspace, -3))
    }

    /// Makes the three words below the workspace undefined, as scheduling leaves them.
    pub fn clear_scheduling_words(&mut self)
        requires { IsTrue (holds_scheduling_words (S.holding self.old.store) self.old.registers.workspace) }
        ensures memory { let before = S.cells self.old.store in
            S.cells self.new.store ≡ without_scheduling_words before self.old.registers.workspace }
        ensures holding { S.holding self.new.store ≡ S.holding self.old.store }
        ensures roles { S.roles self.new.store ≡ S.roles self.old.store }
        ensures rest { self.new ≡ record self.old { store = self.new.store } }
    {
        let workspace = self.registers.workspace;
        self.store.store_word(local_address(workspace, -1), None);
        self.store.store_word(local_address(workspace, -2), None);
        self.store.store_word(local_address(workspace, -3), None);
    }
}
