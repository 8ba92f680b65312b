//! Memory, and the ready processes that are kept in it.

ghost use Rattle.std.specs.Prelude.{◌≡◌, ℕ, ◌+◌, ◌<◌, ◌^◌, [], ◌∷◌, ◌++◌, ◌==◌, length, Some, IsTrue};
ghost use Rattle.std.specs.List.{remove};
ghost use Rattle.prefix_decoder.specs.Operand.{IsRegister};
ghost use Rattle.machine_state.specs.Exchanges.{bytes_at};
ghost use Rattle.machine_state.specs.LocalStep.{are_defined, copied};
ghost use Rattle.machine_state.specs.Memory.{place_of, scheduling_word, with_byte};
ghost use Rattle.process_queue.specs.Keeping.{AgreesOnKept, ChangesKept};
ghost use Rattle.process_queue.specs.Picking.{place_of_pick};
ghost use Rattle.plain_machine.specs.Linked.{keeps_link};
ghost use Rattle.plain_machine.specs.Plain.{defined};
ghost use Rattle.plain_machine.specs.PlainByte.{byte_step, operand_after, IsByteSafe};
ghost use Rattle.plain_machine.specs.PlainRun.{PlainPoint, CanRun, HasRun, LinksStay, RunsTo, point_in};
ghost use Rattle.plain_machine.specs.PlainRun.{TurnsWithin, executed_with};
ghost use Rattle.plain_machine.specs.PlainStep.{PlainState, leaves, HasWord, HasBytes};
ghost use Rattle.plain_machine.specs.PlainStep.{plain_byte, plain_word, with_plain_word};
ghost use Rattle.plain_machine.specs.Waiting.{ReadyMemory, parked, picked, resumed_at};
ghost use Rattle.plain_machine.specs.Waiting.{CanPushBehind, AllCanResume};

use crate::decoding::DecodedCode;
use crate::flow::PlainFlow;
use crate::plain_store::PlainStore;
use crate::registers::PlainRegisters;
use crate::workspace_queue::WorkspaceQueue;
use machine_state::LoadStore;
use process_queue::ReadyQueue;
use std::marker::Model;

/// Memory as plain bytes, and the ready processes, each of which is kept in its workspace: word W-1 has the address
/// where it goes on, and word W-2 the workspace of the next one. Nothing is allocated.
#[derive(Drop)]
pub struct Workspaces {
    store: PlainStore,
    queue: WorkspaceQueue,
}

impl Model for Workspaces {
    ghost use Rattle.std.specs.Prelude.{length};
    ghost use Rattle.plain_machine.specs.Linked.{linked, IsIntact};
    ghost use Rattle.plain_machine.specs.Plain.{defined, all_memory};
    ghost use Rattle.plain_machine.specs.Waiting.{ReadyMemory};

    ghost Value = { ReadyMemory };

    ghost view = { λ w. record {
      memory = defined w.store;
      ready = linked (defined w.store) w.queue.front w.queue.length;
    } };

    ghost invariant = { λ w.
        IsIntact (defined w.store) (all_memory (length w.store)) w.queue.front w.queue.back w.queue.length };
}

impl Workspaces {
    /// This memory, with no ready process.
    pub fn new(store: PlainStore) -> Self
        ensures { result ≡ record { memory = defined store; ready = [] } }
    {
        Workspaces {
            store,
            queue: WorkspaceQueue::new(),
        }
    }

    /// Executes this byte of the process that runs, of code that begins at this address: a prefix goes to the
    /// operand, and any other byte completes an instruction. `operand` is 0 between two instructions. Nothing is
    /// tested: the byte is safe, and changes no link of a ready process.
    #[inline(always)]
    pub fn execute_byte(
        &mut self,
        registers: &mut PlainRegisters,
        operand: &mut i32,
        byte: u8,
        code_start: u32,
    ) -> PlainFlow
        requires small { registers.old.at + 1 < 2 ^ 32 }
        requires register { IsRegister operand.old }
        requires safe { IsByteSafe byte operand.old (record { registers = registers.old; memory = self.old.memory }) }
        requires links { let from : PlainState = record { registers = registers.old; memory = self.old.memory } in
            let after = (byte_step code_start byte operand.old from).state.memory in
            AgreesOnKept keeps_link self.old.ready self.old.memory after }
        ensures step { let from : PlainState = record { registers = registers.old; memory = self.old.memory } in
            let step = byte_step code_start byte operand.old from in
            leaves result (record { registers = registers.new; memory = self.new.memory }) ≡ step }
        ensures ready { self.new.ready ≡ self.old.ready }
        ensures operand { operand.new ≡ operand_after byte operand.old }
        ensures register { IsRegister operand.new }
    {
        self.store
            .execute_byte(registers, operand, byte, code_start)
    }

    /// Executes instructions of the process that runs, one after the other, until one asks something of others, of code
    /// that begins at this address. `executed` counts their bytes, but not the last one of what asks something. Returns
    /// what that leaves to be done; and nothing after a loop's end or a call with which `limit` bytes or more are
    /// counted, or if no instruction is to be read. Nothing is tested: however far that goes, the next byte is safe, and
    /// no link of a ready process has changed.
    #[inline(always)]
    pub fn run(
        &mut self,
        registers: &mut PlainRegisters,
        executed: &mut u64,
        code: &DecodedCode,
        code_start: u32,
        limit: u64,
    ) -> Option<PlainFlow>
        requires code { length code.now < 2 ^ 32 }
        requires can { CanRun code_start code.now executed.old (point_in registers.old self.old.memory) }
        requires links { (n : ℕ) (p : PlainPoint)
            → RunsTo code_start code.now (point_in registers.old self.old.memory) n p
            → LinksStay code_start code.now self.old.ready self.old.memory p }
        ensures run { let from = point_in registers.old self.old.memory in
            let to : PlainState = record { registers = registers.new; memory = self.new.memory } in
            HasRun code_start code.now from executed.old result to executed.new }
        ensures turns { let from = point_in registers.old self.old.memory in
            TurnsWithin code_start code.now from executed.old limit (executed_with result executed.new) }
        ensures ready { self.new.ready ≡ self.old.ready }
    {
        self.store.run(registers, executed, code, code_start, limit)
    }

    /// The process with these registers leaves: its word W-1 takes the address where it goes on, of code that begins at
    /// this address. No link of a ready process is there.
    #[inline]
    pub fn park(&mut self, registers: &PlainRegisters, code_start: u32)
        requires word { HasWord self.old.memory (scheduling_word registers.now.workspace 0) }
        requires links { let after = parked code_start registers.now self.old.memory in
            AgreesOnKept keeps_link self.old.ready self.old.memory after }
        ensures memory { self.new.memory ≡ parked code_start registers.now self.old.memory }
        ensures ready { self.new.ready ≡ self.old.ready }
    {
        self.store.park(registers, code_start);
    }

    /// The byte goes to this address, which lies in memory. No link of a ready process is there.
    pub fn set_byte(&mut self, address: u32, byte: u8)
        requires inside { place_of address < length self.old.memory }
        requires links { let after = with_byte self.old.memory (place_of address) (Some byte) in
            AgreesOnKept keeps_link self.old.ready self.old.memory after }
        ensures memory { self.new.memory ≡ with_byte self.old.memory (place_of address) (Some byte) }
        ensures ready { self.new.ready ≡ self.old.ready }
    {
        self.store.set_byte(address, byte);
    }

    /// The byte at this address, which lies in memory.
    #[inline]
    pub fn byte(&self, address: u32) -> u8
        requires { place_of address < length self.now.memory }
        ensures { result ≡ plain_byte self.now.memory address }
    {
        self.store.byte(address)
    }

    /// The word at this address, which lies in memory.
    #[inline]
    pub fn word(&self, address: u32) -> i32
        requires { HasWord self.now.memory address }
        ensures { result ≡ plain_word self.now.memory address }
    {
        self.store.word(address)
    }

    /// The word goes to this address, which lies in memory. No link of a ready process is there.
    #[inline]
    pub fn set_word(&mut self, address: u32, value: i32)
        requires inside { HasWord self.old.memory address }
        requires links { let after = with_plain_word address value self.old.memory in
            AgreesOnKept keeps_link self.old.ready self.old.memory after }
        ensures memory { self.new.memory ≡ with_plain_word address value self.old.memory }
        ensures ready { self.new.ready ≡ self.old.ready }
    {
        self.store.set_word(address, value);
    }

    /// `count` bytes from one address on go to another, as they were before. All lie in memory, and no link of a ready
    /// process is where they go.
    #[inline]
    pub fn copy(&mut self, source: u32, target: u32, count: u32)
        requires source { HasBytes self.old.memory source count }
        requires target { HasBytes self.old.memory target count }
        requires links { let before = self.old.memory in
            let after = copied before (place_of source) (place_of target) count before in
            AgreesOnKept keeps_link self.old.ready before after }
        ensures memory { let before = self.old.memory in
            self.new.memory ≡ copied before (place_of source) (place_of target) count before }
        ensures ready { self.new.ready ≡ self.old.ready }
    {
        self.store.copy(source, target, count);
    }

    /// `count` bytes from the address on, all of which lie in memory.
    pub fn lend(&self, address: u32, count: u32) -> &[u8]
        requires { IsTrue (are_defined self.now.memory address count) }
        ensures { result.now ≡ bytes_at self.now.memory (place_of address) count }
    {
        self.store.lend(address, count)
    }

    /// The process with this workspace is ready, after all that are. Of memory only links change.
    #[inline]
    pub fn push(&mut self, workspace: u32)
        requires { CanPushBehind (length self.old.memory) self.old.ready workspace }
        ensures ready { self.new.ready ≡ self.old.ready ++ workspace ∷ [] }
        ensures memory { ChangesKept keeps_link self.new.ready self.old.memory self.new.memory }
    {
        self.queue.push_back(&mut self.store, u64::from(workspace));
    }

    /// Whether no process is ready.
    #[inline]
    pub fn is_empty(&self) -> bool
        ensures { result ≡ (length self.now.ready == 0) }
    {
        ReadyQueue::<PlainStore>::is_empty(&self.queue)
    }

    /// The ready process number `pick`, counted round the list, is taken out, and runs where its word W-1 says, in code
    /// that begins at this address. A, B and C are not its own, and stay. Of memory only links change.
    #[inline(always)]
    pub fn resume_next(&mut self, registers: &mut PlainRegisters, code_start: u32, pick: u64)
        requires filled { 0 < length self.old.ready }
        requires words { AllCanResume (length self.old.memory) self.old.ready }
        ensures registers { let next = picked pick self.old.ready in
            registers.new ≡ resumed_at code_start self.old.memory next registers.old }
        ensures ready { let ready = self.old.ready in self.new.ready ≡ remove ready (place_of_pick pick ready) }
        ensures memory { ChangesKept keeps_link self.old.ready self.old.memory self.new.memory }
    {
        let workspace = self.queue.take(&mut self.store, pick as usize);
        self.store.resume(registers, code_start, workspace);
    }
}
