//! How a process gives up its turn, and takes it again.

ghost use Rattle.std.specs.Prelude.{◌≡◌};
ghost use Rattle.machine_state.specs.LocalStep.{address, word_of};
ghost use Rattle.machine_state.specs.Memory.{scheduling_word};
ghost use Rattle.plain_machine.specs.Plain.{defined};
ghost use Rattle.plain_machine.specs.PlainStep.{state_of, plain_word, with_plain_word, plain_code_address};
ghost use Rattle.plain_machine.specs.PlainStep.{plain_code_offset, HasWord};

use crate::registers::PlainRegisters;
use crate::words::{load, store};
use machine_state::local_address;

/// The process that runs leaves: its word W-1 takes the address where it goes on, of code that begins at this address.
#[inline]
pub fn park(bytes: &mut [u8], registers: &PlainRegisters, code_start: u32)
    requires { HasWord (defined bytes.old) (scheduling_word registers.now.workspace 0) }
    ensures { let back = word_of (plain_code_address code_start (state_of registers.now bytes.old)) in
        defined bytes.new ≡ with_plain_word (scheduling_word registers.now.workspace 0) back (defined bytes.old) }
{
    let back = registers.code_address(code_start).cast_signed();
    store(bytes, local_address(registers.workspace, -1), back);
}

/// The process with this workspace runs, where its word W-1 says. A, B and C are not its own, and stay.
#[inline]
pub fn resume(bytes: &[u8], registers: &mut PlainRegisters, code_start: u32, workspace: u32)
    requires { HasWord (defined bytes.now) (scheduling_word workspace 0) }
    ensures { let back = address (plain_word (defined bytes.now) (scheduling_word workspace 0)) in
        let offset = plain_code_offset code_start back in
        registers.new ≡ record registers.old { workspace = workspace; at = offset } }
{
    let back = load(bytes, local_address(workspace, -1)).cast_unsigned();
    registers.workspace = workspace;
    registers.at = back.wrapping_sub(code_start);
}
