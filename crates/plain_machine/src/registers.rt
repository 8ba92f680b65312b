//! The registers of the process that runs.

ghost use Rattle.std.specs.Prelude.{◌≡◌, ◌+◌, ◌%◌, ◌^◌};
ghost use Rattle.machine_state.specs.LocalStep.{target};
ghost use Rattle.module_format.specs.Stack.{with_top};

use module_format::Stack;

/// The registers of the process that runs, as the T414 has them: each has some value.
#[derive(Clone, Copy)]
pub struct PlainRegisters {
    /// The address of its workspace, a multiple of 4.
    pub workspace: u32,
    /// The code offset of the next byte.
    pub at: u32,
    pub stack: Stack<i32>,
}

impl PlainRegisters {
    ghost use Rattle.plain_machine.specs.PlainStep.{plain_popped};

    /// A is dropped, and C stays.
    #[inline]
    pub(crate) fn pop(&mut self)
        ensures { self.new ≡ record self.old { stack = plain_popped self.old.stack } }
    {
        let last = self.stack.c;
        self.stack.pop(last);
    }

    /// A is this value from now on.
    #[inline]
    pub(crate) fn set_top(&mut self, value: i32)
        ensures { self.new ≡ record self.old { stack = with_top value self.old.stack } }
    {
        self.stack.a = value;
    }

    /// A and B are these values from now on.
    #[inline]
    pub(crate) fn set_two(&mut self, top: i32, second: i32)
        ensures { self.new ≡ record self.old { stack = record self.old.stack { a = top; b = second } } }
    {
        self.stack.a = top;
        self.stack.b = second;
    }

    /// The value takes the place of A and B, and C stays.
    #[inline]
    pub(crate) fn replace_two(&mut self, value: i32)
        ensures { self.new ≡ record self.old { stack = with_top value (plain_popped self.old.stack) } }
    {
        self.pop();
        self.set_top(value);
    }

    /// The code offset that lies so far from the next byte, modulo 2^32.
    #[inline]
    pub(crate) fn target(&self, distance: i32) -> u32
        ensures { result ≡ target self.now.at distance }
    {
        self.at.wrapping_add_signed(distance)
    }

    /// The address of the next byte in a code that begins at this address, modulo 2^32.
    #[inline]
    pub(crate) fn code_address(&self, code_start: u32) -> u32
        ensures { result ≡ (code_start + self.now.at) % 2 ^ 32 }
    {
        code_start.wrapping_add(self.at)
    }
}
