//! The three registers of an evaluation stack.

ghost use Rattle.std.specs.Prelude.{◌≡◌};
ghost use Rattle.module_format.specs.Stack.{of_empty, pushed, popped, reversed};

/// Three registers as a stack: A is on top.
#[derive(Clone, Copy, PartialEq, Eq)]
pub struct Stack<T> {
    pub a: T,
    pub b: T,
    pub c: T,
}

impl<T: Copy> Stack<T> {
    /// The same in all three registers, as in an empty stack.
    pub fn of_empty(empty: T) -> Self
        ensures { result ≡ of_empty empty }
    {
        Stack {
            a: empty,
            b: empty,
            c: empty,
        }
    }

    /// Puts a value on top. What was in C is lost.
    pub fn push(&mut self, value: T)
        ensures { self.new ≡ pushed value self.old }
    {
        self.c = self.b;
        self.b = self.a;
        self.a = value;
    }

    /// Drops the top. C is empty afterwards.
    pub fn pop(&mut self, empty: T)
        ensures { self.new ≡ popped empty self.old }
    {
        self.a = self.b;
        self.b = self.c;
        self.c = empty;
    }

    /// Exchanges A and B.
    pub fn reverse(&mut self)
        ensures { self.new ≡ reversed self.old }
    {
        std::mem::swap(&mut self.a, &mut self.b);
    }
}
