//! What is known at the beginning, in the branches, and after a block of branches.

ghost use Rattle.std.specs.Prelude.{◌≡◌, OnOk, OnErr};
ghost use Rattle.occam_parser.specs.Views.{expression_of};
ghost use Rattle.scalar_ranges.specs.Moves.{begin, begin_par, exclude, next, next_component};
ghost use Rattle.scalar_ranges.specs.Moves.{end};
ghost use Rattle.scalar_ranges.specs.Changes.{begin_with};
ghost use Rattle.scalar_ranges.specs.Scopes.{known_of};

use crate::narrowing::{as_holds, test_of};
use crate::scope::Scope;
use occam_parser::Expr;
use std::alloc::AllocError;

impl Scope<'_> {
    /// An `IF` or an `ALT` begins, with its first branch. A choice of an `IF` begins with
    /// [`exclude`](Scope::exclude). Each branch ends with [`next`](Scope::next), and after the last one the block ends
    /// with [`end`](Scope::end). If memory runs out, all is as it was.
    pub fn begin(&mut self) -> Result<(), AllocError>
        ensures ok { OnOk result (known_of self.new ≡ begin (known_of self.old)) }
        ensures err { OnErr result (known_of self.new ≡ known_of self.old) }
    {
        self.enter(false)
    }

    /// A `PAR` begins, with its first component. Each component ends with
    /// [`next_component`](Scope::next_component), and after the last one the block ends with [`end`](Scope::end). If
    /// memory runs out, all is as it was.
    pub fn begin_par(&mut self) -> Result<(), AllocError>
        ensures ok { OnOk result (known_of self.new ≡ begin_par (known_of self.old)) }
        ensures err { OnErr result (known_of self.new ≡ known_of self.old) }
    {
        self.enter(true)
    }

    /// A block begins, which has ends if it is a `PAR`. If memory runs out, all is as it was.
    fn enter(&mut self, ended: bool) -> Result<(), AllocError>
        ensures ok { OnOk result (known_of self.new ≡ begin_with ended (known_of self.old)) }
        ensures err { OnErr result (known_of self.new ≡ known_of self.old) }
    {
        self.known.begin(self.alloc, ended)
    }

    /// A branch ends, and the next one begins as the first one did. It takes no memory.
    pub fn next(&mut self)
        ensures { known_of self.new ≡ next (known_of self.old) }
    {
        self.known.next();
        self.names.truncate(self.known.len());
    }

    /// A choice of an `IF` begins: the further ones begin where its condition does not hold. After this call,
    /// [`narrow_by`](crate::narrow_by) says that it holds in this one. It takes no memory.
    pub fn exclude(&mut self, condition: &Expr)
        ensures { known_of self.new ≡ exclude (expression_of condition.now) (known_of self.old) }
    {
        if let Some(test) = test_of(self, condition) {
            if let Some(number) = self.find(test.name) {
                let comparison = as_holds(false, test.comparison);
                self.known.put_start(number, comparison, test.constant);
            }
        }
    }

    /// A component of a `PAR` ends, which changed the variables with these numbers, and the next one begins. It takes
    /// no memory.
    pub fn next_component(&mut self, numbers: &[usize])
        ensures { known_of self.new ≡ next_component numbers.now (known_of self.old) }
    {
        self.known.next_component(numbers);
        self.names.truncate(self.known.len());
    }

    /// A block ends after its last branch, or a loop after its body. Of a block without branches, and of a loop, all is
    /// as it began. It takes no memory.
    pub fn end(&mut self)
        ensures { known_of self.new ≡ end (known_of self.old) }
    {
        self.known.end();
        self.names.truncate(self.known.len());
    }
}
