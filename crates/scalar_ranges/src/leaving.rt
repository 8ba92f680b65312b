//! Scopes that are left.

ghost use Rattle.std.specs.Prelude.{◌≡◌, length};
ghost use Rattle.scalar_ranges.specs.Moves.{leave};
ghost use Rattle.scalar_ranges.specs.Scopes.{entries_of, blocks_of};

use crate::scope::Scope;

impl Scope<'_> {
    /// How many entries there are, for [`leave`](Scope::leave).
    pub fn len(&self) -> usize
        ensures { result ≡ length (entries_of self.now) }
    {
        self.known.len()
    }

    /// Leaves the scopes that were entered since there were `count` entries. What the branches of the innermost block
    /// begin with is not left: a lower number leaves just what this branch declared.
    pub fn leave(&mut self, count: usize)
        ensures entries { entries_of self.new ≡ leave count (blocks_of self.old) (entries_of self.old) }
        ensures blocks { blocks_of self.new ≡ blocks_of self.old }
    {
        let count = count.max(self.known.begun_with());
        self.names.truncate(count);
        self.known.cut(count);
    }
}
