//! Memory as the running process may touch it.

ghost use Rattle.std.specs.Prelude.{◌≡◌, IsTrue, Some};
ghost use Rattle.machine_state.specs.Holding.{Holding, may_write, may_read, may_write_word, may_read_word, has_end};
ghost use Rattle.machine_state.specs.Spans.{all_places};
ghost use Rattle.machine_state.specs.LocalStep.{are_defined, copied};
ghost use Rattle.machine_state.specs.Exchanges.{bytes_at};
ghost use Rattle.machine_state.specs.World.{Roles};
ghost use Rattle.machine_state.specs.Memory.{Memory, place_of, byte_at, with_byte, word_at, with_word};

use crate::holding::End;
use crate::process::Word;

/// Memory, and what the running process may touch of it. Bytes and words are named by their addresses. What it offers
/// leaves no byte less defined than it was, so bytes without tags can keep it too.
pub trait LoadStore {
    /// The bytes from the start of the data area on, each defined or not.
    ghost cells: { Self → Memory };

    /// What the running process may touch.
    ghost holding: { Self → Holding };

    /// What each process may touch, and whose turn it is: a store that does not keep it has an empty table.
    ghost roles: { Self → Roles };

    /// Whether the byte may be read.
    fn can_load_byte(&self, address: u32) -> bool
        ensures { result ≡ may_read (holding self.now) (place_of address) };

    /// Whether the byte may be written.
    fn can_store_byte(&self, address: u32) -> bool
        ensures { result ≡ may_write (holding self.now) (place_of address) };

    /// Whether the four bytes of the word may be read.
    fn can_load_word(&self, address: u32) -> bool
        ensures { result ≡ may_read_word (holding self.now) (place_of address) };

    /// Whether the four bytes of the word may be written.
    fn can_store_word(&self, address: u32) -> bool
        ensures { result ≡ may_write_word (holding self.now) (place_of address) };

    /// Whether all of `count` bytes from the address on may be read.
    fn can_load_bytes(&self, address: u32, count: u32) -> bool
        ensures { result ≡ all_places (may_read (holding self.now)) (place_of address) count };

    /// Whether all of `count` bytes from the address on may be written.
    fn can_store_bytes(&self, address: u32, count: u32) -> bool
        ensures { result ≡ all_places (may_write (holding self.now)) (place_of address) count };

    /// Whether the end of a channel or a link may be used.
    fn has_end(&self, end: End) -> bool
        ensures { result ≡ has_end (holding self.now) end };

    /// Whether all of `count` bytes from the address on are defined.
    fn defines_bytes(&self, address: u32, count: u32) -> bool
        ensures { result ≡ are_defined (cells self.now) address count };

    /// The byte, none where it is undefined.
    fn load_byte(&self, address: u32) -> Option<u8>
        requires { IsTrue (may_read (holding self.now) (place_of address)) }
        ensures { result ≡ byte_at (cells self.now) (place_of address) };

    /// Writes the byte, which is defined from then on.
    fn write_byte(&mut self, address: u32, byte: u8)
        requires { IsTrue (may_write (holding self.old) (place_of address)) }
        ensures memory { cells self.new ≡ with_byte (cells self.old) (place_of address) (Some byte) }
        ensures holding { holding self.new ≡ holding self.old }
        ensures roles { roles self.new ≡ roles self.old };

    /// The word, none where one of its bytes is undefined.
    fn load_word(&self, address: u32) -> Word
        requires { IsTrue (may_read_word (holding self.now) (place_of address)) }
        ensures { result ≡ word_at (cells self.now) (place_of address) };

    /// Writes the word, which is defined from then on.
    fn write_word(&mut self, address: u32, value: i32)
        requires { IsTrue (may_write_word (holding self.old) (place_of address)) }
        ensures memory { cells self.new ≡ with_word (cells self.old) (place_of address) (Some value) }
        ensures holding { holding self.new ≡ holding self.old }
        ensures roles { roles self.new ≡ roles self.old };

    /// Writes the byte, whoever holds it: a byte that arrives on a link goes into the buffer of the process that waits
    /// for it. Outside the memory nothing changes.
    fn put_byte(&mut self, address: u32, byte: u8)
        ensures memory { cells self.new ≡ with_byte (cells self.old) (place_of address) (Some byte) }
        ensures holding { holding self.new ≡ holding self.old }
        ensures roles { roles self.new ≡ roles self.old };

    /// `count` bytes from the address on, all of which are defined, whoever holds them.
    fn lend(&self, address: u32, count: u32) -> &[u8]
        requires { IsTrue (are_defined (cells self.now) address count) }
        ensures { result.now ≡ bytes_at (cells self.now) (place_of address) count };

    /// Copies `count` bytes from one address to another, all of which are defined, whoever holds them. Where the two
    /// blocks meet, each byte is copied as it was before; outside the memory nothing changes.
    fn copy_defined(&mut self, from: u32, to: u32, count: u32)
        requires { IsTrue (are_defined (cells self.old) from count) }
        ensures memory { let before = cells self.old in
            cells self.new ≡ copied before (place_of from) (place_of to) count before }
        ensures holding { holding self.new ≡ holding self.old }
        ensures roles { roles self.new ≡ roles self.old };
}

/// A memory whose bytes can become undefined again.
pub trait Store: LoadStore {
    /// Writes the byte; none makes it undefined.
    fn store_byte(&mut self, address: u32, byte: Option<u8>)
        requires { IsTrue (may_write (Self.holding self.old) (place_of address)) }
        ensures memory { Self.cells self.new ≡ with_byte (Self.cells self.old) (place_of address) byte }
        ensures holding { Self.holding self.new ≡ Self.holding self.old }
        ensures roles { Self.roles self.new ≡ Self.roles self.old };

    /// Writes the word; none makes its bytes undefined.
    fn store_word(&mut self, address: u32, value: Word)
        requires { IsTrue (may_write_word (Self.holding self.old) (place_of address)) }
        ensures memory { Self.cells self.new ≡ with_word (Self.cells self.old) (place_of address) value }
        ensures holding { Self.holding self.new ≡ Self.holding self.old }
        ensures roles { Self.roles self.new ≡ Self.roles self.old };

    /// Copies `count` bytes from one address to another, whoever holds them. Undefined bytes stay undefined, and those
    /// from outside the memory are undefined too. Where the two blocks meet, each byte is copied as it was before;
    /// outside the memory nothing changes.
    fn copy(&mut self, from: u32, to: u32, count: u32)
        ensures memory { let before = Self.cells self.old in
            Self.cells self.new ≡ copied before (place_of from) (place_of to) count before }
        ensures holding { Self.holding self.new ≡ Self.holding self.old }
        ensures roles { Self.roles self.new ≡ Self.roles self.old };
}
