//! A writer that remembers that memory ran out, so that no caller asks before the end.
#![tactic(auto, unfolding(crate::proofs::Opening::writing_writer))]

ghost use Rattle.std.specs.Prelude.{◌≡◌, ◌∷◌, [], IfOk};
ghost use Rattle.module_format.specs.Spelling.{u16_bytes, u32_bytes, u64_bytes, i32_bytes};
ghost use Rattle.module_format.specs.Writable.{Writes};

use std::alloc::{AllocError, Global};

/// The bytes that were written, unless memory ran out.
#[derive(Drop)]
pub(crate) struct Writer {
    pub bytes: Vec<u8>,
    pub failed: bool,
}

impl Writer {
    ghost use Rattle.std.specs.Prelude.{◌≡◌, ◌∷◌, [], false, IfOk};
    ghost use Rattle.module_format.specs.Spelling.{u16_bytes, u32_bytes, u64_bytes, i32_bytes};
    ghost use Rattle.module_format.specs.Writable.{Writes};

    pub fn new(alloc: Global) -> Writer
        ensures { result.bytes.items ≡ [] }
    {
        Writer {
            bytes: Vec::new(alloc),
            failed: false,
        }
    }

    pub fn slice(&mut self, bytes: &[u8])
        ensures { Writes self.old «bytes».now self.new }
    {
        if self.bytes.extend_from_slice(bytes).is_err() {
            self.failed = true;
        }
    }

    pub fn u8(&mut self, value: u8)
        ensures { Writes self.old (value ∷ []) self.new }
    {
        self.slice(&[value]);
    }

    pub fn u16(&mut self, value: u16)
        ensures { Writes self.old (u16_bytes value) self.new }
    {
        self.slice(&value.to_le_bytes());
    }

    pub fn u32(&mut self, value: u32)
        ensures { Writes self.old (u32_bytes value) self.new }
    {
        self.slice(&value.to_le_bytes());
    }

    pub fn u64(&mut self, value: u64)
        ensures { Writes self.old (u64_bytes value) self.new }
    {
        self.slice(&value.to_le_bytes());
    }

    pub fn i32(&mut self, value: i32)
        ensures { Writes self.old (i32_bytes value) self.new }
    {
        self.slice(&value.to_le_bytes());
    }

    /// What was written.
    pub fn finish(self) -> Result<Vec<u8>, AllocError>
        ensures { IfOk result (λ bytes. (self.failed ≡ false) × (bytes.items ≡ self.bytes.items)) }
    {
        if self.failed {
            return Err(AllocError);
        }
        Ok(self.bytes)
    }
}
