//! What a run reads of its module.

ghost use Rattle.std.specs.Prelude.{◌≡◌, ◌+◌, ◌*◌, ◌<◌, ◌^◌};
ghost use Rattle.module_format.specs.Contents.{contents_of};
ghost use Rattle.machine_state.specs.Memory.{data_start};

use machine_state::DATA_START;
use module_format::Tables;
use plain_machine::KnownModule;
use std::marker::Model;

/// What a run reads of its module beside memory: how many words of data there are, and where it finishes. It is seen as
/// the module.
#[derive(Drop)]
pub struct Program {
    data_words: u32,
    finish: u32,
    module: KnownModule,
}

impl Model for Program {
    ghost use Rattle.std.specs.Prelude.{◌≡◌, ◌+◌, ◌*◌, ◌<◌, ◌^◌};
    ghost use Rattle.module_format.specs.Contents.{Contents};
    ghost use Rattle.machine_state.specs.Memory.{data_start};

    ghost Value = { Contents };

    ghost view = { λ p. p.module.contents };

    ghost invariant = { λ p. (p.data_words ≡ p.module.contents.data_words) × (p.finish ≡ p.module.contents.finish)
        × (data_start + 4 * p.data_words < 2 ^ 32) };
}

impl Program {
    /// What a run reads of the module of these tables.
    pub fn of(tables: &Tables<'_>) -> Program
        requires { data_start + 4 * tables.now.data_words < 2 ^ 32 }
        ensures { result ≡ contents_of tables.now }
    {
        Program {
            data_words: tables.data_words,
            finish: tables.finish,
            module: KnownModule::of(tables),
        }
    }

    /// The address of the first byte of the code.
    #[inline(always)]
    pub(crate) fn code_start(&self) -> u32
        ensures { result ≡ data_start + 4 * self.now.data_words }
    {
        DATA_START + 4 * self.data_words
    }

    /// The code offset after the instruction that finishes the module, 0 if there is none.
    #[inline(always)]
    pub(crate) fn finish(&self) -> u32
        ensures { result ≡ self.now.finish }
    {
        self.finish
    }
}
