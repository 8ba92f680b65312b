//! The module that runs, as proofs know it.

ghost use Rattle.std.specs.Prelude.{◌≡◌};
ghost use Rattle.std.specs.Borrow.{ftrue};
ghost use Rattle.module_format.specs.Contents.{Contents, contents_of};

use module_format::Tables;
use std::marker::Model;

/// The module that runs. Only proofs read it, and it takes no bytes.
#[derive(Drop)]
pub struct KnownModule {
    pub ghost contents: { Contents },
}

impl Model for KnownModule {
    ghost also_owns = { λ _. ftrue };

    ghost also_shares = { λ _ _ _. ftrue };
}

impl KnownModule {
    /// The module of these tables.
    pub fn of(_tables: &Tables<'_>) -> KnownModule
        ensures { result.contents ≡ contents_of _tables.now }
    {
        KnownModule {}
    }
}
