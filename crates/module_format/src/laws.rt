//! What holds of all files and all contents.

ghost use Rattle.std.specs.Prelude.{◌≡◌, List, ℕ, Ok};
ghost use Rattle.module_format.specs.Contents.{Contents};
ghost use Rattle.module_format.specs.Keeping.{Keeps, FitsVersion, IsFile, IsUpgraded, Format};
ghost use Rattle.module_format.specs.Order.{IsBytes};
ghost use Rattle.module_format.specs.Spelling.{file_of};
ghost use Rattle.module_format.specs.ReadingFile.{read_file};
ghost use Rattle.module_format.specs.declared.tables.Version.{Version};
ghost use Rattle.module_format.specs.declared.tables.Version.TheVariants as versions;

/// A file spells one contents at most, in one version.
pub fn one_file_one_contents()
    ensures contents { (file : List ℕ) (c d : Contents) → Format file c → Format file d → c ≡ d }
    ensures version { (file : List ℕ) (v w : Version) (c d : Contents) → IsFile v file c → IsFile w file d → v ≡ w }
{}

/// Contents have one file at most in a version.
pub fn one_contents_one_file()
    ensures { (version : Version) (file other : List ℕ) (c : Contents) → IsFile version file c → IsFile version other c
        → file ≡ other }
{}

/// Reading from the front finds only what the bytes spell.
pub fn reading_finds()
    ensures { (bytes : List ℕ) (version : Version) (c : Contents) → IsBytes bytes → read_file bytes ≡ Ok (version, c)
        → IsFile version bytes c }
{}

/// The file of valid contents is read as those contents.
pub fn reading_again()
    ensures { (version : Version) (c : Contents) → Keeps c → FitsVersion version c
        → read_file (file_of version c) ≡ Ok (version, c) }
{}

/// What a file of version 1 says is valid in version 2.
pub fn upgraded_is_valid()
    ensures { (old : List ℕ) (c : Contents) → IsFile versions.One old c → IsUpgraded old (file_of versions.Two c) }
{}

/// A file of version 1 and the one that it is upgraded to say the same.
pub fn upgraded_says_the_same()
    ensures { (old new : List ℕ) (c d : Contents) → IsUpgraded old new → Format old c → Format new d → c ≡ d }
{}
