//! The laws of spellings, each the contract of a function that does nothing.
ghost use Rattle.std.specs.Prelude.{◌≡◌, ◌++◌, ℤ, pos, List, ℕ, length, FitsSigned, Ok};
ghost use Rattle.std.specs.Int.{w32};
ghost use Rattle.prefix_decoder.specs.declared.function.Fun.{Fun};
ghost use Rattle.prefix_decoder.specs.Spelling.{IsSpelling, spelling};
ghost use Rattle.prefix_decoder.specs.Fetching.{read};

/// A function and an operand have one spelling at most.
pub fn no_second_spelling()
    ensures { (f : Fun) (e : ℤ) (a b : List ℕ) → IsSpelling f e a → IsSpelling f e b → a ≡ b }
{}

/// No spelling begins another.
pub fn no_spelling_begins_another()
    ensures { (f g : Fun) (e d : ℤ) (a b x y : List ℕ) → IsSpelling f e a → IsSpelling g d b → a ++ x ≡ b ++ y
        → (f ≡ g) × (e ≡ d) × (a ≡ b) }
{}

/// Each function has a spelling with each operand of 32 bits.
pub fn each_operand_has_a_spelling()
    ensures { (f : Fun) (e : ℤ) → FitsSigned w32 e → IsSpelling f e (spelling f e) }
{}

/// From an operand register of 0 the T414 has the operand at the last byte of a spelling, whatever follows it.
pub fn device_reads_each_spelling()
    ensures { (f : Fun) (e : ℤ) (bytes rest : List ℕ) → IsSpelling f e bytes
        → read 8 (bytes ++ rest) (pos 0) 0 ≡ Ok (record { fun = f; operand = e; len = length bytes }) }
{}
