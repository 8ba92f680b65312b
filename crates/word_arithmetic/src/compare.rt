//! Comparisons of words, signed and unsigned.
ghost use Rattle.std.specs.Prelude.{◌≡◌, ℤ, not, int_lt};
ghost use Rattle.word_arithmetic.specs.Word.{is_below_unsigned};
ghost use Rattle.word_arithmetic.specs.Comparison.{compares};

/// A comparison of two words, both signed.
#[derive(Clone, Copy, Debug)]
pub enum Comparison {
    Equal,
    NotEqual,
    Less,
    LessOrEqual,
    Greater,
    GreaterOrEqual,
}

impl Comparison {
    /// Whether the comparison holds.
    pub fn holds(self, left: i32, right: i32) -> bool
        ensures { result ≡ compares self left right }
    {
        match self {
            Comparison::Equal => left == right,
            Comparison::NotEqual => left != right,
            Comparison::Less => left < right,
            Comparison::LessOrEqual => left <= right,
            Comparison::Greater => left > right,
            Comparison::GreaterOrEqual => left >= right,
        }
    }

    /// The comparison that holds where this one doesn't.
    pub fn negated(self) -> Self
        ensures { (x y : ℤ) → compares result x y ≡ not (compares self x y) }
    {
        match self {
            Comparison::Equal => Comparison::NotEqual,
            Comparison::NotEqual => Comparison::Equal,
            Comparison::Less => Comparison::GreaterOrEqual,
            Comparison::LessOrEqual => Comparison::Greater,
            Comparison::Greater => Comparison::LessOrEqual,
            Comparison::GreaterOrEqual => Comparison::Less,
        }
    }

    /// The comparison that holds of two words where this one does with the words exchanged.
    pub fn mirrored(self) -> Self
        ensures { (x y : ℤ) → compares result x y ≡ compares self y x }
    {
        match self {
            Comparison::Equal => Comparison::Equal,
            Comparison::NotEqual => Comparison::NotEqual,
            Comparison::Less => Comparison::Greater,
            Comparison::LessOrEqual => Comparison::GreaterOrEqual,
            Comparison::Greater => Comparison::Less,
            Comparison::GreaterOrEqual => Comparison::LessOrEqual,
        }
    }
}

/// Whether the first is greater, both signed.
pub fn is_greater(left: i32, right: i32) -> bool
    ensures { result ≡ int_lt right left }
{
    right < left
}

/// Whether the first is below the second, both unsigned: as the checks of a subscript and of a count test.
pub fn is_below_unsigned(left: i32, right: i32) -> bool
    ensures { result ≡ is_below_unsigned left right }
{
    left.cast_unsigned() < right.cast_unsigned()
}
