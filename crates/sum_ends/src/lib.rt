//! The ends of ranges of sums.
#![tactic(auto)]

ghost use Rattle.std.specs.Prelude.{◌≡◌, ◌≤ℤ◌, ◌+ℤ◌, ℤ};

/// The least and the greatest of some numbers.
#[derive(Clone, Copy)]
pub struct Ends<T> {
    pub lo: T,
    pub hi: T,
}

/// The ends of the sums of a word between `left`'s ends and one between `right`'s. They may be no words.
pub fn sum_ends(left: Ends<i32>, right: Ends<i32>) -> Ends<i64>
    ensures lo { result.lo ≡ left.lo +ℤ right.lo }
    ensures hi { result.hi ≡ left.hi +ℤ right.hi }
    ensures members { (x y : ℤ) → left.lo ≤ℤ x → x ≤ℤ left.hi → right.lo ≤ℤ y → y ≤ℤ right.hi
        → ((result.lo ≤ℤ (x +ℤ y)) × ((x +ℤ y) ≤ℤ result.hi)) }
{
    Ends {
        lo: i64::from(left.lo) + i64::from(right.lo),
        hi: i64::from(left.hi) + i64::from(right.hi),
    }
}
