//! Worked values. Each test writes what it finds, a line a case, and compares the text with the one that is wanted.
//! What the operations of the machine compute of words and ranges is asked by cases.

use std::alloc::Global;
use std::fmt::Debug;
use std::process::Abort;
use word_arithmetic::{
    Binary, Comparison, LongResult, Range, Unary, is_below_unsigned, is_greater, long_difference,
    long_product, long_sum, not, shift_left, shift_right,
};

const MIN: i32 = i32::MIN;

const MAX: i32 = i32::MAX;

/// What a test finds, each value after a space.
#[derive(Drop)]
struct Found {
    text: String,
    is_out_of_memory: bool,
}

impl Found {
    fn new(alloc: Global) -> Self {
        Found {
            text: String::new(alloc),
            is_out_of_memory: false,
        }
    }

    fn begin_line(&mut self) {
        if self.text.push('\n').is_err() {
            self.is_out_of_memory = true;
        }
    }

    fn put<T: Debug + Copy>(&mut self, value: T) {
        if write!(self.text, " {value:?}").is_err() {
            self.is_out_of_memory = true;
        }
    }

    /// The ends of a range.
    fn put_range(&mut self, range: Range) {
        self.put((range.lo, range.hi));
    }

    /// A line with the ends of a range, where there is one.
    fn put_line(&mut self, range: Option<Range>) {
        self.begin_line();
        match range {
            Some(range) => self.put_range(range),
            None => self.put(None::<Range>),
        }
    }

    fn put_long(&mut self, found: LongResult) {
        self.put((found.low, found.high));
    }

    /// What was found; nothing where that is not all.
    fn all(&self) -> &str {
        if self.is_out_of_memory {
            return "";
        }
        self.text.as_str()
    }

    /// Checks that this was found, and nothing else.
    fn check(&self, rt: &impl Abort, expected: &str) {
        assert_eq!(rt; self.all(), expected);
    }
}

/// Words, their complements, and the words shifted by 1 and 31 bits, left and right.
fn put_bits(found: &mut Found) {
    for word in &[MIN, -1, 1, MAX] {
        found.begin_line();
        found.put(*word);
        found.put(not(*word));
        found.put(shift_left(*word, 1));
        found.put(shift_left(*word, 31));
        found.put(shift_right(*word, 1));
        found.put(shift_right(*word, 31));
    }
}

/// A carry and two words.
const LONG_OPERANDS: &[(i32, i32, i32)] = &[
    (1, -1, 1),
    (0, 5, 3),
    (1, 0, -1),
    (MAX, 0, -1),
    (-1, -1, -1),
    (2, MIN, 2),
];

/// The long sum, difference and product of these.
fn put_long_operations(found: &mut Found) {
    for (carry, left, right) in LONG_OPERANDS {
        found.begin_line();
        found.put_long(long_sum(*left, *right, *carry));
        found.put_long(long_difference(*left, *right, *carry));
        found.put_long(long_product(*left, *right, *carry));
    }
}

/// What holds of words and what does not, and a complement.
fn put_questions_of_words(found: &mut Found) {
    found.begin_line();
    found.put(is_greater(1, -1));
    found.put(is_below_unsigned(1, -1));
    found.put(is_greater(1, 1));
    found.put(is_below_unsigned(-1, 1));
    found.put(Unary::Not.apply(12));
}

const WORDS: &str = "
 -2147483648 2147483647 0 0 1073741824 1
 -1 0 -2 -2147483648 2147483647 1
 1 -2 2 -2147483648 0 0
 2147483647 -2147483648 -2 -2147483648 1073741823 0
 (1, 1) (-3, 0) (0, 1)
 (8, 0) (2, 0) (15, 0)
 (0, 1) (0, 1) (1, 0)
 (0, 1) (0, 1) (2147483647, 0)
 (-1, 1) (-1, 1) (0, -1)
 (-2147483646, 0) (2147483646, 0) (2, 1)
 true true false false Some(-13)";

#[test]
fn words(rt: HostRuntime) {
    let mut found = Found::new(rt.alloc());
    put_bits(&mut found);
    put_long_operations(&mut found);
    put_questions_of_words(&mut found);
    found.check(&rt, WORDS);
}

/// A comparison, its negation and its mirror image, whether it holds of 4, 5 and 6 with 5, and what it leaves of 0 to
/// 10 with 0, 5, 10 and 11.
fn put_comparison(comparison: Comparison, found: &mut Found) {
    found.begin_line();
    found.put(comparison);
    found.put(comparison.negated());
    found.put(comparison.mirrored());
    for word in &[4, 5, 6] {
        found.put(comparison.holds(*word, 5));
    }
    for constant in &[0, 5, 10, 11] {
        found.put_range(Range::new(0, 10).narrow(comparison, *constant));
    }
}

fn put_comparisons(found: &mut Found) {
    put_comparison(Comparison::Equal, found);
    put_comparison(Comparison::NotEqual, found);
    put_comparison(Comparison::Less, found);
    put_comparison(Comparison::LessOrEqual, found);
    put_comparison(Comparison::Greater, found);
    put_comparison(Comparison::GreaterOrEqual, found);
}

const COMPARISONS: &str = "
 Equal NotEqual Equal false true false (0, 0) (5, 5) (10, 10) (0, 10)
 NotEqual Equal NotEqual true false true (1, 10) (0, 10) (0, 9) (0, 10)
 Less GreaterOrEqual Greater true false false (0, 10) (0, 4) (0, 9) (0, 10)
 LessOrEqual Greater GreaterOrEqual true true false (0, 0) (0, 5) (0, 10) (0, 10)
 Greater LessOrEqual Less false false true (1, 10) (6, 10) (0, 10) (0, 10)
 GreaterOrEqual Less LessOrEqual false true true (0, 10) (5, 10) (10, 10) (0, 10)";

#[test]
fn comparisons(rt: HostRuntime) {
    let mut found = Found::new(rt.alloc());
    put_comparisons(&mut found);
    found.check(&rt, COMPARISONS);
}

/// The hull of 0 to 10 with a range, and the parts inside and outside that.
fn put_parts(other: Range, found: &mut Found) {
    let words = Range::new(0, 10);
    found.begin_line();
    found.put_range(words.hull(other));
    found.put_range(words.inside(other));
    found.put_range(words.outside(other));
}

fn put_parts_of_ranges(found: &mut Found) {
    put_parts(Range::new(-3, 4), found);
    put_parts(Range::new(7, 12), found);
    put_parts(Range::new(2, 3), found);
    put_parts(Range::new(11, 12), found);
    put_parts(Range::new(0, MAX), found);
}

/// Ranges that are made.
fn put_made_ranges(found: &mut Found) {
    let bytes = Range::new(0, 255);
    found.put_line(Range::between(1, 0));
    found.put_line(Range::between(0, 255));
    found.put_line(bytes.add_constant(-5));
    found.put_line(Range::full().add_constant(1));
    found.put_line(Some(Range::truths()));
    found.put_line(Some(Range::at_least(7)));
    found.put_line(Some(Range::at_most(7)));
}

/// The ranges of the results of operations.
fn put_ranges_of_results(found: &mut Found) {
    found.put_line(Unary::Not.range(Range::new(-1, 5)));
    found.put_line(Some(Range::new(0, 3).shift_left(Range::new(0, 4))));
    found.put_line(Some(Range::new(5, 100).shift_right(Range::new(1, 31))));
    found.put_line(Binary::Equal.range(Range::new(0, 10), Range::new(3, 4)));
    found.put_line(Binary::Equal.range(Range::new(-7, 7), Range::new(-3, -2)));
    found.put_line(Binary::Equal.range(Range::new(5, 9), Range::new(0, 3)));
}

/// What holds of ranges and what does not, and the only word of one.
fn put_questions_of_ranges(found: &mut Found) {
    let bytes = Range::new(0, 255);
    found.begin_line();
    found.put(bytes.contains(0));
    found.put(bytes.contains(255));
    found.put(bytes.fits_byte());
    found.put(bytes.fits_within(Range::full()));
    found.put(bytes.contains(-1));
    found.put(bytes.contains(256));
    found.put(Range::new(0, 256).fits_byte());
    found.put(Range::full().fits_within(bytes));
    found.put(Range::constant(MIN).is_constant());
    found.put(bytes.is_constant());
}

const RANGES: &str = "
 (-3, 10) (0, 4) (5, 10)
 (0, 12) (7, 10) (0, 6)
 (0, 10) (2, 3) (0, 10)
 (0, 12) (0, 10) (0, 10)
 (0, 2147483647) (0, 10) (0, 10)
 None
 (0, 255)
 (-5, 250)
 None
 (0, 1)
 (7, 2147483647)
 (-2147483648, 7)
 (-6, 0)
 (0, 48)
 (0, 100)
 (0, 1)
 (0, 1)
 (0, 1)
 true true true true false false false false Some(-2147483648) None";

#[test]
fn ranges(rt: HostRuntime) {
    let mut found = Found::new(rt.alloc());
    put_parts_of_ranges(&mut found);
    put_made_ranges(&mut found);
    put_ranges_of_results(&mut found);
    put_questions_of_ranges(&mut found);
    found.check(&rt, RANGES);
}
