//! What is known of a word, in words.

ghost use Rattle.std.specs.Prelude.{◌≡◌, Some};
ghost use Rattle.fact_texts.specs.Texts.{is_one, range_text};
ghost use Rattle.fact_texts.specs.FactTexts.{region_text, step_text, loop_text, fact_text};

use module_format::{Fact, Region, Step};
use std::fmt;

/// A range from its least to its greatest number.
#[derive(Clone, Copy)]
pub struct RangeText {
    pub lo: i64,
    pub hi: i64,
}

/// Whether the ends are one number.
fn is_one(lo: i64, hi: i64) -> bool
    ensures { result ≡ is_one lo hi }
{
    lo <= hi && hi <= lo
}

impl fmt::Display for RangeText {
    ghost output = { λ range. Some (range_text range.lo range.hi) };

    fn fmt<W: fmt::Write>(&self, f: &mut fmt::Formatter<W>) -> fmt::Result {
        let RangeText { lo, hi } = *self;
        if is_one(lo, hi) {
            return write!(f, "{lo}");
        }
        write!(f, "{lo}..{hi}")
    }
}

/// A region by its name.
#[derive(Clone, Copy)]
struct RegionText(Region);

impl fmt::Display for RegionText {
    ghost output = { λ region. Some (region_text region.0) };

    fn fmt<W: fmt::Write>(&self, f: &mut fmt::Formatter<W>) -> fmt::Result {
        match self.0 {
            Region::Frame => write!(f, "frame"),
            Region::Constants => write!(f, "constants"),
            Region::Parameter(number) => write!(f, "parameter {number}"),
        }
    }
}

/// Whether a pointer leads to multiples of four alone.
fn step_text(step: Step) -> &'static str
    ensures { result.now ≡ step_text step }
{
    match step {
        Step::Byte => "",
        Step::Word => " by 4",
    }
}

/// A range of words.
pub fn range(lo: i32, hi: i32) -> RangeText
    ensures { result ≡ record { lo = lo; hi = hi } }
{
    RangeText {
        lo: i64::from(lo),
        hi: i64::from(hi),
    }
}

/// A loop: the index in the first turn, how many turns there are, and what a turn may cost.
#[derive(Clone, Copy)]
pub struct LoopText {
    pub base: i32,
    pub count: u32,
    pub weight: u64,
}

impl fmt::Display for LoopText {
    ghost output = { λ turns. Some (loop_text turns.base turns.count turns.weight) };

    fn fmt<W: fmt::Write>(&self, f: &mut fmt::Formatter<W>) -> fmt::Result {
        let LoopText {
            base,
            count,
            weight,
        } = *self;
        write!(f, "loop from {base}, {count} turns, weight {weight}")
    }
}

/// What is known of a word.
#[derive(Clone, Copy)]
pub struct FactText(pub Fact);

impl fmt::Display for FactText {
    ghost output = { λ fact. Some (fact_text fact.0) };

    fn fmt<W: fmt::Write>(&self, f: &mut fmt::Formatter<W>) -> fmt::Result {
        match self.0 {
            Fact::Unknown => write!(f, "?"),
            Fact::Number { lo, hi } => write!(f, "{}", range(lo, hi)),
            Fact::Pointer {
                region,
                lo,
                hi,
                step,
            } => write!(
                f,
                "{} byte {}{}",
                RegionText(region),
                range(lo, hi),
                step_text(step)
            ),
            Fact::CodeAddress { offset } => write!(f, "code {offset}"),
            Fact::Loop {
                base,
                count,
                weight,
            } => write!(
                f,
                "{}",
                LoopText {
                    base,
                    count,
                    weight
                }
            ),
            Fact::ReturnAddress => write!(f, "return address"),
        }
    }
}
