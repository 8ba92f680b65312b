//! How often expressions are read, as far as a `u32` goes.

ghost use Rattle.std.specs.Prelude.{◌≡◌, ◌+◌, length, map, sum_by};
ghost use Rattle.occam_parser.specs.Views.{expression_of, term_of};
ghost use Rattle.program_sizes.specs.LineSizes.{size_of_expression, size_of_term};
ghost use Rattle.program_work.specs.Readings.{capped, again_in, again_in_term, reading_of_expression};

use occam_parser::{Expr, Operand, Operation};

/// How much there is to read.
#[derive(Clone, Copy)]
pub(crate) struct Reading {
    /// The size of what is read once.
    pub(crate) size: u32,
    /// The sizes of what is read again after that.
    pub(crate) again: u32,
}

/// A count, as a size.
pub(crate) fn size_of_count(count: usize) -> u32
    ensures { result ≡ capped count }
{
    count.min(u32::MAX as usize) as u32
}

impl Reading {
    /// What has this size and is read once.
    pub(crate) fn once(size: u32) -> Reading
        ensures size { result.size ≡ size }
        ensures again { result.again ≡ 0 }
    {
        Reading { size, again: 0 }
    }

    /// A name.
    pub(crate) fn of_name(name: &[u8]) -> Reading
        ensures size { result.size ≡ capped (length name.now) }
        ensures again { result.again ≡ 0 }
    {
        Reading::once(size_of_count(name.len()))
    }

    /// One after the other.
    pub(crate) fn and(self, other: Reading) -> Reading
        ensures size { result.size ≡ capped (self.size + other.size) }
        ensures again { result.again ≡ capped (self.again + other.again) }
    {
        Reading {
            size: self.size.saturating_add(other.size),
            again: self.again.saturating_add(other.again),
        }
    }

    /// The same with an operator, a conversion or brackets, or on a line of its own.
    pub(crate) fn marked(self) -> Reading
        ensures size { result.size ≡ capped (1 + self.size) }
        ensures again { result.again ≡ self.again }
    {
        Reading {
            size: self.size.saturating_add(1),
            again: self.again,
        }
    }

    /// The same in brackets, or as a subscript: it is read again, whole.
    fn bracketed(self) -> Reading
        ensures size { result.size ≡ capped (1 + self.size) }
        ensures again { result.again ≡ capped (self.size + self.again) }
    {
        Reading {
            size: self.size.saturating_add(1),
            again: self.whole(),
        }
    }

    /// All that is read.
    pub(crate) fn whole(self) -> u32
        ensures { result ≡ capped (self.size + self.again) }
    {
        self.size.saturating_add(self.again)
    }
}

/// An expression.
#[cycle(read)]
pub(crate) fn read_expression(expr: &Expr) -> Reading
    ensures size { result.size ≡ capped (size_of_expression (expression_of expr.now)) }
    ensures again { result.again ≡ capped (again_in (expression_of expr.now)) }
{
    match &*expr.operation {
        Operation::Operand(operand) => read_operand(operand),
        Operation::Prefix { operand, .. } => read_operand(operand).marked(),
        Operation::Pair { left, right, .. } => read_operand(left).and(read_operand(right).marked()),
        Operation::Chain {
            first,
            second,
            others,
            ..
        } => {
            let both = read_operand(first).and(read_operand(second).marked());
            both.and(read_others(others))
        }
    }
}

/// The further operands of a chain, each with an operator.
#[cycle(read)]
fn read_others(others: &[Operand]) -> Reading
    ensures size { result.size ≡ capped (sum_by (λ t. 1 + size_of_term t) (map term_of others.now)) }
    ensures again { result.again ≡ capped (sum_by again_in_term (map term_of others.now)) }
{
    let mut reading = Reading::once(0);
    for other in others {
        reading = reading.and(read_operand(other).marked());
    }
    reading
}

/// An operand.
#[cycle(read)]
fn read_operand(operand: &Operand) -> Reading
    ensures size { result.size ≡ capped (size_of_term (term_of operand.now)) }
    ensures again { result.again ≡ capped (again_in_term (term_of operand.now)) }
{
    match operand {
        Operand::Integer(_)
        | Operand::Character(_)
        | Operand::Truth(_)
        | Operand::MostPos
        | Operand::MostNeg => Reading::once(1),
        Operand::Name(name) => Reading::of_name(name),
        Operand::Element { name, subscript } => {
            Reading::of_name(name).and(read_expression(subscript).bracketed())
        }
        Operand::Bracketed(inner) => read_expression(inner).bracketed(),
        Operand::Converted { operand, .. } => read_operand(operand).marked(),
    }
}

/// How much is read of an expression: its size, and the reading of each expression directly in its brackets and
/// subscripts, as far as a `u32` goes.
pub fn reading_of_expression(expr: &Expr) -> u32
    ensures { result ≡ capped (reading_of_expression (expression_of expr.now)) }
{
    read_expression(expr).whole()
}
