//! What expressions use.

ghost use Rattle.std.specs.Prelude.{◌≡◌, option_map};
ghost use Rattle.occam_parser.specs.Views.{expression_of, term_of};
ghost use Rattle.scalar_ranges.specs.Scopes.{entries_of, meaning_of};
ghost use Rattle.program_uses.specs.Sets.{Adds};
ghost use Rattle.program_uses.specs.Mentions.{is_variable, variable_in, name_reads, name_changes};
ghost use Rattle.program_uses.specs.Mentions.{reads_of, reads_of_term};

use crate::uses::{Use, Uses};
use occam_parser::{Expr, Operand, Operation};
use scalar_ranges::{ArrayKind, Meaning, ScalarKind, Scope};

/// Whether something can be assigned to what a name denotes, or to its elements.
pub fn is_variable(meaning: Option<Meaning>) -> bool
    ensures { result ≡ is_variable (option_map meaning_of meaning) }
{
    match meaning {
        Some(Meaning::Scalar { kind, .. }) => match kind {
            ScalarKind::Variable | ScalarKind::Reference => true,
            ScalarKind::Value | ScalarKind::Index => false,
        },
        Some(Meaning::Array { kind, .. }) => match kind {
            ArrayKind::Variable => true,
            ArrayKind::Table | ArrayKind::Value => false,
        },
        _ => false,
    }
}

/// The number of the variable that a name is, if it is one.
pub(crate) fn variable(scope: &Scope, name: &[u8]) -> Option<usize>
    ensures { result ≡ variable_in name.now (entries_of scope.now) }
{
    match scope.lookup(name) {
        Some(found) if is_variable(Some(found.meaning)) => Some(found.number),
        _ => None,
    }
}

impl Uses {
    /// What a name reads that is mentioned.
    pub(crate) fn read_name(&mut self, scope: &Scope, name: &[u8])
        ensures { Adds self.old self.new (name_reads (entries_of scope.now) name.now) }
    {
        if let Some(number) = variable(scope, name) {
            self.add(Use::Read(number));
        }
    }

    /// What a name changes that something is assigned to.
    pub(crate) fn change_name(&mut self, scope: &Scope, name: &[u8])
        ensures { Adds self.old self.new (name_changes (entries_of scope.now) name.now) }
    {
        if let Some(number) = variable(scope, name) {
            self.add(Use::Change(number));
        }
    }

    /// What an expression reads.
    #[cycle(read)]
    pub fn read(&mut self, scope: &Scope, expr: &Expr)
        ensures { Adds self.old self.new (reads_of (entries_of scope.now) (expression_of expr.now)) }
    {
        match &*expr.operation {
            Operation::Operand(operand) => self.read_operand(scope, operand),
            Operation::Prefix { operand, .. } => self.read_operand(scope, operand),
            Operation::Pair { left, right, .. } => {
                self.read_operand(scope, left);
                self.read_operand(scope, right);
            }
            Operation::Chain {
                first,
                second,
                others,
                ..
            } => {
                self.read_operand(scope, first);
                self.read_operand(scope, second);
                for other in others {
                    self.read_operand(scope, other);
                }
            }
        }
    }

    /// What an operand reads.
    #[cycle(read)]
    fn read_operand(&mut self, scope: &Scope, operand: &Operand)
        ensures { Adds self.old self.new (reads_of_term (entries_of scope.now) (term_of operand.now)) }
    {
        match operand {
            Operand::Integer(_)
            | Operand::Character(_)
            | Operand::Truth(_)
            | Operand::MostPos
            | Operand::MostNeg => {}
            Operand::Name(name) => self.read_name(scope, name),
            Operand::Element { name, subscript } => {
                self.read_name(scope, name);
                self.read(scope, subscript);
            }
            Operand::Bracketed(inner) => self.read(scope, inner),
            Operand::Converted { operand, .. } => self.read_operand(scope, operand),
        }
    }
}
