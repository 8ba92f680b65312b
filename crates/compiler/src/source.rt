//! From a source to its module.

ghost use Rattle.std.specs.Prelude.{IfOk, IfErr};
ghost use Rattle.compiler.specs.Compiled.{IsCompiled, IsRefusedFor};

use crate::generating::generate;
use module_builder::GenFault;
use occam_layout::{LayoutFault, lines};
use occam_parser::{ParseFault, parse};
use std::alloc::Global;
use std::fmt;
use usage_checks::{UsageFault, check};

/// Why a source becomes no module.
#[derive(Clone, Copy, PartialEq, Eq)]
pub enum CompileFault {
    /// The source is not made of lines of tokens.
    Layout(LayoutFault),
    /// The lines are no program.
    Syntax(ParseFault),
    /// The program breaks a rule.
    Usage(UsageFault),
    /// The program has no module.
    Generation(GenFault),
}

/// The number of a fault of the generator.
fn number_of(fault: GenFault) -> u8 {
    match fault {
        GenFault::Limit => 1,
        GenFault::Memory => 2,
        GenFault::Invalid => 3,
    }
}

impl fmt::Display for CompileFault {
    fn fmt<W: fmt::Write>(&self, f: &mut fmt::Formatter<W>) -> fmt::Result {
        match self {
            CompileFault::Layout(fault) => write!(f, "O{} at line {}", fault.number, fault.line),
            CompileFault::Syntax(fault) => write!(f, "O{} at line {}", fault.number, fault.line),
            CompileFault::Usage(fault) => write!(f, "O{} at line {}", fault.number, fault.line),
            CompileFault::Generation(fault) => write!(f, "G{}", number_of(*fault)),
        }
    }
}

impl fmt::Debug for CompileFault {
    fn fmt<W: fmt::Write>(&self, f: &mut fmt::Formatter<W>) -> fmt::Result {
        fmt::Display::fmt(self, f)
    }
}

impl From<LayoutFault> for CompileFault {
    ghost use Rattle.std.specs.Prelude.{◌≡◌};
    ghost use Rattle.compiler.specs.declared.source.CompileFault.TheVariants as faults;

    ghost from_gives = { λ fault made. made ≡ faults.Layout fault };

    fn from(fault: LayoutFault) -> CompileFault {
        CompileFault::Layout(fault)
    }
}

impl From<ParseFault> for CompileFault {
    ghost use Rattle.std.specs.Prelude.{◌≡◌};
    ghost use Rattle.compiler.specs.declared.source.CompileFault.TheVariants as faults;

    ghost from_gives = { λ fault made. made ≡ faults.Syntax fault };

    fn from(fault: ParseFault) -> CompileFault {
        CompileFault::Syntax(fault)
    }
}

impl From<UsageFault> for CompileFault {
    ghost use Rattle.std.specs.Prelude.{◌≡◌};
    ghost use Rattle.compiler.specs.declared.source.CompileFault.TheVariants as faults;

    ghost from_gives = { λ fault made. made ≡ faults.Usage fault };

    fn from(fault: UsageFault) -> CompileFault {
        CompileFault::Usage(fault)
    }
}

impl From<GenFault> for CompileFault {
    ghost use Rattle.std.specs.Prelude.{◌≡◌};
    ghost use Rattle.compiler.specs.declared.source.CompileFault.TheVariants as faults;

    ghost from_gives = { λ fault made. made ≡ faults.Generation fault };

    fn from(fault: GenFault) -> CompileFault {
        CompileFault::Generation(fault)
    }
}

/// The module of the program that a source is. The layout of the whole source comes first, then its syntax, then the
/// rules of usage, and then [`generate`].
pub fn compile(alloc: Global, source: &[u8]) -> Result<Vec<u8>, CompileFault>
    ensures compiled { IfOk result (λ v. IsCompiled source.now v.items) }
    ensures refused { IfErr result (IsRefusedFor source.now) }
{
    let rows = lines(alloc, source)?;
    let program = parse(alloc, &rows)?;
    let checked = check(alloc, program)?;
    let bytes = generate(alloc, &checked)?;
    Ok(bytes)
}
