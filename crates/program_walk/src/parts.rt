//! What a walk comes to.

use occam_parser::{Action, Body, Construct, Declaration, Expr, Guard, Item, Replicator};
use scalar_ranges::Scope;

/// How deep a process is in its procedure.
#[derive(Clone, Copy)]
pub(crate) struct Depth {
    /// How many processes are in one another there, itself among them.
    pub(crate) processes: u64,
    /// How many of those around it are `PAR`s.
    pub(crate) pars: u64,
}

impl Depth {
    /// Outside of all processes.
    pub(crate) const OUTSIDE: Depth = Depth {
        processes: 0,
        pars: 0,
    };
}

/// A part of a program, which stands on one line or begins there.
#[derive(Clone, Copy)]
pub(crate) enum Part<'p, 'a> {
    /// A constant of the program, or the head of a procedure.
    Item(&'p Item<'a>),
    /// A process begins, with what is declared before it.
    Process(Depth),
    /// Names that are declared before a process.
    Declaration(&'p Declaration<'a>),
    /// A `SEQ`, a `PAR`, an `IF` or an `ALT`, with what is in it.
    Construct(&'p Construct<'a>),
    /// The name, the base and the count of a replicator, and the body under it.
    Turns(&'p Replicator<'a>, &'p Body<'a>),
    /// An action.
    Action(&'p Action<'a>),
    /// The condition of a choice.
    Condition(&'p Expr<'a>),
    /// The guard of a branch.
    Guard(&'p Guard<'a>),
}

/// Whoever looks at the parts of a program.
pub(crate) trait Visitor {
    /// A part on this line, with what is known before it.
    fn visit(&mut self, scope: &Scope<'_>, line: u32, part: Part<'_, '_>);
}
