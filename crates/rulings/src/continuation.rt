//! How a process goes on after an instruction, by the rule of that instruction.

/// How a process goes on after an instruction.
#[derive(Clone, Copy)]
pub enum Continuation {
    /// After the instruction, in the state that it leaves.
    Falls,
    /// At the label at this code offset.
    Leads { to: u32 },
    /// After the instruction, in the state that it leaves, or at the label at this code offset.
    FallsOrLeads { to: u32 },
    /// In the procedure that begins at this code offset, and after the instruction, in the state that it
    /// leaves, once the procedure has returned.
    Calls { to: u32 },
    /// Where it was called.
    Returns,
    /// Nowhere: it stops.
    Ends,
}
