//! The laws of the code of processes, each the contract of a function that does nothing.

ghost use Rattle.certified_processes.specs.ProcessesPass.{ProcessesPass};
ghost use Rattle.certified_processes.specs.Rows.{ScopesImplyRows, ScopesEnterLoops, RowsTellScopes};

/// What a scope knows of words implies the row of one around it, and enters a loop whose row has it; and what a row
/// tells of words is what its scope says.
pub fn rows_are_of_scopes()
    ensures implied { ScopesImplyRows }
    ensures entered { ScopesEnterLoops }
    ensures told { RowsTellScopes }
{}

/// The code of each process of a sequential program that breaks no rule passes, from where exactly that is known of
/// words which the scope says to where the scope after the process says it.
pub fn processes_pass()
    ensures { ProcessesPass }
{}
