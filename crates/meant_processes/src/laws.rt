//! The laws of what the code of processes does, each the contract of a function that does nothing.

ghost use Rattle.meant_processes.specs.Actions.{ReachedLinesBehave};
ghost use Rattle.meant_processes.specs.Lying.{PiecesLieApart};
ghost use Rattle.meant_processes.specs.LyingInPrograms.{PartsLieApart};
ghost use Rattle.meant_processes.specs.ProcessesBehave.{ProcessesBehave};

/// Pieces lie in code where their rows were kept apart.
pub fn pieces_lie_apart()
    ensures { PiecesLieApart }
{}

/// So does each part of the pieces of a program, where a module says them.
pub fn parts_lie_apart()
    ensures { PartsLieApart }
{}

/// In the root the code of each line that is reached behaves, if no rule is broken.
pub fn reached_lines_behave()
    ensures { ReachedLinesBehave }
{}

/// The code of each process of a sequential program that breaks no rule makes a process do what its meaning says, if it
/// declares no channel.
pub fn processes_behave()
    ensures { ProcessesBehave }
{}
