//! The laws of what modules of programs do, each the contract of a function that does nothing.

ghost use Rattle.meant_programs.specs.Mains.{MainIsFound};
ghost use Rattle.meant_programs.specs.Programs.{ProgramsRunAsMeant};

/// Main of a sequential program that breaks no rule is found, with its code, what is known and what memory carries there.
pub fn main_is_found()
    ensures { MainIsFound }
{}

/// A certified module of the pieces of a sequential program reads, writes and ends as the program means.
pub fn programs_run_as_meant()
    ensures { ProgramsRunAsMeant }
{}
