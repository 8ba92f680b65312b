//! The law that joins `compile` and `run`, the contract of a function that does nothing.

ghost use Rattle.compiled_runs.specs.CompiledRuns.{CompiledProgramsDoWhatTheyMean};

/// Where the run of what `compile` made of a sequential program is over, what was read and written and whether the module
/// is finished are what the program means.
pub fn compiled_programs_do_what_they_mean()
    ensures { CompiledProgramsDoWhatTheyMean }
{}
