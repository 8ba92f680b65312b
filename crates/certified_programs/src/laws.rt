//! The laws of certified programs, each the contract of a function that does nothing.

ghost use Rattle.certified_programs.specs.Foundations.{RootSettingsAreRoots, RootsAreFounded};
ghost use Rattle.certified_programs.specs.Mains.{MainIsSettled};
ghost use Rattle.certified_programs.specs.Programs.{ProgramsAreCertified, ProgramsAreNotRefused};
ghost use Rattle.certified_programs.specs.Tables.{NoTableIsEmpty};

/// All code of a module of pieces without PARs is in the root. Each table that the pieces read lies in the constants,
/// where its row says the least and the greatest of its values.
pub fn roots_are_founded()
    ensures roots { RootSettingsAreRoots }
    ensures founded { RootsAreFounded }
{}

/// Main of a sequential program that breaks no rule is found, with its code. The scope before it is settled, and held
/// whatever is known of words.
pub fn main_is_settled()
    ensures { MainIsSettled }
{}

/// The code of a sequential program that breaks no rule makes the address of no empty table.
pub fn tables_have_values()
    ensures { NoTableIsEmpty }
{}

/// The module that says the pieces of a sequential program that breaks no rule is certified, and so it is not refused.
pub fn programs_are_certified()
    ensures certified { ProgramsAreCertified }
    ensures accepted { ProgramsAreNotRefused }
{}
