//! The laws of what programs mean, each the contract of a function that does nothing.
ghost use Rattle.program_meaning.specs.WorkedPrograms.{SumsMean, EchoesMean, SendingMeans, WordsMatter};
ghost use Rattle.program_meaning.specs.WorkedPrograms.{NamesMean, BitsMean, ConditionsMean, LoopsAndLinksMean};
ghost use Rattle.program_meaning.specs.StoringLaws.{NumbersAgree, ScalarsStored, ElementsStored};
ghost use Rattle.program_meaning.specs.TypedValues.{ValuesAreTyped};
ghost use Rattle.program_meaning.specs.Messages.{ReceivedIsOfType, MessagesReadBack};
ghost use Rattle.program_meaning.specs.RangesWithin.{MovesStayWithin};
ghost use Rattle.program_meaning.specs.KeepingTypes.{TypesStay};
ghost use Rattle.program_meaning.specs.Loops.{LoopsGoOn};
ghost use Rattle.program_meaning.specs.Declarations.{DeclarationsHold};
ghost use Rattle.program_meaning.specs.DeclaredTypes.{DeclarationsTyped};
ghost use Rattle.program_meaning.specs.GoingWell.{OutcomesGoWell};
ghost use Rattle.program_meaning.specs.Doing.{DoingIsRunning};
ghost use Rattle.program_meaning.specs.LeavesAreTrue.{LeavesAreTrue};

/// Small programs read, write and end as they should: sums over a link, echoes, quotients, counts of 0 and 1, links
/// that end early, links to which nothing listens, numbers and subscripts that have no value, constants and tables,
/// operations on bits, conditions, and names that hide others.
#[tactic(auto, using(crate::proofs::Worked::worked_programs))]
pub fn small_programs_mean()
    ensures sums { SumsMean }
    ensures echoes { EchoesMean }
    ensures sending { SendingMeans }
    ensures words { WordsMatter }
    ensures names { NamesMean }
    ensures bits { BitsMean }
    ensures conditions { ConditionsMean }
    ensures loops { LoopsAndLinksMean }
{}

/// Where an environment meets a scope, a number is stored in the scalar that a name denotes there, and one in the
/// range of an array's elements in an element whose subscript lies inside. The environment after it meets the scope.
#[tactic(auto, using(crate::proofs::NumbersStored::storing_holds))]
pub fn numbers_are_stored()
    ensures names { NumbersAgree }
    ensures scalars { ScalarsStored }
    ensures elements { ElementsStored }
{}

/// Where all names hold numbers of their types, and the numbers of an expression's tree are words, the number of a well
/// typed expression is one of its type, if it has one.
#[tactic(auto, using(crate::proofs::ValuesTyped::values_are_typed))]
pub fn values_are_typed()
    ensures { ValuesAreTyped }
{}

/// What is received is a number of the type, whatever came in. What is sent has the length of a message, and is
/// received as the number that was sent.
#[tactic(auto, using(crate::proofs::MessagesReadBack::messages))]
pub fn messages_hold_numbers()
    ensures received { ReceivedIsOfType }
    ensures back { MessagesReadBack }
{}

/// What is known after a test, an assignment, a block of branches or a scope is within what was known before it, but
/// for the variables that were changed.
#[tactic(auto, using(crate::proofs::MovesWithin::moves_stay_within))]
pub fn moves_stay_within()
    ensures { MovesStayWithin }
{}

/// Names that hold numbers of their types hold such numbers after a declaration, after a scope is left, and after a
/// number of its type is stored.
#[tactic(auto, using(crate::proofs::TypesStay::types_stay))]
pub fn types_stay()
    ensures { TypesStay }
{}

/// What is known before a loop is within what its first turn begins with. An environment that meets what a turn leaves
/// meets what the next one begins with, if that is within it and each name holds numbers of its type.
#[tactic(auto, using(crate::proofs::LoopsGoOn::loops_go_on))]
pub fn loops_go_on()
    ensures { LoopsGoOn }
{}

/// Outcomes that are not stuck and leave what is known true compose: one after the other, where scopes are left, and
/// turn by turn in a loop.
#[tactic(auto, using(crate::proofs::OutcomesGoWell::outcomes_go_well))]
pub fn outcomes_go_well()
    ensures { OutcomesGoWell }
{}

/// Where constants have their values and arrays their sizes, what is declared is bound, and holds what its meaning
/// says. The items of a table lie in its range. If the numbers of its expressions are words, it holds numbers of its
/// type.
#[tactic(auto, using(crate::proofs::DeclarationsTyped::declarations))]
pub fn declarations_hold()
    ensures held { DeclarationsHold }
    ensures typed { DeclarationsTyped }
{}

/// What a process does, as a tree of what it asks for, sends and leaves, comes over links to what becomes of it.
#[tactic(auto, using(crate::proofs::DoingIsRunning::doing_is_running))]
pub fn doing_is_running()
    ensures { DoingIsRunning }
{}

/// What holds of what a process leaves, whatever comes in and whoever listens, holds of each leaf of the tree of what it
/// does: nothing fails there, whatever bytes come.
#[tactic(auto, using(crate::proofs::LeavesAreTrue::leaves_are_true))]
pub fn leaves_are_true()
    ensures { LeavesAreTrue }
{}
