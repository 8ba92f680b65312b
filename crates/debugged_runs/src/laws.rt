//! The laws that join `debug` and `run`, each the contract of a function that does nothing.

ghost use Rattle.debugged_runs.specs.DebuggedRuns.{NeverFaults, TellsNoFault, IsCutBelowBudget, OverIsRun};
ghost use Rattle.debugged_runs.specs.DebuggedRuns.{IsCutAsAsked, DebugAgreesWithRun};
ghost use Rattle.file_access.specs.Storage.{storage_of};

use file_access::Files;

/// On the machine that checks each rule a certified module comes to no fault, with whatever files.
pub fn certified_modules_come_to_no_fault<F: Files>()
    ensures { let storage = storage_of F.calls F.Reader.left F.Reader.failed F.Writer.written F.Writer.failed in
        NeverFaults storage }
{}

/// So of the file of a certified module, or of a source, whose module is certified, no fault is told.
pub fn sources_and_certified_modules_are_told_no_fault<F: Files>()
    ensures { let storage = storage_of F.calls F.Reader.left F.Reader.failed F.Writer.written F.Writer.failed in
        TellsNoFault storage }
{}

/// The run of a certified module is cut only by a machine that executes fewer bytes than the module's budget says.
pub fn certified_modules_are_cut_below_their_budget<F: Files>()
    ensures { let storage = storage_of F.calls F.Reader.left F.Reader.failed F.Writer.written F.Writer.failed in
        IsCutBelowBudget storage }
{}

/// So it is cut only where a number of bytes is asked for, and that is below the budget.
pub fn certified_modules_are_cut_as_asked<F: Files>()
    ensures { let storage = storage_of F.calls F.Reader.left F.Reader.failed F.Writer.written F.Writer.failed in
        IsCutAsAsked storage }
{}

/// Where the run of any module on that machine is over, all that `run` promises of its report is so, and the text
/// begins with that report.
pub fn debugged_runs_are_runs<F: Files>()
    ensures { let storage = storage_of F.calls F.Reader.left F.Reader.failed F.Writer.written F.Writer.failed in
        OverIsRun storage }
{}

/// Where `run` comes to an end with readers that have the same bytes and files on the same output links, its report is
/// the same, the same bytes were written, and the same are left.
pub fn debugged_runs_agree_with_runs<F: Files>()
    ensures { let storage = storage_of F.calls F.Reader.left F.Reader.failed F.Writer.written F.Writer.failed in
        DebugAgreesWithRun storage }
{}
