//! The branch that begins at a code offset, where it is in the module, and a start of it.

ghost use Rattle.std.specs.Prelude.{◌≡◌, ◌+◌, ◌<◌, ◌^◌, if◌then◌else◌, Some, None, OnOk, map, length, nat_lt};
ghost use Rattle.std.specs.Prelude.{MatchOption};
ghost use Rattle.module_format.specs.Contents.{branch_of, contents_of};
ghost use Rattle.machine_state.specs.Faults.{fault_in};
ghost use Rattle.machine_state.specs.JoinLookups.{found_in_row, found_at};
ghost use Rattle.joins.specs.Finding.{found_view};

use certificate::Module;
use machine_state::{Fault, FaultKind, Registers};
use module_format::{BranchRow, ParRow, Tables};
use traffic::Here;

/// A branch, the number of its row, and its own number in the row.
#[derive(Clone, Copy)]
pub(crate) struct Found<'a> {
    pub row: usize,
    pub par: &'a ParRow,
    pub number: usize,
    pub branch: &'a BranchRow,
}

/// A start of this branch, with this workspace, by a process that goes on with these registers.
#[derive(Clone, Copy)]
pub(crate) struct Start<'a, 'm> {
    pub module: &'a Module<'m>,
    /// The process, at the instruction.
    pub here: &'a Here,
    pub found: Found<'a>,
    pub workspace: u32,
    pub registers: Registers,
}

impl Start<'_, '_> {
    /// Passes if code follows the instruction, else `OutsideCode`.
    pub(crate) fn check_followed(&self) -> Result<(), Fault>
        ensures followed { let at = self.now.here.now.task.registers.at in
            let began = self.now.here.now.task.registers.began in
            let fault = fault_in self.now.here.now.process began FaultKind.OutsideCode in
            result ≡ (if nat_lt (at + 1) (length self.now.module.now.code) then Ok tt else Err fault) }
        ensures bound { OnOk result (self.now.here.now.task.registers.at + 1 < 2 ^ 32) }
    {
        let is_followed = self.here.is_followed(self.module.tables());
        self.here.check(is_followed, FaultKind::OutsideCode)
    }
}

/// The branch of a row that begins at a code offset, with its number.
fn found_in_row(branches: &[BranchRow], target: u32) -> Option<(usize, &BranchRow)>
    ensures { let found = found_in_row target 0 (map branch_of branches.now) in
        MatchOption result (found ≡ None) (λ x. found ≡ Some (x.0, branch_of x.1.now)) }
{
    for (number, branch) in branches.iter().enumerate() {
        if branch.entry == target {
            return Some((number, branch));
        }
    }
    None
}

/// The branch that begins at a code offset, if there is one. It takes time linear in the rows.
pub(crate) fn found_at<'t>(tables: &'t Tables, target: u32) -> Option<Found<'t>>
    ensures { let found = found_at (contents_of tables.now) target in
        MatchOption result (found ≡ None) (λ f. found ≡ Some (found_view f)) }
{
    for (row, par) in tables.pars.iter().enumerate() {
        if let Some((number, branch)) = found_in_row(&par.branches, target) {
            return Some(Found {
                row,
                par,
                number,
                branch,
            });
        }
    }
    None
}
