//! The rows of labels and procedures, met in the order of their offsets.

ghost use Rattle.std.specs.Prelude.{◌+◌, ◌≤◌, length};
ghost use Rattle.module_format.specs.declared.limits.TheConstants.{MAX_PROCEDURES};

use certificate::Module;
use module_format::{LabelRow, ProcedureRow};

/// What the tables give at an offset.
#[derive(Clone, Copy)]
pub enum Given<'a> {
    Nothing,
    Label(&'a LabelRow),
    /// A procedure begins there, whose context has this number.
    Procedure { context: u32, row: &'a ProcedureRow },
}

/// The rows from an offset on.
#[derive(Drop)]
pub(crate) struct Rows<'a> {
    pub labels: &'a [LabelRow],
    pub procedures: &'a [ProcedureRow],
    /// The context of the first of these procedures.
    pub context: u32,
    ghost few: { context + length procedures.now ≤ MAX_PROCEDURES + 1 },
}

impl<'a> Rows<'a> {
    ghost use Rattle.std.specs.Prelude.{◌≡◌, ℕ, MatchOption, None};
    ghost use Rattle.module_format.specs.Contents.{Contents, label_at};
    ghost use Rattle.module_format.specs.Keeping.{Keeps};
    ghost use Rattle.certificate.specs.Starts.{procedure_at};
    ghost use Rattle.verifier.specs.Judging.{LabelsLeft, ProceduresLeft, AreLeft, IsLabelRow, Begins, IsGiven};

    /// All rows of a module.
    pub fn of(module: &'a Module<'a>) -> Self
        ensures left { AreLeft «module».now 0 result }
        ensures kept { Keeps «module».now }
    {
        let tables = module.tables();
        Rows {
            labels: &tables.labels,
            procedures: &tables.procedures,
            context: 1,
        }
    }

    /// The label at an offset, if it has one: the first of those that are left.
    fn take_label(&mut self, at: usize) -> Option<&'a LabelRow>
        ensures left { (m : Contents) → LabelsLeft m at self.old.labels.now
            → LabelsLeft m (at + 1) self.new.labels.now }
        ensures found { (m : Contents) → LabelsLeft m at self.old.labels.now
            → MatchOption result (label_at m at ≡ None) (λ row. IsLabelRow m at row.now) }
        ensures procedures { self.new.procedures.now ≡ self.old.procedures.now }
        ensures context { self.new.context ≡ self.old.context }
    {
        let (row, later) = self.labels.split_first()?;
        if row.offset as usize != at {
            return None;
        }
        self.labels = later;
        Some(row)
    }

    /// The procedure that begins at an offset, if one does, with its context.
    fn take_procedure(&mut self, at: usize) -> Option<(u32, &'a ProcedureRow)>
        ensures left { (m : Contents) → ProceduresLeft m at self.old.context self.old.procedures.now
            → ProceduresLeft m (at + 1) self.new.context self.new.procedures.now }
        ensures found { (m : Contents) → ProceduresLeft m at self.old.context self.old.procedures.now
            → MatchOption result (procedure_at m at ≡ None) (λ begun. Begins m at begun.0 begun.1.now) }
        ensures labels { self.new.labels.now ≡ self.old.labels.now }
    {
        let (row, later) = self.procedures.split_first()?;
        if row.entry as usize != at {
            return None;
        }
        let context = self.context;
        self.procedures = later;
        self.context = context + 1;
        Some((context, row))
    }

    /// What the tables give at an offset. The rows after it are left.
    pub fn take(&mut self, at: usize) -> Given<'a>
        ensures left { (m : Contents) → AreLeft m at self.old → AreLeft m (at + 1) self.new }
        ensures given { (m : Contents) → AreLeft m at self.old → IsGiven m at result }
    {
        let label = self.take_label(at);
        let procedure = self.take_procedure(at);
        match (label, procedure) {
            (Some(row), _) => Given::Label(row),
            (None, Some((context, row))) => Given::Procedure { context, row },
            (None, None) => Given::Nothing,
        }
    }
}
