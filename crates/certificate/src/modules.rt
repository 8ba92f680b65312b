//! Modules that were read.

use crate::branches::numbered_branch;
use crate::index::Index;
use crate::judged::Judged;
use crate::judged_rows::JudgedRow;
use crate::numbers::number_at;
use crate::owned::OwnWords;
use crate::runs::ChannelRun;
use module_format::{
    BranchRow, Context, Contexts, FormatFault, Interval, LabelRow, ParRow, Parameter, ProcedureRow,
    Tables, Version, read, row_at,
};
use std::alloc::{AllocError, Global};
use std::marker::Model;

/// What a file says, with the file. A `Module` is made by reading alone, so that each is one that a file
/// gave.
#[derive(Drop)]
pub struct Module<'a> {
    bytes: &'a [u8],
    tables: Tables<'a>,
    index: Index,
}

impl<'a> Model for Module<'a> {
    ghost use Rattle.module_format.specs.Contents.{Contents, contents_of};
    ghost use Rattle.module_format.specs.Keeping.{IsFile};
    ghost use Rattle.certificate.specs.Index.{IsIndex};

    ghost Value = { Contents };

    ghost view = { λ m. contents_of m.tables };

    ghost invariant = { λ m. IsFile m.tables.version m.bytes.now (contents_of m.tables)
        × IsIndex (contents_of m.tables) m.index };
}

/// A module with the version of its file, of which nothing that is asked of a module depends.
#[derive(Drop)]
pub struct ModuleFile<'a> {
    /// The version of the file.
    pub version: Version,
    /// What the file says.
    pub module: Module<'a>,
}

impl<'a> ModuleFile<'a> {
    ghost use Rattle.std.specs.Prelude.{◌≡◌, ◌≢◌, ◌⊎◌, IfOk, IfErr, MatchResult, Ok, Err};
    ghost use Rattle.module_format.specs.Contents.{Contents};
    ghost use Rattle.module_format.specs.Keeping.{IsFile};
    ghost use Rattle.module_format.specs.Reading.{out_of_memory};
    ghost use Rattle.module_format.specs.ReadingFile.{read_file};
    ghost use Rattle.module_format.specs.declared.tables.Version.{Version};

    /// What the bytes say and the version that they say it in, or the first fault in the order of the fields.
    pub fn read(alloc: Global, bytes: &'a [u8]) -> Result<ModuleFile<'a>, FormatFault>
        // What is read is what the bytes spell.
        ensures found { IfOk result (λ file. IsFile file.version bytes.now file.module) }
        // What the bytes spell is read, unless memory runs out.
        ensures only { (version : Version) (c : Contents) → IsFile version bytes.now c
            → MatchResult result (λ file. (file.version ≡ version) × (file.module ≡ c)) (λ f. f ≡ out_of_memory) }
        // Bytes that are refused spell nothing.
        ensures refused { IfErr result (λ f. f ≢ out_of_memory → (version : Version) (c : Contents)
            → IsFile version bytes.now c → ⊥) }
        // Which fault it is, and where.
        ensures exact { MatchResult result (λ file. read_file bytes.now ≡ Ok (file.version, file.module))
            (λ f. (f ≡ out_of_memory) ⊎ (read_file bytes.now ≡ Err f)) }
    {
        let (tables, places) = read(alloc, bytes)?;
        let version = tables.version;
        let index = Index::new(alloc, &tables, places)?;
        let mut module = Module {
            bytes,
            tables,
            index,
        };
        module.judge_rows(alloc)?;
        Ok(ModuleFile { version, module })
    }
}

impl<'a> Module<'a> {
    ghost use Rattle.std.specs.Prelude.{◌≡◌, ◌≢◌, ◌⊎◌, IfOk, IfErr, MatchResult, Ok, Err, MatchOption, IfSome, Some};
    ghost use Rattle.std.specs.Prelude.{None, ℤ};
    ghost use Rattle.module_format.specs.Contents.{Contents, contents_of, label_of, procedure_of, label_at};
    ghost use Rattle.module_format.specs.Contents.{par_of, branch_of};
    ghost use Rattle.module_format.specs.Contexts.{context_at, parameters_at};
    ghost use Rattle.module_format.specs.Places.{owner_at};
    ghost use Rattle.std.specs.List.Sorted.{IsStrictlySortedBy};
    ghost use Rattle.std.specs.Ordering.{int_cmp};
    ghost use Rattle.certificate.specs.Named.{is_one_of, names_parameter_in};
    ghost use Rattle.certificate.specs.Starts.{procedure_at, is_start};
    ghost use Rattle.certificate.specs.Branches.{numbered_branch, branch_at};
    ghost use Rattle.certificate.specs.BranchRuns.{AreRunsAt};
    ghost use Rattle.certificate.specs.Judged.{IsJudged, IsRowJudged};
    ghost use Rattle.certificate.specs.Owned.{AreOwnAt};
    ghost use Rattle.certificate.specs.Rights.{is_among};
    ghost use Rattle.certificate.specs.Starting.{is_written_in};
    ghost use Rattle.certificate.specs.Words.{AreJoined, beyond_interval};
    ghost use Rattle.module_format.specs.Order.{InOrder, least_word};
    ghost use Rattle.module_format.specs.Pars.{GiftsKeep, ChannelKeeps, behind_channel, IntervalKeeps};
    ghost use Rattle.module_format.specs.Pars.{behind_interval};
    ghost use Rattle.module_format.specs.Keeping.{FitsVersion, Format, Keeps};
    ghost use Rattle.module_format.specs.Reading.{out_of_memory};
    ghost use Rattle.module_format.specs.ReadingFile.{read_contents};

    /// What the bytes say, or the first fault in the order of the fields. References are checked once all rows are
    /// read.
    // A body that always returns out of memory meets these clauses too, since no clause can say that memory is left:
    // tests show that files are read.
    #[tactic(auto, unfolding(module_format::specs::ReadingFile::read_contents, module_format::specs::Reading::and_then))]
    pub fn read(alloc: Global, bytes: &'a [u8]) -> Result<Module<'a>, FormatFault>
        // What is read is what the bytes spell.
        ensures found { IfOk result (Format bytes.now) }
        // What the bytes spell is read, unless memory runs out.
        ensures only { (c : Contents) → Format bytes.now c → MatchResult result (λ m. m ≡ c) (λ f. f ≡ out_of_memory) }
        // Bytes that are refused spell nothing.
        ensures refused { IfErr result (λ f. f ≢ out_of_memory → (c : Contents) → Format bytes.now c → ⊥) }
        // Which fault it is, and where.
        ensures exact { MatchResult result (λ m. read_contents bytes.now ≡ Ok m)
            (λ f. (f ≡ out_of_memory) ⊎ (read_contents bytes.now ≡ Err f)) }
    {
        let file = ModuleFile::read(alloc, bytes)?;
        Ok(file.module)
    }

    /// Judges all branches and PAR rows.
    fn judge_rows(&mut self, alloc: Global) -> Result<(), AllocError>
        ensures { self.new ≡ self.old }
    {
        let judged = self.judge_branches(alloc, &self.index.places)?;
        let judged_rows = self.judge_pars(alloc)?;
        self.index.judged = judged;
        self.index.judged_rows = judged_rows;
        Ok(())
    }

    /// What the file says. It is valid, and fits its version.
    pub fn tables(&self) -> &Tables<'a>
        ensures contents { contents_of result.now ≡ self.now }
        ensures kept { Keeps self.now }
        ensures fits { FitsVersion result.now.version self.now }
    {
        &self.tables
    }

    /// The label row at a code offset, found in logarithmic time.
    pub fn label_at(&self, offset: u32) -> Option<&LabelRow>
        ensures { MatchOption result (label_at self.now offset ≡ None)
            (λ row. label_at self.now offset ≡ Some (label_of row.now)) }
    {
        let (_index, row) = row_at(&self.tables.labels, offset)?;
        Some(row)
    }

    /// The procedure that begins at a code offset, with the number of its context, found in logarithmic
    /// time.
    pub fn procedure_at(&self, offset: u32) -> Option<(u32, &ProcedureRow)>
        ensures { MatchOption result (procedure_at self.now offset ≡ None)
            (λ found. procedure_at self.now offset
            ≡ Some (record { context = found.0; procedure = procedure_of found.1.now })) }
    {
        let (index, row) = row_at(&self.tables.procedures, offset)?;
        Some((index as u32 + 1, row))
    }

    /// Whether the tables say that an instruction starts at a code offset: it has a label row, or a
    /// procedure or a branch begins there, or it is the successor of a PAR. It takes constant time.
    pub fn is_start(&self, offset: u32) -> bool
        ensures { result ≡ is_start self.now offset }
    {
        self.index.starts.contains(offset)
    }

    /// Where its contexts are looked up, each in constant time.
    fn contexts(&self) -> Contexts<'_, 'a>
        ensures { result ≡ self.now }
    {
        Contexts::of_places(&self.tables, &self.index.places)
    }

    /// The context of a number, where there is one, found in constant time.
    pub fn context(&self, number: u32) -> Option<Context>
        ensures { result ≡ context_at self.now number }
    {
        self.contexts().context(number)
    }

    /// The number of the root (0) or procedure that a context is or belongs to, found in constant time, where there
    /// is that context.
    pub fn owner(&self, number: u32) -> Option<u32>
        ensures { result ≡ owner_at self.now number }
    {
        self.contexts().owner(number)
    }

    /// The parameters of the procedure that a context is or belongs to, found in constant time; none
    /// where there is no such context.
    pub fn parameters(&self, number: u32) -> &[Parameter]
        ensures { result.now ≡ parameters_at self.now number }
    {
        self.contexts().parameters(number)
    }

    /// The branch that is the context of a number, with its PAR row, found in constant time.
    pub fn branch(&self, number: u32) -> Option<(&ParRow, &BranchRow)>
        ensures found { MatchOption result (numbered_branch self.now number ≡ None)
            (λ found. numbered_branch self.now number ≡ Some (par_of found.0.now, branch_of found.1.now)) }
        // What the rows say is valid.
        ensures kept { IfSome result (λ found. GiftsKeep (branch_of found.1.now)
            × InOrder ChannelKeeps behind_channel least_word found.0.now.channels.items) }
    {
        let (_number, row, branch) = numbered_branch(&self.tables, &self.index.places, number)?;
        Some((row, branch))
    }

    /// The runs of the ends of a branch, in the order of the ends.
    pub(crate) fn runs(&self, context: u32) -> Option<&[ChannelRun]>
        ensures { AreRunsAt self.now context result }
    {
        let number = (context as usize).checked_sub(self.tables.first_branch())?;
        let runs = self.index.runs.get(number)?;
        Some(runs)
    }

    /// What was judged of a branch.
    pub(crate) fn judged(&self, context: u32) -> Option<Judged>
        ensures { IfSome result (IsJudged self.now context) }
    {
        let number = (context as usize).checked_sub(self.tables.first_branch())?;
        let judged = self.index.judged.get(number)?;
        Some(*judged)
    }

    /// The words that a branch has.
    pub(crate) fn own_words(&self, context: u32) -> Option<&OwnWords>
        ensures { AreOwnAt self.now context result }
    {
        let number = (context as usize).checked_sub(self.tables.first_branch())?;
        let own = self.index.own.get(number)?;
        Some(own)
    }

    /// What was judged of a PAR row.
    pub(crate) fn judged_row(&self, row: usize) -> Option<JudgedRow>
        ensures { IfSome result (IsRowJudged self.now row) }
    {
        self.index.judged_rows.get(row).copied()
    }

    /// The words that branches of a PAR row write, as joined intervals.
    fn joined_writes(&self, row: usize) -> &[Interval]
        ensures { AreJoined (is_written_in self.now row) result.now }
    {
        match self.index.written.get(row) {
            Some(words) => words,
            None => &[],
        }
    }

    /// The words that some branch of a PAR row writes, as intervals that rise, of which no two touch; none where there
    /// is no such row. It takes constant time, since they were joined when the module was read.
    pub fn written_words(&self, row: usize) -> &[Interval]
        ensures words { (k : ℤ) → is_among result.now k ≡ is_written_in self.now row k }
        ensures order { InOrder IntervalKeeps behind_interval least_word result.now }
        ensures apart { InOrder IntervalKeeps beyond_interval least_word result.now }
    {
        self.joined_writes(row)
    }

    /// The numbers of the parameters that the branches of a PAR row name, in rising order, each once: of those that they
    /// write or read, and of those whose channels they have an end of; none where there is no such row. It takes constant
    /// time, since they were listed when the module was read.
    pub fn named_parameters_of(&self, row: usize) -> &[i32]
        ensures named { (j : ℤ) → is_one_of result.now j ≡ names_parameter_in self.now row j }
        ensures rise { IsStrictlySortedBy int_cmp result.now }
    {
        match self.index.named.get(row) {
            Some(numbers) => numbers,
            None => &[],
        }
    }

    /// The branch that begins at a code offset, with the number of its context and its PAR row, found in
    /// constant time. The number may be above the greatest that a row can name.
    pub fn branch_at(&self, offset: u32) -> Option<(u32, &ParRow, &BranchRow)>
        ensures { MatchOption result (branch_at self.now offset ≡ None)
            (λ found. branch_at self.now offset
            ≡ Some (record { context = found.0; par = par_of found.1.now; branch = branch_of found.2.now })) }
    {
        let number = number_at(&self.index.numbers, offset);
        let (row, branch) = self.branch(number)?;
        Some((number, row, branch))
    }
}
