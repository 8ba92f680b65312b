//! The fields of a module file: a table of what each one is, and of the groups that they come in.

ghost use Rattle.std.specs.Prelude.{◌≡◌};
ghost use Rattle.file_faults.specs.Fields.{IsField, IsGroup, branch_field, field_of, group_of, label_field};
ghost use Rattle.file_faults.specs.Fields.{procedure_field};

/// How many bytes a field has, and how they are read as a number.
#[derive(Clone, Copy)]
pub(crate) enum Number {
    Byte,
    Short,
    Word,
    SignedWord,
    Long,
    CodeBytes,
    ConstantBytes,
    Nothing,
}

/// Fields that are there a number of times, one time after the other.
#[derive(Clone, Copy)]
pub(crate) enum Group {
    File,
    Links,
    Procedures,
    Parameters,
    Labels,
    Registers,
    Entries,
    Pars,
    Channels,
    Branches,
    Writes,
    Reads,
    WrittenParameters,
    ReadParameters,
    Ends,
    Tables,
}

/// What the number of a field is for.
#[derive(Clone, Copy)]
pub(crate) enum Role {
    Plain,
    Version,
    CodeSize,
    ConstantsSize,
    DataWords,
    Budget,
    WithinCode,
    WithinData,
    Choice,
    CountOf(Group),
}

/// A field, or a place between two fields at which the next one is chosen.
#[derive(Clone, Copy)]
pub(crate) enum Field {
    Magic,
    CodeSize,
    ConstantsSize,
    DataWords,
    Base,
    Budget,
    Finish,
    LinkLength,
    ProcedureRows,
    LabelRows,
    ParRows,
    Flag,
    TableRows,
    Code,
    Constants,
    ProcedureEntry,
    ProcedureLo,
    ProcedureHi,
    ProcedureNumber,
    Parameters,
    ParameterWord,
    ParameterKind,
    ParameterSize,
    ChannelCount,
    ParameterLength,
    ParameterEnds,
    Lo,
    Hi,
    LabelOffset,
    LabelContext,
    LabelDepth,
    LabelNumber,
    Entries,
    EntryWord,
    EntrySpan,
    FactTag,
    FactRegion,
    RegionLo,
    RegionHi,
    RegionStep,
    FactOffset,
    FactBase,
    FactTurns,
    FactWeight,
    ParContext,
    ParDepth,
    ParBlock,
    ParSuccessor,
    Channels,
    Branches,
    ChannelWord,
    ChannelLength,
    BranchEntry,
    BranchWorkspace,
    Writes,
    Reads,
    WrittenParameters,
    ReadParameters,
    Ends,
    WordsLo,
    WordsHi,
    ParameterNumber,
    EndKind,
    EndNumber,
    EndElement,
    EndDirection,
    TableStart,
    TableEnd,
    TableLo,
    End,
    /// The flag in version 2, else the code.
    FlagOrCode,
    /// What a parameter of the chosen kind begins with.
    OfKind,
    /// A range in version 2, else the next one of the group.
    RangeOrNext,
    /// What a fact of the chosen tag begins with.
    OfTag,
    /// The first one of a group, if it has any.
    First(Group),
    /// The next one of the group, if it has more.
    Next,
}

/// What a field is: its number, its name, what is wanted of it, what it is for, and the field after it.
#[derive(Clone, Copy)]
pub(crate) struct FieldRecord {
    pub number: Number,
    pub name: &'static str,
    pub wanted: &'static str,
    pub role: Role,
    pub next: Field,
}

/// What a group is: its first field, the field after its last one, the group around it, and the words before a number.
#[derive(Clone, Copy)]
pub(crate) struct GroupRecord {
    pub first: Field,
    pub after: Field,
    pub outer: Group,
    pub words: &'static str,
}

macro_rules! field {
    ($number:ident $name:literal $wanted:literal, $role:ident $(($count:ident))?
        => $next:ident $(($group:ident))?) => {
        &FieldRecord {
            number: Number::$number,
            name: $name,
            wanted: $wanted,
            role: Role::$role $((Group::$count))?,
            next: Field::$next $((Group::$group))?,
        }
    };
    ($number:ident $name:literal, $role:ident $(($count:ident))?
        => $next:ident $(($group:ident))?) => {
        field!($number $name "another number", $role $(($count))? => $next $(($group))?)
    };
}

macro_rules! group {
    ($words:literal in $outer:ident, $first:ident .. $after:ident $(($group:ident))?) => {
        &GroupRecord {
            words: $words,
            outer: Group::$outer,
            first: Field::$first,
            after: Field::$after $((Group::$group))?,
        }
    };
}

/// A field, by the table of those before the rows and of a table row.
#[tactic(auto, unfolding(crate::specs::Fields::field_of))]
pub(crate) fn field_of(field: Field) -> &'static FieldRecord
    ensures { IsField result.now (field_of field) }
{
    match field {
        Field::Magic => field!(Word "magic" "TPM1 or TPM2", Version => CodeSize),
        Field::CodeSize => field!(Word "bytes of code" "at least 1", CodeSize => ConstantsSize),
        Field::ConstantsSize => field!(Word "bytes of constants", ConstantsSize => DataWords),
        Field::DataWords => field!(Word "words of the data area" "at least 1", DataWords => Base),
        Field::Base => field!(Word "base"
            "at most the words of the data area", WithinData => Budget),
        Field::Budget => field!(Long "budget", Budget => Finish),
        Field::Finish => field!(Word "finish"
            "at most the bytes of code", WithinCode => First(Links)),
        Field::LinkLength => field!(Word "length", Plain => Next),
        Field::ProcedureRows => field!(Word "number of procedure rows",
            CountOf(Procedures) => LabelRows),
        Field::LabelRows => field!(Word "number of label rows", CountOf(Labels) => ParRows),
        Field::ParRows => field!(Word "number of PAR rows", CountOf(Pars) => FlagOrCode),
        Field::Flag => field!(Word "flag" "0 or 1", Plain => TableRows),
        Field::TableRows => field!(Word "number of table rows", CountOf(Tables) => Code),
        Field::Code => field!(CodeBytes "code" "other bytes", Plain => Constants),
        Field::Constants => field!(ConstantBytes "constants"
            "other bytes", Plain => First(Procedures)),
        Field::TableStart => field!(Word "start" "a multiple of 4", Plain => TableEnd),
        Field::TableEnd => field!(Word "end"
            "a multiple of 4 above start, at most the bytes of constants", Plain => TableLo),
        Field::TableLo => field!(SignedWord "lo"
            "a range that has all words of the table", Plain => Hi),
        _ => procedure_field(field),
    }
}

/// A field, by the table of those of a procedure row.
#[tactic(auto, unfolding(crate::specs::Fields::procedure_field))]
fn procedure_field(field: Field) -> &'static FieldRecord
    ensures { IsField result.now (procedure_field field) }
{
    match field {
        Field::ProcedureEntry => field!(Word "entry"
            "an offset in the code that is not its first", WithinCode => ProcedureLo),
        Field::ProcedureLo => field!(SignedWord "lo" "from -16384 to 0", Plain => ProcedureHi),
        Field::ProcedureHi => field!(SignedWord "hi" "from 4 to 16384", Plain => ProcedureNumber),
        Field::ProcedureNumber => field!(Long "number", Plain => Parameters),
        Field::Parameters => field!(Short "parameters", CountOf(Parameters) => First(Parameters)),
        Field::ParameterWord => field!(Short "word" "from 1 to below hi", Plain => ParameterKind),
        Field::ParameterKind => field!(Byte "kind" "0 to 3", Choice => OfKind),
        Field::ParameterSize => field!(Word "size"
            "a multiple of 4, at least 4", Plain => RangeOrNext),
        Field::ChannelCount => field!(Word "count" "at least 1", Plain => ParameterLength),
        Field::ParameterLength => field!(Word "length" "at least 1", Plain => ParameterEnds),
        Field::ParameterEnds => field!(Byte "ends" "1 (in), 2 (out) or 3 (both)", Plain => Next),
        Field::Lo => field!(SignedWord "lo", Plain => Hi),
        Field::Hi => field!(SignedWord "hi" "at least lo", Plain => Next),
        _ => label_field(field),
    }
}

/// A field, by the table of those of a label row.
#[tactic(auto, unfolding(crate::specs::Fields::label_field))]
fn label_field(field: Field) -> &'static FieldRecord
    ensures { IsField result.now (label_field field) }
{
    match field {
        Field::LabelOffset => field!(Word "offset"
            "an offset in the code that is neither its first nor the entry of a procedure",
            WithinCode => LabelContext),
        Field::LabelContext => field!(Short "context"
            "a context that is there", Plain => LabelDepth),
        Field::LabelDepth => field!(SignedWord "depth", Plain => LabelNumber),
        Field::LabelNumber => field!(Long "number", Plain => First(Registers)),
        Field::Entries => field!(Short "entries", CountOf(Entries) => First(Entries)),
        Field::EntryWord => field!(SignedWord "word" "words of the frame", Plain => EntrySpan),
        Field::EntrySpan => field!(Word "span" "at least 1", Plain => FactTag),
        Field::FactTag => field!(Byte "tag"
            "0 to 3; of an entry 1 to 3, 4 for two words or 5 for one", Choice => OfTag),
        Field::FactRegion => field!(Short "region" "a region that is there", Plain => RegionLo),
        Field::RegionLo => field!(SignedWord "lo", Plain => RegionHi),
        Field::RegionHi => field!(SignedWord "hi" "at least lo", Plain => RegionStep),
        Field::RegionStep => field!(Byte "step"
            "1, or 4 where lo and hi are multiples of 4", Plain => Next),
        Field::FactOffset => field!(Word "offset" "at most the bytes of code", WithinCode => Next),
        Field::FactBase => field!(SignedWord "base", Plain => FactTurns),
        Field::FactTurns => field!(Word "count"
            "at least 1, with a last index that is a word", Plain => FactWeight),
        Field::FactWeight => field!(Long "weight", Plain => Next),
        _ => branch_field(field),
    }
}

/// A field, by the table of those of a PAR row, or the end.
#[tactic(auto, unfolding(crate::specs::Fields::branch_field))]
fn branch_field(field: Field) -> &'static FieldRecord
    ensures { IsField result.now (branch_field field) }
{
    match field {
        Field::ParContext => field!(Short "context"
            "a context that is before its branches", Plain => ParDepth),
        Field::ParDepth => field!(SignedWord "depth", Plain => ParBlock),
        Field::ParBlock => field!(SignedWord "block" "words of the frame", Plain => ParSuccessor),
        Field::ParSuccessor => field!(Word "successor"
            "an offset in the code that is not its first", WithinCode => Channels),
        Field::Channels => field!(Short "channels", CountOf(Channels) => Branches),
        Field::Branches => field!(Short "branches"
            "at least 1", CountOf(Branches) => First(Channels)),
        Field::ChannelWord => field!(SignedWord "word"
            "a word of the frame", Plain => ChannelLength),
        Field::ChannelLength => field!(Word "length" "at least 1", Plain => Next),
        Field::BranchEntry => field!(Word "entry"
            "an offset in the code that is not its first, and that of no other branch",
            WithinCode => BranchWorkspace),
        Field::BranchWorkspace => field!(SignedWord "workspace"
            "a word of the frame", Plain => Writes),
        Field::Writes => field!(Short "written", CountOf(Writes) => Reads),
        Field::Reads => field!(Short "read", CountOf(Reads) => WrittenParameters),
        Field::WrittenParameters => field!(Short "written parameters",
            CountOf(WrittenParameters) => ReadParameters),
        Field::ReadParameters => field!(Short "read parameters", CountOf(ReadParameters) => Ends),
        Field::Ends => field!(Short "ends", CountOf(Ends) => First(Writes)),
        Field::WordsLo => field!(SignedWord "lo" "words of the frame", Plain => WordsHi),
        Field::WordsHi => field!(SignedWord "hi" "above lo", Plain => Next),
        Field::ParameterNumber => field!(Short "number" "a parameter that is there", Plain => Next),
        Field::EndKind => field!(Byte "kind" "0 to 2", Plain => EndNumber),
        Field::EndNumber => field!(SignedWord "number"
            "a channel that is there", Plain => EndElement),
        Field::EndElement => field!(Word "element"
            "0, but of a parameter one of its channels", Plain => EndDirection),
        Field::EndDirection => field!(Byte "direction" "1 (in) or 2 (out)", Plain => Next),
        _ => field!(Nothing "end" "nothing", Plain => End),
    }
}

/// A group, by the table of groups.
#[tactic(auto, unfolding(crate::specs::Fields::group_of))]
pub(crate) fn group_of(group: Group) -> &'static GroupRecord
    ensures { IsGroup result.now (group_of group) }
{
    match group {
        Group::File => group!("" in File, Magic .. End),
        Group::Links => group!("link " in File, LinkLength .. ProcedureRows),
        Group::Procedures => group!("procedure row " in File, ProcedureEntry .. First(Labels)),
        Group::Parameters => group!("parameter " in Procedures, ParameterWord .. Next),
        Group::Labels => group!("label row " in File, LabelOffset .. First(Pars)),
        Group::Registers => group!("" in Labels, FactTag .. Entries),
        Group::Entries => group!("entry " in Labels, EntryWord .. Next),
        Group::Pars => group!("PAR row " in File, ParContext .. First(Tables)),
        Group::Channels => group!("channel " in Pars, ChannelWord .. First(Branches)),
        Group::Branches => group!("branch " in Pars, BranchEntry .. Next),
        Group::Writes => group!("written words " in Branches, WordsLo .. First(Reads)),
        Group::Reads => group!("read words " in Branches, WordsLo .. First(WrittenParameters)),
        Group::WrittenParameters =>
            group!("written parameter " in Branches, ParameterNumber .. First(ReadParameters)),
        Group::ReadParameters =>
            group!("read parameter " in Branches, ParameterNumber .. First(Ends)),
        Group::Ends => group!("end " in Branches, EndKind .. Next),
        Group::Tables => group!("table row " in File, TableStart .. End),
    }
}
