//! The field of a module file that comes after another one, by what that one has.
#![tactic(auto, unfolding(crate::specs::Walks::counted, crate::specs::Walks::noted, crate::specs::Walks::at_group, crate::specs::Walks::turn))]

ghost use Rattle.std.specs.Prelude.{◌≡◌};
ghost use Rattle.file_faults.specs.Walks.{at_field, at_group, count_of, counted, next_field, noted};
ghost use Rattle.file_faults.specs.Walks.{of_kind, of_tag, turn, turned};

use crate::fields::{Field, Group, Role, field_of, group_of};

/// The magic of version 2, as a number.
const MAGIC_OF_TWO: u64 = 843_927_636;
/// As many turns as there are at most between two fields: after a list, the four other lists, the branches, the PAR
/// rows and the tables may be over.
const TURNS: u64 = 8;

/// A number for each group.
#[derive(Clone, Copy, Default)]
pub(crate) struct Counts {
    pub links: u64,
    pub procedures: u64,
    pub parameters: u64,
    pub labels: u64,
    pub registers: u64,
    pub entries: u64,
    pub pars: u64,
    pub channels: u64,
    pub branches: u64,
    pub writes: u64,
    pub reads: u64,
    pub written_parameters: u64,
    pub read_parameters: u64,
    pub ends: u64,
    pub tables: u64,
}

/// A field of a module file, and what is known of the fields after it.
#[derive(Clone, Copy)]
pub(crate) struct Walk {
    pub field: Field,
    pub group: Group,
    /// The file is of version 2.
    pub is_two: bool,
    pub code: u64,
    pub constants: u64,
    pub data_words: u64,
    /// The last kind or tag.
    pub choice: u64,
    /// How many there are of a group, and how many are left with the one that is here.
    pub counts: Counts,
    pub left: Counts,
}

/// The number for a group.
pub(crate) fn count_of(counts: Counts, group: Group) -> u64
    ensures { result ≡ count_of counts group }
{
    match group {
        Group::File => 1,
        Group::Links => counts.links,
        Group::Procedures => counts.procedures,
        Group::Parameters => counts.parameters,
        Group::Labels => counts.labels,
        Group::Registers => counts.registers,
        Group::Entries => counts.entries,
        Group::Pars => counts.pars,
        Group::Channels => counts.channels,
        Group::Branches => counts.branches,
        Group::Writes => counts.writes,
        Group::Reads => counts.reads,
        Group::WrittenParameters => counts.written_parameters,
        Group::ReadParameters => counts.read_parameters,
        Group::Ends => counts.ends,
        Group::Tables => counts.tables,
    }
}

/// The numbers with that for one group.
fn counted(counts: Counts, group: Group, count: u64) -> Counts
    ensures { result ≡ counted counts group count }
{
    let mut counts = counts;
    match group {
        Group::File => {}
        Group::Links => counts.links = count,
        Group::Procedures => counts.procedures = count,
        Group::Parameters => counts.parameters = count,
        Group::Labels => counts.labels = count,
        Group::Registers => counts.registers = count,
        Group::Entries => counts.entries = count,
        Group::Pars => counts.pars = count,
        Group::Channels => counts.channels = count,
        Group::Branches => counts.branches = count,
        Group::Writes => counts.writes = count,
        Group::Reads => counts.reads = count,
        Group::WrittenParameters => counts.written_parameters = count,
        Group::ReadParameters => counts.read_parameters = count,
        Group::Ends => counts.ends = count,
        Group::Tables => counts.tables = count,
    }
    counts
}

/// The walk that knows what the number of a field is for.
fn noted(walk: Walk, role: Role, value: u64) -> Walk
    ensures { result ≡ noted walk role value }
{
    let mut walk = walk;
    match role {
        Role::Version => walk.is_two = value == MAGIC_OF_TWO,
        Role::CodeSize => walk.code = value,
        Role::ConstantsSize => walk.constants = value,
        Role::DataWords => walk.data_words = value,
        Role::Choice => walk.choice = value,
        Role::CountOf(group) => walk.counts = counted(walk.counts, group, value),
        _ => {}
    }
    walk
}

/// The walk at another field.
fn at_field(walk: Walk, field: Field) -> Walk
    ensures { result ≡ at_field walk field }
{
    Walk { field, ..walk }
}

/// The first field of a group of which some are left, or else what comes after the group.
fn at_group(walk: Walk, group: Group, left: u64) -> Walk
    ensures { result ≡ at_group walk group left }
{
    let record = group_of(group);
    if 0 < left {
        return Walk {
            field: record.first,
            group,
            left: counted(walk.left, group, left),
            ..walk
        };
    }
    Walk {
        field: record.after,
        group: record.outer,
        ..walk
    }
}

/// What a parameter of a kind begins with.
fn of_kind(kind: u64) -> Field
    ensures { result ≡ of_kind kind }
{
    match kind {
        0 => Field::Lo,
        3 => Field::ChannelCount,
        _ => Field::ParameterSize,
    }
}

/// What a fact of a tag begins with, or else what comes after it.
fn of_tag(tag: u64) -> Field
    ensures { result ≡ of_tag tag }
{
    match tag {
        1 => Field::Lo,
        2 => Field::FactRegion,
        3 => Field::FactOffset,
        4 => Field::FactBase,
        _ => Field::Next,
    }
}

/// The walk one turn on, if it is where the next field is chosen.
fn turn(walk: Walk, field: Field) -> Walk
    ensures { result ≡ turn walk field }
{
    match field {
        Field::FlagOrCode if walk.is_two => at_field(walk, Field::Flag),
        Field::FlagOrCode => at_field(walk, Field::Code),
        Field::RangeOrNext if walk.is_two => at_field(walk, Field::Lo),
        Field::RangeOrNext => at_field(walk, Field::Next),
        Field::OfKind => at_field(walk, of_kind(walk.choice)),
        Field::OfTag => at_field(walk, of_tag(walk.choice)),
        Field::First(group) => at_group(walk, group, count_of(walk.counts, group)),
        Field::Next => {
            let left = count_of(walk.left, walk.group);
            at_group(walk, walk.group, left.saturating_sub(1))
        }
        _ => walk,
    }
}

/// The walk at a field, after all turns.
fn turned(walk: Walk) -> Walk
    ensures { result ≡ turned TURNS walk }
{
    let mut walk = walk;
    for _turn in 0..TURNS {
        walk = turn(walk, walk.field);
    }
    walk
}

/// The field after the one that is here, which has this value.
#[tactic(auto, unfolding(crate::specs::Walks::next_field))]
pub(crate) fn next_field(walk: Walk, value: u64) -> Walk
    ensures { result ≡ next_field walk value }
{
    let record = field_of(walk.field);
    turned(at_field(noted(walk, record.role, value), record.next))
}
