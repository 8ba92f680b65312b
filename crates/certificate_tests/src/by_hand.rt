//! Tables by hand, for what no file can test: tables that have no file, and tables that are as long as the format
//! allows. Whether other tables are valid is tested by their files, in cases.

use bitflags::Flags;
use module_format::{
    BranchRow, ChannelRow, Direction, EndKind, EndRow, Ends, Entry, Fact, Interval, LabelRow,
    ParRow, Parameter, ParameterKind, ProcedureRow, Stack, TableRow, Tables, Version, write,
};
use smallvec::SmallVec;
use std::alloc::{AllocError, Global};
use std::test::*;

/// Code `45 d1 00 71 21 f5`, a label row at 3.
const JUMP: [u8; 105] = [
    0x54, 0x50, 0x4d, 0x31, 6, 0, 0, 0, 0, 0, 0, 0, 5, 0, 0, 0, 3, 0, 0, 0, 6, 0, 0, 0, 0, 0, 0, 0,
    6, 0, 0, 0, 0, 0, 0, 0, 0, 0, 0, 0, 0, 0, 0, 0, 0, 0, 0, 0, 0, 0, 0, 0, 0, 0, 0, 0, 0, 0, 0, 0,
    0, 0, 0, 0, 0, 0, 0, 0, 1, 0, 0, 0, 0, 0, 0, 0, 0x45, 0xd1, 0, 0x71, 0x21, 0xf5, 3, 0, 0, 0, 0,
    0, 0, 0, 0, 0, 3, 0, 0, 0, 0, 0, 0, 0, 0, 0, 0, 0, 0,
];

const CODE: [u8; 6] = [0x45, 0xd1, 0, 0x71, 0x21, 0xf5];

const LONG: [u8; 16_385] = [0; 16_385];

/// The words 1, -7, 9, 2, the least and the greatest.
const SIX_WORDS: [u8; 24] = [
    1, 0, 0, 0, 0xf9, 0xff, 0xff, 0xff, 9, 0, 0, 0, 2, 0, 0, 0, 0, 0, 0, 0x80, 0xff, 0xff, 0xff,
    0x7f,
];

/// The tables of the file `JUMP` without its label row.
fn without_rows(alloc: Global) -> Tables<'static> {
    Tables {
        version: Version::One,
        code: &CODE,
        constants: &[],
        data_words: 5,
        base: 3,
        budget: 6,
        finish: 6,
        lengths: [0; 8],
        has_long_operations: false,
        procedures: Vec::new(alloc),
        labels: Vec::new(alloc),
        pars: Vec::new(alloc),
        table_rows: Vec::new(alloc),
    }
}

fn label(alloc: Global, offset: u32) -> LabelRow {
    LabelRow {
        offset,
        context: 0,
        depth: 0,
        number: 3,
        stack: Stack::of_empty(Fact::Unknown),
        entries: Vec::new(alloc),
    }
}

/// A branch that is given nothing.
fn branch(alloc: Global, entry: u32) -> BranchRow {
    BranchRow {
        entry,
        workspace: -6,
        writes: SmallVec::new(alloc),
        reads: SmallVec::new(alloc),
        written_parameters: SmallVec::new(alloc),
        read_parameters: SmallVec::new(alloc),
        ends: Vec::new(alloc),
    }
}

/// The only item of a list.
fn alone<T: Drop>(alloc: Global, item: T) -> Result<Vec<T>, AllocError> {
    let mut items = Vec::new(alloc);
    items.push(item)?;
    Ok(items)
}

/// The PAR of one branch.
fn par(alloc: Global, branch: BranchRow) -> Result<ParRow, AllocError> {
    let branches = alone(alloc, branch)?;
    Ok(ParRow {
        context: 0,
        depth: 0,
        block: 0,
        successor: 5,
        channels: Vec::new(alloc),
        branches,
    })
}

/// Whether the tables are valid and written as the file `JUMP`.
fn are_jump(alloc: Global, tables: &Tables) -> bool {
    if !tables.keeps() {
        return false;
    }
    match write(alloc, tables) {
        Ok(file) => file.as_slice() == JUMP.as_slice(),
        Err(_) => false,
    }
}

fn is_written_by_hand(alloc: Global) -> Result<bool, AllocError> {
    let labels = alone(alloc, label(alloc, 3))?;
    let mut tables = without_rows(alloc);
    tables.labels = labels;
    Ok(are_jump(alloc, &tables))
}

#[test]
fn written_by_hand(rt: HostRuntime) -> Result<(), Fail> {
    assert!(rt; is_written_by_hand(rt.alloc())?);
    Ok(())
}

/// An item of a valid list, by its number from 0 on.
trait Numbered: Drop {
    fn numbered(alloc: Global, number: u16) -> Result<Self, AllocError>;
}

impl Numbered for LabelRow {
    fn numbered(alloc: Global, number: u16) -> Result<Self, AllocError> {
        Ok(label(alloc, 1 + u32::from(number)))
    }
}

impl Numbered for Entry {
    fn numbered(_alloc: Global, number: u16) -> Result<Self, AllocError> {
        Ok(Entry {
            word: i32::from(number),
            span: 1,
            fact: Fact::Number { lo: 0, hi: 9 },
        })
    }
}

impl Numbered for ProcedureRow {
    fn numbered(alloc: Global, number: u16) -> Result<Self, AllocError> {
        Ok(ProcedureRow {
            entry: 1 + u32::from(number),
            lo: -2,
            hi: 6,
            number: u64::MAX,
            parameters: Vec::new(alloc),
        })
    }
}

impl Numbered for TableRow {
    fn numbered(_alloc: Global, number: u16) -> Result<Self, AllocError> {
        let start = 4 * u32::from(number);
        Ok(TableRow {
            start,
            end: start + 4,
            lo: 0,
            hi: 0,
        })
    }
}

impl Numbered for ParRow {
    fn numbered(alloc: Global, number: u16) -> Result<Self, AllocError> {
        par(alloc, branch(alloc, 1 + u32::from(number)))
    }
}

impl Numbered for ChannelRow {
    fn numbered(_alloc: Global, number: u16) -> Result<Self, AllocError> {
        Ok(ChannelRow {
            word: i32::from(number),
            length: 1,
        })
    }
}

impl Numbered for Interval {
    fn numbered(_alloc: Global, number: u16) -> Result<Self, AllocError> {
        let lo = i32::from(number);
        Ok(Interval { lo, hi: lo + 1 })
    }
}

impl Numbered for EndRow {
    fn numbered(_alloc: Global, number: u16) -> Result<Self, AllocError> {
        Ok(EndRow {
            kind: EndKind::FrameWord(i32::from(number)),
            direction: Direction::In,
        })
    }
}

/// The items up to the one of a number.
fn up_to<T: Numbered>(alloc: Global, last: u16) -> Result<Vec<T>, AllocError> {
    let mut items = Vec::new(alloc);
    for number in 0..=last {
        items.push(T::numbered(alloc, number)?)?;
    }
    Ok(items)
}

fn labels_keep(alloc: Global, last: u16) -> Result<bool, AllocError> {
    let labels = up_to(alloc, last)?;
    let mut tables = without_rows(alloc);
    tables.code = &LONG;
    tables.labels = labels;
    Ok(tables.keeps())
}

/// The entries of one label row, in the greatest frame.
fn entries_keep(alloc: Global, last: u16) -> Result<bool, AllocError> {
    let mut row = label(alloc, 3);
    row.entries = up_to(alloc, last)?;
    let labels = alone(alloc, row)?;
    let mut tables = without_rows(alloc);
    tables.data_words = 16_384;
    tables.base = 0;
    tables.labels = labels;
    Ok(tables.keeps())
}

fn procedures_keep(alloc: Global, last: u16) -> Result<bool, AllocError> {
    let procedures = up_to(alloc, last)?;
    let mut tables = without_rows(alloc);
    tables.code = &LONG;
    tables.procedures = procedures;
    Ok(tables.keeps())
}

fn table_rows_keep(alloc: Global, last: u16) -> Result<bool, AllocError> {
    let table_rows = up_to(alloc, last)?;
    let mut tables = without_rows(alloc);
    tables.version = Version::Two;
    tables.constants = &LONG[..16_384];
    tables.table_rows = table_rows;
    Ok(tables.keeps())
}

fn pars_keep(alloc: Global, pars: Vec<ParRow>) -> bool {
    let mut tables = without_rows(alloc);
    tables.code = &LONG;
    tables.pars = pars;
    tables.keeps()
}

fn branch_keeps(alloc: Global, row: BranchRow) -> Result<bool, AllocError> {
    let pars = alone(alloc, par(alloc, row)?)?;
    Ok(pars_keep(alloc, pars))
}

/// The channels of one PAR.
fn channels_keep(alloc: Global, last: u16) -> Result<bool, AllocError> {
    let channels = up_to(alloc, last)?;
    let mut row = par(alloc, branch(alloc, 1))?;
    row.channels = channels;
    let pars = alone(alloc, row)?;
    Ok(pars_keep(alloc, pars))
}

/// The intervals that one branch writes.
fn writes_keep(alloc: Global, last: u16) -> Result<bool, AllocError> {
    let writes: Vec<Interval> = up_to(alloc, last)?;
    let writes = SmallVec::from_slice(alloc, &writes)?;
    let mut row = branch(alloc, 1);
    row.writes = writes;
    branch_keeps(alloc, row)
}

/// The ends of one branch.
fn ends_keep(alloc: Global, last: u16) -> Result<bool, AllocError> {
    let ends = up_to(alloc, last)?;
    let mut row = branch(alloc, 1);
    row.ends = ends;
    branch_keeps(alloc, row)
}

/// The lists of tables that a limit or a number of the file bounds.
#[derive(Clone, Copy)]
enum Items {
    Labels,
    Entries,
    Procedures,
    TableRows,
    Pars,
    Channels,
    Writes,
    Ends,
}

/// Lists by the number of their last item, from 0 on: the longest ones, and one item more, or more than a file can
/// count; and whether they are valid.
const LISTS: [(Items, u16, bool); 17] = [
    (Items::Labels, 8_191, true),
    (Items::Labels, 8_192, false),
    (Items::Entries, 16_383, true),
    (Items::Entries, 16_384, false),
    (Items::Entries, 65_535, false),
    (Items::Procedures, 511, true),
    (Items::Procedures, 512, false),
    (Items::TableRows, 1_023, true),
    (Items::TableRows, 1_024, false),
    (Items::Pars, 1_023, true),
    (Items::Pars, 1_024, false),
    (Items::Channels, 65_534, true),
    (Items::Channels, 65_535, false),
    (Items::Writes, 65_534, true),
    (Items::Writes, 65_535, false),
    (Items::Ends, 65_534, true),
    (Items::Ends, 65_535, false),
];

/// Whether tables with such a list are valid.
fn keep(alloc: Global, items: Items, last: u16) -> Result<bool, AllocError> {
    match items {
        Items::Labels => labels_keep(alloc, last),
        Items::Entries => entries_keep(alloc, last),
        Items::Procedures => procedures_keep(alloc, last),
        Items::TableRows => table_rows_keep(alloc, last),
        Items::Pars => Ok(pars_keep(alloc, up_to(alloc, last)?)),
        Items::Channels => channels_keep(alloc, last),
        Items::Writes => writes_keep(alloc, last),
        Items::Ends => ends_keep(alloc, last),
    }
}

#[test]
fn long_lists(rt: HostRuntime) -> Result<(), Fail> {
    for (items, last, keeps) in &LISTS {
        assert_eq!(rt; keep(rt.alloc(), *items, *last)?, *keeps, "{last}");
    }
    Ok(())
}

/// Kinds of a parameter in version 1, where regions have the full range alone, and whether they are valid.
fn kinds() -> [(ParameterKind, bool); 7] {
    [
        (read_region(0, i32::MAX), false),
        (read_region(i32::MIN, 0), false),
        (read_region(4, 3), false),
        (written_region(3, 3), false),
        (written_region(4, 3), false),
        (channels(Ends::IN | Ends::OUT), true),
        (channels(Ends::from_bits_retain(4)), false),
    ]
}

fn read_region(lo: i32, hi: i32) -> ParameterKind {
    ParameterKind::ReadRegion { size: 4, lo, hi }
}

fn written_region(lo: i32, hi: i32) -> ParameterKind {
    ParameterKind::WrittenRegion { size: 4, lo, hi }
}

fn channels(ends: Ends) -> ParameterKind {
    ParameterKind::Channels {
        count: 1,
        length: 4,
        ends,
    }
}

/// Whether tables of version 1 with a procedure that has this parameter are valid.
fn kind_keeps(alloc: Global, kind: ParameterKind) -> Result<bool, AllocError> {
    let mut row = ProcedureRow::numbered(alloc, 1)?;
    row.parameters = alone(alloc, Parameter { word: 1, kind })?;
    let procedures = alone(alloc, row)?;
    let mut tables = without_rows(alloc);
    tables.procedures = procedures;
    Ok(tables.keeps())
}

#[test]
fn kinds_of_parameters(rt: HostRuntime) -> Result<(), Fail> {
    for (index, (kind, keeps)) in kinds().iter().enumerate() {
        assert_eq!(rt; kind_keeps(rt.alloc(), *kind)?, *keeps, "{index}");
    }
    Ok(())
}

/// A table row by its start, its end, lo and hi.
type Row = (u32, u32, i32, i32);

fn table_rows(alloc: Global, rows: &[Row]) -> Result<Vec<TableRow>, AllocError> {
    let mut table_rows = Vec::new(alloc);
    for (start, end, lo, hi) in rows {
        table_rows.push(TableRow {
            start: *start,
            end: *end,
            lo: *lo,
            hi: *hi,
        })?;
    }
    Ok(table_rows)
}

/// Whether tables of a version are valid, with this flag and these table rows.
fn extension_keeps(
    alloc: Global,
    version: Version,
    has_long_operations: bool,
    rows: &[Row],
) -> Result<bool, AllocError> {
    let table_rows = table_rows(alloc, rows)?;
    let mut tables = without_rows(alloc);
    tables.version = version;
    tables.constants = &SIX_WORDS;
    tables.has_long_operations = has_long_operations;
    tables.table_rows = table_rows;
    Ok(tables.keeps())
}

/// Versions, flags, table rows over the six words, and whether they are valid. Version 1 has neither a flag nor
/// rows; of these rows the first five are right in version 2.
const EXTENSIONS: [(Version, bool, &[Row], bool); 18] = [
    (Version::One, false, &[], true),
    (Version::One, true, &[], false),
    (Version::Two, false, &[], true),
    (Version::Two, true, &[], true),
    (Version::One, false, &[(0, 8, -7, 1)], false),
    (Version::One, false, &[(0, 16, -7, 9)], false),
    (Version::One, false, &[(16, 24, i32::MIN, i32::MAX)], false),
    (Version::One, false, &[(0, 4, 1, 1), (4, 8, -7, -7)], false),
    (Version::One, false, &[(0, 4, 1, 1), (12, 16, 0, 9)], false),
    (Version::One, false, &[(0, 8, -6, 1)], false),
    (Version::One, false, &[(0, 8, -7, 0)], false),
    (Version::One, false, &[(0, 12, -7, 8)], false),
    (Version::One, false, &[(0, 4, 2, 1)], false),
    (Version::One, false, &[(2, 8, -9, 9)], false),
    (Version::One, false, &[(0, 6, -9, 9)], false),
    (Version::One, false, &[(4, 4, -9, 9)], false),
    (Version::One, false, &[(20, 28, i32::MIN, i32::MAX)], false),
    (Version::One, false, &[(0, 8, -7, 1), (4, 8, -7, -7)], false),
];

#[test]
fn extensions(rt: HostRuntime) -> Result<(), Fail> {
    for (version, flag, rows, keeps) in &EXTENSIONS {
        let found = extension_keeps(rt.alloc(), *version, *flag, *rows)?;
        assert_eq!(rt; found, *keeps);
    }
    Ok(())
}
