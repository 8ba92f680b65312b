//! The tables that code reads, as the constants of a module.

ghost use Rattle.std.specs.Prelude.{◌≡◌, ◌≢◌, ◌≤◌, ◌+◌, ◌*◌, ◌++◌, ◌∷◌, ◌↔◌, [], length, IfOk, IfErr, Err, IsTrue};
ghost use Rattle.module_format.specs.declared.limits.TheConstants.{MAX_CONSTANTS};
ghost use Rattle.code_pieces.specs.PieceViews.{pieces_of};
ghost use Rattle.code_pieces.specs.Laying.{are_same, offset_in, with_table, tables_before};
ghost use Rattle.code_pieces.specs.Tables.{lists_of, has_table, value_count, TablesAreWithin, table_bytes};
ghost use Rattle.code_pieces.specs.Tables.{constants_of, lower, higher, lowest, highest};
ghost use Rattle.code_pieces.specs.Tables.{row_of, table_rows_from};

use crate::piece::Piece;
use module_builder::GenFault;
use module_format::{MAX_CONSTANTS, MAX_TABLES, TableRow};
use std::alloc::Global;
use std::marker::Model;

/// The tables that code reads, each once, in the order in which they are first read. They are at most as many as a
/// module may have.
#[derive(Drop)]
pub struct ConstantTables<'a> {
    tables: Vec<&'a [i32]>,
    /// How many bytes they take.
    len: usize,
}

impl<'a> Model for ConstantTables<'a> {
    ghost use Rattle.std.specs.Prelude.{◌≡◌, ◌≤◌, ◌*◌, List, ℤ};
    ghost use Rattle.module_format.specs.declared.limits.TheConstants.{MAX_CONSTANTS};
    ghost use Rattle.code_pieces.specs.Tables.{lists_of, value_count};

    ghost Value = { List (List ℤ) };

    ghost view = { λ t. lists_of t.tables.items };

    ghost invariant = { λ t. (t.len ≡ 4 * value_count (lists_of t.tables.items)) × (t.len ≤ MAX_CONSTANTS) };
}

/// Whether two tables have the same values.
#[tactic(auto, using(crate::proofs::TableLaws::pointwise_same))]
fn are_same(table: &[i32], values: &[i32]) -> bool
    ensures { result ≡ are_same table.now values.now }
{
    table == values
}

/// Where a table begins among these.
fn offset_in(tables: &[&[i32]], values: &[i32]) -> usize
    requires { 4 * value_count (lists_of tables.now) ≤ MAX_CONSTANTS }
    ensures value { result ≡ offset_in (lists_of tables.now) values.now }
    ensures small { result ≤ MAX_CONSTANTS }
{
    let mut offset = 0;
    for table in tables {
        if are_same(table, values) {
            return offset;
        }
        offset += 4 * table.len();
    }
    offset
}

/// Appends the values of a table, each in a word.
fn push_table(bytes: &mut Vec<u8>, table: &[i32]) -> Result<(), GenFault>
    ensures ok { IfOk result (λ _. bytes.new.items ≡ bytes.old.items ++ table_bytes table.now) }
    ensures err { IfErr result (λ e. e ≡ GenFault.Memory) }
{
    for value in table {
        bytes.extend_from_slice(&value.to_le_bytes())?;
    }
    Ok(())
}

/// The lesser of two values.
#[tactic(auto, unfolding(crate::specs::Tables::lower))]
fn lower(a: i32, b: i32) -> i32
    ensures { result ≡ lower a b }
{
    a.min(b)
}

/// The greater of two values.
#[tactic(auto, unfolding(crate::specs::Tables::higher))]
fn higher(a: i32, b: i32) -> i32
    ensures { result ≡ higher a b }
{
    a.max(b)
}

/// The least and the greatest of these values and one more.
fn ends_of(first: i32, others: &[i32]) -> (i32, i32)
    ensures least { result.0 ≡ lowest first others.now }
    ensures greatest { result.1 ≡ highest first others.now }
{
    let mut least = first;
    let mut greatest = first;
    for value in others {
        least = lower(least, *value);
        greatest = higher(greatest, *value);
    }
    (least, greatest)
}

/// What is known of a table that begins at a byte, if it has values.
fn row_of(start: usize, table: &[i32]) -> Option<TableRow>
    requires { start + 4 * length table.now ≤ MAX_CONSTANTS }
    ensures { result ≡ row_of start table.now }
{
    let (first, others) = table.split_first()?;
    let (lo, hi) = ends_of(*first, others);
    Some(TableRow {
        start: start as u32,
        end: (start + 4 * table.len()) as u32,
        lo,
        hi,
    })
}

impl<'a> ConstantTables<'a> {
    /// Whether one of the tables has these values.
    fn has_table(&self, values: &[i32]) -> bool
        ensures { result ≡ has_table self.now values.now }
    {
        for table in &self.tables {
            if are_same(table, values) {
                return true;
            }
        }
        false
    }

    /// Whether one more table is within the limits.
    #[tactic(auto, using(crate::proofs::TableLaws::one_more))]
    fn has_room(&self, values: &[i32]) -> bool
        ensures { IsTrue result ↔ TablesAreWithin (self.now ++ values.now ∷ []) }
    {
        self.tables.len() < MAX_TABLES as usize
            && values.len() <= (MAX_CONSTANTS as usize - self.len) / 4
    }

    /// One more table.
    fn push(&mut self, values: &'a [i32]) -> Result<(), GenFault>
        requires { TablesAreWithin (self.old ++ values.now ∷ []) }
        ensures ok { IfOk result (λ _. self.new ≡ self.old ++ values.now ∷ []) }
        ensures err { IfErr result (λ e. e ≡ GenFault.Memory) }
    {
        let len = self.len + 4 * values.len();
        self.tables.push(values)?;
        self.len = len;
        Ok(())
    }

    /// One more table, if none has these values.
    #[tactic(auto, using(crate::proofs::TableLaws::with_known, crate::proofs::TableLaws::with_new))]
    fn add(&mut self, values: &'a [i32]) -> Result<(), GenFault>
        ensures ok { IfOk result (λ _. self.new ≡ with_table values.now self.old) }
        ensures limit { result ≡ Err GenFault.Limit → ¬ TablesAreWithin (with_table values.now self.old) }
        ensures faults { result ≢ Err GenFault.Invalid }
    {
        if self.has_table(values) {
            return Ok(());
        }
        if !self.has_room(values) {
            return Err(GenFault::Limit);
        }
        self.push(values)?;
        Ok(())
    }

    /// The tables that these pieces read.
    ///
    /// # Errors
    ///
    /// `Limit` if the tables are more than a module may have, or take more bytes than its constants may; `Memory` if
    /// memory runs out.
    pub fn of(alloc: Global, pieces: &'a [Piece]) -> Result<ConstantTables<'a>, GenFault>
        ensures ok { IfOk result (λ t. t ≡ tables_before [] (pieces_of pieces.now)) }
        ensures limit { result ≡ Err GenFault.Limit → ¬ TablesAreWithin (tables_before [] (pieces_of pieces.now)) }
        ensures faults { result ≢ Err GenFault.Invalid }
    {
        let mut tables = ConstantTables {
            tables: Vec::new(alloc),
            len: 0,
        };
        for piece in pieces {
            if let Piece::TableAddress(ref values) = *piece {
                tables.add(values)?;
            }
        }
        Ok(tables)
    }

    /// Where the table with these values begins, or after all tables if there is none.
    pub fn offset(&self, values: &[i32]) -> u16
        ensures { result ≡ offset_in self.now values.now }
    {
        offset_in(&self.tables, values) as u16
    }

    /// The bytes of the tables, one after the other.
    ///
    /// # Errors
    ///
    /// `Memory` if memory runs out.
    pub fn constants(&self, alloc: Global) -> Result<Vec<u8>, GenFault>
        ensures ok { IfOk result (λ v. v.items ≡ constants_of self.now) }
        ensures err { IfErr result (λ e. e ≡ GenFault.Memory) }
    {
        let mut bytes = Vec::with_capacity(alloc, self.len)?;
        for table in &self.tables {
            push_table(&mut bytes, table)?;
        }
        Ok(bytes)
    }

    /// What is known of the tables: the range of each one's values.
    ///
    /// # Errors
    ///
    /// `Memory` if memory runs out.
    pub fn rows(&self, alloc: Global) -> Result<Vec<TableRow>, GenFault>
        ensures ok { IfOk result (λ v. v.items ≡ table_rows_from 0 self.now) }
        ensures err { IfErr result (λ e. e ≡ GenFault.Memory) }
    {
        let mut rows = Vec::with_capacity(alloc, self.tables.len())?;
        let mut start = 0;
        for table in &self.tables {
            if let Some(row) = row_of(start, table) {
                rows.push(row)?;
            }
            start += 4 * table.len();
        }
        Ok(rows)
    }
}
