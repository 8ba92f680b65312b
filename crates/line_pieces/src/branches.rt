//! The branches of a `PAR`, once their code is written.

ghost use Rattle.std.specs.Prelude.{◌≡◌, ◌++◌, ◌∷◌, [], map, length, pos, ◌+ℤ◌, ◌-ℤ◌};
ghost use Rattle.std.specs.Prelude.{IfOk, option_to_list, nat_le};
ghost use Rattle.code_pieces.specs.Laying.{words_taken};
ghost use Rattle.code_pieces.specs.PieceViews.{piece_of, pieces_of};
ghost use Rattle.line_pieces.specs.declared.noting.Access.TheVariants as access;
ghost use Rattle.line_pieces.specs.Cutting.{uses_of, known_outside, words_between, cut_entry, cut_entries};
ghost use Rattle.line_pieces.specs.Cutting.{cut_piece, is_used, words_at, all_words};

use crate::facts::{push_any, push_made};
use crate::listing::Listing;
use crate::marking::LineMark;
use crate::noting::{Access, Notes, row_word};
use crate::setting::word_after;
use code_pieces::{ParBranch, Piece, RowEntry, WordFact, words_taken};
use module_builder::GenFault;
use module_format::{EndRow, Interval};
use std::alloc::Global;

/// How many branches a `PAR` may have.
const GREATEST_BRANCHES: usize = 64;

/// A branch of a `PAR`, whose code is written.
#[derive(Drop)]
pub struct Branch {
    /// The label at which its code begins.
    pub entry: usize,
    /// The word at which its workspace is.
    pub depth: u32,
    pub pieces: Vec<Piece>,
    pub notes: Notes,
    /// Which lines the pieces come from.
    pub(crate) marks: Vec<LineMark>,
    /// What it has.
    pub row: ParBranch,
}

/// A `PAR` whose branches are being written.
#[derive(Drop)]
pub struct Fork {
    /// What is known of words where it begins.
    known: Vec<RowEntry>,
    /// The first word of the next branch.
    pub next: u32,
    /// How many pieces the branches have.
    pub pieces: usize,
    pub branches: Vec<Branch>,
}

/// The words from one up to another, which is not among them.
fn words_between(lo: u32, hi: u32) -> Result<Interval, GenFault>
    ensures { IfOk result (λ words. words ≡ words_between lo hi) }
{
    Ok(Interval {
        lo: row_word(lo)?,
        hi: row_word(hi)?,
    })
}

/// The last number that the index of a loop has. The error is [`GenFault::Limit`] if it is no INT.
fn last_index(base: i32, count: u32) -> Result<i32, GenFault>
    ensures { IfOk result (λ last. last ≡ base +ℤ (pos count -ℤ pos 1)) }
{
    let last = i64::from(base) + (i64::from(count) - 1);
    i32::try_from(last).ok().ok_or(GenFault::Limit)
}

/// What another process knows of words: of a loop, the index alone.
fn known_outside(entry: RowEntry) -> Result<RowEntry, GenFault>
    ensures { IfOk result (λ known. known ≡ known_outside entry) }
{
    match entry.fact {
        WordFact::Between { .. } => Ok(entry),
        WordFact::Turning { base, count, .. } => Ok(RowEntry {
            word: entry.word,
            span: 1,
            fact: WordFact::Between {
                lo: base,
                hi: last_index(base, count)?,
            },
        }),
    }
}

impl Notes {
    /// What a row in a branch says of some words: of what is outside, only what the branch uses.
    fn cut_entry(&self, entry: RowEntry) -> Result<Option<RowEntry>, GenFault>
        ensures { IfOk result (λ kept. option_to_list kept ≡ cut_entry self.now.outside (uses_of self.now) entry) }
    {
        if self.outside <= entry.word {
            return Ok(Some(entry));
        }
        match self.words.get(&entry.word) {
            Some(_) => Ok(Some(known_outside(entry)?)),
            None => Ok(None),
        }
    }

    /// What a row in a branch says.
    fn cut_entries(&self, alloc: Global, entries: &[RowEntry]) -> Result<Vec<RowEntry>, GenFault>
        ensures { IfOk result (λ kept. kept.items ≡ cut_entries self.now.outside (uses_of self.now) entries.now) }
    {
        let mut kept = Vec::new(alloc);
        for entry in entries {
            push_any(&mut kept, self.cut_entry(*entry)?)?;
        }
        Ok(kept)
    }

    /// A piece of the code of a branch.
    fn cut_piece(&self, alloc: Global, piece: Piece) -> Result<Piece, GenFault>
        ensures { IfOk result (λ cut. piece_of cut ≡ cut_piece self.now.outside (uses_of self.now) (piece_of piece)) }
    {
        match piece {
            Piece::Row { label, entries } => Ok(Piece::Row {
                label,
                entries: self.cut_entries(alloc, &entries)?,
            }),
            other => Ok(other),
        }
    }

    /// The pieces of the code of a branch.
    fn cut_pieces(&self, alloc: Global, pieces: Vec<Piece>) -> Result<Vec<Piece>, GenFault>
        ensures { IfOk result (λ cut. pieces_of cut.items
            ≡ map (cut_piece self.now.outside (uses_of self.now)) (pieces_of pieces.items)) }
    {
        let mut cut = Vec::with_capacity(alloc, pieces.len())?;
        for piece in pieces {
            push_made(&mut cut, self.cut_piece(alloc, piece))?;
        }
        Ok(cut)
    }

    /// Whether the variable with this first word is used so.
    fn is_used(&self, word: u32, access: Access) -> bool
        ensures { result ≡ is_used access (uses_of self.now word) }
    {
        match (access, self.words.get(&word)) {
            (Access::Reads, Some(Access::Reads)) | (Access::Writes, Some(Access::Writes)) => true,
            _ => false,
        }
    }

    /// These words, if they are used so.
    #[tactic(auto, unfolding(crate::specs::Cutting::words_at))]
    fn words_at(&self, entry: RowEntry, access: Access) -> Result<Option<Interval>, GenFault>
        ensures { IfOk result (λ words. option_to_list words ≡ words_at access (uses_of self.now) entry) }
    {
        if !self.is_used(entry.word, access) {
            return Ok(None);
        }
        let known = known_outside(entry)?;
        let above = word_after(known.word, known.span);
        Ok(Some(words_between(known.word, above)?))
    }

    /// The words that are used so, of those of which this is known.
    fn all_words(
        &self,
        alloc: Global,
        known: &[RowEntry],
        access: Access,
    ) -> Result<Vec<Interval>, GenFault>
        ensures { IfOk result (λ words. words.items ≡ all_words access (uses_of self.now) known.now) }
    {
        let mut words = Vec::new(alloc);
        for entry in known {
            push_any(&mut words, self.words_at(*entry, access)?)?;
        }
        Ok(words)
    }

    /// The ends of channels.
    fn all_ends(&self, alloc: Global) -> Result<Vec<EndRow>, GenFault> {
        let mut ends = Vec::new(alloc);
        for (end, _length) in &self.ends {
            push_made(&mut ends, end.row())?;
        }
        Ok(ends)
    }

    /// What a branch has that takes the words up to this one: those outside are among the ones of which this is known.
    fn branch_row(
        &self,
        alloc: Global,
        known: &[RowEntry],
        entry: usize,
        depth: u32,
        above: u32,
    ) -> Result<ParBranch, GenFault>
        ensures entry { IfOk result (λ row. row.entry ≡ entry) }
        ensures depth { IfOk result (λ row. row.depth ≡ pos depth) }
        ensures writes { IfOk result (λ row. row.writes.items ≡ all_words access.Writes (uses_of self.now) known.now
            ++ words_between self.now.outside above ∷ []) }
        ensures reads { IfOk result (λ row. row.reads.items ≡ all_words access.Reads (uses_of self.now) known.now) }
    {
        let depth = row_word(depth)?;
        let own = words_between(self.outside, above)?;
        let mut writes = self.all_words(alloc, known, Access::Writes)?;
        writes.push(own)?;
        Ok(ParBranch {
            entry,
            depth,
            writes,
            reads: self.all_words(alloc, known, Access::Reads)?,
            ends: self.all_ends(alloc)?,
        })
    }
}

impl Fork {
    /// A `PAR` begins where this is known of words. The words from this one on are free.
    pub fn new(alloc: Global, known: Vec<RowEntry>, next: u32) -> Fork
        ensures next { result.next ≡ next }
        ensures branches { result.branches.items ≡ [] }
    {
        Fork {
            known,
            next,
            pieces: 0,
            branches: Vec::new(alloc),
        }
    }

    /// Whether there can be no branch more.
    pub fn is_full(&self) -> bool
        ensures { result ≡ nat_le 64 (length self.now.branches.items) }
    {
        self.branches.len() >= GREATEST_BRANCHES
    }

    /// A branch more, which has its entry at a label and its workspace at this word. The words that its code takes are
    /// no longer free.
    pub fn add(
        &mut self,
        alloc: Global,
        entry: usize,
        depth: u32,
        code: Listing,
    ) -> Result<(), GenFault>
        ensures { IfOk result (λ _. self.new.next ≡ words_taken code) }
    {
        let Listing {
            code,
            notes,
            lines,
            ..
        } = code;
        let pieces = code.into_vec();
        let above = words_taken(&pieces);
        let row = notes.branch_row(alloc, &self.known, entry, depth, above)?;
        let pieces = notes.cut_pieces(alloc, pieces)?;
        self.next = above;
        self.pieces = self.pieces.saturating_add(pieces.len());
        self.branches.push(Branch {
            entry,
            depth,
            pieces,
            notes,
            marks: lines.into_marks(),
            row,
        })?;
        Ok(())
    }
}
