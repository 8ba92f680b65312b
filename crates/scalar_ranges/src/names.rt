//! Names in the order of their declarations, of which the innermost one is found at once.

ghost use Rattle.std.specs.List.{All};
ghost use Rattle.std.specs.Prelude.{◌≡◌, ◌<◌, ℕ, List, [], ◌∷◌, map, true, Some, None, vec_len, IfOk, OnOk, OnErr};
ghost use Rattle.scalar_ranges.specs.Moves.{outermost};
ghost use Rattle.scalar_ranges.specs.Naming.{number_of, hidden_by, names_from, hides_from, without_first};
ghost use Rattle.scalar_ranges.specs.Naming.{spelling_of, spellings_from, innermost_of};
ghost use Rattle.scalar_ranges.specs.declared.names.Spelling.{Spelling};

use std::alloc::{AllocError, Global};
use std::collections::BTreeMap;

/// A declaration of a name.
#[derive(Clone, Copy)]
pub(crate) struct Row<'a> {
    pub(crate) name: &'a [u8],
    /// The number of its spelling.
    pub(crate) spelling: usize,
    /// The number of the next outer declaration of the same name.
    pub(crate) hides: Option<usize>,
}

/// Bytes of short spellings share a place where they are equal modulo this. No two letters are.
const SHORT_BYTES: usize = 64;

/// The place of a spelling of one or two bytes in the list of these.
fn short_place(name: &[u8]) -> Option<usize> {
    match name.len() {
        1 => Some(usize::from(name[0]) % SHORT_BYTES),
        2 => {
            let first = usize::from(name[0]) % SHORT_BYTES;
            Some(first * SHORT_BYTES + usize::from(name[1]) % SHORT_BYTES)
        }
        _ => None,
    }
}

/// A number is kept in its place, if memory does not run out.
fn keep_at(list: &mut Vec<Option<usize>>, place: usize, number: usize) {
    let lacking = place.saturating_sub(list.len());
    for _ in 0..lacking {
        if list.push(None).is_err() {
            return;
        }
    }
    if place < list.len() {
        list[place] = Some(number);
    } else {
        let _ = list.push(Some(number));
    }
}

/// How many bytes a number is made of by which longer spellings are found.
const HEAD_LENGTH: usize = 8;

/// A number that is made of the first bytes of a spelling.
fn head_of(name: &[u8]) -> u64 {
    let mut head: u64 = 0;
    for byte in name.iter().take(HEAD_LENGTH) {
        head = head.wrapping_mul(256).wrapping_add(u64::from(*byte));
    }
    head
}

/// A spelling with its number.
#[derive(Clone, Copy)]
pub(crate) struct Spelling<'a> {
    pub(crate) name: &'a [u8],
    pub(crate) number: usize,
}

/// The names that are declared at a place, numbered from the outermost declaration on.
///
/// A spelling gets a number with its first declaration and keeps it after its last one is left. So leaving a
/// declaration looks up no name, and a spelling that is declared again is not put into the maps again. The maps never
/// shrink: they take memory linear in the names of the source. They are in order, since whoever writes a source could
/// choose names that collide in a table that is hashed with a fixed seed.
///
/// Comparing bytes takes long, so a number is guessed first: that of the spelling that was declared last, or the one
/// that is kept for its first bytes. Whatever is guessed, its spelling is compared with the name.
#[derive(Drop)]
pub(crate) struct Names<'a> {
    pub(crate) rows: Vec<Row<'a>>,
    /// The number of each spelling.
    pub(crate) spellings: BTreeMap<&'a [u8], usize>,
    /// Each spelling with its number, by that number, unless memory ran out for one.
    pub(crate) by_number: Vec<Spelling<'a>>,
    /// By its first bytes the number of a spelling that is longer than two, the last one that got a number.
    pub(crate) heads: BTreeMap<u64, usize>,
    /// The numbers of spellings of one or two bytes, by their place.
    pub(crate) short: Vec<Option<usize>>,
    /// The number of the innermost declaration of each spelling, by the spelling's number.
    pub(crate) innermost: Vec<Option<usize>>,
    /// The number of the spelling that was declared last. The index of a replicator is declared again in each turn.
    pub(crate) last: Option<usize>,
    ghost found: { (q : List ℕ)
        → innermost_of (spelling_of q spellings) innermost.items ≡ number_of q (names_from rows.items) },
    ghost apart: { (p q : List ℕ) (n : ℕ)
        → spelling_of p spellings ≡ Some n → spelling_of q spellings ≡ Some n → p ≡ q },
    ghost within: { (q : List ℕ) (n : ℕ) → spelling_of q spellings ≡ Some n → n < vec_len innermost },
    ghost spelled: { map (λ q. spelling_of q spellings) (names_from rows.items)
        ≡ map Some (spellings_from rows.items) },
    ghost hides: { hides_from rows.items ≡ hidden_by (names_from rows.items) },
    ghost numbered: { All (λ (s : Spelling). spelling_of s.name.now spellings ≡ Some s.number) by_number.items },
}

impl<'a> Names<'a> {
    /// No names.
    pub(crate) fn new(alloc: Global) -> Names<'a>
        ensures { names_from result.rows.items ≡ [] }
    {
        Names {
            rows: Vec::new(alloc),
            spellings: BTreeMap::new(alloc),
            by_number: Vec::new(alloc),
            heads: BTreeMap::new(alloc),
            short: Vec::new(alloc),
            innermost: Vec::new(alloc),
            last: None,
        }
    }

    /// One declaration more, the innermost one. If memory runs out, the names are as they were.
    pub(crate) fn push(&mut self, name: &'a [u8]) -> Result<(), AllocError>
        ensures ok { OnOk result (names_from self.new.rows.items ≡ name.now ∷ names_from self.old.rows.items) }
        ensures err { OnErr result (names_from self.new.rows.items ≡ names_from self.old.rows.items) }
    {
        let spelling = self.spelling(name)?;
        self.rows.reserve(1)?;
        let hides = self.innermost[spelling].replace(self.rows.len());
        self.rows.push_reserved(Row {
            name,
            spelling,
            hides,
        });
        Ok(())
    }

    /// The number of a spelling. A new spelling gets the next one, and has no declaration yet.
    fn spelling(&mut self, name: &'a [u8]) -> Result<usize, AllocError>
        ensures number { IfOk result (λ number. spelling_of name.now self.new.spellings ≡ Some number) }
        ensures rows { self.new.rows.items ≡ self.old.rows.items }
    {
        match self.known_spelling(name) {
            Some(number) => {
                self.last = Some(number);
                Ok(number)
            }
            None => self.new_spelling(name),
        }
    }

    /// The number of a spelling that has one.
    fn known_spelling(&self, name: &[u8]) -> Option<usize>
        ensures { result ≡ spelling_of name.now self.now.spellings }
    {
        match self.last {
            Some(number) if self.is_spelled(number, name) => Some(number),
            _ => self.number_of(name),
        }
    }

    /// The number that a spelling has.
    fn number_of(&self, name: &[u8]) -> Option<usize>
        ensures { result ≡ spelling_of name.now self.now.spellings }
    {
        match self.guess(name) {
            Some(number) if self.is_spelled(number, name) => Some(number),
            _ => self.spellings.get(name).copied(),
        }
    }

    /// The number that is kept for the first bytes of a name.
    fn guess(&self, name: &[u8]) -> Option<usize> {
        match short_place(name) {
            Some(place) if place < self.short.len() => self.short[place],
            Some(_) => None,
            None => self.heads.get(&head_of(name)).copied(),
        }
    }

    /// Whether this name has this number.
    fn is_spelled(&self, number: usize, name: &[u8]) -> bool
        ensures { result ≡ true → spelling_of name.now self.now.spellings ≡ Some number }
    {
        if number >= self.by_number.len() {
            return false;
        }
        let spelling = self.by_number[number];
        spelling.number == number && spelling.name == name
    }

    /// The next number for a spelling that has none.
    fn new_spelling(&mut self, name: &'a [u8]) -> Result<usize, AllocError>
        requires { spelling_of name.now self.old.spellings ≡ None }
        ensures number { IfOk result (λ number. spelling_of name.now self.new.spellings ≡ Some number) }
        ensures rows { self.new.rows.items ≡ self.old.rows.items }
    {
        let number = self.innermost.len();
        self.innermost.reserve(1)?;
        self.spellings.insert(name, number)?;
        self.innermost.push_reserved(None);
        self.remember(Spelling { name, number });
        Ok(number)
    }

    /// A spelling that has just got its number is listed, if memory does not run out.
    fn list(&mut self, spelling: Spelling<'a>)
        requires { spelling_of spelling.name.now self.old.spellings ≡ Some spelling.number }
        ensures spellings { self.new.spellings ≡ self.old.spellings }
        ensures rows { self.new.rows ≡ self.old.rows }
    {
        if self.by_number.reserve(1).is_err() {
            return;
        }
        self.by_number.push_reserved(spelling);
    }

    /// A spelling that has just got its number is found by its first bytes. If memory runs out for that, it is found by
    /// all of them.
    fn remember(&mut self, spelling: Spelling<'a>)
        requires { spelling_of spelling.name.now self.old.spellings ≡ Some spelling.number }
        ensures spellings { self.new.spellings ≡ self.old.spellings }
        ensures rows { self.new.rows ≡ self.old.rows }
    {
        self.list(spelling);
        match short_place(spelling.name) {
            Some(place) => keep_at(&mut self.short, place, spelling.number),
            None => {
                let _ = self.heads.insert(head_of(spelling.name), spelling.number);
            }
        }
        self.last = Some(spelling.number);
    }

    /// The innermost declaration is left, if there is one.
    pub(crate) fn pop(&mut self)
        ensures { names_from self.new.rows.items ≡ without_first (names_from self.old.rows.items) }
    {
        if let Some(row) = self.rows.pop() {
            self.innermost[row.spelling] = row.hides;
        }
    }

    /// Leaves the declarations that were made since there were `count`.
    pub(crate) fn truncate(&mut self, count: usize)
        ensures { names_from self.new.rows.items ≡ outermost count (names_from self.old.rows.items) }
    {
        while self.rows.len() > count {
            self.pop();
        }
    }

    /// The number of the innermost declaration of a name.
    pub(crate) fn find(&self, name: &[u8]) -> Option<usize>
        ensures { result ≡ number_of name.now (names_from self.now.rows.items) }
    {
        let spelling = self.number_of(name)?;
        self.innermost[spelling]
    }
}
