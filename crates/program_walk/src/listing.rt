//! The listing of a source.

ghost use Rattle.std.specs.Prelude.{◌≡◌, ◌++◌, IfOk, OnOk, map, string_bytes};
ghost use Rattle.program_walk.specs.Listings.{IsListing, listed_line, listing, note_on};

use crate::knowing::push_all_known;
use crate::parts::{Part, Visitor};
use crate::walk::walk_program;
use occam_layout::Line;
use occam_parser::Program;
use reason_texts::{first_line, push_bytes};
use scalar_ranges::Scope;
use std::alloc::{AllocError, Global};

/// What is known on lines, as far as they were gone over.
#[derive(Drop)]
struct Notes<'s, 'a> {
    alloc: Global,
    /// What is written behind each line, from the first one on.
    texts: Vec<String>,
    /// The lines of tokens that were not gone over yet.
    lines: &'s [Line<'a>],
    /// The last line that is listed.
    last: u32,
    /// Whether memory sufficed.
    complete: bool,
}

/// The lines of tokens from one on.
fn lines_from<'s, 'a>(lines: &'s [Line<'a>], line: u32) -> &'s [Line<'a>] {
    for (before, found) in lines.iter().enumerate() {
        if found.number >= line {
            let (_, rest) = lines.split_at(before);
            return rest;
        }
    }
    let (_, none) = lines.split_at(lines.len());
    none
}

impl<'s, 'a> Notes<'s, 'a> {
    /// Nothing is noted.
    fn new(alloc: Global, lines: &'s [Line<'a>], last: u32) -> Notes<'s, 'a> {
        Notes {
            alloc,
            texts: Vec::new(alloc),
            lines,
            last,
            complete: true,
        }
    }

    /// What is known of the names on a line, but for one. The line has no tokens if it is blank.
    fn known_on(
        &mut self,
        scope: &Scope<'_>,
        line: u32,
        but: Option<&[u8]>,
    ) -> Result<String, AllocError> {
        let mut text = String::new(self.alloc);
        self.lines = lines_from(self.lines, line);
        if let Some(found) = self.lines.first()
            && found.number == line
        {
            push_all_known(&mut text, scope, &found.tokens, but)?;
        }
        Ok(text)
    }

    /// Notes what is known of the names on a line, but for one. Of the lines before it nothing more is noted.
    fn note(&mut self, scope: &Scope<'_>, line: u32, but: Option<&[u8]>) -> Result<(), AllocError> {
        let text = self.known_on(scope, line, but)?;
        for _ in self.texts.len().saturating_add(1)..line as usize {
            self.texts.push(String::new(self.alloc))?;
        }
        self.texts.push(text)?;
        Ok(())
    }

    /// The lines of a source up to one, with what was noted.
    fn listing(&self, source: &[u8], last: u32) -> Result<String, AllocError>
        ensures { IfOk result (λ text. IsListing source.now last (string_bytes text)) }
    {
        if !self.complete {
            return Err(AllocError);
        }
        write_listing(self.alloc, source, &self.texts, last)
    }
}

impl Visitor for Notes<'_, '_> {
    fn visit(&mut self, scope: &Scope<'_>, line: u32, part: Part<'_, '_>) {
        let but = match part {
            Part::Item(_) | Part::Process(_) | Part::Declaration(_) | Part::Construct(_) => {
                return;
            }
            Part::Turns(replicator, _) => Some(replicator.name),
            Part::Action(_) | Part::Condition(_) | Part::Guard(_) => None,
        };
        if line as usize <= self.texts.len() || line > self.last {
            return;
        }
        self.complete &= self.note(scope, line, but).is_ok();
    }
}

/// What is noted on the line that has this many lines before it.
fn note_on(notes: &[String], before: usize) -> &str
    ensures { result.now ≡ note_on (map string_bytes notes.now) before }
{
    match notes.get(before) {
        Some(note) => note.as_str(),
        None => "",
    }
}

/// Appends a line with its number and with a note.
#[tactic(auto, unfolding(crate::specs::Listings::listed_line))]
fn push_line(text: &mut String, number: u32, bytes: &[u8], note: &str) -> Result<(), AllocError>
    ensures { OnOk result (string_bytes text.new ≡ string_bytes text.old ++ listed_line number bytes.now note.now) }
{
    write!(text, "{number:>5}  ")?;
    push_bytes(text, bytes)?;
    text.push_str(note)?;
    text.push_str("\n")
}

/// The lines of a source up to one, with notes.
fn write_listing(
    alloc: Global,
    source: &[u8],
    notes: &[String],
    last: u32,
) -> Result<String, AllocError>
    ensures { IfOk result (λ text. string_bytes text ≡ listing source.now (map string_bytes notes.now) last) }
{
    let mut text = String::new(alloc);
    let mut rest = source;
    for before in 0..last {
        if rest.is_empty() {
            return Ok(text);
        }
        let (line, after) = first_line(rest);
        push_line(&mut text, before + 1, line, note_on(notes, before as usize))?;
        rest = after;
    }
    Ok(text)
}

/// The lines of a source up to one, each with its number and with what is known there, before it, of the scalars that it
/// names: of a constant its value, and of a variable its range. At most eight are told of a line. `lines` are its lines
/// of tokens, and `program` is what they are. That what is noted on a line is known there, no clause says.
pub fn known_lines(
    alloc: Global,
    source: &[u8],
    lines: &[Line<'_>],
    program: &Program<'_>,
    last: u32,
) -> Result<String, AllocError>
    ensures { IfOk result (λ text. IsListing source.now last (string_bytes text)) }
{
    let mut notes = Notes::new(alloc, lines, last);
    let walked = walk_program(alloc, program.items(), &mut notes);
    notes.complete &= walked.is_ok();
    notes.listing(source, last)
}
