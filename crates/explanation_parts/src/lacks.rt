//! What a label wants that is not known.
#![tactic(auto, unfolding(crate::proofs::Opening::lacks_opens))]

ghost use Rattle.std.specs.Prelude.{◌≡◌, Some};
ghost use Rattle.module_format.specs.Contents.{contents_of, label_of};
ghost use Rattle.states.specs.Below.{is_whole};
ghost use Rattle.states.specs.Rows.{LoopFits};
ghost use Rattle.states.specs.Views.{state_of};
ghost use Rattle.explanation_parts.specs.Ways.{seen_in};
ghost use Rattle.explanation_parts.specs.Lacks.{subject_text, value_text, either, context_lack, depth_lack, mode_lack};
ghost use Rattle.explanation_parts.specs.Lacks.{register_lack, place_lack, stack_lack, fact_lack, word_lack, words_lack};
ghost use Rattle.explanation_parts.specs.Lacks.{half_lack, entry_lack, entries_lack, lack_of};

use crate::ways::{Way, is_settled, seen_fact, seen_of, seen_of_a};
use fact_texts::ContextText;
use module_format::{Entry, Fact, LabelRow, Stack, Tables};
use state_texts::{ModeText, WordText};
use states::{Known, Mode, State, WordFact, implies, said_of, says};
use std::fmt;

/// What a label speaks of.
#[derive(Clone, Copy)]
pub(crate) enum Subject {
    Context,
    Depth,
    Mode,
    A,
    B,
    C,
    Word { word: i64 },
    Loop { word: i32 },
}

impl fmt::Display for Subject {
    ghost output = { λ subject. Some (subject_text subject) };

    fn fmt<W: fmt::Write>(&self, f: &mut fmt::Formatter<W>) -> fmt::Result {
        match *self {
            Subject::Context => write!(f, "context"),
            Subject::Depth => write!(f, "depth"),
            Subject::Mode => write!(f, "mode"),
            Subject::A => write!(f, "A"),
            Subject::B => write!(f, "B"),
            Subject::C => write!(f, "C"),
            Subject::Word { word } => write!(f, "word {word}"),
            Subject::Loop { word } => write!(f, "loop of word {word}"),
        }
    }
}

/// What it says of it, or what is known.
#[derive(Clone, Copy)]
pub(crate) enum Value {
    Context { first_branch: usize, number: u32 },
    Depth { depth: i32 },
    Mode { mode: Mode },
    Fact { fact: WordFact },
    Whole,
    Half,
}

impl fmt::Display for Value {
    ghost output = { λ value. Some (value_text value) };

    fn fmt<W: fmt::Write>(&self, f: &mut fmt::Formatter<W>) -> fmt::Result {
        match *self {
            Value::Context {
                first_branch,
                number,
            } => write!(
                f,
                "{}",
                ContextText {
                    first_branch,
                    number
                }
            ),
            Value::Depth { depth } => write!(f, "{depth}"),
            Value::Mode { mode } => write!(f, "{}", ModeText(mode)),
            Value::Fact { fact } => write!(f, "{}", WordText(fact)),
            Value::Whole => write!(f, "whole"),
            Value::Half => write!(f, "half known"),
        }
    }
}

/// What a label wants that is not known.
#[derive(Clone, Copy)]
pub(crate) struct Lack {
    pub subject: Subject,
    pub wanted: Value,
    pub found: Value,
}

/// The first, if there is one, or else the second.
fn either(first: Option<Lack>, second: Option<Lack>) -> Option<Lack>
    ensures { result ≡ either first second }
{
    match first {
        Some(lack) => Some(lack),
        None => second,
    }
}

/// The context, if it is not the one that is wanted.
fn context_lack(tables: &Tables<'_>, found: u32, wanted: u32) -> Option<Lack>
    ensures { result ≡ context_lack (contents_of tables.now) found wanted }
{
    if found == wanted {
        return None;
    }
    let first_branch = tables.first_branch();
    Some(Lack {
        subject: Subject::Context,
        wanted: Value::Context {
            first_branch,
            number: wanted,
        },
        found: Value::Context {
            first_branch,
            number: found,
        },
    })
}

/// The depth, if it is not the one that is wanted.
fn depth_lack(found: i32, wanted: i32) -> Option<Lack>
    ensures { result ≡ depth_lack found wanted }
{
    if found <= wanted && wanted <= found {
        return None;
    }
    Some(Lack {
        subject: Subject::Depth,
        wanted: Value::Depth { depth: wanted },
        found: Value::Depth { depth: found },
    })
}

/// The mode, if the process is in the middle of something.
fn mode_lack(way: Way, found: Mode) -> Option<Lack>
    ensures { result ≡ mode_lack way found }
{
    if is_settled(way, found) {
        return None;
    }
    Some(Lack {
        subject: Subject::Mode,
        wanted: Value::Mode { mode: Mode::Plain },
        found: Value::Mode { mode: found },
    })
}

/// Where the process is, if it is not where the label is.
fn place_lack(tables: &Tables<'_>, way: Way, state: &State, row: &LabelRow) -> Option<Lack>
    ensures { result ≡ place_lack (contents_of tables.now) way (state_of state.now) (label_of row.now) }
{
    let context = context_lack(tables, state.context, u32::from(row.context));
    let depth = depth_lack(state.depth, row.depth);
    either(context, either(depth, mode_lack(way, state.mode)))
}

/// What is known of a register, if more is wanted.
fn register_lack(subject: Subject, known: Fact, wanted: Fact) -> Option<Lack>
    ensures { result ≡ register_lack subject known wanted }
{
    if implies(known, wanted) {
        return None;
    }
    Some(Lack {
        subject,
        wanted: Value::Fact {
            fact: WordFact::Alone(wanted),
        },
        found: Value::Fact {
            fact: WordFact::Alone(known),
        },
    })
}

/// What is known of the first register of which more is wanted.
fn stack_lack(way: Way, stack: Stack<Known>, wanted: Stack<Fact>) -> Option<Lack>
    ensures { result ≡ stack_lack way stack wanted }
{
    let a = register_lack(Subject::A, seen_of_a(way, stack.a), wanted.a);
    let b = register_lack(Subject::B, seen_of(way, stack.b), wanted.b);
    let c = register_lack(Subject::C, seen_of(way, stack.c), wanted.c);
    either(a, either(b, c))
}

/// What is known of a word, if more is wanted.
fn fact_lack(word: i64, known: WordFact, wanted: WordFact) -> Option<Lack>
    requires { LoopFits known }
    ensures { result ≡ fact_lack word known wanted }
{
    if says(known, wanted) {
        return None;
    }
    Some(Lack {
        subject: Subject::Word { word },
        wanted: Value::Fact { fact: wanted },
        found: Value::Fact { fact: known },
    })
}

/// What is known of the word of this number of an entry, if more is wanted.
fn word_lack(way: Way, state: &State, entry: &Entry, number: u32) -> Option<Lack>
    ensures { result ≡ word_lack (seen_in way (state_of state.now)) entry.now number }
{
    let word = i64::from(entry.word) + i64::from(number);
    let wanted = said_of(entry.fact, number == 0);
    fact_lack(word, seen_fact(state, way, word), wanted)
}

/// What is known of the first word of an entry of which more is wanted.
fn words_lack(way: Way, state: &State, entry: &Entry) -> Option<Lack>
    ensures { result ≡ words_lack (seen_in way (state_of state.now)) entry.now entry.now.span }
{
    let mut lack = None;
    for number in 0..entry.span {
        lack = either(lack, word_lack(way, state, entry, number));
    }
    lack
}

/// Whether both words of a loop come from that loop, or neither does, if the entry is of one.
fn is_whole(way: Way, state: &State, entry: &Entry) -> bool
    ensures { result ≡ is_whole (seen_in way (state_of state.now)) entry.now }
{
    match entry.fact {
        Fact::Loop { .. } => {
            let word = i64::from(entry.word);
            seen_fact(state, way, word).is_alone() == seen_fact(state, way, word + 1).is_alone()
        }
        _ => true,
    }
}

/// The loop of an entry, if half of it is known.
fn half_lack(way: Way, state: &State, entry: &Entry) -> Option<Lack>
    ensures { result ≡ half_lack (seen_in way (state_of state.now)) entry.now }
{
    if is_whole(way, state, entry) {
        return None;
    }
    Some(Lack {
        subject: Subject::Loop { word: entry.word },
        wanted: Value::Whole,
        found: Value::Half,
    })
}

/// What is known of the words of an entry, if more is wanted.
fn entry_lack(way: Way, state: &State, entry: &Entry) -> Option<Lack>
    ensures { result ≡ entry_lack (seen_in way (state_of state.now)) entry.now }
{
    either(words_lack(way, state, entry), half_lack(way, state, entry))
}

/// What is known of the words of the first entry of which more is wanted.
fn entries_lack(way: Way, state: &State, entries: &[Entry]) -> Option<Lack>
    ensures { result ≡ entries_lack (seen_in way (state_of state.now)) entries.now }
{
    let mut lack = None;
    for entry in entries {
        lack = either(lack, entry_lack(way, state, entry));
    }
    lack
}

/// What a label wants first that is not known.
pub(crate) fn lack_of(tables: &Tables<'_>, way: Way, state: &State, row: &LabelRow) -> Option<Lack>
    ensures { result ≡ lack_of (contents_of tables.now) way (state_of state.now) (label_of row.now) }
{
    let place = place_lack(tables, way, state, row);
    let stack = stack_lack(way, state.stack, row.stack);
    either(place, either(stack, entries_lack(way, state, &row.entries)))
}
