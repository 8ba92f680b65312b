//! What follows an instruction, by its rule.

ghost use Rattle.std.specs.Prelude.{IfSome};
ghost use Rattle.module_format.specs.Contents.{label_of};
ghost use Rattle.states.specs.Rows.{IsRowOf};
ghost use Rattle.states.specs.Views.{BelongsTo};

use certificate::Module;
use conformance::{Answer, Outcome, judged};
use facts::{Successor, Successors, is_instruction, transfer};
use module_cases::{Words, function, question};
use module_format::{Fact, LabelRow};
use prefix_decoder::{Fun, Instr};
use states::{Known, Loop, Source, State, WordFact, label_rows_are_sound};
use std::alloc::Global;

/// A fact as a word: `?` if nothing is known, `@OFFSET`, or a number as `LO..HI` or alone.
fn fact(word: &str) -> Option<Fact> {
    if word == "?" {
        return Some(Fact::Unknown);
    }
    if let Some(digits) = word.strip_prefix('@') {
        let offset = digits.parse::<u32>().ok()?;
        return Some(Fact::CodeAddress { offset });
    }
    let (lo, hi) = word.split_once("..").unwrap_or((word, word));
    Some(Fact::Number {
        lo: lo.parse::<i32>().ok()?,
        hi: hi.parse::<i32>().ok()?,
    })
}

/// Takes a fact and pushes it; `-` pushes none.
fn push(module: &Module, state: &mut State, words: &mut Words)
    requires { BelongsTo «module».now state.old }
    ensures { BelongsTo «module».now state.new }
{
    let _ = module;
    let Some(word) = words.given() else {
        return;
    };
    match fact(word) {
        Some(fact) => state.push(Known::of(fact)),
        None => words.fail(),
    }
}

/// Takes `WORD=FACT` and writes the word; `-` writes none.
fn write(module: &Module, state: &mut State, words: &mut Words)
    requires { BelongsTo «module».now state.old }
    ensures { BelongsTo «module».now state.new }
{
    let _ = module;
    let Some(word) = words.given() else {
        return;
    };
    let (number, known) = word.split_once('=').unwrap_or((word, ""));
    let place = state.writable_word(number.parse::<i64>().unwrap_or(i64::MAX));
    match (place, fact(known)) {
        (Some(place), Some(fact)) => state.write(place, fact),
        _ => words.fail(),
    }
}

/// The module's first label.
fn first_label<'a>(module: &'a Module) -> Option<&'a LabelRow>
    ensures { IfSome result (λ row. IsRowOf «module».now (label_of row.now)) }
{
    label_rows_are_sound();
    module.tables().labels.first()
}

/// Takes where the state begins: `root`, or `label` for the module's first label.
fn begin<'a>(module: &'a Module<'a>, state: &mut State<'a>, words: &mut Words)
    requires { BelongsTo «module».now state.old }
    ensures { BelongsTo «module».now state.new }
{
    if words.word() == "label" {
        match first_label(module) {
            Some(row) => state.become_label(module, row),
            None => words.fail(),
        }
    }
}

/// Takes where the state begins, its number, two writes and two pushes.
fn prepare<'a>(module: &'a Module<'a>, state: &mut State<'a>, words: &mut Words)
    requires { BelongsTo «module».now state.old }
    ensures { BelongsTo «module».now state.new }
{
    begin(module, state, words);
    state.number = u64::from(words.number());
    write(module, state, words);
    write(module, state, words);
    push(module, state, words);
    push(module, state, words);
}

fn put_fact(fact: Fact, out: &mut Answer) {
    match fact {
        Fact::Number { lo, hi } => {
            out.number(i64::from(lo));
            out.put("..");
            out.number(i64::from(hi));
        }
        Fact::CodeAddress { offset } => {
            out.put("@");
            out.number(i64::from(offset));
        }
        Fact::Unknown => out.put("?"),
        _ => out.put("other"),
    }
}

/// A register after a space: its fact, and the frame word that it comes from.
fn put_known(known: Known, out: &mut Answer) {
    out.put(" ");
    put_fact(known.fact, out);
    match known.source {
        Source::Nowhere => {}
        Source::From { word } => {
            out.put("=");
            out.number(i64::from(word));
        }
        Source::Test { .. } => out.put("=test"),
    }
}

/// A loop: its base, its count and its weight.
fn put_loop(counted: Loop, out: &mut Answer) {
    out.number(i64::from(counted.base));
    out.put(",");
    out.number(i64::from(counted.count));
    out.put(",");
    out.great(counted.weight);
}

/// A word of the frame after a space.
fn put_word(fact: WordFact, out: &mut Answer) {
    out.put(" ");
    match fact {
        WordFact::Alone(fact) => put_fact(fact, out),
        WordFact::Index(counted) => {
            out.put("index:");
            put_loop(counted, out);
        }
        WordFact::Count(counted) => {
            out.put("count:");
            put_loop(counted, out);
        }
    }
}

/// The registers, the words 1 and 2, and the number.
fn put_state(state: &State, out: &mut Answer) {
    put_known(state.stack.a, out);
    put_known(state.stack.b, out);
    put_known(state.stack.c, out);
    out.put(",");
    put_word(state.fact_at(1), out);
    put_word(state.fact_at(2), out);
    out.put(", ");
    out.great(state.number);
}

/// A state that follows: its offset, and the state.
fn put_successor(successor: &Successor, out: &mut Answer) {
    out.number(i64::from(successor.at));
    out.put(":");
    put_state(&successor.state, out);
}

/// The states that follow.
fn put_successors(successors: &Successors, out: &mut Answer) {
    match &successors.behind {
        Some(behind) => put_successor(behind, out),
        None if successors.labels.is_empty() => out.put("nothing"),
        None => {}
    }
    for (n, label) in successors.labels.iter().enumerate() {
        if n > 0 || successors.behind.is_some() {
            out.put(" or ");
        }
        put_successor(label, out);
    }
}

/// Takes an instruction: its function, its operand and its length.
fn instruction(words: &mut Words) -> Instr {
    let fun = function(words.word());
    if fun.is_none() {
        words.fail();
    }
    Instr {
        fun: fun.unwrap_or(Fun::Operate),
        operand: words.integer(),
        len: words.number() as usize,
    }
}

/// What follows an instruction, after `no instruction` if it is none of the machine.
fn put_following<'a>(
    alloc: Global,
    module: &'a Module<'a>,
    state: &State<'a>,
    at: usize,
    instr: Instr,
    out: &mut Answer,
)
    requires { BelongsTo «module».now state.now }
{
    if !is_instruction(module, instr) {
        out.put("no instruction ");
    }
    match transfer(alloc, module, state, at, instr) {
        Ok(successors) => put_successors(&successors, out),
        Err(fault) => {
            out.put("V");
            out.number(i64::from(fault.number));
        }
    }
}

/// What follows two instructions, one after the other, of which the first falls through.
fn put_following_both<'a>(
    alloc: Global,
    module: &'a Module<'a>,
    state: &State<'a>,
    at: usize,
    both: (Instr, Instr),
    out: &mut Answer,
) -> bool
    requires { BelongsTo «module».now state.now }
{
    let (first, second) = both;
    let Ok(successors) = transfer(alloc, module, state, at, first) else {
        return false;
    };
    let Some(behind) = &successors.behind else {
        return false;
    };
    let next = at.saturating_add(first.len);
    put_following(alloc, module, &behind.state, next, second, out);
    true
}

/// Takes an offset and one instruction or two, and writes what follows the last.
fn answer<'a>(
    alloc: Global,
    module: &'a Module<'a>,
    state: &State<'a>,
    words: &mut Words,
    out: &mut Answer,
)
    requires { BelongsTo «module».now state.now }
{
    let at = words.number() as usize;
    let first = instruction(words);
    if words.count() == 0 {
        put_following(alloc, module, state, at, first, out);
        return;
    }
    let both = (first, instruction(words));
    if !put_following_both(alloc, module, state, at, both, out) {
        words.fail();
    }
}

/// What follows an instruction: `OFFSET FUNCTION OPERAND LENGTH = ANSWER`. After a second one, what follows both.
pub(crate) fn follow<'a>(
    alloc: Global,
    module: &'a Module<'a>,
    before: &str,
    rest: &str,
    out: &mut Answer,
) -> Outcome {
    let (asked, expected) = question(rest);
    let (mut before, mut asked) = (Words::of(before), Words::of(asked));
    let Ok(mut state) = State::root(alloc, module) else {
        return Outcome::OutOfMemory;
    };
    prepare(module, &mut state, &mut before);
    answer(alloc, module, &state, &mut asked, out);
    if before.is_read() && asked.is_read() {
        judged(out, expected)
    } else {
        Outcome::Unreadable
    }
}
