//! What is known of a process, by the calls that change it, and what a state pays at the greatest numbers. What words
//! and labels say of each other is tested by cases.

ghost use Rattle.std.specs.Prelude.{◌≡◌, IfSome, Some, slice_get};
ghost use Rattle.module_format.specs.Contents.{label_of, procedure_of};
ghost use Rattle.states.specs.Rows.{IsRowOf};
ghost use Rattle.states.specs.Views.{BelongsTo};

use crate::tests::text::Found;
use certificate::Module;
use module_format::{Fact, LabelRow, ProcedureRow};
use states::{Known, Source, State, below, label_rows_are_sound};
use std::alloc::Global;

const SMALL: Fact = Fact::Number { lo: 1, hi: 5 };

const LARGE: Fact = Fact::Number { lo: 1000, hi: 1000 };

/// Code that nothing runs, twelve data words with base 4, a procedure, and four label rows: a loop with the greatest
/// price, one that costs 2^64 - 1, the same where the label wants 1 besides, and two loops that cost 2^63 each.
const FILE: [u8; 342] = [
    0x54, 0x50, 0x4d, 0x31, 0x10, 0, 0, 0, 0, 0, 0, 0, 0x0c, 0, 0, 0, 4, 0, 0, 0, 0xe8, 3, 0, 0, 0,
    0, 0, 0, 0, 0, 0, 0, 0, 0, 0, 0, 0, 0, 0, 0, 0, 0, 0, 0, 0, 0, 0, 0, 0, 0, 0, 0, 0, 0, 0, 0, 0,
    0, 0, 0, 0, 0, 0, 0, 1, 0, 0, 0, 4, 0, 0, 0, 0, 0, 0, 0, 0xf5, 0, 0, 0, 0, 0, 0, 0, 0xf5, 0, 0,
    0, 0, 0, 0, 0, 3, 0, 0, 0, 0xfe, 0xff, 0xff, 0xff, 8, 0, 0, 0, 9, 0, 0, 0, 0, 0, 0, 0, 1, 0, 1,
    0, 0, 0xfb, 0xff, 0xff, 0xff, 5, 0, 0, 0, 6, 0, 0, 0, 0, 0, 0, 0, 0, 0, 0, 0, 0, 0, 0, 0, 0, 0,
    0, 0, 0, 1, 0, 0, 0, 0, 0, 2, 0, 0, 0, 4, 1, 0, 0, 0, 0xff, 0xff, 0xff, 0x7f, 0xff, 0xff, 0xff,
    0xff, 0xff, 0xff, 0xff, 0xff, 7, 0, 0, 0, 0, 0, 0, 0, 0, 0, 0, 0, 0, 0, 0, 0, 0, 0, 0, 0, 0, 1,
    0, 0, 0, 0, 0, 2, 0, 0, 0, 4, 0, 0, 0, 0, 4, 0, 0, 0, 0x55, 0x55, 0x55, 0x55, 0x55, 0x55, 0x55,
    0x55, 8, 0, 0, 0, 0, 0, 0, 0, 0, 0, 1, 0, 0, 0, 0, 0, 0, 0, 0, 0, 0, 1, 0, 0, 0, 0, 0, 2, 0, 0,
    0, 4, 0, 0, 0, 0, 4, 0, 0, 0, 0x55, 0x55, 0x55, 0x55, 0x55, 0x55, 0x55, 0x55, 9, 0, 0, 0, 0, 0,
    0, 0, 0, 0, 0, 0, 0, 0, 0, 0, 0, 0, 0, 0, 0, 2, 0, 0, 0, 0, 0, 2, 0, 0, 0, 4, 0, 0, 0, 0, 3, 0,
    0, 0, 0, 0, 0, 0, 0, 0, 0, 0x40, 2, 0, 0, 0, 2, 0, 0, 0, 4, 0, 0, 0, 0, 3, 0, 0, 0, 0, 0, 0, 0,
    0, 0, 0, 0x40,
];

/// Gives the word of the frame this fact, if the context may write it.
fn write(module: &Module, state: &mut State, word: i64, fact: Fact)
    requires { BelongsTo «module».now state.old }
    ensures { BelongsTo «module».now state.new }
{
    let _ = module;
    if let Some(word) = state.writable_word(word) {
        state.write(word, fact);
    }
}

/// The context, the depth and the number of a state.
fn put_place(state: &State, found: &mut Found) {
    found.begin_line();
    found.put(state.context);
    found.put(state.depth);
    found.put(state.number);
}

/// What is known of the registers.
fn put_registers(state: &State, found: &mut Found) {
    for known in [state.stack.a, state.stack.b, state.stack.c] {
        found.begin_line();
        found.put(known.fact);
        found.put(known.source);
    }
}

/// Words of the frame, and what is known of them.
fn put_words(state: &State, words: &[i32], found: &mut Found) {
    for word in words {
        found.begin_line();
        found.put(*word);
        found.put(state.fact_at(*word));
    }
}

/// Words, and which of them may be written and read.
fn put_usable(state: &State, words: &[i64], found: &mut Found) {
    for word in words {
        found.begin_line();
        found.put(*word);
        found.put(state.writable_word(*word));
        found.put(state.readable_word(*word));
    }
}

/// What is known where the module begins.
fn put_root(state: &State, found: &mut Found) {
    put_place(state, found);
    put_registers(state, found);
    found.begin_line();
    found.put(state.mode);
    found.put(state.guards.is_empty());
    put_words(state, &[-4, -3, -2, -1, 0, 1, 2, 3, 4, 5, 6, 7], found);
    let outside = [-5, 8, i64::MIN, i64::MAX, 1 << 32];
    put_usable(state, &[-4, -3, -2, -1, 0, 1, 2, 3, 4, 5, 6, 7], found);
    put_usable(state, &outside, found);
}

/// Words are written, and registers pushed, exchanged and popped.
fn put_changes(module: &Module, state: &mut State, found: &mut Found)
    requires { BelongsTo «module».now state.old }
    ensures { BelongsTo «module».now state.new }
{
    write(module, state, 1, SMALL);
    state.push(Known::of(LARGE));
    state.push(Known {
        fact: SMALL,
        source: Source::From { word: 1 },
    });
    put_registers(state, found);
    state.reverse();
    put_registers(state, found);
    write(module, state, 1, LARGE);
    put_registers(state, found);
    put_words(state, &[0, 1], found);
    state.pop();
    put_registers(state, found);
}

/// A copy, in which a word is written.
fn put_copied(module: &Module, copy: &mut State, found: &mut Found)
    requires { BelongsTo «module».now copy.old }
{
    put_place(copy, found);
    put_registers(copy, found);
    write(module, copy, 2, LARGE);
    put_words(copy, &[-2, 2], found);
}

/// A copy of a state, and the state after the copy has changed.
fn put_copy(alloc: Global, module: &Module, state: &mut State, found: &mut Found)
    requires { BelongsTo «module».now state.old }
    ensures { BelongsTo «module».now state.new }
{
    write(module, state, -2, SMALL);
    state.push(Known::of(LARGE));
    state.number = 7;
    match state.copy(alloc) {
        Ok(mut copy) => put_copied(module, &mut copy, found),
        Err(_) => found.fail(),
    }
    put_words(state, &[-2, 2], found);
}

/// A label row of the module.
pub fn label<'t>(module: &'t Module, index: usize) -> Option<&'t LabelRow>
    ensures { IfSome result (λ row. IsRowOf «module».now (label_of row.now)) }
{
    label_rows_are_sound();
    let rows = module.tables().labels.as_slice();
    if index >= rows.len() {
        return None;
    }
    Some(&rows[index])
}

/// The word is a number from now on.
fn set(module: &Module, state: &mut State, word: i64, number: i32)
    requires { BelongsTo «module».now state.old }
    ensures { BelongsTo «module».now state.new }
{
    let fact = Fact::Number {
        lo: number,
        hi: number,
    };
    write(module, state, word, fact);
}

/// Words 0 to 3 are these numbers from now on.
fn set_four(module: &Module, state: &mut State, words: [i32; 4])
    requires { BelongsTo «module».now state.old }
    ensures { BelongsTo «module».now state.new }
{
    set(module, state, 0, words[0]);
    set(module, state, 1, words[1]);
    set(module, state, 2, words[2]);
    set(module, state, 3, words[3]);
}

/// What it costs to continue with the label's state, with these words and this number, or the number of the rule that
/// is broken.
fn put_price(
    module: &Module,
    state: &mut State,
    index: usize,
    words: [i32; 4],
    number: u64,
    found: &mut Found,
)
    requires { BelongsTo «module».now state.old }
    ensures { BelongsTo «module».now state.new }
{
    set_four(module, state, words);
    state.number = number;
    found.begin_line();
    match label(module, index) {
        Some(row) => found.put(below(state, row).map_err(|fault| fault.number)),
        None => found.fail(),
    }
}

/// A label, words 0 to 3, and what the state may pay.
fn put_prices(module: &Module, state: &mut State, found: &mut Found)
    requires { BelongsTo «module».now state.old }
    ensures { BelongsTo «module».now state.new }
{
    put_price(module, state, 0, [1, i32::MAX, 0, 0], u64::MAX, found);
    put_price(module, state, 0, [2, i32::MAX, 0, 0], u64::MAX, found);
    put_price(module, state, 1, [0, 4, 0, 0], u64::MAX, found);
    put_price(module, state, 1, [0, 4, 0, 0], u64::MAX - 1, found);
    put_price(module, state, 2, [0, 4, 0, 0], u64::MAX, found);
    put_price(module, state, 3, [0, 3, 0, 3], u64::MAX, found);
    put_price(module, state, 3, [0, 3, 0, 2], u64::MAX, found);
    put_price(module, state, 3, [0, 3, 0, 2], (1 << 63) - 1, found);
}

/// The first procedure row of the module.
fn procedure<'t>(module: &'t Module) -> Option<&'t ProcedureRow>
    ensures { IfSome result (λ row. slice_get «module».now.procedures 0 ≡ Some (procedure_of row.now)) }
{
    module.tables().procedures.get(0)
}

/// The state where a procedure begins, and then that of a label.
fn put_begun<'a>(
    module: &'a Module<'a>,
    state: &mut State<'a>,
    procedure: &ProcedureRow,
    label: &'a LabelRow,
    found: &mut Found,
)
    requires belongs { BelongsTo «module».now state.old }
    requires procedure { slice_get «module».now.procedures 0 ≡ Some (procedure_of procedure.now) }
    requires label { IsRowOf «module».now (label_of label.now) }
{
    state.become_procedure(module, procedure, 1);
    put_place(state, found);
    put_registers(state, found);
    put_words(state, &[0, 1], found);
    put_usable(state, &[-2, 8], found);
    state.become_label(module, label);
    put_place(state, found);
    put_words(state, &[0, 1, 2], found);
}

fn put_beginnings<'a>(module: &'a Module<'a>, state: &mut State<'a>, found: &mut Found)
    requires { BelongsTo «module».now state.old }
{
    state.push(Known::of(SMALL));
    write(module, state, 0, SMALL);
    match (procedure(module), label(module, 2)) {
        (Some(procedure), Some(label)) => put_begun(module, state, procedure, label, found),
        _ => found.fail(),
    }
}

/// All of it, of one state.
fn put_state<'a>(alloc: Global, module: &'a Module<'a>, state: &mut State<'a>, found: &mut Found)
    requires { BelongsTo «module».now state.old }
{
    put_root(state, found);
    put_changes(module, state, found);
    put_copy(alloc, module, state, found);
    put_prices(module, state, found);
    put_beginnings(module, state, found);
}

fn put_states<'a>(alloc: Global, module: &'a Module<'a>, found: &mut Found) {
    match State::root(alloc, module) {
        Ok(mut state) => put_state(alloc, module, &mut state, found),
        Err(_) => found.fail(),
    }
}

fn put_known(alloc: Global, found: &mut Found) {
    match Module::read(alloc, &FILE) {
        Ok(module) => put_states(alloc, &module, found),
        Err(_) => found.fail(),
    }
}

const KNOWN: &str = "
 0 0 1000
 Unknown Nowhere
 Unknown Nowhere
 Unknown Nowhere
 Plain true
 -4 Alone(Unknown)
 -3 Alone(Unknown)
 -2 Alone(Unknown)
 -1 Alone(Unknown)
 0 Alone(Unknown)
 1 Alone(Unknown)
 2 Alone(Unknown)
 3 Alone(Unknown)
 4 Alone(Unknown)
 5 Alone(Unknown)
 6 Alone(Unknown)
 7 Alone(Unknown)
 -4 Some(-4) Some(-4)
 -3 Some(-3) Some(-3)
 -2 Some(-2) Some(-2)
 -1 Some(-1) Some(-1)
 0 Some(0) Some(0)
 1 Some(1) Some(1)
 2 Some(2) Some(2)
 3 Some(3) Some(3)
 4 Some(4) Some(4)
 5 Some(5) Some(5)
 6 Some(6) Some(6)
 7 Some(7) Some(7)
 -5 None None
 8 None None
 -9223372036854775808 None None
 9223372036854775807 None None
 4294967296 None None
 Number { lo: 1, hi: 5 } From { word: 1 }
 Number { lo: 1000, hi: 1000 } Nowhere
 Unknown Nowhere
 Number { lo: 1000, hi: 1000 } Nowhere
 Number { lo: 1, hi: 5 } From { word: 1 }
 Unknown Nowhere
 Number { lo: 1000, hi: 1000 } Nowhere
 Number { lo: 1, hi: 5 } Nowhere
 Unknown Nowhere
 0 Alone(Unknown)
 1 Alone(Number { lo: 1000, hi: 1000 })
 Number { lo: 1, hi: 5 } Nowhere
 Unknown Nowhere
 Unknown Nowhere
 0 0 7
 Number { lo: 1000, hi: 1000 } Nowhere
 Number { lo: 1, hi: 5 } Nowhere
 Unknown Nowhere
 -2 Alone(Number { lo: 1, hi: 5 })
 2 Alone(Number { lo: 1000, hi: 1000 })
 -2 Alone(Number { lo: 1, hi: 5 })
 2 Alone(Unknown)
 Err(15)
 Err(16)
 Ok(18446744073709551615)
 Err(15)
 Err(15)
 Err(15)
 Err(16)
 Err(15)
 1 0 9
 Unknown Nowhere
 Unknown Nowhere
 Unknown Nowhere
 0 Alone(ReturnAddress)
 1 Alone(Number { lo: -5, hi: 5 })
 -2 Some(-2) Some(-2)
 8 None None
 0 0 1
 0 Index(Loop { base: 0, count: 4, weight: 6148914691236517205 })
 1 Count(Loop { base: 0, count: 4, weight: 6148914691236517205 })
 2 Alone(Unknown)";

#[test]
fn what_is_known_begins_and_changes(rt: HostRuntime) {
    let mut found = Found::new(rt.alloc());
    put_known(rt.alloc(), &mut found);
    found.check(&rt, KNOWN);
}
