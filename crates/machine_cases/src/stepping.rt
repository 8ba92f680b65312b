//! What one instruction of one process does.

use crate::running::put_process_fault;
use certificate::Module;
use conformance::{Answer, Outcome, judged};
use direct_functions::direct;
use machine_state::{
    Cpu, DATA_START, Fault, FaultKind, Flow, LoadStore, Mode, Registers, Request, Store,
    TaggedStore, Word, local_address, place_of,
};
use module_cases::{Words, function, question};
use module_format::{Stack, Tables};
use std::alloc::Global;

/// The number of the process.
const PROCESS: u64 = 7;

const BYTES_IN_WORD: u32 = 4;

/// The registers before the words of a case are taken. The instruction began at offset 1.
const REGISTERS: Registers = Registers {
    workspace: DATA_START,
    at: 1,
    began: 1,
    operand: 0x15,
    stack: Stack {
        a: None,
        b: None,
        c: None,
    },
};

/// The mode of this name, unless there is none.
fn mode(name: &str) -> Option<Mode> {
    match name {
        "plain" => Some(Mode::Plain),
        "enabling" => Some(Mode::Enabling { is_ready: false }),
        "disabling" => Some(Mode::Disabling { selection: None }),
        "starting" => Some(Mode::Starting),
        _ => None,
    }
}

/// Takes the mode, the offset of the last byte, the length of the code, the number of the data word that is the
/// workspace, and the three registers.
fn set_registers(cpu: &mut Cpu<TaggedStore>, words: &mut Words) {
    match mode(words.word()) {
        Some(mode) => cpu.mode = mode,
        None => words.fail(),
    }
    cpu.registers.at = words.number();
    cpu.code_length = words.number();
    cpu.registers.workspace = local_address(DATA_START, words.integer());
    cpu.registers.stack.a = words.value();
    cpu.registers.stack.b = words.value();
    cpu.registers.stack.c = words.value();
}

/// Takes the data words from the first on.
fn set_data(store: &mut TaggedStore, words: &mut Words) {
    let mut address = DATA_START;
    for _ in 0..words.count() {
        let word = words.value();
        if store.can_store_word(address) {
            store.store_word(address, word);
        }
        address = address.wrapping_add(4);
    }
}

/// What is asked of others.
fn request_name(request: Request) -> &'static str {
    match request {
        Request::Receive(_) => "receive",
        Request::Send(_) => "send",
        Request::Start { .. } => "start",
        Request::Join { .. } => "join",
        Request::Begin => "begin",
        Request::EnableChannel { .. } => "enable",
        Request::EnableSkip { .. } => "enable skip",
        Request::Wait => "wait",
        Request::DisableChannel { .. } => "disable",
        Request::DisableSkip { .. } => "disable skip",
        Request::End { .. } => "end",
    }
}

fn put_flow(flow: Result<Flow, FaultKind>, out: &mut Answer) {
    match flow {
        Ok(Flow::Next) => out.put("next"),
        Ok(Flow::Jump { to }) => {
            out.put("jump ");
            out.number(i64::from(to));
        }
        Ok(Flow::Land { to }) => {
            out.put("land ");
            out.number(i64::from(to));
        }
        Ok(Flow::Stop) => out.put("stop"),
        Ok(Flow::Ask(request)) => out.put(request_name(request)),
        Err(kind) => put_process_fault(Fault::new(kind, PROCESS, REGISTERS.began), out),
    }
}

/// A word after a space, `-` if it is undefined.
fn put_value(value: Word, out: &mut Answer) {
    out.put(" ");
    match value {
        Some(value) => out.number(i64::from(value)),
        None => out.put("-"),
    }
}

/// The three registers, the number of the data word that is the workspace if that is another, and whether any of the
/// others is not as before.
fn put_registers(before: Registers, after: Registers, out: &mut Answer) {
    put_value(after.stack.a, out);
    put_value(after.stack.b, out);
    put_value(after.stack.c, out);
    if after.workspace != before.workspace {
        out.put(" at word ");
        out.number(i64::from(place_of(after.workspace) / BYTES_IN_WORD));
    }
    let others = Registers {
        stack: before.stack,
        workspace: before.workspace,
        ..after
    };
    out.put(if others == before {
        ","
    } else {
        " and others,"
    });
}

/// The data words from the first on.
fn put_data(store: &TaggedStore, count: u64, out: &mut Answer) {
    let mut address = DATA_START;
    for _ in 0..count {
        if store.can_load_word(address) {
            put_value(store.load_word(address), out);
        }
        address = address.wrapping_add(4);
    }
}

/// Executes an instruction of the process that the first words say. `false` if it cannot be read.
fn execute(
    cpu: &mut Cpu<TaggedStore>,
    mut process: Words,
    mut asked: Words,
    out: &mut Answer,
) -> bool {
    set_registers(cpu, &mut process);
    let count = process.count();
    set_data(&mut cpu.store, &mut process);
    let before = cpu.registers;
    let Some(fun) = function(asked.word()) else {
        return false;
    };
    put_flow(direct(cpu, fun, asked.integer()), out);
    put_registers(before, cpu.registers, out);
    put_data(&cpu.store, count, out);
    process.is_read() && asked.is_read()
}

/// The address after the data words, where the code begins.
fn data_end(tables: &Tables) -> u32 {
    DATA_START.wrapping_add(tables.data_words.wrapping_mul(BYTES_IN_WORD))
}

/// What an instruction does: `FUNCTION OPERAND = FLOW A B C, DATA`.
pub(crate) fn step(
    alloc: Global,
    module: &Module,
    process: &str,
    rest: &str,
    out: &mut Answer,
) -> Outcome {
    let (asked, expected) = question(rest);
    let Ok(store) = TaggedStore::load(alloc, module.tables()) else {
        return Outcome::OutOfMemory;
    };
    let mut cpu = Cpu {
        registers: REGISTERS,
        mode: Mode::Plain,
        code_start: data_end(module.tables()),
        code_length: 0,
        has_long_operations: module.tables().has_long_operations,
        store,
    };
    if execute(&mut cpu, Words::of(process), Words::of(asked), out) {
        judged(out, expected)
    } else {
        Outcome::Unreadable
    }
}
