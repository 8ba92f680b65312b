//! Each instruction of a run, before it is executed.

ghost use Rattle.std.specs.Prelude.{◌≡◌};

use machine::{Checked, Observer};
use machine_state::{Task, Word};
use source_lines::{LineEntry, push_lines};
use std::alloc::{AllocError, Global};
use std::fmt;
use std::io::Write;
use waiting_texts::entry_at;

/// A register, in words.
#[derive(Clone, Copy)]
struct RegisterText(Word);

impl fmt::Display for RegisterText {
    fn fmt<W: fmt::Write>(&self, f: &mut fmt::Formatter<W>) -> fmt::Result {
        match self.0 {
            Some(number) => write!(f, "{number}"),
            None => write!(f, "?"),
        }
    }
}

/// Writes each instruction before it is executed, if that is wanted.
#[derive(Drop)]
pub struct Tracer<T: Write + Drop> {
    alloc: Global,
    is_wanted: bool,
    trace: T,
}

impl<T: Write + Drop> Tracer<T> {
    /// A tracer that writes to this, if that is wanted.
    pub fn new(alloc: Global, is_wanted: bool, trace: T) -> Self
        ensures { result ≡ record { alloc = alloc; is_wanted = is_wanted; trace = trace } }
    {
        Tracer {
            alloc,
            is_wanted,
            trace,
        }
    }

    /// The same tracer, for code that comes from these lines.
    pub fn with_lines(self, lines: &[LineEntry]) -> LinedTracer<'_, T>
        ensures { result ≡ record { tracer = self; lines = lines.entry } }
    {
        LinedTracer {
            tracer: self,
            lines,
        }
    }

    /// The line of an instruction: its offset, the lines that it comes from, its process, its name and the registers.
    fn line(
        &self,
        machine: &Checked<'_>,
        lines: &[LineEntry],
        process: u64,
        task: &Task,
    ) -> Result<String, AllocError> {
        let registers = task.registers;
        let entry = entry_at(machine.module().tables(), registers.at as usize);
        let at = registers.at;
        let mut source = String::new(self.alloc);
        push_lines(&mut source, lines, at)?;
        let a = RegisterText(registers.stack.a);
        let b = RegisterText(registers.stack.b);
        let c = RegisterText(registers.stack.c);
        format!(in self.alloc; "{at:06}{source} process {process}  {entry}  A {a}  B {b}  C {c}\n")
    }

    /// Writes the instruction that is about to be executed, if one begins. That memory runs out for it, or that it is not
    /// written, is not reported.
    fn write(&mut self, machine: &Checked<'_>, lines: &[LineEntry]) {
        let Some(process) = machine.runner() else {
            return;
        };
        let Some(task) = machine.task(process) else {
            return;
        };
        if task.registers.at != task.registers.began {
            return;
        }
        if let Ok(line) = self.line(machine, lines, process, &task) {
            let _ = self.trace.write_all(line.as_bytes());
        }
    }
}

/// A tracer of code that comes from lines of a source.
#[derive(Drop)]
pub struct LinedTracer<'l, T: Write + Drop> {
    tracer: Tracer<T>,
    lines: &'l [LineEntry],
}

impl<T: Write + Drop> Observer for LinedTracer<'_, T> {
    fn observe(&mut self, machine: &Checked<'_>) {
        if self.tracer.is_wanted {
            self.tracer.write(machine, self.lines);
        }
    }
}
