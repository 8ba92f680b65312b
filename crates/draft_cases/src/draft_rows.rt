//! The rows of drafts.

use crate::draft_code::label;
use module_builder::{ContextName, Draft, Instructions, Label};
use module_cases::{Words, end};
use module_format::{
    BranchRow, ChannelRow, Ends, Entry, Fact, Interval, LabelRow, ParRow, Parameter, ParameterKind,
    ProcedureRow, Region, Stack, Step, TableRow,
};
use smallvec::SmallVec;
use std::alloc::Global;

/// The next word as a label, unless there is none with its number.
fn next_label(code: &Instructions, words: &mut Words) -> Option<Label> {
    let digits = words.word();
    label(code, digits, words)
}

/// `root`, `procedure ROW` or `branch ROW BRANCH`, where rows go by the order in which they are added.
fn context(words: &mut Words) -> ContextName {
    match words.word() {
        "root" => ContextName::Root,
        "procedure" => ContextName::Procedure(words.number() as usize),
        "branch" => ContextName::Branch {
            par: words.number() as usize,
            branch: words.number() as usize,
        },
        _ => {
            words.fail();
            ContextName::Root
        }
    }
}

/// `byte` or `word`.
fn step(words: &mut Words) -> Step {
    match words.word() {
        "byte" => Step::Byte,
        "word" => Step::Word,
        _ => {
            words.fail();
            Step::Byte
        }
    }
}

/// 0 for the frame, 1 for the constants, and 2 + j for what parameter j names.
fn region(words: &mut Words) -> Region {
    Region::numbered(words.short())
}

/// The address of a label.
fn address(code: &Instructions, words: &mut Words) -> Fact<Label> {
    match next_label(code, words) {
        Some(offset) => Fact::CodeAddress { offset },
        None => Fact::Unknown,
    }
}

/// `?`, `number LO HI`, `pointer REGION LO HI STEP`, `address LABEL`, `loop BASE COUNT WEIGHT` or `return`.
fn fact(code: &Instructions, words: &mut Words) -> Fact<Label> {
    match words.word() {
        "?" => Fact::Unknown,
        "number" => Fact::Number {
            lo: words.integer(),
            hi: words.integer(),
        },
        "pointer" => Fact::Pointer {
            region: region(words),
            lo: words.integer(),
            hi: words.integer(),
            step: step(words),
        },
        "address" => address(code, words),
        "loop" => Fact::Loop {
            base: words.integer(),
            count: words.number(),
            weight: words.great(),
        },
        "return" => Fact::ReturnAddress,
        _ => {
            words.fail();
            Fact::Unknown
        }
    }
}

/// `in`, `out` or `both`.
fn ends(words: &mut Words) -> Ends {
    match words.word() {
        "in" => Ends::IN,
        "out" => Ends::OUT,
        "both" => Ends::IN | Ends::OUT,
        _ => {
            words.fail();
            Ends::IN
        }
    }
}

/// `LO HI`.
fn interval(words: &mut Words) -> Interval {
    Interval {
        lo: words.integer(),
        hi: words.integer(),
    }
}

/// `number LO HI`, `read SIZE LO HI`, `written SIZE LO HI` or `channels COUNT LENGTH ENDS`.
fn kind(words: &mut Words) -> ParameterKind {
    match words.word() {
        "number" => {
            let Interval { lo, hi } = interval(words);
            ParameterKind::Value { lo, hi }
        }
        "read" => ParameterKind::ReadRegion {
            size: words.number(),
            lo: words.integer(),
            hi: words.integer(),
        },
        "written" => ParameterKind::WrittenRegion {
            size: words.number(),
            lo: words.integer(),
            hi: words.integer(),
        },
        "channels" => ParameterKind::Channels {
            count: words.number(),
            length: words.number(),
            ends: ends(words),
        },
        _ => {
            words.fail();
            ParameterKind::Value { lo: 0, hi: 0 }
        }
    }
}

/// `LABEL LO HI NUMBER`.
fn add_procedure(alloc: Global, draft: &mut Draft, words: &mut Words) {
    let Some(entry) = next_label(&draft.code, words) else {
        return;
    };
    let row = ProcedureRow {
        entry,
        lo: words.integer(),
        hi: words.integer(),
        number: words.great(),
        parameters: Vec::new(alloc),
    };
    words.require(draft.procedures.push(row).is_ok());
}

/// `WORD KIND`, of the last procedure.
fn add_parameter(draft: &mut Draft, words: &mut Words) {
    let parameter = Parameter {
        word: words.short(),
        kind: kind(words),
    };
    match draft.procedures.last_mut() {
        Some(row) => words.require(row.parameters.push(parameter).is_ok()),
        None => words.fail(),
    }
}

/// `LABEL CONTEXT DEPTH NUMBER A B C`.
fn add_label(alloc: Global, draft: &mut Draft, words: &mut Words) {
    let Some(offset) = next_label(&draft.code, words) else {
        return;
    };
    let row = LabelRow {
        offset,
        context: context(words),
        depth: words.integer(),
        number: words.great(),
        stack: Stack {
            a: fact(&draft.code, words),
            b: fact(&draft.code, words),
            c: fact(&draft.code, words),
        },
        entries: Vec::new(alloc),
    };
    words.require(draft.labels.push(row).is_ok());
}

/// `WORD SPAN FACT`, of the last label row.
fn add_entry(draft: &mut Draft, words: &mut Words) {
    let entry = Entry {
        word: words.integer(),
        span: words.number(),
        fact: fact(&draft.code, words),
    };
    match draft.labels.last_mut() {
        Some(row) => words.require(row.entries.push(entry).is_ok()),
        None => words.fail(),
    }
}

/// `ENTRY WORKSPACE`, of a branch that is given nothing.
fn add_branch(
    alloc: Global,
    code: &Instructions,
    row: &mut ParRow<Label, ContextName>,
    words: &mut Words,
) {
    let Some(entry) = next_label(code, words) else {
        return;
    };
    let branch = BranchRow {
        entry,
        workspace: words.integer(),
        writes: SmallVec::new(alloc),
        reads: SmallVec::new(alloc),
        written_parameters: SmallVec::new(alloc),
        read_parameters: SmallVec::new(alloc),
        ends: Vec::new(alloc),
    };
    words.require(row.branches.push(branch).is_ok());
}

/// `WORD LENGTH`.
fn add_channel(row: &mut ParRow<Label, ContextName>, words: &mut Words) {
    let channel = ChannelRow {
        word: words.integer(),
        length: words.number(),
    };
    words.require(row.channels.push(channel).is_ok());
}

/// Adds something that a branch is given to the list of this name.
fn add_gift(row: &mut BranchRow<Label>, list: &str, words: &mut Words) {
    let is_added = match list {
        "writes" => row.writes.push(interval(words)).is_ok(),
        "reads" => row.reads.push(interval(words)).is_ok(),
        "written_parameter" => row.written_parameters.push(words.short()).is_ok(),
        "read_parameter" => row.read_parameters.push(words.short()).is_ok(),
        "end" => row.ends.push(end(words)).is_ok(),
        _ => false,
    };
    words.require(is_added);
}

/// Adds to the last branch of a PAR.
fn add_to_branch(row: &mut ParRow<Label, ContextName>, name: &str, words: &mut Words) {
    match row.branches.last_mut() {
        Some(branch) => add_gift(branch, name, words),
        None => words.fail(),
    }
}

/// Adds to a PAR.
fn add_to_par(
    alloc: Global,
    code: &Instructions,
    row: &mut ParRow<Label, ContextName>,
    name: &str,
    words: &mut Words,
) {
    match name {
        "branch" => add_branch(alloc, code, row, words),
        "channel" => add_channel(row, words),
        _ => add_to_branch(row, name, words),
    }
}

/// Adds to the last PAR of a draft.
fn add_to_last_par(alloc: Global, draft: &mut Draft, name: &str, words: &mut Words) {
    match draft.pars.last_mut() {
        Some(row) => add_to_par(alloc, &draft.code, row, name, words),
        None => words.fail(),
    }
}

/// `CONTEXT DEPTH BLOCK SUCCESSOR`, and then branches.
fn add_par(alloc: Global, draft: &mut Draft, words: &mut Words) {
    let (context, depth, block) = (context(words), words.integer(), words.integer());
    let Some(successor) = next_label(&draft.code, words) else {
        return;
    };
    let row = ParRow {
        context,
        depth,
        block,
        successor,
        channels: Vec::new(alloc),
        branches: Vec::new(alloc),
    };
    words.require(draft.pars.push(row).is_ok());
    for _ in 0..words.count() / 2 {
        add_to_last_par(alloc, draft, "branch", words);
    }
}

/// `START END LO HI`.
fn add_table(draft: &mut Draft, words: &mut Words) {
    let row = TableRow {
        start: words.number(),
        end: words.number(),
        lo: words.integer(),
        hi: words.integer(),
    };
    words.require(draft.table_rows.push(row).is_ok());
}

/// Adds a row with this name, or adds to the last row.
pub(crate) fn add_row(alloc: Global, draft: &mut Draft, name: &str, words: &mut Words) {
    match name {
        "procedure" => add_procedure(alloc, draft, words),
        "parameter" => add_parameter(draft, words),
        "label" => add_label(alloc, draft, words),
        "entry" => add_entry(draft, words),
        "par" => add_par(alloc, draft, words),
        "table" => add_table(draft, words),
        _ => add_to_last_par(alloc, draft, name, words),
    }
}
