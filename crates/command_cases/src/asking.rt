//! Runs the command line of a case, and asks what it leaves.

use crate::command::Command;
use crate::generating::judge_generated;
use crate::left::run_case;
use crate::setting::Setting;
use conformance::{Answer, Outcome, Statement, Subject};
use std::alloc::Global;
use std::marker::PhantomData;

/// Whether a command line leaves what is expected, with a module of this size and a standard output that takes so many
/// bytes.
fn judge_one<C: Command>(
    setting: &Setting,
    status: u8,
    size: usize,
    room: usize,
    out: &mut Answer,
) -> Outcome {
    let Some(left) = run_case::<C>(setting, size, room) else {
        return Outcome::Unreadable;
    };
    let Some(is_left) = setting.expected.is_left(setting.alloc, &left, size, room) else {
        return Outcome::OutOfMemory;
    };
    if !is_left || left.status != status {
        left.put(out);
        return Outcome::Differs;
    }
    Outcome::Held
}

/// The same with each size and each standard output.
fn judge<C: Command>(setting: &Setting, status: &str, out: &mut Answer) -> Outcome {
    let Ok(status) = status.parse::<u8>() else {
        return Outcome::Unreadable;
    };
    for size in setting.sizes.0..=setting.sizes.1 {
        for room in setting.room.0..=setting.room.1 {
            let outcome = judge_one::<C>(setting, status, size, room, out);
            if outcome != Outcome::Held {
                return outcome;
            }
        }
    }
    Outcome::Held
}

/// Cases of this command.
#[derive(Drop)]
pub struct CommandCases<C: Command> {
    setting: Setting,
    command: PhantomData<C>,
}

impl<C: Command> Subject for CommandCases<C> {
    fn begin(alloc: Global) -> Self {
        CommandCases {
            setting: Setting::new(alloc),
            command: PhantomData,
        }
    }

    fn perform(&mut self, statement: Statement, out: &mut Answer) -> Outcome {
        if let Some(is_read) = self.setting.take(statement) {
            return Outcome::set(is_read);
        }
        match statement.word {
            "=" => judge::<C>(&self.setting, statement.rest, out),
            "generated" => judge_generated(&self.setting, statement.rest, out),
            _ => Outcome::Unreadable,
        }
    }
}
