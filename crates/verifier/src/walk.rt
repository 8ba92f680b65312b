//! The walk over the code, one instruction after another, with one state.

ghost use Rattle.std.specs.Prelude.{◌≡◌, ◌-◌, ◌<◌, ◌≤◌, ◌^◌};
ghost use Rattle.verifier.specs.Judge.{start_among};

use crate::judgement::{entering, judge, take_on};
use crate::rows::{Given, Rows};
use crate::stop::{Breach, broken};
use certificate::Module;
use prefix_decoder::{Instr, fetch};
use states::{Rule, State};
use std::alloc::{AllocError, Global};

/// A walk over a module's code: at each instruction in turn, and then at the end.
#[derive(Drop)]
pub struct Walk<'a> {
    pub(crate) module: &'a Module<'a>,
    pub(crate) rows: Rows<'a>,
    pub(crate) at: usize,
    /// The state that falls into the offset; once the offset is entered, the state there.
    pub(crate) state: State<'a>,
    /// Whether there is such a state.
    pub(crate) is_reached: bool,
}

/// An instruction that a walk is at.
#[derive(Clone, Copy)]
pub struct Arrival<'a> {
    pub at: usize,
    pub instr: Instr,
    /// What the tables give there.
    pub given: Given<'a>,
    /// What falling into the offset costs, or the rule that it breaks.
    pub entered: Result<u64, Rule>,
}

/// What is at the offset of a walk.
#[derive(Clone, Copy)]
pub enum Place<'a> {
    Instruction(Arrival<'a>),
    /// No instruction is spelled there.
    Unspelled,
    /// The code ends there.
    End,
}

/// The first offset from `from` up to `end` (not included) at which the tables say that an instruction
/// starts.
fn start_within(module: &Module, from: usize, end: usize) -> Option<u32>
    requires { (from ≤ end) × (end < 2 ^ 32) }
    ensures { result ≡ start_among «module».now from (end - from) }
{
    for offset in from as u32..end as u32 {
        if module.is_start(offset) {
            return Some(offset);
        }
    }
    None
}

impl<'a> Walk<'a> {
    ghost use Rattle.std.specs.Prelude.{◌≡◌, IfOk, option_map};
    ghost use Rattle.module_format.specs.Keeping.{Keeps};
    ghost use Rattle.states.specs.Views.{state_of};
    ghost use Rattle.certified_worlds.specs.Certified.{state_at};
    ghost use Rattle.verifier.specs.Judge.{at_the_end};
    ghost use Rattle.verifier.specs.Walking.{before_of, IsWalk, IsBegun, Arriving, HasArrived, GoesOn};

    /// A walk that is at offset 0, with the state of the root.
    pub fn begin(alloc: Global, module: &'a Module<'a>) -> Result<Self, AllocError>
        ensures begun { IfOk result (IsBegun «module».now) }
        ensures kept { Keeps «module».now }
    {
        Ok(Walk {
            module,
            rows: Rows::of(module),
            at: 0,
            state: State::root(alloc, module)?,
            is_reached: true,
        })
    }

    /// The state that falls into the offset, if one does; once that is entered, the state there.
    pub fn state(&self) -> Option<&State<'a>>
        ensures { option_map (λ s. state_of s.now) result ≡ before_of self.now }
    {
        if self.is_reached {
            return Some(&self.state);
        }
        None
    }

    /// The offset.
    pub fn offset(&self) -> usize
        ensures { result ≡ self.now.at }
    {
        self.at
    }

    /// The verdict where the code ends at the offset: a state that falls into it breaks a rule.
    pub fn ended(&self) -> Result<(), Breach>
        requires { self.now.at < 2 ^ 32 }
        ensures { result ≡ at_the_end self.now.at (before_of self.now) }
    {
        if self.is_reached {
            return Err(broken(Rule::Flow, self.at));
        }
        Ok(())
    }

    /// What is at the offset.
    #[inline]
    pub fn arrive(&mut self) -> Place<'a>
        requires { IsWalk self.old }
        ensures { Arriving self.old self.new result }
    {
        let at = self.at;
        let code = self.module.tables().code;
        if at >= code.len() {
            return Place::End;
        }
        let Ok(instr) = fetch(code, at) else {
            return Place::Unspelled;
        };
        let given = self.rows.take(at);
        let entered = entering(&mut self.state, self.is_reached, given);
        Place::Instruction(Arrival {
            at,
            instr,
            given,
            entered,
        })
    }

    /// Enters the offset: its state is the one that the tables give, if they give one.
    #[inline]
    pub fn enter(&mut self, arrival: &Arrival<'a>)
        requires { HasArrived arrival.now self.old }
        ensures arrived { HasArrived arrival.now self.new }
        ensures same { self.new.module.now ≡ self.old.module.now }
        ensures state { before_of self.new ≡ state_at self.old.module.now arrival.now.at (before_of self.old) }
    {
        self.is_reached = take_on(self.module, &mut self.state, self.is_reached, arrival);
    }

    /// Judges the instruction in the state at its offset, which is entered, and goes on to the next one. The inner
    /// error is the first rule that is broken up to there, the outer one that memory ran out.
    #[inline]
    pub fn go_on(&mut self, arrival: &Arrival<'a>) -> Result<Result<(), Breach>, AllocError>
        requires { HasArrived arrival.now self.old }
        ensures { IfOk result (GoesOn self.old arrival.now self.new) }
    {
        let Arrival {
            at,
            instr,
            entered,
            ..
        } = *arrival;
        let judged = judge(
            self.module,
            &mut self.state,
            self.is_reached,
            entered,
            at,
            instr,
        )?;
        self.is_reached = match judged {
            Ok(falls) => falls,
            Err(rule) => return Ok(Err(broken(rule, at))),
        };
        let end = at + instr.len;
        if let Some(inside) = start_within(self.module, at + 1, end) {
            return Ok(Err(broken(Rule::InstructionStart, inside as usize)));
        }
        self.at = end;
        Ok(Ok(()))
    }
}
