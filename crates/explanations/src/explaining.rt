//! The explanation of the verdict on a module.

ghost use Rattle.std.specs.Prelude.{◌≡◌, ◌<◌, ◌^◌, ◌++◌, [], IfOk, MatchOption, Some};
ghost use Rattle.std.specs.Prelude.{string_bytes, length, if◌then◌else◌};
ghost use Rattle.module_format.specs.Keeping.{Keeps};
ghost use Rattle.states.specs.declared.rule.Rule.TheVariants.{Spelling};
ghost use Rattle.certified_worlds.specs.Certified.{entering, state_at};
ghost use Rattle.explanation_parts.specs.Refusals.{hidden_text, unspelled_text, ended_text};
ghost use Rattle.verifier.specs.Judge.{verdict, refused, at_the_end};
ghost use Rattle.verifier.specs.Walking.{before_of, walked, HasArrived, IsBegun};
ghost use Rattle.explanations.specs.Explaining.{explanation, last_text, root_setting, IsElsewhere};
ghost use Rattle.explanations.specs.Telling.{IsKnown, IsTold, TellsBreach};
ghost use Rattle.explanations.specs.declared.explaining.Told.TheVariants.{All};

use certificate::Module;
use explanation_parts::refusals::{is_at_entry, push_end, push_hidden, push_unspelled};
use explanation_parts::sights::{push_sight, setting_after};
use sentences::{Broken, push_breach};
use state_texts::Setting;
use states::{Mode, Rule};
use std::alloc::{AllocError, Global};
use verifier::{Arrival, Breach, Place, Walk, broken};

/// The setting of the root.
fn root_setting() -> Setting
    ensures { result ≡ root_setting }
{
    Setting {
        context: 0,
        depth: 0,
        mode: Mode::Plain,
    }
}

/// The rule that is broken at an offset, if it is known that the module is refused there.
fn rule_at(known: Option<Breach>, at: usize) -> Option<Rule>
    ensures { MatchOption result (IsElsewhere known at)
        (λ rule. known ≡ Some (record { rule = rule; offset = at })) }
{
    match known {
        Some(breach) if breach.offset as usize == at => Some(breach.rule),
        _ => None,
    }
}

/// Enters the offset, unless the rule is broken by falling into it.
fn enter_unless<'a>(walk: &mut Walk<'a>, arrival: &Arrival<'a>, at_entry: bool)
    requires { HasArrived arrival.now walk.old }
    ensures { let before = before_of walk.old in
        before_of walk.new ≡ (if at_entry then before else state_at (walked walk.old) arrival.now.at before) }
{
    if !at_entry {
        walk.enter(arrival);
    }
}

/// What a walk comes to that tells what is known.
#[derive(Clone, Copy)]
pub(crate) enum Told {
    /// The explanation of this verdict.
    All(Result<(), Breach>),
    /// Where the module is refused. The instruction that breaks the rule is told as if it broke none.
    Part(Breach),
}

impl Told {
    ghost use Rattle.explanations.specs.Telling.{verdict_told};

    /// The verdict.
    fn judged(self) -> Result<(), Breach>
        ensures { result ≡ verdict_told self }
    {
        match self {
            Told::All(judged) => judged,
            Told::Part(breach) => Err(breach),
        }
    }
}

/// Appends that no instruction is spelled at an offset.
fn tell_unspelled(
    alloc: Global,
    text: &mut String,
    module: &Module,
    at: usize,
) -> Result<Told, AllocError>
    requires inside { at < length «module».now.code }
    requires few { at < 2 ^ 32 }
    ensures { IfOk result (λ told. (string_bytes text.new ≡ string_bytes text.old ++ unspelled_text «module».now at)
        × (told ≡ All (refused Spelling at))) }
{
    push_unspelled(alloc, text, module, at)?;
    Ok(Told::All(Err(broken(Rule::Spelling, at))))
}

/// Appends what is known where the code ends.
fn tell_end(text: &mut String, module: &Module, at: usize, walk: &Walk) -> Result<Told, AllocError>
    requires few { walk.now.at < 2 ^ 32 }
    ensures { let before = before_of walk.now in
        IfOk result (λ told. (string_bytes text.new ≡ string_bytes text.old ++ ended_text «module».now at before)
        × (told ≡ All (at_the_end walk.now.at before))) }
{
    push_end(text, module, at, walk.state())?;
    Ok(Told::All(walk.ended()))
}

/// Appends the instruction that breaks the rule, the state that breaks it, and why.
fn tell_last<'a>(
    alloc: Global,
    text: &mut String,
    module: &Module,
    walk: &mut Walk<'a>,
    arrival: &Arrival<'a>,
    setting: Setting,
    rule: Rule,
) -> Result<Told, AllocError>
    requires arrived { HasArrived arrival.now walk.old }
    requires same { walked walk.old ≡ «module».now }
    requires entered { arrival.now.entered ≡ entering «module».now arrival.now.at (before_of walk.old) }
    ensures { let before = before_of walk.old in IfOk result (λ told. (string_bytes text.new
        ≡ string_bytes text.old ++ last_text «module».now arrival.now.at arrival.now.instr before setting rule)
        × (told ≡ All (refused rule arrival.now.at))) }
{
    let Arrival {
        at,
        instr,
        entered,
        ..
    } = *arrival;
    let at_entry = is_at_entry(entered, rule);
    let last = Broken {
        at,
        instr,
        rule,
        at_entry,
    };
    enter_unless(walk, arrival, at_entry);
    push_sight(alloc, text, module, at, setting, walk.state())?;
    push_breach(text, module, last, walk.state())?;
    Ok(Told::All(Err(broken(rule, at))))
}

/// Appends that a start lies within the instruction at an offset, if that is the rule that it breaks.
fn tell_breach(text: &mut String, at: usize, breach: Breach) -> Result<Told, AllocError>
    ensures { IfOk result (TellsBreach (string_bytes text.old) (string_bytes text.new) at breach) }
{
    let inside = breach.offset as usize;
    if inside == at {
        return Ok(Told::Part(breach));
    }
    push_hidden(text, at, inside)?;
    Ok(Told::All(Err(breach)))
}

/// Appends what is known at each instruction, up to the first rule that is broken. The instruction that breaks it is told
/// as such only if it is known where the module is refused: the state is changed in part when it is found out.
fn tell<'a>(
    alloc: Global,
    text: &mut String,
    module: &'a Module<'a>,
    walk: &mut Walk<'a>,
    known: Option<Breach>,
) -> Result<Told, AllocError>
    requires empty { string_bytes text.old ≡ [] }
    requires begun { IsBegun «module».now walk.old }
    requires kept { Keeps «module».now }
    requires known { IsKnown «module».now known }
    ensures { IfOk result (IsTold «module».now known (string_bytes text.new)) }
{
    let mut setting = root_setting();
    loop {
        let at = walk.offset();
        let arrival = match walk.arrive() {
            Place::Instruction(arrival) => arrival,
            Place::Unspelled => return tell_unspelled(alloc, text, module, at),
            Place::End => return tell_end(text, module, at, walk),
        };
        if let Some(rule) = rule_at(known, at) {
            return tell_last(alloc, text, module, walk, &arrival, setting, rule);
        }
        walk.enter(&arrival);
        let reached = walk.state();
        push_sight(alloc, text, module, at, setting, reached)?;
        setting = setting_after(setting, reached);
        if let Err(breach) = walk.go_on(&arrival)? {
            return tell_breach(text, at, breach);
        }
    }
}

/// The explanation of the verdict on a module, and the verdict.
#[derive(Drop)]
pub struct Explained {
    pub text: String,
    pub judged: Result<(), Breach>,
}

/// What one walk tells, and how far that is all.
fn told_by_a_walk<'a>(
    alloc: Global,
    module: &'a Module<'a>,
    known: Option<Breach>,
) -> Result<(String, Told), AllocError>
    requires { IsKnown «module».now known }
    ensures kept { Keeps «module».now }
    ensures told { IfOk result (λ both. IsTold «module».now known (string_bytes both.0) both.1) }
{
    let mut text = String::new(alloc);
    let mut walk = Walk::begin(alloc, module)?;
    let told = tell(alloc, &mut text, module, &mut walk, known)?;
    Ok((text, told))
}

/// The explanation of the verdict on a module, and the verdict. One walk tells both, unless the module is refused for
/// what an instruction does: then a second one goes that far again.
pub fn explanation<'a>(alloc: Global, module: &'a Module<'a>) -> Result<Explained, AllocError>
    ensures kept { Keeps «module».now }
    ensures text { IfOk result (λ e. string_bytes e.text ≡ explanation «module».now) }
    ensures judged { IfOk result (λ e. e.judged ≡ verdict «module».now) }
{
    let (text, told) = told_by_a_walk(alloc, module, None)?;
    let Told::Part(breach) = told else {
        return Ok(Explained {
            text,
            judged: told.judged(),
        });
    };
    let (text, told) = told_by_a_walk(alloc, module, Some(breach))?;
    Ok(Explained {
        text,
        judged: told.judged(),
    })
}
