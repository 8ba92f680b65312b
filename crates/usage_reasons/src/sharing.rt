//! What two components of a `PAR` share, and on which lines.

ghost use Rattle.std.specs.Prelude.{◌≡◌, true, IfSome};
ghost use Rattle.usage_reasons.specs.AtFault.{is_left_out, IsAtFault};

use crate::cause::{Found, meant};
use crate::known::Names;
use crate::reason::{Deed, KnownName, Why};
use crate::site::Part;
use crate::walk::Walk;
use occam_parser::{
    Action, Body, Branch, Choice, Construct, Expr, Guard, Place, Process, Replicator,
};
use program_sizes::GREATEST_SIZE;
use program_uses::{
    Around, CHANNEL_USE, Direction, End, Parameter, SHARED_VARIABLE, Spot, Use, Uses, add_outlines,
    index_meaning, is_sequence, parameter_at, place_ref, spot_of, turns_of,
};
use scalar_ranges::Scope;
use std::alloc::Global;
use std::collections::BTreeMap;
use usage_checks::{Handed, handed_by};

/// A line of a component of a `PAR`.
#[derive(Clone, Copy)]
struct Seen {
    component: u32,
    line: u32,
}

/// Two uses of one variable or of one end of a channel, by different components.
#[derive(Clone, Copy)]
struct Shared {
    first: Use,
    first_line: u32,
    second: Use,
    second_line: u32,
}

/// What the components of a `PAR` use, as far as they were gone over.
#[derive(Drop)]
pub(crate) struct Sharing {
    /// Whether variables are asked after, and not ends of channels.
    is_of_variables: bool,
    /// How many names there are around the `PAR`.
    count: usize,
    /// The number of the component that is gone over.
    component: u32,
    /// The first line on which something is used.
    seen: BTreeMap<Use, Seen>,
    /// How many turns of replicators are gone over at most: as many as `check` goes over.
    turns_left: u32,
    found: Option<Shared>,
    /// Whether memory was enough.
    complete: bool,
}

impl Sharing {
    /// Nothing is used yet, where a scope has this many names and the rule with this number is broken.
    pub(crate) fn new(alloc: Global, number: u8, count: usize) -> Sharing {
        Sharing {
            is_of_variables: number == SHARED_VARIABLE,
            count,
            component: 0,
            seen: BTreeMap::new(alloc),
            turns_left: GREATEST_SIZE,
            found: None,
            complete: true,
        }
    }

    /// The next component begins.
    fn next(&mut self) {
        self.component = self.component.saturating_add(1);
    }

    /// How many turns are gone over of this many.
    fn turns(&mut self, count: u32) -> u32 {
        let turns = count.min(self.turns_left.max(1));
        self.turns_left = self.turns_left.saturating_sub(turns);
        turns
    }

    /// Two uses by different components, if the first one was seen.
    fn meet(&mut self, first: Use, second: Use, line: u32) {
        match self.seen.get(&first) {
            Some(seen) if seen.component != self.component && self.found.is_none() => {
                self.found = Some(Shared {
                    first,
                    first_line: seen.line,
                    second,
                    second_line: line,
                });
            }
            _ => {}
        }
    }

    /// This is used on a line.
    fn add(&mut self, item: Use, line: u32) {
        match item {
            Use::Read(number) => self.meet(Use::Change(number), item, line),
            Use::Change(number) => {
                self.meet(item, item, line);
                self.meet(Use::Read(number), item, line);
            }
            Use::Channel { .. } => self.meet(item, item, line),
        }
        let component = self.component;
        if !self.seen.contains_key(&item) {
            self.complete &= self.seen.insert(item, Seen { component, line }).is_ok();
        }
    }

    /// These ends of a channel are used on a line, of one element or of all.
    fn add_ends(&mut self, channel: usize, element: Option<u32>, ends: &[End], line: u32) {
        if self.is_of_variables || channel >= self.count {
            return;
        }
        for end in ends {
            let item = Use::Channel {
                channel,
                element: element.unwrap_or(end.element),
                direction: end.direction,
            };
            self.add(item, line);
        }
    }

    /// The variables among some uses are used on a line.
    fn add_uses(&mut self, used: &Uses, line: u32) {
        if !self.is_of_variables {
            return;
        }
        self.complete &= used.is_complete();
        for number in 0..self.count {
            if used.contains(Use::Change(number)) {
                self.add(Use::Change(number), line);
            }
            if used.contains(Use::Read(number)) {
                self.add(Use::Read(number), line);
            }
        }
    }

    /// The end of a channel that is received from, or sent to.
    fn add_place(&mut self, scope: &Scope, channel: &Place, direction: Direction, line: u32) {
        if let Some(Spot { channel, element }) = spot_of(scope, place_ref(channel)) {
            self.add_ends(channel, None, &[End { element, direction }], line);
        }
    }

    /// The ends of channels that a procedure uses of an actual.
    fn add_actual(&mut self, scope: &Scope, parameter: &Parameter, actual: &Expr, line: u32) {
        match handed_by(scope, Some(parameter), actual) {
            Handed::Nothing | Handed::Values(_) => {}
            Handed::Whole(channel) => self.add_ends(channel, None, &parameter.ends, line),
            Handed::Element(Spot { channel, element }) => {
                self.add_ends(channel, Some(element), &parameter.ends, line);
            }
        }
    }
}

/// What a use does to a variable.
fn deed_of(item: Use) -> Deed {
    match item {
        Use::Change(_) => Deed::Changes,
        Use::Read(_) | Use::Channel { .. } => Deed::Reads,
    }
}

/// The number of the variable or the channel that is used.
fn number_of(item: Use) -> usize {
    match item {
        Use::Read(number) | Use::Change(number) => number,
        Use::Channel { channel, .. } => channel,
    }
}

impl Shared {
    /// Why two components may not use what has this name.
    fn why(self, name: KnownName<'_>) -> Why<'_>
        ensures { is_left_out result ≡ true }
    {
        let (first, second) = (self.first_line, self.second_line);
        match self.second {
            Use::Read(_) | Use::Change(_) => Why::SharedVariable {
                variable: name,
                first,
                first_deed: deed_of(self.first),
                second,
                second_deed: deed_of(self.second),
            },
            Use::Channel {
                element,
                direction,
                ..
            } => Why::SharedChannel {
                channel: name,
                element,
                direction,
                first,
                second,
            },
        }
    }
}

/// What components of a `PAR` share, whose first token is meant.
#[tactic(auto, using(crate::specs::AtFault::left_out))]
fn cause_of<'a>(names: Names<'_, 'a>, shared: Option<Shared>) -> Found<'a>
    ensures { IfSome result IsAtFault }
{
    let shared = shared?;
    let name = names.declared(number_of(shared.second))?;
    Some(meant(0, 1, shared.why(name)))
}

impl<'a> Walk<'_, 'a> {
    /// What was found to be shared by components of the `PAR` on the line at fault.
    fn explain_shared(&mut self) {
        self.complete &= self.sharing.complete;
        let cause = cause_of(self.names(), self.sharing.found);
        self.explain(cause);
    }

    /// What the components of the `PAR` on the line at fault share.
    pub(crate) fn explain_par(&mut self, processes: &[Process<'a>]) {
        self.sharing = Sharing::new(self.alloc, self.fault.number, self.scope.len());
        for process in processes {
            self.share(process);
            self.sharing.next();
        }
        self.explain_shared();
    }

    /// Why a replicator on the line at fault breaks the rule, or what the turns of the `PAR` under it share.
    pub(crate) fn explain_turns(
        &mut self,
        line: u32,
        replicator: &Replicator<'a>,
        body: &Body<'a>,
    ) {
        self.look(line, Part::Replicator(replicator));
        let number = self.fault.number;
        match body {
            Body::Par(_) if number == SHARED_VARIABLE || number == CHANNEL_USE => {
                self.sharing = Sharing::new(self.alloc, self.fault.number, self.scope.len());
                self.share_turns(replicator, body, true);
                self.explain_shared();
            }
            _ => {}
        }
    }

    /// What a process uses.
    #[cycle(share)]
    fn share(&mut self, process: &Process<'a>) {
        if self.sharing.found.is_some() {
            return;
        }
        let count = self.scope.len();
        self.complete &= add_outlines(&mut self.scope, &process.declarations).is_ok();
        self.share_construct(process.line, &process.construct);
        self.scope.leave(count);
    }

    /// What a construct uses that begins on this line.
    #[cycle(share)]
    fn share_construct(&mut self, line: u32, construct: &Construct<'a>) {
        match construct {
            Construct::Action(action) => self.share_action(line, action),
            Construct::Seq(processes) | Construct::Par(processes) => {
                for process in processes {
                    self.share(process);
                }
            }
            Construct::If(choices) => {
                for choice in choices {
                    self.share_choice(choice);
                }
            }
            Construct::Alt(branches) => {
                for branch in branches {
                    self.share_branch(branch);
                }
            }
            Construct::Replicated { replicator, body } => {
                self.share_turns(replicator, body, false);
            }
        }
    }

    /// What the turns of a body use, each as a component of its own or not.
    #[cycle(share)]
    fn share_turns(&mut self, replicator: &Replicator<'a>, body: &Body<'a>, apart: bool) {
        let sequential = is_sequence(body);
        let turns = turns_of(true, &self.scope, sequential, replicator);
        let count = self.scope.len();
        for turn in 0..self.sharing.turns(turns.count) {
            let meaning = index_meaning(sequential, turns.index_at(turn));
            // Of what is declared in the `PAR` no line is told.
            self.declare(0, replicator.name, meaning);
            self.share_body(body);
            self.scope.leave(count);
            if apart {
                self.sharing.next();
            }
        }
    }

    /// What a body uses in one turn.
    #[cycle(share)]
    fn share_body(&mut self, body: &Body<'a>) {
        match body {
            Body::Seq(process) | Body::Par(process) => self.share(process),
            Body::If(choice) => self.share_choice(choice),
            Body::Alt(branch) => self.share_branch(branch),
        }
    }

    /// What a choice of an `IF` uses.
    #[cycle(share)]
    fn share_choice(&mut self, choice: &Choice<'a>) {
        self.share_condition(choice.line, &choice.condition);
        self.share(&choice.process);
    }

    /// What a branch of an `ALT` uses.
    #[cycle(share)]
    fn share_branch(&mut self, branch: &Branch<'a>) {
        self.share_guard(branch.line, &branch.guard);
        self.share(&branch.process);
    }

    /// Which variables a condition uses.
    fn share_condition(&mut self, line: u32, condition: &Expr) {
        let mut used = Uses::new(self.alloc);
        used.read(&self.scope, condition);
        self.sharing.add_uses(&used, line);
    }

    /// What a guard uses.
    fn share_guard(&mut self, line: u32, guard: &Guard) {
        let mut used = Uses::new(self.alloc);
        used.guard(&self.scope, guard);
        self.sharing.add_uses(&used, line);
        if let Guard::Input { channel, .. } = guard {
            self.sharing
                .add_place(&self.scope, channel, Direction::Input, line);
        }
    }

    /// Which variables an action uses.
    fn share_variables(&mut self, line: u32, action: &Action) {
        let around = Around {
            signatures: &self.signatures,
            uncounted: None,
        };
        let mut used = Uses::new(self.alloc);
        used.act(around, &self.scope, line, action);
        self.sharing.add_uses(&used, line);
    }

    /// What an action uses.
    fn share_action(&mut self, line: u32, action: &Action) {
        self.share_variables(line, action);
        match action {
            Action::Skip | Action::Stop | Action::Assign { .. } => {}
            Action::Input { channel, .. } => {
                self.sharing
                    .add_place(&self.scope, channel, Direction::Input, line);
            }
            Action::Output { channel, .. } => {
                self.sharing
                    .add_place(&self.scope, channel, Direction::Output, line);
            }
            Action::Instance { name, actuals } => {
                let procedure = self.scope.meaning(name);
                for (place, actual) in actuals.iter().enumerate() {
                    if let Some(parameter) = parameter_at(&self.signatures, procedure, place) {
                        self.sharing
                            .add_actual(&self.scope, parameter, actual, line);
                    }
                }
            }
        }
    }
}
