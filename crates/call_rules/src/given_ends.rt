//! What a call wants of the channels that it passes.

ghost use Rattle.std.specs.Prelude.{◌≡◌};
ghost use Rattle.std.specs.List.{list_all};
ghost use Rattle.call_rules.specs.CallRules.{each_two};
ghost use Rattle.call_rules.specs.Callings.{brings_channels, are_passed_other_ends};

use crate::calling::Calling;
use crate::passed::Passed;
use certificate::ChannelRun;
use module_format::{Direction, EndKind, Ends, ParameterKind};
use rulings::channels::{are_disjoint, channel_of, channels_meet, has_direction};

/// Whether a parameter of this kind brings channels.
fn brings_channels(kind: ParameterKind) -> bool
    ensures { result ≡ brings_channels kind }
{
    matches!(kind, ParameterKind::Channels { .. })
}

/// Whether no end is given to both of two parameters.
fn give_other_ends(one: &Passed, other: &Passed) -> bool
    ensures { result ≡ are_passed_other_ends one.now other.now }
{
    let ParameterKind::Channels { count, ends, .. } = one.parameter.kind else {
        return true;
    };
    let ParameterKind::Channels {
        count: more,
        ends: others,
        ..
    } = other.parameter.kind
    else {
        return true;
    };
    match (channel_of(one.fact), channel_of(other.fact)) {
        (Some(first), Some(other)) => {
            are_disjoint(ends, others) || !channels_meet(first, count, other, more)
        }
        _ => true,
    }
}

/// Whether no end is given to a parameter and to one of these others. Only one that brings channels is given ends.
fn gives_other_ends(one: &Passed, others: &[Passed]) -> bool
    ensures { result ≡ list_all (are_passed_other_ends one.now) others.now }
{
    if !brings_channels(one.parameter.kind) {
        return true;
    }
    for other in others {
        if !give_other_ends(one, other) {
            return false;
        }
    }
    true
}

/// Whether no end is given to two parameters, which are passed this.
fn all_give_other_ends(all: &[Passed]) -> bool
    ensures { result ≡ each_two are_passed_other_ends all.now }
{
    let mut rest = all;
    while let Some((first, others)) = rest.split_first() {
        if !gives_other_ends(first, others) {
            return false;
        }
        rest = others;
    }
    true
}

impl Calling<'_, '_, '_, '_> {
    ghost use Rattle.std.specs.Prelude.{◌≡◌, true, map, IfSome};
    ghost use Rattle.module_format.specs.Keeping.{Keeps};
    ghost use Rattle.certificate.specs.Runs.{has_element};
    ghost use Rattle.rulings.specs.Channels.{further, has_end_further, has_length_further};
    ghost use Rattle.call_rules.specs.CallRules.{all_below, holds_ends, ends_are_held, lengths_fit, give_other_ends};
    ghost use Rattle.call_rules.specs.CallRules.{each_two};
    ghost use Rattle.call_rules.specs.Callings.{calling_of, passed_to, IsPassedSo, HasRun, HasAll};

    /// The run of channels from a frame word on of which the caller, a branch, has the ends in a direction.
    fn run_from(&self, first: EndKind, direction: Direction) -> Option<ChannelRun>
        ensures { let context = self.now.state.now.context in
            IfSome result (HasRun self.now.place.module.now context first direction) }
    {
        let EndKind::FrameWord(word) = first else {
            return None;
        };
        self.place
            .module
            .channels_from(self.state.context, word, direction)
    }

    /// Whether a run of a branch has the ends of `count` channels from the first one on.
    fn run_has_ends(&self, first: EndKind, count: u32, direction: Direction) -> bool
        ensures { let has = has_end_further self.now.place.module.now self.now.state.now.context first direction in
            result ≡ true → HasAll count has }
    {
        match self.run_from(first, direction) {
            Some(run) => count <= run.count,
            None => false,
        }
    }

    /// Whether a run of a branch has `count` channels from the first one on, with messages of this length.
    fn run_has_length(&self, first: EndKind, count: u32, direction: Direction, length: u32) -> bool
        ensures { let has = has_length_further self.now.place.module.now self.now.state.now.context first length in
            result ≡ true → HasAll count has }
    {
        match self.run_from(first, direction) {
            Some(run) => count <= run.count && run.length == Some(length),
            None => false,
        }
    }

    /// Whether the caller has the ends of `count` elements of a parameter's channels from this one on.
    fn has_elements(&self, number: i32, element: u32, count: u32, direction: Direction) -> bool
        ensures { let context = self.now.state.now.context in
            result ≡ all_below count (has_element self.now.place.module.now context number element direction) }
    {
        let context = self.state.context;
        let held = self
            .place
            .module
            .elements_from(context, number, element, direction);
        count <= held
    }

    /// Whether the caller has the ends, in a direction, of `count` channels from the first one on. If they are those of
    /// a parameter, or one run of a branch, it takes time logarithmic in the ends; the channels of a call that fits are.
    fn has_ends(&self, first: EndKind, count: u32, direction: Direction) -> bool
        requires { Keeps self.now.place.module.now }
        ensures { let has = has_end_further self.now.place.module.now self.now.state.now.context first direction in
            result ≡ all_below count has }
    {
        if let EndKind::Parameter { number, element } = first {
            return self.has_elements(number, element, count, direction);
        }
        if self.run_has_ends(first, count, direction) {
            return true;
        }
        self.has_each_end(first, count, direction)
    }

    /// The same, end by end: the search ends at the first one that the caller does not have.
    fn has_each_end(&self, first: EndKind, count: u32, direction: Direction) -> bool
        requires { Keeps self.now.place.module.now }
        ensures { let has = has_end_further self.now.place.module.now self.now.state.now.context first direction in
            result ≡ all_below count has }
    {
        for n in 0..count {
            if !self.place.has_end(self.state.context, first, n, direction) {
                return false;
            }
        }
        true
    }

    /// Whether the caller has the ends of `count` channels from the first one on.
    fn holds_ends(&self, first: EndKind, count: u32, ends: Ends) -> bool
        requires { Keeps self.now.place.module.now }
        ensures { let context = self.now.state.now.context in
            result ≡ holds_ends self.now.place.module.now context first count ends.0 }
    {
        (!has_direction(ends, Direction::In) || self.has_ends(first, count, Direction::In))
            && (!has_direction(ends, Direction::Out) || self.has_ends(first, count, Direction::Out))
    }

    /// Whether a parameter that brings channels is passed some whose ends the caller has.
    #[tactic(auto, unfolding(crate::specs::CallRules::ends_are_held))]
    pub fn ends_are_held(&self, passed: &Passed) -> bool
        requires keeps { Keeps self.now.place.module.now }
        requires passed { IsPassedSo (calling_of self.now) passed.now }
        ensures { result ≡ ends_are_held (calling_of self.now) passed.now.parameter }
    {
        let ParameterKind::Channels { count, ends, .. } = passed.parameter.kind else {
            return true;
        };
        match channel_of(passed.fact) {
            Some(first) => self.holds_ends(first, count, ends),
            None => false,
        }
    }

    /// Whether no end is given to two parameters, which are passed this.
    pub fn ends_are_apart(&self, all: &[Passed]) -> bool
        requires { let call = calling_of self.now in all.now ≡ map (passed_to call) call.callee.parameters }
        ensures { let call = calling_of self.now in
            result ≡ each_two (give_other_ends call) call.callee.parameters }
    {
        all_give_other_ends(all)
    }

    /// Whether the channel `n` channels further has messages of this length.
    fn has_length(&self, first: EndKind, n: u32, length: u32) -> bool
        requires { Keeps self.now.place.module.now }
        ensures { let has = has_length_further self.now.place.module.now self.now.state.now.context first length in
            result ≡ has n }
    {
        match self.place.message_length(self.state.context, first, n) {
            Some(found) => found == length,
            None => false,
        }
    }

    /// Whether `count` channels from the first one on have messages of this length. If they are one run of a branch, it
    /// takes time logarithmic in the ends.
    fn have_length(&self, first: EndKind, count: u32, length: u32) -> bool
        requires { Keeps self.now.place.module.now }
        ensures { let has = has_length_further self.now.place.module.now self.now.state.now.context first length in
            result ≡ all_below count has }
    {
        if self.run_has_length(first, count, Direction::In, length) {
            return true;
        }
        if self.run_has_length(first, count, Direction::Out, length) {
            return true;
        }
        self.each_has_length(first, count, length)
    }

    /// The same, channel by channel. Those of one parameter have messages of one length; else the first one that has
    /// another length ends it.
    fn each_has_length(&self, first: EndKind, count: u32, length: u32) -> bool
        requires { Keeps self.now.place.module.now }
        ensures { let has = has_length_further self.now.place.module.now self.now.state.now.context first length in
            result ≡ all_below count has }
    {
        let end = match first {
            EndKind::Parameter { .. } => count.min(1),
            _ => count,
        };
        for n in 0..end {
            if !self.has_length(first, n, length) {
                return false;
            }
        }
        true
    }

    /// Whether the channels that a parameter is passed have messages of the length that it wants.
    #[tactic(auto, unfolding(crate::specs::CallRules::lengths_fit))]
    pub fn lengths_fit(&self, passed: &Passed) -> bool
        requires keeps { Keeps self.now.place.module.now }
        requires passed { IsPassedSo (calling_of self.now) passed.now }
        ensures { result ≡ lengths_fit (calling_of self.now) passed.now.parameter }
    {
        let ParameterKind::Channels { count, length, .. } = passed.parameter.kind else {
            return true;
        };
        match channel_of(passed.fact) {
            Some(first) => self.have_length(first, count, length),
            None => true,
        }
    }
}
