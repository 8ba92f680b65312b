//! The guards of an alternation, by what they wait for. If a function fails, some pieces more may have come.

ghost use Rattle.std.specs.Prelude.{◌≡◌, ◌+◌, ◌<◌, ◌≤◌, ◌++◌, ◌∷◌, [], IfOk, IfSome, length, drop, option_map};
ghost use Rattle.occam_parser.specs.Views.{expression_of};
ghost use Rattle.occam_parser.specs.LineViews.{guard_of, place_of};
ghost use Rattle.line_pieces.specs.Actions.{channel_code, channel_home};
ghost use Rattle.code_generator.specs.Waiting.{condition_in, waiting_for, source_code, are_alike, place_in};
ghost use Rattle.code_generator.specs.Waiting.{next_in, next_of, ready_in, with_guard, above, either_code};
ghost use Rattle.code_generator.specs.Waiting.{either_ready, ready_code, ready_with, labels_from, exits_of};
ghost use Rattle.code_generator.specs.Waiting.{flag, enabling, disabling, enabling_code, disabling_code};
ghost use Rattle.code_generator.specs.Waiting.{all_enabling};
ghost use Rattle.code_generator.specs.Waiting.{all_disabling, targets_of, waiting_code, choosing_code};
ghost use Rattle.line_pieces.specs.SettingViews.{entries_in, homes_in};

use code_pieces::{Piece, operations};
use line_pieces::{Home, Listing, Setting, label_after, single, word_after};
use module_builder::GenFault;
use occam_parser::{Expr, Guard, Place};
use scalar_ranges::{range_of, value_of};
use std::alloc::{AllocError, Global};

/// How many guards an alternation may have, those under a replicator once for each index.
const GREATEST_GUARDS: usize = 64;

/// What a guard waits for.
#[derive(Clone, Copy)]
pub(crate) enum Source {
    /// Nothing: it is ready at once.
    Skip,
    /// The channel of this word.
    Channel(u32),
    /// A link: 4 to 7 are the links in.
    Link(u8),
}

/// Whether some guards may be chosen.
#[derive(Clone, Copy)]
pub(crate) enum Ready {
    Never,
    Always,
    /// If this word is true.
    If(u32),
}

/// Guards that wait for the same, which is enabled once for all of them.
#[derive(Clone, Copy)]
pub(crate) struct Awaited {
    pub(crate) source: Source,
    /// Whether one of them may be chosen.
    pub(crate) ready: Ready,
    /// The number of the first one.
    pub(crate) first: usize,
}

/// The guards of an alternation.
#[derive(Drop)]
pub(crate) struct Guards {
    /// What each one waits for, in their order.
    sources: Vec<Source>,
    awaited: Vec<Awaited>,
    /// The first word that is free after those that have conditions.
    top: u32,
}

/// The labels of an alternation.
#[derive(Clone, Copy)]
pub(crate) struct Labels {
    /// The end.
    pub(crate) end: usize,
    /// After `altend`, from where the distances to guards are counted.
    pub(crate) chosen: usize,
    /// That of the first guard. Those of the others follow.
    pub(crate) first: usize,
}

/// The labels that a guard knows of.
#[derive(Clone, Copy)]
pub(crate) struct Exits {
    /// Where its code begins.
    pub(crate) here: usize,
    /// That of the next guard that waits for the same.
    pub(crate) next: Option<usize>,
    /// The end of the alternation.
    pub(crate) end: usize,
}

/// The condition of a guard, if it has one.
pub(crate) fn condition_of<'g, 'a>(guard: &'g Guard<'a>) -> Option<&'g Expr<'a>>
    ensures { option_map (λ e. expression_of e.now) result ≡ condition_in (guard_of guard.now) }
{
    match guard {
        Guard::Input { condition, .. } => condition.as_ref(),
        Guard::Skip { condition } => Some(condition),
    }
}

/// What a guard waits for that receives from a channel. The error is [`GenFault::Invalid`] if there is no such channel.
fn channel_source(setting: Setting, channel: &Place) -> Result<Source, GenFault>
    ensures { IfOk result (λ source. source_code source
        ≡ channel_code (channel_home (homes_in setting.entry) (entries_in setting.entry) (place_of channel.now))) }
{
    match (setting.home(channel.name), &channel.subscript) {
        (Some(Home::Link(number)), _) => Ok(Source::Link(*number)),
        (Some(Home::Word(word) | Home::Passed(word)), None) => Ok(Source::Channel(*word)),
        (Some(Home::Word(word) | Home::Passed(word)), Some(subscript)) => {
            match single(range_of(setting.scope, subscript)) {
                Some(number) => Ok(Source::Channel(word_after(*word, number.unsigned_abs()))),
                None => Err(GenFault::Invalid),
            }
        }
        _ => Err(GenFault::Invalid),
    }
}

/// What a guard waits for.
pub(crate) fn source_of(setting: Setting, guard: &Guard) -> Result<Source, GenFault>
    ensures { IfOk result (λ source. source_code source
        ≡ waiting_for (homes_in setting.entry) (entries_in setting.entry) (guard_of guard.now)) }
{
    match guard {
        Guard::Input { channel, .. } => channel_source(setting, channel),
        Guard::Skip { .. } => Ok(Source::Skip),
    }
}

/// Whether two guards wait for the same channel.
fn are_alike(one: Source, other: Source) -> bool
    ensures { result ≡ are_alike one other }
{
    match (one, other) {
        (Source::Channel(word), Source::Channel(other)) => word == other,
        (Source::Link(number), Source::Link(other)) => number == other,
        _ => false,
    }
}

/// The place of those that wait for a channel.
fn place_in(awaited: &[Awaited], source: Source) -> Option<usize>
    ensures found { result ≡ place_in source 0 awaited.now }
    ensures within { IfSome result (λ place. place < length awaited.now) }
{
    for (place, one) in awaited.iter().enumerate() {
        if are_alike(one.source, source) {
            return Some(place);
        }
    }
    None
}

/// The number of the first guard, from one on, that waits for a channel.
fn next_in(sources: &[Source], from: usize, source: Source) -> Option<usize>
    ensures { result ≡ next_in source from (drop from sources.now) }
{
    for number in from..sources.len() {
        if are_alike(sources[number], source) {
            return Some(number);
        }
    }
    None
}

impl Labels {
    /// Those from one on, which are free.
    pub(crate) fn from(label: usize) -> Result<Labels, AllocError>
        ensures { IfOk result (λ labels. labels ≡ labels_from label) }
    {
        let chosen = label_after(label)?;
        let first = label_after(chosen)?;
        Ok(Labels {
            end: label,
            chosen,
            first,
        })
    }

    /// That of the guard with a number.
    pub(crate) fn of(self, number: usize) -> Result<usize, AllocError>
        ensures { IfOk result (λ label. label ≡ self.first + number) }
    {
        self.first.checked_add(number).ok_or(AllocError)
    }

    /// That of a guard with a number, if there is one.
    fn of_any(self, number: Option<usize>) -> Result<Option<usize>, AllocError>
        ensures { IfOk result (λ label. label ≡ option_map (λ n. self.first + n) number) }
    {
        match number {
            Some(number) => Ok(Some(self.of(number)?)),
            None => Ok(None),
        }
    }

    /// Those that the guard with a number knows of.
    pub(crate) fn exits(self, guards: &Guards, number: usize) -> Result<Exits, AllocError>
        ensures { IfOk result (λ exits. exits ≡ exits_of self (next_of number guards.now.sources.items) number) }
    {
        Ok(Exits {
            here: self.of(number)?,
            next: self.of_any(guards.next_of(number)?)?,
            end: self.end,
        })
    }
}

impl Guards {
    /// None yet. The words from `top` on are free.
    pub(crate) fn new(alloc: Global, top: u32) -> Guards
        ensures sources { result.sources.items ≡ [] }
        ensures awaited { result.awaited.items ≡ [] }
        ensures top { result.top ≡ top }
    {
        Guards {
            sources: Vec::new(alloc),
            awaited: Vec::new(alloc),
            top,
        }
    }

    /// The first word that is free.
    pub(crate) fn top(&self) -> u32
        ensures { result ≡ self.now.top }
    {
        self.top
    }

    /// How many there are.
    pub(crate) fn count(&self) -> usize
        ensures { result ≡ length self.now.sources.items }
    {
        self.sources.len()
    }

    /// The number of the next guard that waits for the same as the one with this number.
    fn next_of(&self, number: usize) -> Result<Option<usize>, AllocError>
        ensures { IfOk result (λ next. next ≡ next_of number self.now.sources.items) }
    {
        let after = label_after(number)?;
        match self.sources.get(number) {
            Some(source) => Ok(next_in(&self.sources, after, *source)),
            None => Ok(None),
        }
    }

    /// Whether those may be chosen that wait for a channel.
    pub(crate) fn ready(&self, source: Source) -> Ready
        ensures { result ≡ ready_in (place_in source 0 self.now.awaited.items) self.now.awaited.items }
    {
        match place_in(&self.awaited, source) {
            Some(place) => self.awaited[place].ready,
            None => Ready::Never,
        }
    }

    /// One guard more, and whether it and those that wait for the same may be chosen. The error is
    /// [`GenFault::Limit`] if there are too many.
    pub(crate) fn add(&mut self, source: Source, ready: Ready) -> Result<(), GenFault>
        ensures sources { IfOk result (λ _. self.new.sources.items ≡ self.old.sources.items ++ source ∷ []) }
        ensures awaited { IfOk result (λ _. self.new.awaited.items ≡ with_guard source ready
            (length self.old.sources.items) (place_in source 0 self.old.awaited.items) self.old.awaited.items) }
        ensures top { IfOk result (λ _. self.new.top ≡ above ready self.old.top) }
        ensures few { IfOk result (λ _. length self.new.sources.items ≤ 64) }
    {
        let number = self.sources.len();
        if number >= GREATEST_GUARDS {
            return Err(GenFault::Limit);
        }
        match place_in(&self.awaited, source) {
            Some(place) => self.awaited[place].ready = ready,
            None => self.awaited.push(Awaited {
                source,
                ready,
                first: number,
            })?,
        }
        self.sources.push(source)?;
        self.top = above(ready, self.top);
        Ok(())
    }
}

/// The first word that is free, if this one was, and what is known of guards is kept.
fn above(ready: Ready, top: u32) -> u32
    ensures { result ≡ above ready top }
{
    match ready {
        Ready::Never | Ready::Always => top,
        Ready::If(word) => top.max(word_after(word, 1)),
    }
}

/// Whether guards may be chosen, beside others, if one of them has a condition that is kept in a word that is free.
fn either_ready(others: Ready, word: u32) -> Ready
    ensures { result ≡ either_ready others word }
{
    match others {
        Ready::Never => Ready::If(word),
        Ready::Always | Ready::If(_) => others,
    }
}

/// The condition of a guard, if it has one that is no constant. The result is whether the guard may be chosen, or
/// others that wait for the same.
pub(crate) fn write_ready(
    listing: &mut Listing,
    setting: Setting,
    others: Ready,
    condition: Option<&Expr>,
) -> Result<Ready, AllocError>
    ensures code { IfOk result (λ _. listing.new ≡ listing.old
        ++ ready_code (homes_in setting.entry) (entries_in setting.entry) setting.entry.top others
        (option_map (λ e. expression_of e.now) condition.entry)) }
    ensures ready { IfOk result (λ ready. ready ≡ ready_with (entries_in setting.entry) setting.entry.top others
        (option_map (λ e. expression_of e.now) condition.entry)) }
{
    let Some(condition) = condition else {
        return Ok(Ready::Always);
    };
    match value_of(setting.scope, condition) {
        Some(0) => Ok(others),
        Some(_) => Ok(Ready::Always),
        None => {
            listing.write_expression(setting, condition)?;
            write_either(listing, others, setting.top)?;
            Ok(either_ready(others, setting.top))
        }
    }
}

/// The condition in A is kept in a word that is free, or with others in theirs.
fn write_either(listing: &mut Listing, others: Ready, word: u32) -> Result<(), AllocError>
    ensures { IfOk result (λ _. listing.new ≡ listing.old ++ either_code others word) }
{
    match others {
        Ready::Never => listing.store(word),
        Ready::Always => Ok(()),
        Ready::If(kept) => {
            listing.load(kept)?;
            listing.operate(operations::OR)?;
            listing.store(kept)
        }
    }
}

/// Pushes the address of the channel that guards wait for.
fn write_source(listing: &mut Listing, source: Source) -> Result<(), AllocError>
    ensures { IfOk result (λ _. listing.new ≡ listing.old ++ source_code source) }
{
    match source {
        Source::Skip => Ok(()),
        Source::Channel(word) => listing.point(word),
        Source::Link(number) => listing.write_link(number),
    }
}

/// Pushes whether guards may be chosen.
fn write_flag(listing: &mut Listing, ready: Ready) -> Result<(), AllocError>
    ensures { IfOk result (λ _. listing.new ≡ listing.old ++ flag ready ∷ []) }
{
    match ready {
        Ready::Never => listing.constant(0),
        Ready::Always => listing.constant(1),
        Ready::If(word) => listing.load(word),
    }
}

/// What guards wait for is enabled.
fn write_enabling(listing: &mut Listing, awaited: Awaited) -> Result<(), AllocError>
    ensures { IfOk result (λ _. listing.new ≡ listing.old ++ enabling_code awaited) }
{
    write_source(listing, awaited.source)?;
    write_flag(listing, awaited.ready)?;
    listing.operate(enabling(awaited.source))
}

/// What guards wait for is disabled. If it was ready, the process goes on at the first one of them.
fn write_disabling(
    listing: &mut Listing,
    labels: Labels,
    awaited: Awaited,
) -> Result<(), AllocError>
    ensures { IfOk result (λ _. listing.new ≡ listing.old ++ disabling_code labels awaited) }
{
    write_source(listing, awaited.source)?;
    write_flag(listing, awaited.ready)?;
    listing.push(Piece::Distance {
        from: labels.chosen,
        to: labels.of(awaited.first)?,
    })?;
    listing.operate(disabling(awaited.source))
}

/// All that guards wait for is enabled.
fn write_all_enabling(listing: &mut Listing, awaited: &[Awaited]) -> Result<(), AllocError>
    ensures { IfOk result (λ _. listing.new ≡ listing.old ++ all_enabling awaited.now) }
{
    for one in awaited {
        write_enabling(listing, *one)?;
    }
    Ok(())
}

/// All that guards wait for is disabled.
fn write_all_disabling(
    listing: &mut Listing,
    labels: Labels,
    awaited: &[Awaited],
) -> Result<(), AllocError>
    ensures { IfOk result (λ _. listing.new ≡ listing.old ++ all_disabling labels awaited.now) }
{
    for one in awaited {
        write_disabling(listing, labels, *one)?;
    }
    Ok(())
}

/// Waits for guards, and goes on at one that is ready.
fn write_waiting(
    listing: &mut Listing,
    alloc: Global,
    labels: Labels,
    awaited: &[Awaited],
) -> Result<(), AllocError>
    ensures { IfOk result (λ _. listing.new ≡ listing.old ++ waiting_code labels awaited.now) }
{
    listing.operate(operations::ALTERNATE)?;
    write_all_enabling(listing, awaited)?;
    listing.operate(operations::ALTERNATION_WAIT)?;
    write_all_disabling(listing, labels, awaited)?;
    let targets = targets_of(alloc, labels, awaited)?;
    listing.push(Piece::Select { targets })
}

/// Waits for guards, and goes on at one that is ready. If there is none the process stops.
pub(crate) fn write_choosing(
    listing: &mut Listing,
    alloc: Global,
    labels: Labels,
    guards: &Guards,
) -> Result<(), AllocError>
    ensures { IfOk result (λ _. listing.new ≡ listing.old ++ choosing_code labels guards.now.awaited.items) }
{
    if guards.awaited.is_empty() {
        listing.operate(operations::STOP_PROCESS)?;
    } else {
        write_waiting(listing, alloc, labels, &guards.awaited)?;
    }
    listing.push(Piece::Place {
        label: labels.chosen,
    })
}

/// The operation that enables what guards wait for.
fn enabling(source: Source) -> i32
    ensures { result ≡ enabling source }
{
    match source {
        Source::Skip => operations::ENABLE_SKIP,
        Source::Channel(_) | Source::Link(_) => operations::ENABLE_CHANNEL,
    }
}

/// The operation that disables what guards wait for.
fn disabling(source: Source) -> i32
    ensures { result ≡ disabling source }
{
    match source {
        Source::Skip => operations::DISABLE_SKIP,
        Source::Channel(_) | Source::Link(_) => operations::DISABLE_CHANNEL,
    }
}

/// The labels at which the process may go on.
fn targets_of(alloc: Global, labels: Labels, awaited: &[Awaited]) -> Result<Vec<usize>, AllocError>
    ensures { IfOk result (λ targets. targets.items ≡ targets_of labels awaited.now) }
{
    let mut targets = Vec::new(alloc);
    for one in awaited {
        targets.push(labels.of(one.first)?)?;
    }
    Ok(targets)
}
