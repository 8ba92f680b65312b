//! Events and effects as words.

use crate::words::Words;
use conformance::Outcome;
use machine_state::{Effect, Event, Link};
use std::alloc::Global;

/// How many events a repeated run has.
const EVENTS: u32 = 1000;

/// The four links by their numbers.
pub const LINKS: [Link; 4] = [Link::Zero, Link::One, Link::Two, Link::Three];

fn link(word: &str) -> Option<Link> {
    match word {
        "0" => Some(Link::Zero),
        "1" => Some(Link::One),
        "2" => Some(Link::Two),
        "3" => Some(Link::Three),
        _ => None,
    }
}

/// `sSLICE,PICK` is a Step, `aLINK,BYTE` an arrival, and `kLINK` an acknowledgement.
pub fn event(word: &str) -> Option<Event> {
    let (kind, rest) = word.split_at_checked(1)?;
    let (first, second) = rest.split_once(',').unwrap_or((rest, ""));
    match kind {
        "s" => step(first, second),
        "a" => arrival(link(first), second),
        "k" => acknowledgement(link(first)),
        _ => None,
    }
}

fn step(slice: &str, pick: &str) -> Option<Event> {
    let pick = pick.parse::<u64>().ok()?;
    Some(Event::Step {
        slice: slice == "1",
        pick,
    })
}

fn arrival(link: Option<Link>, digits: &str) -> Option<Event> {
    let byte = u8::from_str_radix(digits, 16).ok()?;
    Some(Event::Arrive { link: link?, byte })
}

fn acknowledgement(link: Option<Link>) -> Option<Event> {
    Some(Event::Acknowledge { link: link? })
}

/// The letter of an effect.
pub fn letter(effect: Effect) -> &'static str {
    match effect {
        Effect::Ran => "R",
        Effect::Idle => "I",
        Effect::Emitted { .. } => "E",
        Effect::Taken => "T",
        Effect::Kept => "K",
        Effect::Busy => "B",
        Effect::Acknowledged => "A",
        Effect::Ignored => "G",
    }
}

/// Whether a word names this effect. A message is `ELINK,BYTES`.
pub fn names_effect(word: &str, effect: Effect) -> bool {
    match effect {
        Effect::Emitted { link, bytes } => names_message(word, link, bytes),
        other => word == letter(other),
    }
}

fn names_message(word: &str, sent: Link, bytes: &[u8]) -> bool {
    let (head, digits) = word.split_once(',').unwrap_or((word, ""));
    match head.strip_prefix('E') {
        Some(number) => link(number) == Some(sent) && spells(digits, bytes),
        None => false,
    }
}

/// Whether hexadecimal digits spell these bytes.
fn spells(digits: &str, bytes: &[u8]) -> bool {
    let mut rest = digits;
    for byte in bytes {
        match rest.split_at_checked(2) {
            Some((pair, others)) if u8::from_str_radix(pair, 16) == Ok(*byte) => rest = others,
            _ => return false,
        }
    }
    rest.is_empty()
}

/// The next event of a text, which begins again after its last one. `None` if there is none or it cannot be read.
fn next_event<'t>(words: &mut Words<'t>, text: &'t str) -> Option<Event> {
    if let Some(word) = words.next() {
        return event(word);
    }
    *words = Words::of(text);
    event(words.next()?)
}

/// The events of a text, again and again.
pub fn repeated(alloc: Global, text: &str) -> Result<Vec<Event>, Outcome> {
    let mut events = Vec::new(alloc);
    let mut words = Words::of(text);
    for _ in 0..EVENTS {
        let Some(event) = next_event(&mut words, text) else {
            return Err(Outcome::Unreadable);
        };
        if events.push(event).is_err() {
            return Err(Outcome::OutOfMemory);
        }
    }
    Ok(events)
}
