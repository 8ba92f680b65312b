//! Runs in which each call fails in turn.

use crate::calls::{CallFailure, Failing};
use crate::course::{Course, course_of};
use conformance::Answer;
use std::alloc::Global;
use verifier::Verified;

/// The first word of a text up to this sign.
fn head(text: &str, sign: char) -> &str {
    match text.split_once(sign) {
        Some((head, _rest)) => head,
        None => text,
    }
}

/// The first word of a text, and what follows it.
fn first_word(text: &str) -> (&str, &str) {
    text.split_once(' ').unwrap_or((text, ""))
}

/// Whether the calls of a run in which the one with this number failed are those of the whole run before that one, and
/// then one call of the same reader or writer, and no more.
fn are_cut(whole: &str, cut: &str, number: u64) -> bool {
    let mut whole = whole;
    let mut cut = cut;
    for _ in 1..number {
        let (expected, rest) = first_word(whole);
        let (found, others) = first_word(cut);
        if found != expected {
            return false;
        }
        whole = rest;
        cut = others;
    }
    let (last, others) = first_word(cut);
    others.is_empty() && head(last, ':') == head(whole, ':')
}

/// The link that a run reports that failed, and `?` after it if calls were made that should not have been.
fn put_cut(out: &mut Answer, whole: &Course, cut: &Course, number: u64) {
    if number > 1 {
        out.put(" ");
    }
    out.put(head(cut.outcome.as_str(), ' '));
    if !are_cut(whole.calls.as_str(), cut.calls.as_str(), number) {
        out.put("?");
    }
    if cut.is_out_of_memory() {
        out.fail();
    }
}

/// Appends the links that are reported as the first call of the run fails, then the second, and so on; `-` if the run
/// makes no call.
pub(crate) fn put_failing(
    alloc: Global,
    verified: &Verified,
    links: &str,
    how: CallFailure,
    out: &mut Answer,
) {
    let whole = course_of(alloc, verified, links, None);
    if whole.is_out_of_memory() {
        out.fail();
    }
    if whole.count == 0 {
        out.put("-");
    }
    for before in 0..whole.count {
        let call = before.saturating_add(1);
        let cut = course_of(alloc, verified, links, Some(Failing { call, how }));
        put_cut(out, &whole, &cut, call);
    }
}
