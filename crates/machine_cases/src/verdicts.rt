//! The verdict on a module.

use crate::accepted::pair_schedules;
use certificate::Module;
use conformance::{Answer, Outcome, judged};
use module_cases::Words;
use std::alloc::Global;
use verifier::{Refusal, verify};

/// What is expected of a verdict: `ok` and the budget, or the lowest rule that is broken at the lowest offset, `V4 12`;
/// after `also`, the other rules that are broken there.
#[derive(Clone, Copy)]
struct Expected<'t> {
    first: &'t str,
    others: &'t str,
}

impl<'t> Expected<'t> {
    fn of(text: &'t str) -> Self {
        let (first, others) = text.split_once(" also ").unwrap_or((text, ""));
        Expected { first, others }
    }

    /// The offset at which it is refused, unless it is accepted.
    fn offset(self) -> Option<u32> {
        let (_rule, offset) = self.first.split_once(' ')?;
        if self.first.starts_with('V') {
            offset.parse::<u32>().ok()
        } else {
            None
        }
    }

    /// Whether this rule is one of the others that are broken at this offset.
    fn lists(self, refusal: Refusal) -> bool {
        self.offset() == Some(refusal.offset) && self.names(refusal.number)
    }

    fn names(self, number: u8) -> bool {
        let mut words = Words::of(self.others);
        for _ in 0..u64::MAX {
            match words.next() {
                Some(word) if is_rule(word, number) => return true,
                Some(_) => {}
                None => break,
            }
        }
        false
    }
}

/// Whether a word is the name of this rule.
fn is_rule(word: &str, number: u8) -> bool {
    match word.strip_prefix('V') {
        Some(digits) => digits.parse::<u8>() == Ok(number),
        None => false,
    }
}

/// The verdict on a module. One that is accepted has to run alike on both machines, whoever runs next.
pub(crate) fn verdict(alloc: Global, module: &Module, text: &str, out: &mut Answer) -> Outcome {
    let expected = Expected::of(text);
    match verify(alloc, module) {
        Ok(verified) => {
            out.put("ok ");
            out.great(verified.module().tables().budget);
            match judged(out, text) {
                Outcome::Held => pair_schedules(alloc, module, &verified),
                outcome => outcome,
            }
        }
        Err(refusal) => {
            out.fault("V", refusal.number, u64::from(refusal.offset));
            match judged(out, expected.first) {
                Outcome::Held => Outcome::Held,
                _ => Outcome::of(expected.lists(refusal)),
            }
        }
    }
}
