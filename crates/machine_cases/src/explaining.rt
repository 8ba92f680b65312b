//! The answer of the explanation of a module's verdict.

use certificate::Module;
use conformance::{Answer, Outcome, judged};
use explanations::explanation;
use std::alloc::Global;

/// The last line of a text, without its line feed.
fn last_line(text: &str) -> &str {
    let lines = text.strip_suffix('\n').unwrap_or(text);
    match lines.rsplit_once('\n') {
        Some((_others, last)) => last,
        None => lines,
    }
}

/// The last line of the explanation: the sentence of the refusal, or that the module is accepted.
pub(crate) fn sentence<'a>(
    alloc: Global,
    module: &'a Module<'a>,
    expected: &str,
    out: &mut Answer,
) -> Outcome {
    match explanation(alloc, module) {
        Ok(explained) => {
            out.put(last_line(explained.text.as_str()));
            judged(out, expected)
        }
        Err(_) => Outcome::OutOfMemory,
    }
}
