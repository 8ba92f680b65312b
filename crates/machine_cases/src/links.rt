//! What a case gives to the links: words as `in0=4142`, `in1=`, `out0=all` and `out1=1`.

use std::alloc::Global;

/// What the link of this name is given, if it is given something.
pub(crate) fn given<'t>(links: &'t str, name: &str) -> Option<&'t str> {
    let mut rest = links;
    for _ in 0..u64::MAX {
        let (word, others) = rest.split_once(' ').unwrap_or((rest, ""));
        match word.split_once('=') {
            Some((link, value)) if link == name => return Some(value),
            _ => {}
        }
        if others.is_empty() {
            return None;
        }
        rest = others;
    }
    None
}

/// Whether a word names an input link and an even number of hexadecimal digits, or an output link and how many bytes a
/// call its writer takes.
fn is_link(alloc: Global, word: &str) -> bool {
    match word.split_once('=') {
        Some(("in0" | "in1" | "in2" | "in3", digits)) => hex::decode(alloc, digits).is_ok(),
        Some(("out0" | "out1" | "out2" | "out3", most)) => {
            most == "all" || most.parse::<usize>().is_ok()
        }
        _ => false,
    }
}

/// Whether each word gives something to a link.
pub(crate) fn are_links(alloc: Global, links: &str) -> bool {
    let mut rest = links;
    for _ in 0..u64::MAX {
        if rest.is_empty() {
            return true;
        }
        let (word, others) = rest.split_once(' ').unwrap_or((rest, ""));
        if !is_link(alloc, word) {
            return false;
        }
        rest = others;
    }
    false
}
