//! The words of a command line.

use std::alloc::Global;

/// The words of a line, between spaces; what is between single quotes is one word.
pub(crate) fn words_of(alloc: Global, line: &str) -> Option<Vec<&str>> {
    let mut words = Vec::new(alloc);
    let mut rest = line;
    for _ in 0..u64::MAX {
        if rest.is_empty() {
            return Some(words);
        }
        let (word, others) = match rest.strip_prefix('\'') {
            Some(quoted) => quoted.split_once('\'')?,
            None => rest.split_once(' ').unwrap_or((rest, "")),
        };
        words.push(word).ok()?;
        rest = others.strip_prefix(' ').unwrap_or(others);
    }
    None
}

/// Two numbers `FROM..TO` of which the last is left out, or one number: the first and the last.
pub(crate) fn span(text: &str) -> Option<(usize, usize)> {
    match text.split_once("..") {
        Some((first, end)) => {
            let end = end.parse::<usize>().ok()?;
            Some((first.parse::<usize>().ok()?, end.checked_sub(1)?))
        }
        None => {
            let only = text.parse::<usize>().ok()?;
            Some((only, only))
        }
    }
}
