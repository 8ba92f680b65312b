//! Alterations of a file by words.

use crate::words::Words;

/// The bytes of a file from one place up to another: all of them a byte, or together a number.
#[derive(Clone, Copy)]
pub(crate) struct Edit {
    from: i64,
    to: i64,
    value: i64,
    is_number: bool,
}

impl Edit {
    /// `AT:WIDTH=VALUE` or `FROM..TO=BYTE`. The words remember if it is neither.
    pub(crate) fn of(word: &str, words: &mut Words) -> Edit {
        let (range, value) = word.split_once('=').unwrap_or((word, ""));
        let value = words.parsed(value);
        let is_number = range.split_once("..").is_none();
        let split = if is_number { ":" } else { ".." };
        let (from, to) = range.split_once(split).unwrap_or((range, ""));
        let (from, to) = (words.parsed(from), words.parsed(to));
        Edit {
            from,
            to: if is_number {
                from.saturating_add(to)
            } else {
                to
            },
            value,
            is_number,
        }
    }

    /// What the byte at this place is afterwards.
    fn byte(self, place: usize, from: usize) -> u8 {
        let index = if self.is_number {
            place.saturating_sub(from)
        } else {
            0
        };
        self.value.to_le_bytes().get(index).copied().unwrap_or(0)
    }

    /// Alters a file. `false` if it has no such bytes.
    pub(crate) fn apply(self, file: &mut [u8]) -> bool {
        let from = usize::try_from(self.from).unwrap_or(usize::MAX);
        let to = usize::try_from(self.to).unwrap_or(usize::MAX);
        if to > file.len() {
            return false;
        }
        for place in from..to {
            if let Some(byte) = file.get_mut(place) {
                *byte = self.byte(place, from);
            }
        }
        true
    }
}
