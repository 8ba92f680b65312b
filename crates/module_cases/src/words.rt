//! The words of a line.

/// The words of a line, one after the other; `7*R` is seven times the word `R`. It remembers whether a word was missing
/// or was no number.
#[derive(Clone, Copy)]
pub struct Words<'t> {
    rest: &'t str,
    repeated: &'t str,
    times: u64,
    copy: i64,
    is_wrong: bool,
}

impl<'t> Words<'t> {
    pub fn of(rest: &'t str) -> Self {
        Words::of_copy(rest, 0)
    }

    /// The words of a line that is there several times, of which this is the copy with this number, from 0 on.
    pub fn of_copy(rest: &'t str, copy: i64) -> Self {
        Words {
            rest,
            repeated: "",
            times: 0,
            copy,
            is_wrong: false,
        }
    }

    /// The next word, unless there is none.
    pub fn next(&mut self) -> Option<&'t str> {
        if self.times > 0 {
            self.times -= 1;
            return Some(self.repeated);
        }
        let rest = self.rest.trim_start();
        if rest.is_empty() {
            return None;
        }
        let (word, rest) = rest.split_once(' ').unwrap_or((rest, ""));
        self.rest = rest;
        Some(self.repeat(word))
    }

    /// How many words are left.
    pub fn count(mut self) -> u64 {
        let mut count = 0u64;
        for _ in 0..u64::MAX {
            if self.next().is_none() {
                break;
            }
            count = count.saturating_add(1);
        }
        count
    }

    /// The word that is repeated, if this word says so.
    fn repeat(&mut self, word: &'t str) -> &'t str {
        let Some((times, repeated)) = word.split_once('*') else {
            return word;
        };
        self.times = times.parse::<u64>().unwrap_or(1).saturating_sub(1);
        self.repeated = repeated;
        repeated
    }

    /// The next word; an empty one if there is none.
    pub fn word(&mut self) -> &'t str {
        let next = self.next();
        self.is_wrong |= next.is_none();
        next.unwrap_or("")
    }

    fn plain(&mut self, text: &str) -> i64 {
        let number = text.parse::<i64>().ok();
        self.require(number.is_some());
        number.unwrap_or(0)
    }

    /// A text of this line as a number. `7+2` is 7, and rises by 2 from each copy of the line to the next.
    pub fn parsed(&mut self, text: &str) -> i64 {
        let (first, step) = text.split_once('+').unwrap_or((text, "0"));
        let rise = self.plain(step).wrapping_mul(self.copy);
        self.plain(first).wrapping_add(rise)
    }

    /// The next word as a number that may be negative.
    pub fn signed(&mut self) -> i64 {
        let word = self.word();
        self.parsed(word)
    }

    /// The next word as a number.
    pub fn number(&mut self) -> u32 {
        let number = u32::try_from(self.signed()).ok();
        self.is_wrong |= number.is_none();
        number.unwrap_or(0)
    }

    /// A text of this line as a word of the machine.
    pub fn integer_of(&mut self, text: &str) -> i32 {
        let number = i32::try_from(self.parsed(text)).ok();
        self.is_wrong |= number.is_none();
        number.unwrap_or(0)
    }

    /// The next word as a word of the machine.
    pub fn integer(&mut self) -> i32 {
        let word = self.word();
        self.integer_of(word)
    }

    /// The next word as a number of 16 bits.
    pub fn short(&mut self) -> u16 {
        let number = self.number();
        self.require(number <= u32::from(u16::MAX));
        u16::try_from(number).unwrap_or(0)
    }

    /// The next word as a number of 64 bits, -1 for the greatest.
    pub fn great(&mut self) -> u64 {
        self.signed().cast_unsigned()
    }

    /// The next word as a word of the machine, `-` if it is undefined.
    pub fn value(&mut self) -> Option<i32> {
        let word = self.given()?;
        Some(self.integer_of(word))
    }

    /// The next word, unless it is `-`.
    pub fn given(&mut self) -> Option<&'t str> {
        let word = self.word();
        if word == "-" { None } else { Some(word) }
    }

    /// What follows the words that were taken.
    pub fn rest(&self) -> &'t str {
        self.rest
    }

    /// A word was not what it should be.
    pub fn fail(&mut self) {
        self.is_wrong = true;
    }

    /// A word was what it should be only if this holds.
    pub fn require(&mut self, holds: bool) {
        self.is_wrong |= !holds;
    }

    /// Whether each word that was asked for was there.
    pub fn is_right(&self) -> bool {
        !self.is_wrong
    }

    /// The same, and no word is left.
    pub fn is_read(&mut self) -> bool {
        !self.is_wrong && self.next().is_none()
    }
}

/// A question and the answer that is expected: `QUESTION = ANSWER`.
pub fn question<'t>(rest: &'t str) -> (&'t str, &'t str) {
    rest.split_once(" = ").unwrap_or((rest, ""))
}
