//! An answer as text.

ghost use Rattle.std.specs.Prelude.{◌≡◌, ◌++◌, [], true, false, if◌then◌else◌, codes, encode_utf8};
ghost use Rattle.std.specs.Fmt.{decimal, signed_decimal};
ghost use Rattle.conformance.specs.Answers.{Appends, hexadecimal};

use std::alloc::Global;
use std::fmt::{Debug, Write};
use std::marker::Model;

/// A text that remembers that memory ran out, so that it is asked once at the end.
#[derive(Drop)]
pub struct Answer {
    text: String,
    is_out_of_memory: bool,
}

impl Model for Answer {
    ghost use Rattle.std.specs.Prelude.{string_bytes};
    ghost use Rattle.conformance.specs.Answers.{Written};

    ghost Value = { Written };

    ghost view = { λ a. record { text = string_bytes a.text; is_out_of_memory = a.is_out_of_memory } };
}

impl Answer {
    /// An answer with no text.
    pub fn new(alloc: Global) -> Self
        ensures { result ≡ record { text = []; is_out_of_memory = false } }
    {
        Answer {
            text: String::new(alloc),
            is_out_of_memory: false,
        }
    }

    /// Removes the text.
    pub fn clear(&mut self)
        ensures { self.new ≡ record self.old { text = [] } }
    {
        self.text.clear();
    }

    /// The text.
    pub fn as_str(&self) -> &str
        ensures { result.now ≡ self.now.text }
    {
        self.text.as_str()
    }

    /// Whether memory ran out at some time.
    pub fn is_out_of_memory(&self) -> bool
        ensures { result ≡ self.now.is_out_of_memory }
    {
        self.is_out_of_memory
    }

    /// Remembers that memory ran out.
    pub fn fail(&mut self)
        ensures { self.new ≡ record self.old { is_out_of_memory = true } }
    {
        self.is_out_of_memory = true;
    }

    /// Appends a text.
    pub fn put(&mut self, text: &str)
        ensures { Appends self.old self.new text.now }
    {
        if self.text.push_str(text).is_err() {
            self.is_out_of_memory = true;
        }
    }

    /// Appends a number in decimal, after a `-` if it is negative.
    pub fn number(&mut self, value: i64)
        ensures { Appends self.old self.new (signed_decimal value) }
    {
        if write!(self.text, "{value}").is_err() {
            self.is_out_of_memory = true;
        }
    }

    /// Appends a number in decimal.
    pub fn great(&mut self, value: u64)
        ensures { Appends self.old self.new (decimal value) }
    {
        if write!(self.text, "{value}").is_err() {
            self.is_out_of_memory = true;
        }
    }

    /// Appends `true` or `false`.
    pub fn truth(&mut self, value: bool)
        ensures { Appends self.old self.new (if value then codes "true" else codes "false") }
    {
        self.put(if value { "true" } else { "false" });
    }

    /// Appends `1` or `0`.
    pub fn digit(&mut self, value: bool)
        ensures { Appends self.old self.new (if value then codes "1" else codes "0") }
    {
        self.put(if value { "1" } else { "0" });
    }

    /// Appends a byte as a character.
    pub fn byte(&mut self, byte: u8)
        ensures { Appends self.old self.new (encode_utf8 byte) }
    {
        if self.text.push(char::from(byte)).is_err() {
            self.is_out_of_memory = true;
        }
    }

    /// Appends a byte as two hexadecimal digits.
    #[tactic(auto, using(std::proofs::lemmas::Fmt::hex_byte))]
    pub fn hexadecimal(&mut self, byte: u8)
        ensures { Appends self.old self.new (hexadecimal byte) }
    {
        if write!(self.text, "{byte:02X}").is_err() {
            self.is_out_of_memory = true;
        }
    }

    /// Appends what a value's `Debug` writes.
    pub fn debug(&mut self, value: &impl Debug)
        ensures { self.new.is_out_of_memory ≡ false → self.old.is_out_of_memory ≡ false }
    {
        if write!(self.text, "{value:?}").is_err() {
            self.is_out_of_memory = true;
        }
    }

    /// Appends a number and a place, as faults and refusals are named.
    pub fn fault(&mut self, letter: &str, number: u8, place: u64)
        ensures { Appends self.old self.new (letter.now ++ decimal number ++ codes " " ++ decimal place) }
    {
        self.put(letter);
        self.great(u64::from(number));
        self.put(" ");
        self.great(place);
    }
}
