//! The instructions of drafts, and their labels.

ghost use Rattle.std.specs.Prelude.{IfSome};
ghost use Rattle.module_builder.specs.Drafts.{IsMade, OfOperand};

use module_builder::{Instructions, Item, Label, Operand};
use module_cases::{Words, function};

/// The label whose number these digits are, unless there is none.
pub(crate) fn label(code: &Instructions, digits: &str, words: &mut Words) -> Option<Label>
    ensures { IfSome result (IsMade code.now) }
{
    let number = usize::try_from(words.parsed(digits)).unwrap_or(usize::MAX);
    let label = code.nth_label(number);
    words.require(label.is_some());
    label
}

/// Makes labels.
pub(crate) fn make_labels(code: &mut Instructions, words: &mut Words) {
    for _ in 0..words.number() {
        words.require(code.label().is_ok());
    }
}

fn place(code: &mut Instructions, digits: &str, words: &mut Words) {
    let Some(label) = label(code, digits, words) else {
        return;
    };
    if code.is_placed(label) {
        words.fail();
    } else {
        code.place(label);
    }
}

fn add_address(code: &mut Instructions, digits: &str, words: &mut Words) {
    let offset = u16::try_from(words.parsed(digits)).ok();
    words.require(offset.is_some());
    let offset = offset.unwrap_or(0);
    words.require(code.push(Item::ConstantAddress { offset }).is_ok());
}

/// `NUMBER`, `>LABEL` for the distance to a label, or `FROM..TO` for the distance from one label to another.
fn operand(code: &Instructions, text: &str, words: &mut Words) -> Option<Operand>
    ensures { IfSome result (OfOperand (IsMade code.now)) }
{
    if let Some(digits) = text.strip_prefix('>') {
        return Some(Operand::DistanceTo(label(code, digits, words)?));
    }
    if let Some((from, to)) = text.split_once("..") {
        let from = label(code, from, words)?;
        let to = label(code, to, words)?;
        return Some(Operand::Between { from, to });
    }
    Some(Operand::Number(words.integer_of(text)))
}

/// `FUNCTION:OPERAND`.
fn add_instruction(code: &mut Instructions, word: &str, words: &mut Words) {
    let (name, text) = word.split_once(':').unwrap_or((word, ""));
    let Some(fun) = function(name) else {
        words.fail();
        return;
    };
    if let Some(operand) = operand(code, text, words) {
        words.require(code.push(Item::Instruction { fun, operand }).is_ok());
    }
}

/// `@LABEL` places a label, `&BYTE` is the address of a byte of the constants, any other word an instruction.
fn add_item(code: &mut Instructions, word: &str, words: &mut Words) {
    if let Some(digits) = word.strip_prefix('@') {
        place(code, digits, words);
    } else if let Some(digits) = word.strip_prefix('&') {
        add_address(code, digits, words);
    } else {
        add_instruction(code, word, words);
    }
}

/// Takes items.
pub(crate) fn add_code(code: &mut Instructions, words: &mut Words) {
    for _ in 0..words.count() {
        let word = words.word();
        add_item(code, word, words);
    }
}
