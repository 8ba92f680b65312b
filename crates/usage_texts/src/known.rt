//! What is known of a name, in a line.

ghost use Rattle.std.specs.Prelude.{◌≡◌, ◌++◌, OnOk, string_bytes};
ghost use Rattle.std.specs.List.{flat_map};
ghost use Rattle.usage_texts.specs.KnownTexts.{bare_text, known_text, valued_text};
ghost use Rattle.usage_texts.specs.Phrases.{phrase_text};
ghost use Rattle.usage_texts.specs.Texts.{shown_text};
ghost use Rattle.usage_texts.specs.Words.{shape_text};

use crate::phrases::{Phrase, push_phrases, range_phrase};
use scalar_ranges::Meaning;
use std::alloc::AllocError;
use usage_reasons::KnownName;

/// Appends a name with its value or its range.
fn push_valued<'k>(
    text: &mut String,
    known: KnownName<'k>,
    value: Phrase<'k>,
) -> Result<(), AllocError>
    ensures { OnOk result (string_bytes text.new ≡ string_bytes text.old
        ++ valued_text (shown_text known.entry.name.now) (phrase_text value.entry) (shape_text known.entry.meaning)
        known.entry.line) }
{
    push_phrases!(text, "  " (Phrase::Shown(known.name)) " is " value " (" (Phrase::Shape(known.meaning))
        ", line " (Phrase::Count(known.line)) ")\n")
}

/// Appends a name of which no value and no range is known.
fn push_bare(text: &mut String, known: KnownName<'_>) -> Result<(), AllocError>
    ensures { OnOk result (string_bytes text.new ≡ string_bytes text.old
        ++ bare_text (shown_text known.entry.name.now) (shape_text known.entry.meaning) known.entry.line) }
{
    push_phrases!(text, "  " (Phrase::Shown(known.name)) " is " (Phrase::Shape(known.meaning)) " (line "
        (Phrase::Count(known.line)) ")\n")
}

/// Appends what a name denotes, the range or the value that is known of it, and the line that declares it.
pub(crate) fn push_known_name(text: &mut String, known: KnownName<'_>) -> Result<(), AllocError>
    ensures { OnOk result (string_bytes text.new ≡ string_bytes text.old ++ known_text known.entry) }
{
    match known.meaning {
        Meaning::Constant {
            value: Some(value),
            ..
        } => push_valued(text, known, Phrase::Number(i64::from(value))),
        Meaning::Scalar { range, .. } => push_valued(text, known, range_phrase(range)),
        _ => push_bare(text, known),
    }
}

/// Appends what is known of names.
pub(crate) fn push_known(text: &mut String, names: &[KnownName<'_>]) -> Result<(), AllocError>
    ensures { OnOk result (string_bytes text.new ≡ string_bytes text.old ++ flat_map known_text names.now) }
{
    for known in names {
        push_known_name(text, *known)?;
    }
    Ok(())
}
