//! What is known of the names of a line.

use arrayvec::ArrayVec;
use occam_layout::{Token, TokenKind};
use reason_texts::push_bytes;
use scalar_ranges::{Meaning, Scope};
use std::alloc::AllocError;

/// How many names of a line are told at most.
const MOST_NAMES: usize = 8;

/// The names of a line that were told.
type Told<'a> = ArrayVec<&'a [u8], MOST_NAMES>;

/// What is known of a scalar.
#[derive(Clone, Copy)]
enum Known {
    Value(i32),
    Within { lo: i32, hi: i32 },
}

/// What is known of a name, if it is that of a scalar.
fn known_of(scope: &Scope, name: &[u8]) -> Option<Known> {
    match scope.meaning(name) {
        Some(
            Meaning::Constant {
                value: Some(value),
                ..
            },
        ) => Some(Known::Value(value)),
        Some(Meaning::Scalar { range, .. }) => Some(Known::Within {
            lo: range.lo,
            hi: range.hi,
        }),
        _ => None,
    }
}

/// Appends what is known of a scalar.
fn push_values(text: &mut String, known: Known) -> Result<(), AllocError> {
    match known {
        Known::Value(value) => write!(text, " is {value}"),
        Known::Within { lo, hi } => write!(text, " is {lo}..{hi}"),
    }
}

/// Whether a name was told.
fn was_told(told: &[&[u8]], name: &[u8]) -> bool {
    for other in told {
        if *other == name {
            return true;
        }
    }
    false
}

/// Appends a name, apart from the one before it, or from the line.
fn push_name<'a>(text: &mut String, told: &mut Told<'a>, name: &'a [u8]) -> Result<(), AllocError> {
    text.push_str(if told.is_empty() { "  -- " } else { ", " })?;
    push_bytes(text, name)?;
    let _ = told.try_push(name);
    Ok(())
}

/// Appends what is known of a name, its value or its range, unless it was told.
fn push_known<'a>(
    text: &mut String,
    scope: &Scope,
    told: &mut Told<'a>,
    name: &'a [u8],
) -> Result<(), AllocError> {
    if told.is_full() || was_told(told.as_slice(), name) {
        return Ok(());
    }
    match known_of(scope, name) {
        Some(known) => {
            push_name(text, told, name)?;
            push_values(text, known)
        }
        None => Ok(()),
    }
}

/// Appends what is known of the scalars among some tokens, but for one name. At most eight are told.
pub(crate) fn push_all_known(
    text: &mut String,
    scope: &Scope,
    tokens: &[Token<'_>],
    but: Option<&[u8]>,
) -> Result<(), AllocError> {
    let mut told = Told::new();
    for token in tokens {
        if let TokenKind::Name(name) = token.kind {
            if but != Some(name) {
                push_known(text, scope, &mut told, name)?;
            }
        }
    }
    Ok(())
}
