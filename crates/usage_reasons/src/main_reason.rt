//! Why the last item of a program is not `main`.

ghost use Rattle.std.specs.Prelude.{◌≡◌, true, false, IfSome, MatchOption, map, option_map};
ghost use Rattle.occam_parser.specs.LineViews.{formal_of};
ghost use Rattle.occam_parser.specs.BlockViews.{item_of};
ghost use Rattle.usage_checks.specs.MainRules.{are_links};
ghost use Rattle.usage_reasons.specs.LastItems.{fault_of_last, IsMainReason};

use crate::declarations::width_of_formal;
use crate::reason::{LastItem, Reason, Tokens, Why};
use crate::tokens::plus_between;
use occam_parser::{Formal, Item};
use std::alloc::Global;
use usage_checks::{is_link_as, is_main_name};

/// The first formal that is no link, by its tokens.
fn no_link(formals: &[Formal]) -> Option<Tokens>
    ensures { MatchOption result (are_links (map formal_of formals.now) ≡ true)
        (λ tokens. are_links (map formal_of formals.now) ≡ false) }
{
    let mut at = 3;
    for formal in formals {
        let len = width_of_formal(formal);
        if !is_link_as(formal.kind, &formal.size, formal.name) {
            return Some(Tokens { at, len });
        }
        at = plus_between(at, len);
    }
    None
}

/// What is wrong with the last item, if there is one, and its tokens that are meant.
fn in_last(last: Option<&Item>) -> Option<(LastItem, Tokens)>
    ensures { option_map (λ f. f.0) result ≡ fault_of_last (option_map (λ i. item_of i.now) last.entry) }
{
    match last {
        None => Some((LastItem::Missing, Tokens { at: 0, len: 0 })),
        Some(Item::Constant(_)) => Some((LastItem::Constant, Tokens { at: 0, len: 1 })),
        Some(Item::Proc(proc)) if is_main_name(proc.name) => {
            let tokens = no_link(&proc.formals)?;
            Some((LastItem::NoLink, tokens))
        }
        Some(Item::Proc(_)) => Some((LastItem::OtherName, Tokens { at: 1, len: 1 })),
    }
}

/// Why the last of some items, which begins on this line, is not `main`.
pub(crate) fn main_reason<'a>(alloc: Global, items: &[Item<'a>], line: u32) -> Option<Reason<'a>>
    ensures { IfSome result (λ r. IsMainReason (map item_of items.now) r.why) }
{
    let (found, tokens) = in_last(items.last())?;
    Some(Reason {
        line,
        tokens,
        why: Why::NoMain(found),
        known: Vec::new(alloc),
    })
}
