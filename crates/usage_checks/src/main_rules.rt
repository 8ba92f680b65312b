//! The rule of the last item: it is the procedure `main`, whose formals are links.

ghost use Rattle.std.specs.Prelude.{◌≡◌, map, option_map};
ghost use Rattle.occam_parser.specs.LineViews.{formal_of};
ghost use Rattle.occam_parser.specs.BlockViews.{item_of};
ghost use Rattle.occam_parser.specs.LineViews.{any_of};
ghost use Rattle.usage_checks.specs.MainRules.{is_link_as, are_links, is_main_name, is_main, IsNoMain, BreaksMain};
ghost use Rattle.program_uses.specs.Telling.{IsFirst};

use occam_parser::{Expr, Formal, FormalKind, Item};
use program_uses::{NO_MAIN, UsageFault, fault_at, link_way, told_unless};

/// Whether a formal is a link of `main`: a channel that is no array, and has the name of a link.
pub fn is_link_as(kind: FormalKind, size: &Option<Expr>, name: &[u8]) -> bool
    ensures { result ≡ is_link_as kind (any_of size.now) name.now }
{
    match (kind, size) {
        (FormalKind::Channel, None) => link_way(name).is_some(),
        _ => false,
    }
}

/// Whether formals are links of `main`.
fn are_links(formals: &[Formal]) -> bool
    ensures { result ≡ are_links (map formal_of formals.now) }
{
    for formal in formals {
        if !is_link_as(formal.kind, &formal.size, formal.name) {
            return false;
        }
    }
    true
}

/// Whether a procedure of this name may be `main`.
pub fn is_main_name(name: &[u8]) -> bool
    ensures { result ≡ is_main_name name.now }
{
    match name {
        [a, b, c, d] => *a == b'm' && *b == b'a' && *c == b'i' && *d == b'n',
        _ => false,
    }
}

/// Whether an item is `main`.
fn is_main(item: &Item) -> bool
    ensures { result ≡ is_main (item_of item.now) }
{
    match item {
        Item::Constant(_) => false,
        Item::Proc(proc) => is_main_name(proc.name) && are_links(&proc.formals),
    }
}

/// The fault of a last item that is not `main`, or of none.
fn no_main(item: Option<&Item>) -> Option<UsageFault>
    ensures { IsFirst (IsNoMain (option_map (λ i. item_of i.now) item.entry)) result }
{
    match item {
        None => fault_at(0, Some(NO_MAIN)),
        Some(item) => fault_at(item.line(), told_unless(is_main(item), NO_MAIN)),
    }
}

/// The fault of a program whose last item is not `main`.
pub(crate) fn fault_of_main(items: &[Item]) -> Option<UsageFault>
    ensures { IsFirst (BreaksMain (map item_of items.now)) result }
{
    no_main(items.last())
}
