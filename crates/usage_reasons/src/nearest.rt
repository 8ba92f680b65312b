//! Names that are spelled nearly alike.

ghost use Rattle.std.specs.Prelude.{◌≤◌, length};

use scalar_ranges::Scope;

/// How many bytes are the same in two names, from the first ones on.
fn common_front(first: &[u8], second: &[u8]) -> usize
    ensures in_first { result ≤ length first.now }
    ensures in_second { result ≤ length second.now }
{
    let len = first.len().min(second.len());
    for at in 0..len {
        if first[at] != second[at] {
            return at;
        }
    }
    len
}

/// Whether two names are the same but for their first two bytes, which have changed places.
fn is_swapped(first: &[u8], second: &[u8]) -> bool {
    match (first.split_at_checked(2), second.split_at_checked(2)) {
        (Some((pair, rest)), Some((other, other_rest))) => {
            pair[0] == other[1] && pair[1] == other[0] && rest == other_rest
        }
        _ => false,
    }
}

/// The bytes behind the first one, if there are any.
fn behind_first(bytes: &[u8]) -> &[u8] {
    match bytes.split_first() {
        Some((_, rest)) => rest,
        None => bytes,
    }
}

/// Whether a name is another one with one byte changed, left out or put in, or with two neighbours that have changed
/// places.
fn is_near(first: &[u8], second: &[u8]) -> bool {
    let front = common_front(first, second);
    let (rest, other) = (&first[front..], &second[front..]);
    let (after, other_after) = (behind_first(rest), behind_first(other));
    after == other_after || after == other || rest == other_after || is_swapped(rest, other)
}

/// The innermost name in scope that is spelled nearly as this one, which has more than one byte.
pub(crate) fn nearest<'a>(scope: &Scope<'a>, name: &[u8]) -> Option<&'a [u8]> {
    let mut found = None;
    for number in 0..scope.len() {
        if let Some(entry) = scope.entry(number) {
            if is_near(entry.name, name) && name.len() > 1 {
                found = Some(entry.name);
            }
        }
    }
    found
}
