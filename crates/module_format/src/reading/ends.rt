//! Channel ends that a branch is given.
#![tactic(auto, unfolding(crate::proofs::Opening::reading_ends))]

ghost use Rattle.std.specs.Prelude.{◌≡◌, true};
ghost use Rattle.module_format.specs.ReadingPars.{end_kind_at, is_number_of, end_number_at, end_element_at};
ghost use Rattle.module_format.specs.ReadingPars.{end_direction_at, end_kind, direction_of};
ghost use Rattle.module_format.specs.Taking.{Takes};

use crate::fault::FormatFaultKind;
use crate::reading::cursor::Cursor;
use crate::rows::{Direction, EndKey, EndKind};
use crate::tags::{DIRECTION_IN, DIRECTION_OUT, END_FRAME_WORD, END_LINK, END_PARAMETER};

/// A kind of end, which is not below that of the end before.
pub(crate) fn read_end_kind(before: EndKey, from: &mut Cursor<'_>) -> u8
    ensures { Takes (λ size. end_kind_at size before) from.old result from.new }
{
    let at = from.place();
    let kind = from.u8();
    from.check(at, kind <= END_LINK, FormatFaultKind::Range);
    from.check(at, before.kind <= kind, FormatFaultKind::Order);
    kind
}

/// Whether an end of this kind can have this number: a link has one from 0 to 7.
fn is_number_of(kind: u8, number: i32) -> bool
    ensures { result ≡ is_number_of kind number }
{
    kind < END_LINK || (0 <= number && number < 8)
}

/// The number of an end of this kind.
pub(crate) fn read_end_number(before: EndKey, kind: u8, from: &mut Cursor<'_>) -> i32
    ensures takes { Takes (λ size. end_number_at size before kind) from.old result from.new }
    ensures number { is_number_of kind result ≡ true }
{
    let at = from.place();
    let number = from.i32();
    if !is_number_of(kind, number) {
        from.fail(at, FormatFaultKind::Range);
        return 0;
    }
    if kind == before.kind {
        from.check(at, before.number <= number, FormatFaultKind::Order);
    }
    number
}

/// The element of an end: only a parameter's has one.
pub(crate) fn read_end_element(before: EndKey, kind: u8, number: i32, from: &mut Cursor<'_>) -> u32
    ensures { Takes (λ size. end_element_at size before kind number) from.old result from.new }
{
    let at = from.place();
    let element = from.u32();
    from.check(
        at,
        kind == END_PARAMETER || element == 0,
        FormatFaultKind::Range,
    );
    let is_same = kind == before.kind && number == before.number;
    if is_same {
        from.check(at, before.element <= element, FormatFaultKind::Order);
    }
    element
}

/// The direction of an end, after its other fields.
pub(crate) fn read_end_direction(
    before: EndKey,
    kind: u8,
    number: i32,
    element: u32,
    from: &mut Cursor<'_>,
) -> u8
    ensures { Takes (λ size. end_direction_at size before kind number element) from.old result from.new }
{
    let at = from.place();
    let direction = from.u8();
    from.check(
        at,
        direction == DIRECTION_IN || direction == DIRECTION_OUT,
        FormatFaultKind::Range,
    );
    let is_same = kind == before.kind && number == before.number && element == before.element;
    if is_same {
        from.check(at, before.direction < direction, FormatFaultKind::Order);
    }
    direction
}

/// What the fields of an end name.
pub(crate) fn end_kind(kind: u8, number: i32, element: u32) -> EndKind
    requires { is_number_of kind number ≡ true }
    ensures { result ≡ end_kind kind number element }
{
    match kind {
        END_FRAME_WORD => EndKind::FrameWord(number),
        END_PARAMETER => EndKind::Parameter { number, element },
        _ => EndKind::Link(number as u8),
    }
}

pub(crate) fn direction_of(direction: u8) -> Direction
    ensures { result ≡ direction_of direction }
{
    if direction == DIRECTION_IN {
        Direction::In
    } else {
        Direction::Out
    }
}
