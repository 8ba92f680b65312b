//! How long the messages on the links of a program are.

ghost use Rattle.std.specs.Prelude.{◌≡◌, map};
ghost use Rattle.occam_parser.specs.BlockViews.{item_of};
ghost use Rattle.occam_parser.specs.LineViews.{formal_of};
ghost use Rattle.program_meaning.specs.Links.{message_length};
ghost use Rattle.compiler.specs.LinkLengths.{length_on, lengths_of, link_lengths};

use occam_parser::{Formal, Item, ValueType};

/// How many bytes a message has.
fn message_length(value_type: ValueType) -> u32
    ensures { result ≡ message_length value_type }
{
    match value_type {
        ValueType::Int => 4,
        ValueType::Byte => 1,
    }
}

/// How many bytes a message on the link of this name has. It is 0 if `main` has no such parameter.
fn length_on(name: &[u8], formals: &[Formal]) -> u32
    ensures { result ≡ length_on name.now (map formal_of formals.now) }
{
    for formal in formals {
        if formal.name == name {
            return message_length(formal.value_type);
        }
    }
    0
}

/// The lengths of the messages on all links: output links 0 to 3 and input links 0 to 3.
fn lengths_of(formals: &[Formal]) -> [u32; 8]
    ensures { result ≡ lengths_of (map formal_of formals.now) }
{
    [
        length_on(b"out0", formals),
        length_on(b"out1", formals),
        length_on(b"out2", formals),
        length_on(b"out3", formals),
        length_on(b"in0", formals),
        length_on(b"in1", formals),
        length_on(b"in2", formals),
        length_on(b"in3", formals),
    ]
}

/// The lengths of the messages on the links of a program, whose last item is `main`: output links 0 to 3 and input
/// links 0 to 3. A link of `INT` has 4, one of `BYTE` has 1, and one that is no parameter of `main` has 0.
pub fn link_lengths(items: &[Item]) -> [u32; 8]
    ensures { result ≡ link_lengths (map item_of items.now) }
{
    match items.last() {
        Some(Item::Proc(main)) => lengths_of(&main.formals),
        Some(Item::Constant(_)) | None => [0; 8],
    }
}
