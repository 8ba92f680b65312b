//! What a process holds.

use crate::tests::text::Found;
use machine_state::{DATA_START, End, Holding, Join, Role, Span};
use module_format::Direction;
use std::alloc::{AllocError, Global};

/// The places from 4 up to an end may be written, and the output end of the link 1 used.
fn fill(holding: &mut Holding, end: u32) -> Result<(), AllocError> {
    holding.writes.push(Span { start: 4, end })?;
    holding.ends.push(End {
        address: 0x8000_0004,
        direction: Direction::Out,
    })?;
    Ok(())
}

fn holding(alloc: Global, end: u32) -> Result<Holding, AllocError> {
    let mut holding = Holding {
        writes: Vec::new(alloc),
        reads: Vec::new(alloc),
        ends: Vec::new(alloc),
    };
    fill(&mut holding, end)?;
    Ok(holding)
}

/// A join whose branches have not been given the places from 4 up to 8.
fn join(alloc: Global) -> Result<Join, AllocError> {
    let rest = holding(alloc, 8)?;
    Ok(Join {
        row: 0,
        block: DATA_START,
        base: DATA_START,
        parameters: Vec::new(alloc),
        started: 1,
        rest,
        members: Vec::new(alloc),
    })
}

/// Which of the ends are held.
pub fn put_ends(holding: &Holding, ends: &[(u32, Direction)], found: &mut Found) {
    found.begin_line();
    for (address, direction) in ends {
        found.put(holding.has_end(End {
            address: *address,
            direction: *direction,
        }));
    }
}

/// Whether the words at 8 and at 4 may be written and the word at 4 read, the word at 9 written, and the byte at 3.
fn put_held(role: &Role, found: &mut Found) {
    let held = role.held();
    found.begin_line();
    found.put(held.may_write_word(8));
    found.put(held.may_write_word(4));
    found.put(held.may_read_word(4));
    found.put(held.may_write_word(9));
    found.put(held.may_write(3));
}

/// Ends with the address and direction of the one that is held, or not.
const ENDS: &[(u32, Direction)] = &[
    (0x8000_0004, Direction::Out),
    (0x8000_0004, Direction::In),
    (0x8000_0000, Direction::Out),
];

/// A role, of which the ends are asked too.
fn put_role(role: &Role, found: &mut Found) {
    put_ends(role.held(), ENDS, found);
    put_held(role, found);
}

/// A process with this join open, or with none.
fn put_holder(alloc: Global, opened: Option<Join>, found: &mut Found) {
    match holding(alloc, 12) {
        Ok(own) => put_role(
            &Role {
                own,
                opener: None,
                opened,
            },
            found,
        ),
        Err(_) => found.fail(),
    }
}

fn put_roles(alloc: Global, found: &mut Found) {
    put_holder(alloc, None, found);
    match join(alloc) {
        Ok(join) => put_holder(alloc, Some(join), found),
        Err(_) => found.fail(),
    }
}

/// An end by its address and direction, and what is held, with no join open and with one.
const ROLES: &str = "
 true false false
 true true true false false
 true false false
 false true true false false";

#[test]
fn a_process_holds_its_own_then_the_rest(rt: HostRuntime) {
    let mut found = Found::new(rt.alloc());
    put_roles(rt.alloc(), &mut found);
    found.check(&rt, ROLES);
}
