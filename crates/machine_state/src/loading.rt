//! What a module looks like when it is loaded.

ghost use Rattle.std.specs.Prelude.{◌≡◌, ◌+◌, ◌*◌, ◌<◌, ◌^◌, ◌++◌, true, false, length, replicate, vec_len, IfOk};
ghost use Rattle.module_format.specs.Contents.{contents_of};
ghost use Rattle.machine_state.specs.World.{IsLoadable, padding, link_ends_from, root_holding, root_role};
ghost use Rattle.machine_state.specs.Views.{holding_view, role_view};

use crate::address::LINK_WORDS;
use crate::holding::{End, Holding, Span};
use crate::role::Role;
use module_format::{Direction, Tables};
use std::alloc::{AllocError, Global};

/// How many bytes lie between the code and the constants, which begin at a word.
pub(crate) fn padding(code_length: usize) -> usize
    ensures value { result ≡ padding code_length }
    ensures bound { result < 4 }
{
    (4 - code_length % 4) % 4
}

/// The memory that a module begins with, as bytes: `data_words` words, the code, what lies between it and the next
/// word, and the constants; 0 where the module says nothing. The only error is that memory ran out.
pub fn loaded_bytes(alloc: Global, tables: &Tables) -> Result<Vec<u8>, AllocError>
    requires { IsLoadable (contents_of tables.now) }
    ensures { let t = tables.now in
        let gap = replicate (padding (length t.code.now)) 0 in
        IfOk result (λ v. v.items ≡ replicate (4 * t.data_words) 0 ++ t.code.now ++ gap ++ t.constants.now) }
{
    let data_end = 4 * tables.data_words as usize;
    let constants_start = data_end + tables.code.len() + padding(tables.code.len());
    let mut bytes = Vec::with_capacity(alloc, constants_start + tables.constants.len())?;
    bytes.resize(data_end, 0)?;
    bytes.extend_from_slice(tables.code)?;
    bytes.resize(constants_start, 0)?;
    bytes.extend_from_slice(tables.constants)?;
    Ok(bytes)
}

/// Which of them are defined: the code and the constants.
pub(crate) fn loaded_tags(alloc: Global, tables: &Tables) -> Result<Vec<bool>, AllocError>
    requires { IsLoadable (contents_of tables.now) }
    ensures { let t = tables.now in
        let before = replicate (4 * t.data_words) false ++ replicate (length t.code.now) true in
        let gap = replicate (padding (length t.code.now)) false in
        IfOk result (λ v. v.items ≡ before ++ gap ++ replicate (length t.constants.now) true) }
{
    let data_end = 4 * tables.data_words as usize;
    let code_end = data_end + tables.code.len();
    let constants_start = code_end + padding(tables.code.len());
    let end = constants_start + tables.constants.len();
    let mut tags = Vec::with_capacity(alloc, end)?;
    tags.resize(data_end, false)?;
    tags.resize(code_end, true)?;
    tags.resize(constants_start, false)?;
    tags.resize(end, true)?;
    Ok(tags)
}

/// The ends of the links that have a message length.
fn link_ends(alloc: Global, lengths: &[u32; 8]) -> Result<Vec<End>, AllocError>
    ensures { IfOk result (λ ends. ends.items ≡ link_ends_from 0 lengths.now) }
{
    let mut ends = Vec::new(alloc);
    for (k, length) in lengths.iter().enumerate() {
        if *length != 0 {
            let direction = if k < 4 { Direction::Out } else { Direction::In };
            ends.push(End {
                address: LINK_WORDS + 4 * k as u32,
                direction,
            })?;
        }
    }
    Ok(ends)
}

/// What the root holds: the data area to write, the constants to read, and the ends of the links.
fn root_holding(alloc: Global, tables: &Tables) -> Result<Holding, AllocError>
    requires { IsLoadable (contents_of tables.now) }
    ensures { IfOk result (λ h. holding_view h ≡ root_holding (contents_of tables.now)) }
{
    let written = Span {
        start: 0,
        end: 4 * tables.data_words,
    };
    let code_length = tables.code.len();
    let start = written.end + (code_length + padding(code_length)) as u32;
    let end = start + tables.constants.len() as u32;
    let read = Span { start, end };
    Ok(Holding {
        writes: vec![in alloc; written]?,
        reads: vec![in alloc; read]?,
        ends: link_ends(alloc, &tables.lengths)?,
    })
}

/// The root's role: it is in no join.
pub(crate) fn root_role(alloc: Global, tables: &Tables) -> Result<Role, AllocError>
    requires { IsLoadable (contents_of tables.now) }
    ensures { IfOk result (λ r. role_view r ≡ root_role (contents_of tables.now)) }
{
    Ok(Role {
        own: root_holding(alloc, tables)?,
        opener: None,
        opened: None,
    })
}
