//! Memory with tags.

ghost use Rattle.std.specs.Prelude.{◌≡◌, length};

use crate::tests::roles::put_ends;
use crate::tests::text::Found;
use machine_state::{
    DATA_START, LoadStore, Store, TaggedStore, Task, Word, local_address, place_of,
};
use module_format::{Direction, Tables, Version};
use std::alloc::{AllocError, Global};

/// A module of five data words, of which the root's workspace is word 3, with messages on the links 0 out and 3 in.
fn tables(alloc: Global) -> Tables<'static>
    ensures words { result.data_words ≡ 5 }
    ensures base { result.base ≡ 3 }
    ensures code { length result.code.now ≡ 5 }
    ensures constants { length result.constants.now ≡ 5 }
{
    Tables {
        version: Version::One,
        code: b"\x45\xd1\x71\x21\xf5",
        constants: &[1, 2, 3, 0x84, 5],
        data_words: 5,
        base: 3,
        budget: 0,
        finish: 0,
        lengths: [4, 0, 0, 0, 0, 0, 0, 8],
        has_long_operations: false,
        procedures: Vec::new(alloc),
        labels: Vec::new(alloc),
        pars: Vec::new(alloc),
        table_rows: Vec::new(alloc),
    }
}

/// Twenty undefined bytes, five of code, three of padding, and the constants at place 28; and the root.
pub fn loaded(alloc: Global) -> Result<(TaggedStore, Task), AllocError> {
    let tables = tables(alloc);
    Ok((TaggedStore::load(alloc, &tables)?, Task::root(&tables)))
}

/// The address of a place.
fn at(place: u32) -> u32 {
    DATA_START.wrapping_add(place)
}

/// The word, where it may be read.
fn word(store: &TaggedStore, place: u32) -> Option<Word> {
    let address = at(place);
    if !store.can_load_word(address) {
        return None;
    }
    Some(store.load_word(address))
}

/// The byte, where it may be read.
fn byte(store: &TaggedStore, place: u32) -> Option<Option<u8>> {
    let address = at(place);
    if !store.can_load_byte(address) {
        return None;
    }
    Some(store.load_byte(address))
}

/// Writes the word, where it may be written.
fn set_word(store: &mut TaggedStore, place: u32, word: Word) {
    let address = at(place);
    if store.can_store_word(address) {
        store.store_word(address, word);
    }
}

/// Writes the byte, where it may be written.
fn set_byte(store: &mut TaggedStore, place: u32, byte: Option<u8>) {
    let address = at(place);
    if store.can_store_byte(address) {
        store.store_byte(address, byte);
    }
}

/// Places, and whether the root may read and write the byte, and read and write the word.
fn put_touches(store: &TaggedStore, found: &mut Found) {
    for place in &[0, 16, 17, 19, 20, 27, 28, 29, 30, 32, 33, 0x7fff_ff00] {
        let address = at(*place);
        found.begin_line();
        found.put(*place);
        found.put(store.can_load_byte(address));
        found.put(store.can_store_byte(address));
        found.put(store.can_load_word(address));
        found.put(store.can_store_word(address));
    }
}

fn put_words(store: &TaggedStore, places: &[u32], found: &mut Found) {
    found.begin_line();
    for place in places {
        found.put(word(store, *place));
    }
}

fn put_bytes(store: &TaggedStore, places: &[u32], found: &mut Found) {
    found.begin_line();
    for place in places {
        found.put(byte(store, *place));
    }
}

/// The bytes of a word that is written.
fn put_written_word(store: &mut TaggedStore, found: &mut Found) {
    set_word(store, 4, Some(-2));
    put_bytes(store, &[3, 4, 5, 6, 7, 8], found);
}

/// The word, once its second byte is written.
fn put_written_byte(store: &mut TaggedStore, byte: Option<u8>, found: &mut Found) {
    set_byte(store, 5, byte);
    put_words(store, &[4], found);
}

/// The word after each write of a byte, and a byte of it once the word is undefined.
fn put_written_bytes(store: &mut TaggedStore, found: &mut Found) {
    put_written_byte(store, Some(1), found);
    put_written_byte(store, None, found);
    put_written_byte(store, Some(0), found);
    set_word(store, 4, None);
    put_bytes(store, &[7], found);
}

/// What a process reads that holds nothing, and what is written whoever holds it, inside the memory and outside.
fn put_selected(store: &mut TaggedStore, found: &mut Found) {
    store.select(1);
    put_bytes(store, &[0], found);
    store.put_byte(DATA_START, 0x41);
    store.put_byte(0x8000_0000, 0x42);
    store.select(0);
    put_bytes(store, &[0], found);
}

/// Ends of links.
const LINKS: &[(u32, Direction)] = &[
    (0x8000_0000, Direction::Out),
    (0x8000_0000, Direction::In),
    (0x8000_0004, Direction::Out),
    (0x8000_001c, Direction::In),
    (0x8000_001c, Direction::Out),
    (0x8000_0018, Direction::In),
];

/// Which ends of links the root holds.
fn put_links(store: &TaggedStore, found: &mut Found) {
    if let Some(holding) = store.current() {
        put_ends(holding, LINKS, found);
    }
}

/// The workspace, A and the code offset of the root.
fn put_root(root: Task, found: &mut Found) {
    found.begin_line();
    found.put(root.registers.workspace);
    found.put(root.registers.stack.a);
    found.put(root.registers.at);
}

/// All of it, of one memory.
fn put_memory(store: &mut TaggedStore, found: &mut Found) {
    put_links(store, found);
    put_touches(store, found);
    put_words(store, &[0, 16, 28, 29], found);
    put_bytes(store, &[32], found);
    put_written_word(store, found);
    put_written_bytes(store, found);
    put_selected(store, found);
}

fn put_loaded(alloc: Global, found: &mut Found) {
    match loaded(alloc) {
        Ok((mut store, root)) => {
            put_root(root, found);
            put_memory(&mut store, found);
        }
        Err(_) => found.fail(),
    }
}

/// Addresses, and the places that they name.
fn put_places(found: &mut Found) {
    found.begin_line();
    for address in &[0x8000_0100, 0x8000_0000, 0] {
        found.put(place_of(*address));
    }
}

/// Workspaces, and the numbers of words of theirs.
const LOCALS: &[(u32, i32)] = &[
    (0x8000_010c, 1),
    (0x8000_010c, -3),
    (0, -1),
    (0xffff_fffc, 1),
    (8, i32::MIN),
];

/// The addresses of these words.
fn put_addresses(found: &mut Found) {
    found.begin_line();
    for (workspace, number) in LOCALS {
        found.put(local_address(*workspace, *number));
    }
}

/// The root's registers, the ends that it holds, and what it may touch; words and bytes as they are loaded and written.
const MEMORY: &str = "
 2147483916 None 0
 true false false true false false
 0 true true true true
 16 true true true true
 17 true true false false
 19 true true false false
 20 false false false false
 27 false false false false
 28 true false true false
 29 true false true false
 30 true false false false
 32 true false false false
 33 false false false false
 2147483392 false false false false
 Some(None) Some(None) Some(Some(-2080177663)) Some(Some(92537602))
 Some(Some(5))
 Some(None) Some(Some(254)) Some(Some(255)) Some(Some(255)) Some(Some(255)) Some(None)
 Some(Some(-65026))
 Some(None)
 Some(Some(-65282))
 Some(None)
 None
 Some(Some(65))";

#[test]
fn memory_is_loaded_and_reads_back(rt: HostRuntime) {
    let mut found = Found::new(rt.alloc());
    put_loaded(rt.alloc(), &mut found);
    found.check(&rt, MEMORY);
}

const ADDRESSES: &str = "
 0 4294967040 2147483392
 2147483920 2147483904 4294967292 0 8";

#[test]
fn addresses_are_modulo_the_address_space(rt: HostRuntime) {
    let mut found = Found::new(rt.alloc());
    put_places(&mut found);
    put_addresses(&mut found);
    found.check(&rt, ADDRESSES);
}
