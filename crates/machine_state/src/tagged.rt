//! Memory whose bytes carry tags, and what each process may touch of it.

ghost use Rattle.std.specs.Prelude.{◌≡◌, ◌+◌, ◌*◌, ◌<◌, ◌^◌, [], ◌∷◌, length, MatchOption, IfOk};

pub(crate) mod joining;

use crate::address::place_of;
use crate::holding::{End, Holding};
use crate::process::Word;
use crate::role::Role;
use crate::store::{LoadStore, Store};
use crate::{cells, loading};
use module_format::Tables;
use std::alloc::{AllocError, Global};
use std::marker::Model;

/// The memory of a module's run: for each byte whether it is defined, and for each process what it may
/// touch. One process's holding counts at a time.
#[derive(Drop)]
pub struct TaggedStore {
    bytes: Vec<u8>,
    tags: Vec<bool>,
    roles: Vec<Role>,
    holder: usize,
}

impl Model for TaggedStore {
    ghost use Rattle.std.specs.Prelude.{◌≡◌, ◌<◌, ◌^◌, map, vec_len};
    ghost use Rattle.machine_state.specs.Views.{role_view};
    ghost use Rattle.machine_state.specs.Tagged.{Tagged, tagged_cells};

    ghost Value = { Tagged };

    ghost view = { λ s. record {
      cells = tagged_cells s.bytes.items s.tags.items;
      roles = map role_view s.roles.items;
      holder = s.holder;
    } };

    ghost invariant = { λ s. (vec_len s.tags ≡ vec_len s.bytes) × (vec_len s.bytes < 2 ^ 32) };
}

impl TaggedStore {
    ghost use Rattle.machine_state.specs.Holding.{nothing};
    ghost use Rattle.module_format.specs.Contents.{contents_of};
    ghost use Rattle.machine_state.specs.World.{holding_at, IsLoadable, loaded_memory, root_role};
    ghost use Rattle.machine_state.specs.Views.{holding_view};

    /// The memory of a loaded module, with the root as the only process, whose holding counts.
    #[tactic(auto, using(crate::proofs::TaggedCells::tagged_cells_loaded))]
    pub fn load(alloc: Global, tables: &Tables) -> Result<Self, AllocError>
        requires { IsLoadable (contents_of tables.now) }
        ensures { let m = contents_of tables.now in
            IfOk result (λ s. s ≡ record { cells = loaded_memory m; roles = root_role m ∷ []; holder = 0 }) }
    {
        Ok(TaggedStore {
            bytes: loading::loaded_bytes(alloc, tables)?,
            tags: loading::loaded_tags(alloc, tables)?,
            roles: vec![in alloc; loading::root_role(alloc, tables)?]?,
            holder: 0,
        })
    }

    /// From now on this process's holding counts.
    pub fn select(&mut self, holder: u64)
        ensures { self.new ≡ record self.old { holder = holder } }
    {
        self.holder = holder as usize;
    }

    /// What the selected process holds, if it is there.
    pub fn current(&self) -> Option<&Holding>
        ensures { let holding = holding_at self.now.roles self.now.holder in
            MatchOption result (holding ≡ nothing) (λ h. holding ≡ holding_view h.now) }
    {
        Some(self.roles.get(self.holder)?.held())
    }
}

impl LoadStore for TaggedStore {
    ghost use Rattle.machine_state.specs.World.{holding_at};

    ghost cells = { λ s. s.cells };

    ghost holding = { λ s. holding_at s.roles s.holder };

    ghost roles = { λ s. record { table = s.roles; holder = s.holder } };

    fn can_load_byte(&self, address: u32) -> bool {
        let place = u64::from(place_of(address));
        self.current()
            .is_some_and(|holding| holding.may_read(place))
    }

    fn can_store_byte(&self, address: u32) -> bool {
        let place = u64::from(place_of(address));
        self.current()
            .is_some_and(|holding| holding.may_write(place))
    }

    #[tactic(auto, unfolding(crate::specs::Holding::may_read_word))]
    fn can_load_word(&self, address: u32) -> bool {
        let place = place_of(address);
        self.current()
            .is_some_and(|holding| holding.may_read_word(place))
    }

    #[tactic(auto, unfolding(crate::specs::Holding::may_write_word))]
    fn can_store_word(&self, address: u32) -> bool {
        let place = place_of(address);
        self.current()
            .is_some_and(|holding| holding.may_write_word(place))
    }

    fn can_load_bytes(&self, address: u32, count: u32) -> bool {
        let place = place_of(address);
        match self.current() {
            Some(holding) => holding.may_read_bytes(place, count),
            None => count == 0,
        }
    }

    fn can_store_bytes(&self, address: u32, count: u32) -> bool {
        let place = place_of(address);
        match self.current() {
            Some(holding) => holding.may_write_bytes(place, count),
            None => count == 0,
        }
    }

    fn has_end(&self, end: End) -> bool {
        self.current().is_some_and(|holding| holding.has_end(end))
    }

    fn defines_bytes(&self, address: u32, count: u32) -> bool {
        cells::are_defined(
            &self.bytes,
            &self.tags,
            place_of(address) as usize,
            count as usize,
        )
    }

    fn load_byte(&self, address: u32) -> Option<u8> {
        cells::byte_at(&self.bytes, &self.tags, place_of(address) as usize)
    }

    fn write_byte(&mut self, address: u32, byte: u8) {
        self.store_byte(address, Some(byte));
    }

    fn load_word(&self, address: u32) -> Word {
        cells::word_at(&self.bytes, &self.tags, place_of(address) as usize)
    }

    fn write_word(&mut self, address: u32, value: i32) {
        self.store_word(address, Some(value));
    }

    fn put_byte(&mut self, address: u32, byte: u8) {
        cells::set_byte(
            &mut self.bytes,
            &mut self.tags,
            place_of(address) as usize,
            Some(byte),
        );
    }

    fn lend(&self, address: u32, count: u32) -> &[u8] {
        let place = place_of(address) as usize;
        match self.bytes.get(place..place + count as usize) {
            Some(bytes) => bytes,
            None => &[],
        }
    }

    fn copy_defined(&mut self, from: u32, to: u32, count: u32) {
        self.copy(from, to, count);
    }
}

impl Store for TaggedStore {
    fn store_byte(&mut self, address: u32, byte: Option<u8>) {
        cells::set_byte(
            &mut self.bytes,
            &mut self.tags,
            place_of(address) as usize,
            byte,
        );
    }

    fn store_word(&mut self, address: u32, value: Word) {
        cells::set_word(
            &mut self.bytes,
            &mut self.tags,
            place_of(address) as usize,
            value,
        );
    }

    fn copy(&mut self, from: u32, to: u32, count: u32) {
        cells::copy(
            &mut self.bytes,
            &mut self.tags,
            place_of(from) as usize,
            place_of(to) as usize,
            count as usize,
        );
    }
}
