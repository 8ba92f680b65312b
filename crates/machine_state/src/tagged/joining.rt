//! The roles of the processes, and how joins change them.
#![tactic(auto, using(crate::proofs::RolesChanging::changes))]

ghost use Rattle.std.specs.Prelude.{◌≡◌, ◌∷◌, ◌++◌, [], map, Some, None, slice_get, length, MatchOption, MatchResult};
ghost use Rattle.machine_state.specs.Holding.{nothing};
ghost use Rattle.machine_state.specs.Memory.{place_of, word_at, with_word};
ghost use Rattle.machine_state.specs.Views.{holding_view, join_view, role_view};
ghost use Rattle.machine_state.specs.Roles.{with_role, members_without, without_member, without_join, without_own};
ghost use Rattle.machine_state.specs.Roles.{with_join, with_branch, branch_role, advanced};
ghost use Rattle.machine_state.specs.Progressing.{progress_view};

use crate::address::place_of;
use crate::cells;
use crate::holding::Holding;
use crate::process::Word;
use crate::role::{Join, Role};
use crate::tagged::TaggedStore;
use std::alloc::{AllocError, Global};

/// What a start changes of the open join, besides its members.
#[derive(Drop)]
pub struct Progress {
    /// The address of the join block.
    pub block: u32,
    /// How many branches are started.
    pub started: u32,
    /// What the branches have not been given.
    pub rest: Holding,
}

impl Holding {
    /// What holds nothing.
    pub fn nothing(alloc: Global) -> Self
        ensures { holding_view result ≡ nothing }
    {
        Holding {
            writes: Vec::new(alloc),
            reads: Vec::new(alloc),
            ends: Vec::new(alloc),
        }
    }
}

impl Join {
    fn remove_member(&mut self, process: u64)
        ensures { let join = join_view self.old in
            join_view self.new ≡ record join { members = members_without process join.members } }
    {
        self.members.retain(|member| *member != process);
    }
}

impl Join {
    /// One more branch is started. If memory runs out, nothing changes.
    fn advance(&mut self, to: Progress, member: u64) -> Result<(), AllocError>
        ensures { MatchResult result
            (λ _. join_view self.new ≡ advanced (progress_view to) member (join_view self.old))
            (λ _. join_view self.new ≡ join_view self.old) }
    {
        self.members.push(member)?;
        self.block = to.block;
        self.started = to.started;
        self.rest = to.rest;
        Ok(())
    }
}

impl Role {
    /// A branch of the join that this process has open, which holds this.
    fn of_branch(opener: u64, own: Holding) -> Self
        ensures { role_view result ≡ branch_role opener (holding_view own) }
    {
        Role {
            own,
            opener: Some(opener),
            opened: None,
        }
    }

    fn open_join(&mut self, join: Join)
        ensures { role_view self.new ≡ with_join (join_view join) (role_view self.old) }
    {
        self.opened = Some(join);
    }

    fn advance(&mut self, to: Progress, member: u64) -> Result<(), AllocError>
        ensures { MatchResult result
            (λ _. role_view self.new ≡ with_branch (progress_view to) member (role_view self.old))
            (λ _. role_view self.new ≡ role_view self.old) }
    {
        match &mut self.opened {
            Some(join) => join.advance(to, member),
            None => Ok(()),
        }
    }

    fn remove_member(&mut self, process: u64)
        ensures { role_view self.new ≡ without_member process (role_view self.old) }
    {
        if let Some(join) = &mut self.opened {
            join.remove_member(process);
        }
    }

    fn close_join(&mut self)
        ensures { role_view self.new ≡ without_join (role_view self.old) }
    {
        self.opened = None;
    }

    fn give_back(&mut self)
        ensures { role_view self.new ≡ without_own (role_view self.old) }
    {
        let alloc = *self.own.writes.allocator();
        self.own = Holding::nothing(alloc);
    }
}

/// The process of this number, if there is one, has this join open.
fn open_in(roles: &mut [Role], opener: u64, join: Join)
    ensures { map role_view roles.new ≡ with_role opener (with_join (join_view join)) (map role_view roles.old) }
{
    let place = opener as usize;
    if place < roles.len() {
        roles[place].open_join(join);
    }
}

/// One more branch of the join that the process has open is started.
fn advance_in(roles: &mut [Role], opener: u64, to: Progress, member: u64) -> Result<(), AllocError>
    ensures { let before = map role_view roles.old in
        MatchResult result
        (λ _. map role_view roles.new ≡ with_role opener (with_branch (progress_view to) member) before)
        (λ _. map role_view roles.new ≡ before) }
{
    let place = opener as usize;
    if place < roles.len() {
        return roles[place].advance(to, member);
    }
    Ok(())
}

fn leave_in(roles: &mut [Role], opener: u64, process: u64)
    ensures { map role_view roles.new ≡ with_role opener (without_member process) (map role_view roles.old) }
{
    let place = opener as usize;
    if place < roles.len() {
        roles[place].remove_member(process);
    }
}

fn close_in(roles: &mut [Role], opener: u64)
    ensures { map role_view roles.new ≡ with_role opener without_join (map role_view roles.old) }
{
    let place = opener as usize;
    if place < roles.len() {
        roles[place].close_join();
    }
}

fn give_back_in(roles: &mut [Role], process: u64)
    ensures { map role_view roles.new ≡ with_role process without_own (map role_view roles.old) }
{
    let place = process as usize;
    if place < roles.len() {
        roles[place].give_back();
    }
}

impl TaggedStore {
    /// The role of the process of this number, if there is one.
    pub fn role(&self, process: u64) -> Option<&Role>
        ensures { let found = slice_get self.now.roles process in
            MatchOption result (found ≡ None) (λ role. found ≡ Some (role_view role.now)) }
    {
        self.roles.get(process as usize)
    }

    /// The process has this join open, and its first branch, a new process, holds this. If memory runs out, nothing
    /// changes.
    pub fn open_join(&mut self, opener: u64, join: Join, own: Holding) -> Result<(), AllocError>
        ensures { let roles = with_role opener (with_join (join_view join)) self.old.roles in
            let all = roles ++ branch_role opener (holding_view own) ∷ [] in
            MatchResult result (λ _. self.new ≡ record self.old { roles = all }) (λ _. self.new ≡ self.old) }
    {
        self.roles.reserve(1)?;
        open_in(&mut self.roles, opener, join);
        self.roles.push_reserved(Role::of_branch(opener, own));
        Ok(())
    }

    /// One more branch of the join that the process has open is started, a new process of this number, which holds its
    /// own. If memory runs out, nothing changes.
    pub fn advance_join(
        &mut self,
        opener: u64,
        to: Progress,
        member: u64,
        own: Holding,
    ) -> Result<(), AllocError>
        ensures { let roles = with_role opener (with_branch (progress_view to) member) self.old.roles in
            let all = roles ++ branch_role opener (holding_view own) ∷ [] in
            MatchResult result (λ _. self.new ≡ record self.old { roles = all }) (λ _. self.new ≡ self.old) }
    {
        self.roles.reserve(1)?;
        advance_in(&mut self.roles, opener, to, member)?;
        self.roles.push_reserved(Role::of_branch(opener, own));
        Ok(())
    }

    /// A process leaves the join that another has open.
    pub fn leave_join(&mut self, opener: u64, process: u64)
        ensures { let roles = with_role opener (without_member process) self.old.roles in
            self.new ≡ record self.old { roles = roles } }
    {
        leave_in(&mut self.roles, opener, process);
    }

    /// The join that the process has open is over.
    pub fn close_join(&mut self, opener: u64)
        ensures { self.new ≡ record self.old { roles = with_role opener without_join self.old.roles } }
    {
        close_in(&mut self.roles, opener);
    }

    /// Nothing is the process's own any more.
    pub fn give_back(&mut self, process: u64)
        ensures { self.new ≡ record self.old { roles = with_role process without_own self.old.roles } }
    {
        give_back_in(&mut self.roles, process);
    }

    /// How many bytes of memory there are.
    #[tactic(auto, using(crate::proofs::TaggedCells::length_of_cells))]
    pub fn size(&self) -> u32
        ensures { result ≡ length self.now.cells }
    {
        self.bytes.len() as u32
    }

    /// The word at an address, whoever holds it: none where it is undefined.
    pub fn word(&self, address: u32) -> Word
        ensures { result ≡ word_at self.now.cells (place_of address) }
    {
        cells::word_at(&self.bytes, &self.tags, place_of(address) as usize)
    }

    /// The word at an address is undefined from now on, whoever holds it.
    pub fn clear_word(&mut self, address: u32)
        ensures { let cells = with_word self.old.cells (place_of address) None in
            self.new ≡ record self.old { cells = cells } }
    {
        cells::set_word(
            &mut self.bytes,
            &mut self.tags,
            place_of(address) as usize,
            None,
        );
    }
}
