//! What starts and joins ask of an open join.

ghost use Rattle.std.specs.Prelude.{◌≡◌, ◌==◌, ℕ, Some, None, length, MatchOption};
ghost use Rattle.std.specs.List.{list_all};
ghost use Rattle.machine_state.specs.Holding.{nothing};
ghost use Rattle.machine_state.specs.JoinLookups.{opened_by, opener_of};
ghost use Rattle.machine_state.specs.Roles.{members_without};
ghost use Rattle.machine_state.specs.Views.{holding_view, join_view};
ghost use Rattle.machine_state.specs.World.{holding_at};
ghost use Rattle.joins.specs.Summary.{summary, open_of};

use crate::Processes;
use machine_state::{Holding, Join, TaggedStore};

/// An open join, as one of its members ends.
#[derive(Clone, Copy)]
pub(crate) struct Open {
    /// The PAR's row in the module.
    pub row: u32,
    /// The address of the join block.
    pub block: u32,
    /// How many branches are started.
    pub started: u32,
    /// Whether no other member is left.
    pub is_last: bool,
}

/// Whether all of these are the process of this number.
fn are_all(members: &[u64], process: u64) -> bool
    ensures { result ≡ list_all (λ (q : ℕ). q == process) members.now }
{
    members.iter().all(|member| *member == process)
}

/// Whether no member is left but the process of this number.
#[tactic(auto, using(crate::proofs::Leaving::nobody_left))]
fn is_last(members: &[u64], process: u64) -> bool
    ensures { result ≡ (length (members_without process members.now) == 0) }
{
    are_all(members, process)
}

/// The join, as the process of this number ends.
fn summary(join: &Join, process: u64) -> Open
    ensures { result ≡ summary process (join_view join.now) }
{
    Open {
        row: join.row,
        block: join.block,
        started: join.started,
        is_last: is_last(&join.members, process),
    }
}

/// The join that a process has open, if it has one.
pub(crate) fn join_of(traffic: &Processes, process: u64) -> Option<&Join>
    ensures { let found = opened_by traffic.now.world process in
        MatchOption result (found ≡ None) (λ join. found ≡ Some (join_view join.now)) }
{
    match &traffic.store().role(process)?.opened {
        Some(join) => Some(join),
        None => None,
    }
}

/// What a process holds now. If there is no such process, that is `empty`, which holds nothing.
pub(crate) fn held<'a>(store: &'a TaggedStore, process: u64, empty: &'a Holding) -> &'a Holding
    requires { holding_view empty.now ≡ nothing }
    ensures { holding_view result.now ≡ holding_at store.now.roles process }
{
    match store.role(process) {
        Some(role) => role.held(),
        None => empty,
    }
}

/// The join that the opener has open, if it has one, as the process of this number ends.
pub(crate) fn open_of(traffic: &Processes, opener: u64, process: u64) -> Option<Open>
    ensures { result ≡ open_of traffic.now.world opener process }
{
    let role = traffic.store().role(opener)?;
    match &role.opened {
        Some(join) => Some(summary(join, process)),
        None => None,
    }
}

/// The opener of the join that a process is in, if it is in one.
pub(crate) fn opener_of(traffic: &Processes, process: u64) -> Option<u64>
    ensures { result ≡ opener_of traffic.now.world process }
{
    traffic.store().role(process)?.opener
}
