//! The part that a process has in the open joins.

ghost use Rattle.std.specs.Prelude.{◌≡◌};
ghost use Rattle.machine_state.specs.World.{held};
ghost use Rattle.machine_state.specs.Views.{holding_view, role_view};

use crate::holding::Holding;

/// A PAR whose members are not all joined.
#[derive(Drop)]
pub struct Join {
    /// The PAR's row in the module.
    pub row: u32,
    /// The address of the join block.
    pub block: u32,
    /// The address of frame word 0.
    pub base: u32,
    /// The address that the word of each parameter held at the first start, if the row names the parameter.
    pub parameters: Vec<Option<u32>>,
    /// How many branches are started.
    pub started: u32,
    /// What the branches have not been given.
    pub rest: Holding,
    /// The processes that are not joined yet, the one that starts the branches among them.
    pub members: Vec<u64>,
}

/// What a process has for good, and its part in the open joins.
#[derive(Drop)]
pub struct Role {
    /// Nothing, once it has ended.
    pub own: Holding,
    /// The opener of the join that it is in.
    pub opener: Option<u64>,
    /// The join that it has open.
    pub opened: Option<Join>,
}

impl Role {
    /// What it holds now: while it has a join open, only what the branches have not been given.
    pub fn held(&self) -> &Holding
        ensures { holding_view result.now ≡ held (role_view self.now) }
    {
        match &self.opened {
            None => &self.own,
            Some(join) => &join.rest,
        }
    }
}
