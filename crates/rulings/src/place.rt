//! The place of an instruction, and the tests and changes that rules are made of there.

use crate::continuation::Continuation;
use certificate::Module;
use module_format::Fact;
use states::{Rule, State, cost_at};

/// The place of an instruction: its module, its offset and its bytes. The functions of a place are what the rules there
/// are made of. If a rule is broken, the state is left part of the way.
#[derive(Clone, Copy)]
pub struct Place<'m, 'a> {
    pub module: &'m Module<'a>,
    pub at: usize,
    pub len: usize,
}

impl Place<'_, '_> {
    ghost use Rattle.std.specs.Prelude.{◌≡◌, ◌+◌, ℤ, ◌+ℤ◌, IfOk};
    ghost use Rattle.module_format.specs.Contents.{Contents};
    ghost use Rattle.machine_state.specs.LocalStep.{target};
    ghost use Rattle.states.specs.Views.{state_of, CanWrite, BelongsTo, IsLeft};
    ghost use Rattle.rulings.specs.Rulings.{writes_word, reads_word, schedules, pays, goes_on, leads_to, forks_to};
    ghost use Rattle.rulings.specs.Telling.{Admits, Leaves, Advances, Forks};
    ghost use Rattle.rulings.specs.Places.{site_of};

    /// The state's context may write the word at this distance from the workspace.
    #[tactic(auto, unfolding(crate::specs::Rulings::writes_word))]
    pub fn writes_word(&self, state: &State, distance: i32) -> Result<i32, Rule>
        requires { BelongsTo self.now.module.now state.now }
        ensures test { let word = state.now.depth +ℤ distance in
            Admits result (writes_word (site_of self.now) (state_of state.now) word) }
        ensures word { IfOk result (λ k. k ≡ state.now.depth +ℤ distance) }
        ensures room { IfOk result (CanWrite state.now) }
    {
        let word = state.writable_word(i64::from(state.depth) + i64::from(distance));
        word.ok_or(Rule::OwnWord)
    }

    /// The state's context may read the word at this distance from the workspace.
    #[tactic(auto, unfolding(crate::specs::Rulings::reads_word))]
    pub fn reads_word(&self, state: &State, distance: i32) -> Result<i32, Rule>
        requires { BelongsTo self.now.module.now state.now }
        ensures test { let word = state.now.depth +ℤ distance in
            Admits result (reads_word (site_of self.now) (state_of state.now) word) }
        ensures word { IfOk result (λ k. k ≡ state.now.depth +ℤ distance) }
    {
        let word = state.readable_word(i64::from(state.depth) + i64::from(distance));
        word.ok_or(Rule::OwnWord)
    }

    /// The context may write the three words below the workspace, and they are unknown from now on.
    #[tactic(auto, unfolding(crate::specs::Rulings::schedules))]
    pub fn schedules(&self, state: &mut State) -> Result<(), Rule>
        requires { BelongsTo self.now.module.now state.old }
        ensures test { Leaves result (state_of state.new) (schedules (site_of self.now) (state_of state.old)) }
        ensures belongs { BelongsTo self.now.module.now state.new }
    {
        let first = self.writes_word(state, -1)?;
        let second = self.writes_word(state, -2)?;
        let third = self.writes_word(state, -3)?;
        state.write(first, Fact::Unknown);
        state.write(second, Fact::Unknown);
        state.write(third, Fact::Unknown);
        Ok(())
    }

    /// Each byte of the instruction is paid.
    #[tactic(auto, unfolding(crate::specs::Rulings::pays))]
    pub fn pays(&self, state: &mut State) -> Result<(), Rule>
        ensures test { Leaves result (state_of state.new) (pays (site_of self.now) (state_of state.old)) }
        ensures belongs { (m : Contents) → BelongsTo m state.old → BelongsTo m state.new }
    {
        let price = self.len as u64;
        if state.number < price {
            return Err(Rule::Budget);
        }
        state.number -= price;
        Ok(())
    }

    /// Each byte is paid, and the process goes on after the instruction.
    #[tactic(auto, unfolding(crate::specs::Rulings::goes_on))]
    pub fn goes_on(&self, state: &mut State) -> Result<Continuation, Rule>
        ensures ruling { Advances result (state_of state.new) (goes_on (site_of self.now) (state_of state.old)) }
        ensures belongs { (m : Contents) → BelongsTo m state.old → BelongsTo m state.new }
    {
        self.pays(state)?;
        Ok(Continuation::Falls)
    }

    /// The code offset `distance` bytes from the next instruction.
    pub fn target(&self, distance: i32) -> u32
        ensures { result ≡ target (self.now.at + self.now.len) distance }
    {
        let next = self.at as u128 + self.len as u128;
        let to = next + u128::from(distance.cast_unsigned());
        (to % (1 << 32)) as u32
    }

    /// There is a label at the offset, and the state is at least as strong as the label's.
    #[tactic(auto, using(crate::proofs::Steps::leads_forked))]
    pub fn leads_to(&self, state: &mut State, to: u32) -> Result<Continuation, Rule>
        requires { BelongsTo self.now.module.now state.old }
        ensures ruling { Advances result (state_of state.new) (leads_to (site_of self.now) to (state_of state.old)) }
        ensures left { IsLeft state.old state.new }
    {
        self.forks_to(state, to)?;
        Ok(Continuation::Leads { to })
    }

    /// There is a label at the offset, and the state is at least as strong as the label's. The process goes on there,
    /// or after the instruction in another state.
    pub fn forks_to(&self, state: &mut State, to: u32) -> Result<(), Rule>
        requires { BelongsTo self.now.module.now state.old }
        ensures forks { Forks result to (forks_to (site_of self.now) to (state_of state.old)) }
        ensures left { IsLeft state.old state.new }
    {
        cost_at(state, to)?;
        Ok(())
    }
}
