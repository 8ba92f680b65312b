//! What labels are compared with, word by word.

ghost use Rattle.std.specs.Prelude.{◌≡◌, ◌≤◌, ◌<◌, ◌^◌, ◌-◌, ◌+◌, SomeIff, sum_by};
ghost use Rattle.std.specs.List.{list_all};
ghost use Rattle.module_format.specs.Contents.{label_of};
ghost use Rattle.states.specs.Below.{is_whole, price};
ghost use Rattle.states.specs.Rows.{LoopFits};
ghost use Rattle.states.specs.Views.{state_of};
ghost use Rattle.certificate.specs.Starting.{is_scheduling_word};
ghost use Rattle.par_rules.specs.Comparisons.{words_pass, label_passes, keeps, branch_facts};
ghost use Rattle.par_rules.specs.Sights.{facts_in, passes, IsOrdered};

use crate::openings::holds_constant;
use certificate::{Module, is_among};
use module_format::{Entry, Fact, Interval, LabelRow};
use states::{State, WordFact, said_of, says};

/// Where something is known of words.
#[derive(Clone, Copy)]
pub(crate) enum Sight<'s, 'm, 't> {
    /// At the first byte of a branch, which is this context and has this workspace, where this state starts it.
    AtBranch {
        module: &'s Module<'m>,
        state: &'s State<'t>,
        context: u32,
        workspace: i32,
    },
    /// In a state.
    InState {
        state: &'s State<'t>,
    },
}

/// What is asked of the words of which a label says something.
#[derive(Clone, Copy)]
pub(crate) enum Asked<'s, 'm, 't> {
    /// What the label says is known.
    Implied {
        sight: Sight<'s, 'm, 't>,
    },
    /// What the label says is known of words that no interval has of those that the branches of the PAR write.
    Left {
        written: &'s [Interval],
        state: &'s State<'t>,
    },
    /// What the label says is known of words that the state's context writes, and no loop is entered.
    Kept {
        module: &'s Module<'m>,
        state: &'s State<'t>,
    },
}

/// Whether a word is one of the three below a workspace.
fn is_scheduling_word(workspace: i32, word: i64) -> bool
    ensures { result ≡ is_scheduling_word workspace word }
{
    let workspace = i64::from(workspace);
    word < workspace && workspace - 3 <= word
}

/// What is known of a word at the first byte of a branch that this state starts.
fn fact_of_branch(
    module: &Module,
    state: &State,
    context: u32,
    workspace: i32,
    word: i64,
) -> WordFact
    ensures value { result ≡ branch_facts «module».now context workspace (state_of state.now).frame word }
    ensures fits { LoopFits result }
{
    if !module.may_read_word(context, word) || is_scheduling_word(workspace, word) {
        return WordFact::Alone(Fact::Unknown);
    }
    WordFact::Alone(state.fact_of(word).plain())
}

impl Sight<'_, '_, '_> {
    ghost use Rattle.std.specs.Prelude.{◌≡◌};
    ghost use Rattle.states.specs.Rows.{LoopFits};
    ghost use Rattle.par_rules.specs.Sights.{facts_in};

    /// What is known of a word.
    fn fact_at(&self, word: i64) -> WordFact
        ensures value { result ≡ facts_in self.now word }
        ensures fits { LoopFits result }
    {
        match *self {
            Sight::AtBranch {
                module,
                state,
                context,
                workspace,
            } => fact_of_branch(module, state, context, workspace, word),
            Sight::InState { state } => state.fact_of(word),
        }
    }
}

/// Whether what is known of a word says what is wanted, and enters no loop.
fn keeps(fact: WordFact, wanted: WordFact) -> bool
    requires { LoopFits fact }
    ensures { result ≡ keeps fact wanted }
{
    says(fact, wanted) && (wanted.is_alone() || !fact.is_alone())
}

impl Asked<'_, '_, '_> {
    ghost use Rattle.std.specs.Prelude.{◌≡◌};
    ghost use Rattle.std.specs.List.{list_all};
    ghost use Rattle.module_format.specs.Contents.{label_of};
    ghost use Rattle.par_rules.specs.Comparisons.{words_pass, label_passes};
    ghost use Rattle.par_rules.specs.Sights.{passes, IsOrdered};

    /// Whether a word passes, of which a label wants this.
    fn passes(&self, word: i64, wanted: WordFact) -> bool
        requires { IsOrdered self.now }
        ensures { result ≡ passes self.now word wanted }
    {
        match *self {
            Asked::Implied { sight } => says(sight.fact_at(word), wanted),
            Asked::Left { written, state } => is_among(written, word)
                || says(state.fact_of(word), wanted),
            Asked::Kept { module, state } => {
                !module.may_write_word(state.context, word) || keeps(state.fact_of(word), wanted)
            }
        }
    }

    /// Whether each word of an entry passes.
    fn entry_passes(&self, entry: &Entry) -> bool
        requires { IsOrdered self.now }
        ensures { result ≡ words_pass (passes self.now) entry.now entry.now.span }
    {
        let word = i64::from(entry.word);
        for i in 0..entry.span {
            if !self.passes(word + i64::from(i), said_of(entry.fact, i == 0)) {
                return false;
            }
        }
        true
    }

    /// Whether each word passes of which a label says something.
    pub(crate) fn label_passes(&self, row: &LabelRow) -> bool
        requires { IsOrdered self.now }
        ensures { result ≡ label_passes (passes self.now) (label_of row.now) }
    {
        row.entries.iter().all(|entry| self.entry_passes(entry))
    }
}

impl Sight<'_, '_, '_> {
    ghost use Rattle.std.specs.Prelude.{◌≡◌, ◌≤◌, ◌<◌, ◌^◌, ◌-◌, ◌+◌, SomeIff, sum_by};
    ghost use Rattle.std.specs.List.{list_all};
    ghost use Rattle.module_format.specs.Contents.{label_of};
    ghost use Rattle.states.specs.Below.{is_whole, price, entries_hold};
    ghost use Rattle.par_rules.specs.Sights.{facts_in};

    /// Whether at least what a label says is known of each word.
    #[tactic(auto, using(crate::proofs::WordTests::entries_hold_by_words))]
    pub(crate) fn says_all(&self, row: &LabelRow) -> bool
        ensures { result ≡ entries_hold (facts_in self.now) (label_of row.now).entries }
    {
        Asked::Implied { sight: *self }.label_passes(row)
    }

    /// Whether both words of a loop come from that loop, or neither does, if the entry is of one.
    fn is_whole(&self, entry: &Entry) -> bool
        ensures { result ≡ is_whole (facts_in self.now) entry.now }
    {
        match entry.fact {
            Fact::Loop { .. } => {
                let word = i64::from(entry.word);
                self.fact_at(word).is_alone() == self.fact_at(word + 1).is_alone()
            }
            _ => true,
        }
    }

    /// Whether no loop that a label has is half known.
    pub(crate) fn are_whole(&self, row: &LabelRow) -> bool
        ensures { result ≡ list_all (is_whole (facts_in self.now)) (label_of row.now).entries }
    {
        row.entries.iter().all(|entry| self.is_whole(entry))
    }

    /// What it costs to enter the loop that an entry wants: its weight for each turn but the first, if its words are
    /// constants. `None` if that is no number of 128 bits.
    fn price(&self, entry: &Entry) -> Option<u128>
        ensures { let price = price (facts_in self.now) entry.now in SomeIff result (price < 2 ^ 128) price }
    {
        match entry.fact {
            Fact::Loop {
                base,
                count,
                weight,
            } => {
                let word = i64::from(entry.word);
                if !holds_constant(self.fact_at(word), i64::from(base)) {
                    return Some(0);
                }
                if !holds_constant(self.fact_at(word + 1), i64::from(count)) {
                    return Some(0);
                }
                u128::from(weight).checked_mul(u128::from(count.saturating_sub(1)))
            }
            _ => Some(0),
        }
    }

    /// What is left of a number once the loop that an entry wants is entered, if the number covers that.
    fn left_of_price(&self, number: u128, entry: &Entry) -> Option<u128>
        ensures { let price = price (facts_in self.now) entry.now in SomeIff result (price ≤ number) (number - price) }
    {
        let price = self.price(entry)?;
        number.checked_sub(price)
    }

    /// What is left of a number once the loops that a label's entries want are entered, if the number covers them.
    fn left_of_prices(&self, number: u128, entries: &[Entry]) -> Option<u128>
        ensures { let prices = sum_by (price (facts_in self.now)) entries.now in
            SomeIff result (prices ≤ number) (number - prices) }
    {
        let mut left = number;
        for entry in entries {
            left = self.left_of_price(left, entry)?;
        }
        Some(left)
    }

    /// What is left of a number once a label is paid, and the loops that it enters, if the number covers both.
    pub(crate) fn left_of(&self, number: u64, row: &LabelRow) -> Option<u64>
        ensures { let cost = row.now.number + sum_by (price (facts_in self.now)) row.now.entries.items in
            SomeIff result (cost ≤ number) (number - cost) }
    {
        let left = number.checked_sub(row.number)?;
        let left = self.left_of_prices(u128::from(left), &row.entries)?;
        Some(left as u64)
    }
}
