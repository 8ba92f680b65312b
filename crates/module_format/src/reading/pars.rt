//! PAR rows.
#![tactic(auto, unfolding(crate::proofs::Opening::reading_pars))]

ghost use Rattle.std.specs.Prelude.{◌≡◌, ◌<◌, ◌^◌, ℕ, map};
ghost use Rattle.module_format.specs.Contents.{par_of, branch_of};
ghost use Rattle.module_format.specs.Meaning.{walk, listed_as};
ghost use Rattle.module_format.specs.Order.{least_word};
ghost use Rattle.module_format.specs.Pars.{behind_channel, behind_par, first_entry};
ghost use Rattle.module_format.specs.Reading.{list_at};
ghost use Rattle.module_format.specs.ReadingPars.{channel_row_at, context_number_at, branch_count_at, par_row_at};
ghost use Rattle.module_format.specs.ReadingPars.{par_rows_at};
ghost use Rattle.module_format.specs.Taking.{Takes};

use crate::fault::FormatFaultKind;
use crate::limits::MAX_BRANCHES;
use crate::reading::branches::Branches;
use crate::reading::cursor::Cursor;
use crate::reading::facts::LEAST_WORD;
use crate::reading::list::{Reader, fill, read_list};
use crate::reading::taken::Taken;
use crate::rows::{BranchRow, ChannelRow, ParRow};

/// `count` channels of a PAR.
fn read_channels(count: u16, from: &mut Cursor<'_>) -> Vec<ChannelRow>
    ensures { Takes (λ size. list_at (channel_row_at size) behind_channel count least_word) from.old result.items from.new }
{
    read_list(&(), LEAST_WORD, u32::from(count), from)
}

/// The number of a context, below `count`.
fn read_context_number(count: usize, from: &mut Cursor<'_>) -> u16
    ensures { Takes (λ size. context_number_at size count) from.old result from.new }
{
    let at = from.place();
    let context = from.u16();
    from.check(at, usize::from(context) < count, FormatFaultKind::Range);
    context
}

/// A number of branches, at least 1.
fn read_branch_count(from: &mut Cursor<'_>) -> u16
    ensures { Takes branch_count_at from.old result from.new }
{
    let at = from.place();
    let count = from.limited_u16(MAX_BRANCHES);
    from.check(at, count != 0, FormatFaultKind::Range);
    count
}

/// The entry of the first branch.
pub fn first_entry(branches: &[BranchRow]) -> u32
    ensures { result ≡ first_entry (map branch_of branches.now) }
{
    match branches {
        [] => 0,
        [first, ..] => first.entry,
    }
}

/// PAR rows of a module in which the root and the procedures have the contexts below `own`.
#[derive(Drop)]
struct Pars {
    own: usize,
    branches: Branches,
    ghost few: { own < 2 ^ 63 },
}

impl Reader for Pars {
    type Item = ParRow;

    ghost walk = { walk {C = ℕ × ℕ} (λ r. (r.own, r.branches.code_len))
        (λ r. record { low = r.branches.low; entries = r.branches.taken.entries.items })
        (listed_as par_of (λ f size. par_row_at size f.0 f.1) behind_par) };

    fn read(&mut self, from: &mut Cursor<'_>) -> ParRow {
        let contexts = self.own + self.branches.taken.len();
        let context = read_context_number(contexts, from);
        let depth = from.i32();
        let block = from.i32();
        let successor = from.in_code(self.branches.code_len);
        let channel_count = from.u16();
        let branch_count = read_branch_count(from);
        let channels = read_channels(channel_count, from);
        let branches = self.branches.branches(branch_count, from);
        self.branches.low = first_entry(&branches);
        ParRow {
            context,
            depth,
            block,
            successor,
            channels,
            branches,
        }
    }
}

/// As many PAR rows as a number says, of a module in which the root and the procedures have the
/// contexts below `own`.
pub fn read_par_rows(own: usize, code_len: usize, count: u32, from: &mut Cursor<'_>) -> Vec<ParRow>
    requires { own < 2 ^ 63 }
    ensures { Takes (λ size. par_rows_at size own code_len count) from.old (map par_of result.items) from.new }
{
    let mut reader = Pars {
        own,
        branches: Branches {
            code_len,
            low: 0,
            taken: Taken::new(from.alloc()),
        },
    };
    let mut pars = Vec::new(from.alloc());
    fill(&mut reader, count, &mut pars, from);
    pars
}
