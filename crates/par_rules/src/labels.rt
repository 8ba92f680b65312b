//! What the row of the label after a PAR may say.

ghost use Rattle.std.specs.Prelude.{◌≡◌, Some};
ghost use Rattle.module_format.specs.Contents.{label_of, label_at, par_of};
ghost use Rattle.states.specs.declared.known.WordFact.TheVariants.{Alone};
ghost use Rattle.states.specs.State.{is_silent};
ghost use Rattle.par_rules.specs.Comparisons.{is_after};
ghost use Rattle.par_rules.specs.Finding.{IsInRow};

use crate::found::Found;
use certificate::Module;
use module_format::{Fact, LabelRow};

/// Whether this says nothing.
fn is_unknown(fact: Fact) -> bool
    ensures { result ≡ is_silent (Alone fact) }
{
    match fact {
        Fact::Unknown => true,
        _ => false,
    }
}

/// Whether the label after a PAR is where the PAR leads, and says nothing of the registers, the block and the channels.
/// It takes constant time.
pub(crate) fn is_after(module: &Module, found: &Found, row: &LabelRow) -> bool
    requires in_row { IsInRow «module».now found.now }
    requires label { label_at «module».now (par_of found.now.par.now).successor ≡ Some (label_of row.now) }
    ensures { result ≡ is_after (par_of found.now.par.now) (label_of row.now) }
{
    row.context == found.par.context
        && row.depth == found.par.block
        && is_unknown(row.stack.a)
        && is_unknown(row.stack.b)
        && is_unknown(row.stack.c)
        && module.hides_words_of(found.row)
}
