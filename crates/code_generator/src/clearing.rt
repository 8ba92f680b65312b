//! Setting to 0 what a line declares, as long as there is room. If a function fails, some pieces more may have come.

ghost use Rattle.std.specs.Prelude.{◌≡◌, ◌≢◌, ◌++◌, IfOk, Err};
ghost use Rattle.occam_parser.specs.OneOrMore.{as_list, one_or_more_of};
ghost use Rattle.occam_parser.specs.LineViews.{any_of, spelling_of};
ghost use Rattle.line_pieces.specs.Declarations.{zero_code, zero_names};
ghost use Rattle.code_generator.specs.Written.{IsTooMuch};

use crate::limits::Limits;
use line_pieces::{Listing, word_after};
use module_builder::GenFault;
use occam_parser::{Expr, OneOrMore};

/// What one name denotes, by its first word.
fn clear_name(
    listing: &mut Listing,
    limits: Limits,
    size: &Option<Expr>,
    word: u32,
    count: u32,
) -> Result<(), GenFault>
    ensures code { IfOk result (λ _. listing.new ≡ listing.old ++ zero_code (any_of size.now) word count) }
    ensures limit { result ≡ Err GenFault.Limit
        → IsTooMuch limits listing.old (zero_code (any_of size.now) word count) }
    ensures invalid { result ≢ Err GenFault.Invalid }
{
    listing.write_zero(size, word, count)?;
    limits.ask_room(listing)
}

/// What these names denote, each of which takes `count` words, from this word on. Whether it is too much is asked after
/// each of them.
pub(crate) fn clear_names(
    listing: &mut Listing,
    limits: Limits,
    size: &Option<Expr>,
    names: &OneOrMore<&[u8]>,
    word: u32,
    count: u32,
) -> Result<(), GenFault>
    ensures code { IfOk result (λ _. listing.new ≡ listing.old
        ++ zero_names (any_of size.now) count (as_list (one_or_more_of spelling_of names.now)) word) }
    ensures limit { result ≡ Err GenFault.Limit → IsTooMuch limits listing.old
        (zero_names (any_of size.now) count (as_list (one_or_more_of spelling_of names.now)) word) }
    ensures invalid { result ≢ Err GenFault.Invalid }
{
    clear_name(listing, limits, size, word, count)?;
    let mut next = word_after(word, count);
    for _name in &names.others {
        clear_name(listing, limits, size, next, count)?;
        next = word_after(next, count);
    }
    Ok(())
}
