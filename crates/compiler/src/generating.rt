//! The module of a program.

ghost use Rattle.std.specs.Prelude.{◌≡◌, IfOk, Err, map, FitsSigned};
ghost use Rattle.std.specs.Int.{w32};
ghost use Rattle.std.specs.List.{AllByRecursion};
ghost use Rattle.code_pieces.specs.PieceViews.{piece_of, pieces_of};
ghost use Rattle.meant_code.specs.OwnCode.{OperandFits};
ghost use Rattle.occam_parser.specs.BlockViews.{item_of};
ghost use Rattle.program_meaning.specs.Sequential.{IsSequentialProgram};
ghost use Rattle.valid_code.specs.ValidPrograms.{SaysTables};
ghost use Rattle.compiler.specs.Compiled.{IsGenerated, IsTooLarge};

use crate::links::link_lengths;
use certified_code::certified_module_of;
use code_generator::code_of;
use code_pieces::Piece;
use module_builder::GenFault;
use std::alloc::Global;
use usage_checks::CheckedProgram;

/// The operand of a piece is a word, as its type says.
fn operand_is_word(piece: &Piece)
    ensures { OperandFits (piece_of piece.now) }
{
    if let Piece::Direct { operand, .. } = piece {
        let _word = *operand;
    }
}

/// So is that of each piece.
fn operands_are_words(pieces: &[Piece])
    ensures { AllByRecursion OperandFits (pieces_of pieces.now) }
{
    for piece in pieces {
        operand_is_word(piece);
    }
}

/// Values are words, as their type says.
fn values_are_words(values: &[i32])
    ensures { AllByRecursion (FitsSigned w32) values.now }
{
    for value in values {
        let _word = *value;
    }
}

/// So are those of a table.
fn table_is_words(piece: &Piece)
    ensures { SaysTables (piece_of piece.now) }
{
    if let Piece::TableAddress(values) = piece {
        values_are_words(values);
    }
}

/// So are those of each table.
fn tables_are_words(pieces: &[Piece])
    ensures { AllByRecursion SaysTables (pieces_of pieces.now) }
{
    for piece in pieces {
        table_is_words(piece);
    }
}

/// The module of a program. Its bytes read as a module of version 2 that is certified, so no run of it has a fault. The
/// links of `main` have the lengths of their messages, and the others 0.
///
/// # Errors
///
/// [`GenFault::Limit`] if the code is too large or a number is above a limit of the format, or if writing it takes too
/// much; of a sequential program it is proved that one of these is so. [`GenFault::Memory`] if memory runs out.
/// [`GenFault::Invalid`] if what was written would not be certified; of a sequential program it is proved that this
/// never is so, and no checked program is known of which it is.
pub fn generate(alloc: Global, program: &CheckedProgram) -> Result<Vec<u8>, GenFault>
    ensures ok { IfOk result (λ v. IsGenerated (map item_of program.now.program.items.items) v.items) }
    ensures limit { result ≡ Err GenFault.Limit → IsSequentialProgram (map item_of program.now.program.items.items)
        → IsTooLarge (map item_of program.now.program.items.items) }
    ensures invalid { result ≡ Err GenFault.Invalid
        → IsSequentialProgram (map item_of program.now.program.items.items) → ⊥ }
{
    let links = link_lengths(program.program().items());
    let code = code_of(alloc, program)?;
    let labels = code.labels;
    let pieces = code.listing.into_pieces();
    operands_are_words(&pieces);
    tables_are_words(&pieces);
    let bytes = certified_module_of(alloc, pieces, labels, links)?;
    Ok(bytes)
}
