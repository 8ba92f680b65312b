//! Programs: constants and procedures.

ghost use Rattle.std.specs.Prelude.{◌≡◌, ◌≤◌, ◌<◌, List, length, map, IfOk, IfErr};
ghost use Rattle.occam_parser.specs.LineFaults.{Tells, Answers, IsRefusal, as_item};
ghost use Rattle.occam_parser.specs.Terminals.{terminals_of};
ghost use Rattle.occam_parser.specs.Blocks.{Row, ProgramItem, row_of, rows_of, IsProgram};
ghost use Rattle.occam_parser.specs.BlockReading.{behind_colon, procedure_at, item_at, program_at};
ghost use Rattle.occam_parser.specs.BlockViews.{item_of};
ghost use Rattle.occam_parser.specs.Programs.{items_of};

use crate::block::{MAX_LEVEL, process, push};
use crate::declaration::{constant, proc_head};
use crate::fault::{Fault, ParseFault, Refusal, at_line};
use crate::front::{behind, first};
use crate::parsed::Program;
use crate::tree::{Item, Proc};
use occam_layout::{Line, Mark, Token, TokenKind};
use std::alloc::Global;

/// The lines after the colon that ends a procedure.
#[tactic(auto, unfolding(crate::specs::BlockReading::behind_colon))]
fn behind_colon<'l, 'a>(lines: &'l [Line<'a>]) -> Result<&'l [Line<'a>], Refusal>
    ensures found { Tells (λ rest. rows_of rest.now) result (behind_colon (rows_of lines.now)) }
    ensures within { IfOk result (λ rest. length rest.now ≤ length lines.now) }
{
    let Some((line, rest)) = lines.split_first() else {
        return Err(Fault::UnexpectedToken.at(0));
    };
    let is_colon = match behind(Mark::Colon, &line.tokens) {
        Some(after) => line.level == 0 && after.is_empty(),
        None => false,
    };
    if is_colon {
        Ok(rest)
    } else if line.level > MAX_LEVEL {
        Err(Fault::Nesting.at(lines.len()))
    } else {
        Err(Fault::UnexpectedToken.at(lines.len()))
    }
}

/// The item that is the procedure whose head is a line, after its `PROC`, and the lines after its colon.
#[tactic(auto, unfolding(crate::specs::BlockReading::procedure_at))]
fn proc<'l, 'a>(
    alloc: Global,
    line: u32,
    tokens: &[Token<'a>],
    lines: &'l [Line<'a>],
) -> Result<(Item<'a>, &'l [Line<'a>]), Refusal>
    ensures found { Tells (λ x. (item_of x.0, rows_of x.1.now)) result
        (as_item (procedure_at line (terminals_of tokens.now) (rows_of lines.now))) }
    ensures within { IfOk result (λ x. length x.1.now ≤ length lines.now) }
{
    let owner = lines.len() + 1;
    let head = at_line(proc_head(alloc, tokens), owner)?;
    let (body, rest) = process(alloc, owner, 1, lines)?;
    let rest = behind_colon(rest)?;
    Ok((
        Item::Proc(Proc {
            line,
            name: head.name,
            formals: head.formals,
            body,
        }),
        rest,
    ))
}

/// The item that begins with a line, and the lines after it.
#[tactic(auto, unfolding(crate::specs::BlockReading::item_at, crate::specs::BlockReading::item_with))]
fn item<'l, 'a>(
    alloc: Global,
    line: &Line<'a>,
    lines: &'l [Line<'a>],
) -> Result<(Item<'a>, &'l [Line<'a>]), Refusal>
    ensures found { Tells (λ x. (item_of x.0, rows_of x.1.now)) result (item_at (row_of line.now) (rows_of lines.now)) }
    ensures within { IfOk result (λ x. length x.1.now ≤ length lines.now) }
{
    let left = lines.len() + 1;
    if line.level > MAX_LEVEL {
        return Err(Fault::Nesting.at(left));
    }
    if line.level > 0 {
        return Err(Fault::UnexpectedToken.at(left));
    }
    match first(&line.tokens) {
        Some((TokenKind::Mark(Mark::Val), rest)) => {
            let constant = at_line(constant(alloc, line.number, rest), left)?;
            Ok((Item::Constant(constant), lines))
        }
        Some((TokenKind::Mark(Mark::Proc), rest)) => proc(alloc, line.number, rest, lines),
        _ => Err(Fault::UnexpectedToken.at(left)),
    }
}

/// The items that some lines are.
#[tactic(auto, using(crate::proofs::Programs::program_ends, crate::proofs::SeenItems::left_len_is))]
fn items<'a>(alloc: Global, lines: &[Line<'a>]) -> Result<Vec<Item<'a>>, Refusal>
    ensures { Tells (λ v. map item_of v.items) result (program_at (rows_of lines.now)) }
{
    let mut found = Vec::new(alloc);
    let mut next = lines.split_first();
    while let Some((line, after)) = next {
        let rest = push(&mut found, item(alloc, line, after))?;
        next = rest.split_first();
    }
    Ok(found)
}

/// The program that some lines are.
///
/// Lines that are no program are refused with a number and a line: the first one at which no program goes on so.
/// [`UNEXPECTED_TOKEN`](crate::UNEXPECTED_TOKEN) is reported for a token or a line where the grammar has
/// another or none; [`MISSING_BODY`](crate::MISSING_BODY) at a head that has no body; [`NESTING`](crate::NESTING) at a
/// line that is more than [`MAX_LEVEL`](crate::MAX_LEVEL) levels deep, or that has an expression with more than
/// [`MAX_NESTING`](crate::MAX_NESTING) nested brackets, subscripts and conversions; and
/// [`MIXTURE`](crate::MIXTURE) where operators are side by side without brackets. If memory runs out, the fault is
/// [`MEMORY`](crate::MEMORY) at line 0.
pub fn parse<'a>(alloc: Global, lines: &[Line<'a>]) -> Result<Program<'a>, ParseFault>
    // The program that is returned is the one that the lines are.
    ensures found { IfOk result (λ p. IsProgram (rows_of lines.now) (items_of p)) }
    // Lines that are a program are read, unless memory runs out.
    ensures only { (items : List ProgramItem) → IsProgram (rows_of lines.now) items → Answers items_of result items }
    // A refusal says that memory ran out, or is one of the faults at one of the lines.
    ensures refused { IfErr result (λ fault. IsRefusal (rows_of lines.now) fault) }
    // No lines are two programs.
    ensures unique { (rows : List Row) (items others : List ProgramItem) → IsProgram rows items
        → IsProgram rows others → items ≡ others }
{
    match items(alloc, lines) {
        Ok(items) => Ok(Program::new(items)),
        Err(refusal) => Err(refusal.told(lines)),
    }
}
