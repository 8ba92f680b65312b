//! From pieces to the instructions of a draft.

ghost use Rattle.std.specs.Prelude.{◌≡◌, ◌≢◌, ◌<◌, ◌≤◌, ◌+◌, ◌++◌, ◌∷◌, [], ℕ, List, length, replicate, slice_set};
ghost use Rattle.std.specs.Prelude.{slice_index_or, pos};
ghost use Rattle.std.specs.Prelude.{IfOk, IfErr, Err, IsTrue, None, Some, IsSome, false};
ghost use Rattle.std.specs.List.{AllByRecursion};
ghost use Rattle.module_builder.specs.declared.item.Item.TheVariants.{Instruction};
ghost use Rattle.module_builder.specs.Drafts.{IsMade, OfOperand};
ghost use Rattle.code_pieces.specs.Pieces as pieces;
ghost use Rattle.code_pieces.specs.PieceViews.{piece_of, pieces_of};
ghost use Rattle.code_pieces.specs.Numbers.{Numbered};
ghost use Rattle.code_pieces.specs.Laying.{label, operand_at, operation, distance, items_in, items_of};
ghost use Rattle.code_pieces.specs.Laying.{tables_before, draft_code};
ghost use Rattle.code_pieces.specs.Placing.{IsPlacing, label_in};
ghost use Rattle.code_pieces.specs.WellFormed.{labels_named, AreBelow, AreNamed, IsOfOneProcess, AreWellFormed};
ghost use Rattle.code_pieces.specs.Placed.{IsThere, HavePlaced};

use crate::operations::{ALTERNATION_END, LOOP_END, START_PROCESS};
use crate::piece::Piece;
use crate::tables::ConstantTables;
use crate::workspaces::{in_root, workspace_behind};
use module_builder::{GenFault, Instructions, Item, Label, Operand};
use prefix_decoder::Fun;
use std::alloc::Global;

/// The label with a number.
///
/// # Errors
///
/// `Invalid` if there is none.
pub(crate) fn made(code: &Instructions, number: usize) -> Result<Label, GenFault>
    ensures label { IfOk result (λ l. l ≡ label number) }
    ensures made { IfOk result (λ l. IsMade code.now l) }
    ensures err { IfErr result (λ e. e ≡ GenFault.Invalid) }
    ensures invalid { result ≡ Err GenFault.Invalid → ¬ number < length code.now.labels }
{
    match code.nth_label(number) {
        Some(label) => Ok(label),
        None => Err(GenFault::Invalid),
    }
}

/// Appends an instruction.
fn push_instruction(code: &mut Instructions, fun: Fun, operand: Operand) -> Result<(), GenFault>
    requires { OfOperand (IsMade code.old) operand }
    ensures ok { IfOk result (λ _. code.new
        ≡ record code.old { items = code.old.items ++ Instruction fun operand ∷ [] }) }
    ensures err { IfErr result (λ e. e ≡ GenFault.Memory) }
{
    code.push(Item::Instruction { fun, operand })?;
    Ok(())
}

/// Appends a jump to a label.
fn push_jump(code: &mut Instructions, fun: Fun, to: usize) -> Result<(), GenFault>
    ensures ok { IfOk result (λ _. code.new
        ≡ record code.old { items = code.old.items ++ Instruction fun (Operand.DistanceTo (label to)) ∷ [] }) }
    ensures limit { result ≢ Err GenFault.Limit }
    ensures invalid { result ≡ Err GenFault.Invalid → ¬ to < length code.old.labels }
{
    let to = made(code, to)?;
    push_instruction(code, fun, Operand::DistanceTo(to))?;
    Ok(())
}

/// Appends an operation.
fn push_operation(code: &mut Instructions, op: i32) -> Result<(), GenFault>
    ensures ok { IfOk result (λ _. code.new
        ≡ record code.old { items = code.old.items ++ operation op ∷ [] }) }
    ensures err { IfErr result (λ e. e ≡ GenFault.Memory) }
{
    push_instruction(code, Fun::Operate, Operand::Number(op))
}

/// Appends `ldc` with the distance from one label to another.
fn push_distance(code: &mut Instructions, from: usize, to: usize) -> Result<(), GenFault>
    ensures ok { IfOk result (λ _. code.new
        ≡ record code.old { items = code.old.items ++ distance from to ∷ [] }) }
    ensures limit { result ≢ Err GenFault.Limit }
    ensures invalid { result ≡ Err GenFault.Invalid → from < length code.old.labels → ¬ to < length code.old.labels }
{
    let from = made(code, from)?;
    let to = made(code, to)?;
    push_instruction(code, Fun::LoadConstant, Operand::Between { from, to })?;
    Ok(())
}

/// Appends the end of a loop.
fn push_loop_end(code: &mut Instructions, head: usize, behind: usize) -> Result<(), GenFault>
    ensures ok { IfOk result (λ _. code.new
        ≡ record code.old { items = code.old.items ++ items_in [] (pos 0) (pieces.LoopBack head behind) }) }
    ensures limit { result ≢ Err GenFault.Limit }
    ensures invalid { result ≡ Err GenFault.Invalid → head < length code.old.labels
        → ¬ behind < length code.old.labels }
{
    push_distance(code, head, behind)?;
    push_operation(code, LOOP_END)?;
    Ok(())
}

/// The operand of an instruction, where the workspace has this depth.
#[tactic(auto, using(crate::proofs::RootWords::word_less_nothing))]
fn operand_at(depth: i32, fun: Fun, operand: i32) -> Result<i32, GenFault>
    ensures ok { IfOk result (λ n. n ≡ operand_at depth fun operand) }
    ensures err { IfErr result (λ e. e ≡ GenFault.Invalid) }
    ensures invalid { result ≡ Err GenFault.Invalid → depth ≢ pos 0 }
{
    match fun {
        Fun::LoadLocal | Fun::StoreLocal | Fun::LoadLocalPointer => {
            operand.checked_sub(depth).ok_or(GenFault::Invalid)
        }
        _ => Ok(operand),
    }
}

/// Appends an instruction, where the workspace has this depth.
fn push_direct(code: &mut Instructions, depth: i32, fun: Fun, operand: i32) -> Result<(), GenFault>
    ensures ok { IfOk result (λ _. code.new
        ≡ record code.old { items = code.old.items ++ items_in [] depth (pieces.Direct fun operand) }) }
    ensures limit { result ≢ Err GenFault.Limit }
    ensures invalid { result ≡ Err GenFault.Invalid → depth ≢ pos 0 }
{
    let operand = operand_at(depth, fun, operand)?;
    push_instruction(code, fun, Operand::Number(operand))?;
    Ok(())
}

/// Appends the items of a piece, where the workspace has this depth.
fn push_items(
    code: &mut Instructions,
    tables: &ConstantTables,
    depth: i32,
    piece: &Piece,
) -> Result<(), GenFault>
    ensures ok { IfOk result (λ _. code.new
        ≡ record code.old { items = code.old.items ++ items_in tables.now depth (piece_of piece.now) }) }
    ensures limit { result ≢ Err GenFault.Limit }
    ensures invalid { result ≡ Err GenFault.Invalid → depth ≡ pos 0
        → ¬ AreBelow (length code.old.labels) (labels_named (piece_of piece.now)) }
{
    match *piece {
        Piece::Direct { fun, operand } => push_direct(code, depth, fun, operand)?,
        Piece::Jump { to } => push_jump(code, Fun::Jump, to)?,
        Piece::JumpUnless { to } => push_jump(code, Fun::ConditionalJump, to)?,
        Piece::LoopBack { head, behind } => push_loop_end(code, head, behind)?,
        Piece::Distance { from, to } => push_distance(code, from, to)?,
        Piece::StartBranch { .. } => push_operation(code, START_PROCESS)?,
        Piece::Select { .. } => push_operation(code, ALTERNATION_END)?,
        Piece::TableAddress(ref values) => {
            let offset = tables.offset(values);
            code.push(Item::ConstantAddress { offset })?;
        }
        Piece::Row { .. } | Piece::Place { .. } | Piece::Within(_) | Piece::Par(_) => {}
    }
    Ok(())
}

/// The label that a piece places.
fn label_in(piece: &Piece) -> Option<usize>
    ensures { result ≡ label_in (piece_of piece.now) }
{
    match *piece {
        Piece::Row { label, .. } | Piece::Place { label } => Some(label),
        _ => None,
    }
}

/// Places a label, if it is not placed yet.
#[tactic(auto, using(crate::proofs::PlacedPieces::labels_placed))]
fn place(code: &mut Instructions, number: usize) -> Result<(), GenFault>
    ensures items { IfOk result (λ _. code.new.items ≡ code.old.items) }
    ensures count { IfOk result (λ _. length code.new.labels ≡ length code.old.labels) }
    ensures placing { IfOk result (λ _. (left : List pieces.Piece) (placed : List Numbered)
        → IsPlacing code.old (pieces.Place number ∷ left) placed → IsPlacing code.new left placed) }
    ensures there { IfOk result (λ _. HavePlaced code.old (pieces.Place number ∷ []) code.new) }
    ensures err { IfErr result (λ e. e ≡ GenFault.Invalid) }
    ensures invalid { result ≡ Err GenFault.Invalid → ¬ number < length code.old.labels }
{
    let label = made(code, number)?;
    if code.is_placed(label) {
        return Ok(());
    }
    code.place(label);
    Ok(())
}

/// Appends the items of a piece, where the workspace has this depth, or places its label.
#[tactic(auto, using(crate::proofs::PlacedPieces::piece_placed))]
fn push_piece(
    code: &mut Instructions,
    tables: &ConstantTables,
    depth: i32,
    piece: &Piece,
) -> Result<(), GenFault>
    ensures items { IfOk result (λ _. code.new.items
        ≡ code.old.items ++ items_in tables.now depth (piece_of piece.now)) }
    ensures count { IfOk result (λ _. length code.new.labels ≡ length code.old.labels) }
    ensures placing { IfOk result (λ _. (left : List pieces.Piece) (placed : List Numbered)
        → IsPlacing code.old (piece_of piece.now ∷ left) placed → IsPlacing code.new left placed) }
    ensures there { IfOk result (λ _. HavePlaced code.old (piece_of piece.now ∷ []) code.new) }
    ensures limit { result ≢ Err GenFault.Limit }
    ensures invalid { result ≡ Err GenFault.Invalid → depth ≡ pos 0
        → ¬ AreBelow (length code.old.labels) (labels_named (piece_of piece.now)) }
{
    match label_in(piece) {
        Some(label) => {
            place(code, label)?;
            Ok(())
        }
        None => {
            push_items(code, tables, depth, piece)?;
            Ok(())
        }
    }
}

/// Instructions without an item, with one label more than this count, none of them placed.
fn with_labels(alloc: Global, count: usize) -> Result<Instructions, GenFault>
    ensures items { IfOk result (λ code. code.items ≡ []) }
    ensures labels { IfOk result (λ code. code.labels ≡ replicate (count + 1) None) }
    ensures err { IfErr result (λ e. e ≡ GenFault.Memory) }
{
    let mut code = Instructions::new(alloc);
    for _made in 0..count {
        code.label()?;
    }
    code.label()?;
    Ok(code)
}

/// Appends pieces, and places their labels.
#[tactic(auto, using(crate::proofs::PlacedPieces::nothing_placed))]
fn push_pieces(
    code: &mut Instructions,
    tables: &ConstantTables,
    pieces: &[Piece],
) -> Result<(), GenFault>
    ensures items { IfOk result (λ _. code.new.items
        ≡ code.old.items ++ items_of tables.now (pieces_of pieces.now)) }
    ensures count { IfOk result (λ _. length code.new.labels ≡ length code.old.labels) }
    ensures placing { IfOk result (λ _. (placed : List Numbered)
        → IsPlacing code.old (pieces_of pieces.now) placed → IsPlacing code.new [] placed) }
    ensures there { IfOk result (λ _. HavePlaced code.old (pieces_of pieces.now) code.new) }
    ensures limit { result ≢ Err GenFault.Limit }
    ensures invalid { result ≡ Err GenFault.Invalid → AllByRecursion IsOfOneProcess (pieces_of pieces.now)
        → ¬ AreNamed (length code.old.labels) (pieces_of pieces.now) }
{
    let mut workspace = in_root();
    for piece in pieces {
        push_piece(code, tables, workspace.depth, piece)?;
        workspace = workspace_behind(piece, workspace);
    }
    Ok(())
}

/// Whether the first `count` labels are all placed.
fn are_placed(code: &Instructions, count: usize) -> bool
    ensures all { IsTrue result → (k : ℕ) → k < count → IsSome (slice_index_or code.now.labels k None) }
    ensures unless { result ≡ false → ¬ ((k : ℕ) → k < count → IsThere code.now k) }
{
    for number in 0..count {
        match code.nth_label(number) {
            Some(label) if code.is_placed(label) => {}
            _ => return false,
        }
    }
    true
}

/// Places the last label at the end of the code.
fn place_end(code: &mut Instructions, labels: usize) -> Result<(), GenFault>
    ensures ok { IfOk result (λ _. code.new
        ≡ record code.old { labels = slice_set code.old.labels labels (Some (length code.old.items)) }) }
    ensures made { IfOk result (λ _. labels < length code.old.labels) }
    ensures err { IfErr result (λ e. e ≡ GenFault.Invalid) }
    ensures invalid { result ≡ Err GenFault.Invalid → labels < length code.old.labels → IsThere code.old labels }
{
    let end = made(code, labels)?;
    if code.is_placed(end) {
        return Err(GenFault::Invalid);
    }
    code.place(end);
    Ok(())
}

/// The items of pieces and their `labels` labels, with one more label at the end of the code. The tables are those
/// that the pieces read.
///
/// # Errors
///
/// `Invalid` if a piece names a label that is not there, a label is placed nowhere, or an operand is no word; `Memory`
/// if memory runs out.
pub fn draft_code(
    alloc: Global,
    pieces: &[Piece],
    labels: usize,
    tables: &ConstantTables,
) -> Result<Instructions, GenFault>
    requires { tables.now ≡ tables_before [] (pieces_of pieces.now) }
    ensures ok { IfOk result (λ code. code ≡ draft_code (pieces_of pieces.now) labels) }
    ensures limit { result ≢ Err GenFault.Limit }
    ensures invalid { result ≡ Err GenFault.Invalid → ¬ AreWellFormed (pieces_of pieces.now) labels }
{
    let mut code = with_labels(alloc, labels)?;
    push_pieces(&mut code, tables, pieces)?;
    if !are_placed(&code, labels) {
        return Err(GenFault::Invalid);
    }
    place_end(&mut code, labels)?;
    Ok(code)
}
