//! Where the workspace is.

ghost use Rattle.std.specs.Prelude.{◌≡◌};
ghost use Rattle.code_pieces.specs.Pars.{in_root};
ghost use Rattle.code_pieces.specs.PieceViews.{piece_of};
ghost use Rattle.code_pieces.specs.Laying.{workspace_behind};

use crate::piece::{CodeContext, Piece, Workspace};

/// Where a program begins.
pub(crate) fn in_root() -> Workspace
    ensures { result ≡ in_root }
{
    Workspace {
        context: CodeContext::Root,
        depth: 0,
    }
}

/// Where the workspace is after a piece.
pub(crate) fn workspace_behind(piece: &Piece, before: Workspace) -> Workspace
    ensures { result ≡ workspace_behind (piece_of piece.now) before }
{
    match *piece {
        Piece::Within(workspace) => workspace,
        _ => before,
    }
}
