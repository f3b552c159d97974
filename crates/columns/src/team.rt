//! What parses a text on threads, and the room that their pieces need.
ghost use Rattle.std.specs.Prelude.{◌≤◌, length};

use crate::header::rows_to_expect;
use crate::pieces::TextPiece;
use std::alloc::{AllocError, Global};
use tables::Column;

/// How many pieces a round has for each thread.
pub(crate) const SHARE: usize = 4;

/// How many pieces a thread may read in a round, if others read fewer.
pub(crate) const MOST: usize = 2 * SHARE;

/// What parses a text in pieces: workers, each on a thread, and how many bytes a piece has, up to the end of a line.
#[derive(Drop)]
pub(crate) struct Team<'a, H> {
    pub(crate) rt: &'a H,
    pub(crate) workers: usize,
    pub(crate) piece: usize,
}

/// Room for the pieces of a round of these bytes, whose rows start at `from`: none for one worker, for a file of less
/// than two pieces, and if there is no memory for it.
pub(crate) fn pieces_for<H>(
    team: &Team<'_, H>,
    alloc: Global,
    bytes: &[u8],
    from: usize,
    width: usize,
) -> Vec<TextPiece>
    requires { from ≤ length bytes.now }
{
    if team.workers < 2 || bytes.len() / 2 < team.piece {
        return Vec::new(alloc);
    }
    let count = team.workers.min(bytes.len().div_ceil(team.piece.max(1)));
    let rows = &bytes[from..];
    let first = &rows[..team.piece.min(rows.len())];
    match empty_pieces(
        alloc,
        count.saturating_mul(MOST),
        width,
        rows_to_expect(first, first.len(), width),
    ) {
        Ok(pieces) => pieces,
        Err(AllocError) => Vec::new(alloc),
    }
}

/// A number of pieces, none of them read yet, with room for this many rows each.
fn empty_pieces(
    alloc: Global,
    count: usize,
    width: usize,
    rows: usize,
) -> Result<Vec<TextPiece>, AllocError> {
    let mut pieces = Vec::with_capacity(alloc, count)?;
    for _ in 0..count {
        pieces.push(TextPiece {
            from: 0,
            to: 0,
            is_read: false,
            columns: nameless_columns(alloc, width, rows)?,
        })?;
    }
    Ok(pieces)
}

/// Columns without names and cells, with room for this many rows.
fn nameless_columns(alloc: Global, width: usize, rows: usize) -> Result<Vec<Column>, AllocError> {
    let mut columns = Vec::with_capacity(alloc, width)?;
    for _ in 0..width {
        columns.push(Column {
            name: Vec::new(alloc),
            cells: Vec::with_capacity(alloc, rows)?,
            is_whole: true,
        })?;
    }
    Ok(columns)
}
