//! Cells of pieces, put under the columns on threads.
ghost use Rattle.std.specs.Prelude.{◌≡◌, ◌<◌, ◌+◌, ◌^◌, true, length, map};
ghost use Rattle.std.specs.List.{list_all};
ghost use denote.Param.Send.{IsSync};
ghost use Rattle.columns.specs.Pieces.{ArePut, IsPut, append_pieces};
ghost use Rattle.tables.specs.TableOfColumns.{named};

use crate::pieces::TextPiece;
use std::thread;
use std::thread::Threads;
use tables::Column;

/// Puts the cells of all pieces under the columns in their places, on this many threads, and answers whether there was
/// memory for all of them.
pub(crate) fn put_pieces<H: Threads + Sync>(
    rt: &H,
    threads: usize,
    pieces: &[TextPiece],
    columns: &mut [Column],
) -> bool
    ensures { result ≡ true → map named columns.new ≡ append_pieces (map named columns.old) pieces.now }
{
    let size = columns.len().div_ceil(threads.max(1));
    put_columns(rt, pieces, size, 0, columns);
    are_whole(columns)
}

/// Puts the cells of all pieces under these columns, whose first one has this place, `size` columns on each thread;
/// those that are whole after it have all of their cells. This thread starts the others, and waits.
#[cycle(put)]
fn put_columns<H: Threads + Sync>(
    rt: &H,
    pieces: &[TextPiece],
    size: usize,
    place: usize,
    columns: &mut [Column],
)
    requires { place + length columns.old < 2 ^ 64 }
    ensures { ArePut pieces.now place columns.old columns.new }
{
    if columns.is_empty() {
        return;
    }
    let (mine, others) = columns.split_at_mut(size.max(1).min(columns.len()));
    let next = place + mine.len();
    let mut put = ||
        requires { place + length mine.now < 2 ^ 64 }
        ensures { ArePut pieces.entry.now place mine.entry.now mine.exit.now }
    { put_own(pieces, place, mine) };
    let mut put_others = ||
        requires { IsSync H.row × (next + length others.now < 2 ^ 64) }
        ensures { ArePut pieces.entry.now next others.entry.now others.exit.now }
    { put_columns(rt, pieces, size, next, others) };
    thread::join_mut(rt, &mut put, &mut put_others);
}

/// Puts the cells of all pieces under these columns on this thread.
fn put_own(pieces: &[TextPiece], place: usize, columns: &mut [Column])
    requires { place + length columns.old < 2 ^ 64 }
    ensures { ArePut pieces.now place columns.old columns.new }
{
    if let Some((column, others)) = columns.split_first_mut() {
        put_column(pieces, place, column);
        put_own(pieces, place + 1, others);
    }
}

fn are_whole(columns: &[Column]) -> bool
    ensures { result ≡ list_all (λ c. c.is_whole) columns.now }
{
    columns.iter().all(|column| column.is_whole)
}

/// Puts the cells of each piece's column in this place under the column.
fn put_column(pieces: &[TextPiece], place: usize, column: &mut Column)
    ensures { IsPut pieces.now place column.old column.new }
{
    column.is_whole = false;
    for piece in pieces {
        let Some(part) = piece.columns.get(place) else {
            return;
        };
        if column
            .cells
            .extend_from_slice(part.cells.as_slice())
            .is_err()
        {
            return;
        }
    }
    column.is_whole = true;
}
