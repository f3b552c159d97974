//! Plain rows, read in pieces of their text on threads of their own.
//!
//! A text is cut after line feeds. Each piece is read as if a record began with it, until a row ends at its end or
//! after it. Its rows are put under the rows of the piece before only if that piece was read exactly up to this place,
//! so no cut inside quotes is taken for one between records. The next pieces begin where the last one ended whose rows
//! were put: there a record begins.
//!
//! Each thread reads the next piece that no thread has begun, so one that starts late reads fewer. The vectors of the
//! pieces are used again, since memory that is new to the system costs more time than the parsing of what is put there.
ghost use Rattle.std.specs.Prelude.{◌≡◌, ◌≤◌, All, List, IfOk, length, map, drop, take};
ghost use denote.Param.Send.{IsSync};
ghost use Rattle.columns.specs.declared.layout.Layout.{Layout};
ghost use Rattle.columns.specs.Layouts.{AreReadBy, Fits};
ghost use Rattle.columns.specs.Pieces.{IsPieceThere, append_pieces, blanks};
ghost use Rattle.tables.specs.Table.{NamedColumn};
ghost use Rattle.tables.specs.TableOfColumns.{named};
ghost use Rattle.columns.specs.TextRows.{AreEven};

use crate::layout::Layout;
use crate::put_pieces::put_pieces;
use crate::team::MOST;
use crate::text_rows::read_text_rows;
use std::alloc::AllocError;
use std::sync::atomic::AtomicUsize;
use std::sync::atomic::Ordering::SeqCst;
use std::thread;
use std::thread::Threads;
use tables::Column;

/// What the threads of a turn read: pieces of a text of this many bytes each. The next piece that no thread has begun
/// starts at `next`.
#[derive(Clone, Copy)]
struct Turn<'a> {
    text: &'a [u8],
    bytes: usize,
    next: &'a AtomicUsize,
}

/// The rows of a part of a text, under columns without names, if they were read.
#[derive(Drop)]
pub(crate) struct TextPiece {
    pub(crate) from: usize,
    pub(crate) to: usize,
    pub(crate) is_read: bool,
    pub(crate) columns: Vec<Column>,
}

/// Reads the rows of a text, which begins with a record, in turns of at most `pieces.len()` pieces, puts them under the
/// columns and answers up to where they are plain. Without pieces they are read under the columns on this thread.
pub(crate) fn read_in_turns<H: Threads + Sync>(
    rt: &H,
    text: &[u8],
    bytes: usize,
    layout: &Layout,
    pieces: &mut [TextPiece],
    columns: &mut [Column],
) -> Result<usize, AllocError>
    requires fits { Fits layout.now (length columns.old) }
    requires even { AreEven (map named columns.old) }
    ensures read { IfOk result (λ end. AreReadBy layout.now text.now (drop end text.now)
        (map named columns.old) (map named columns.new)) }
    ensures within { IfOk result (λ end. end ≤ length text.now) }
{
    if pieces.is_empty() {
        return Ok(read_text_rows(text, 0, text.len(), layout, columns));
    }
    let threads = pieces.len().div_ceil(MOST);
    let mut at = 0;
    // Each turn takes a byte at least.
    for _ in 0..text.len() {
        let rest = &text[at..];
        if rest.is_empty() {
            break;
        }
        read_turn(rt, rest, bytes, layout, columns.len(), pieces);
        let (count, read) = pieces_in_line(rest, pieces);
        if read == 0 {
            break;
        }
        if !put_pieces(rt, threads, &pieces[..count], columns) {
            return Err(AllocError);
        }
        at += read;
    }
    Ok(at)
}

/// Reads pieces of a text, which begins with a record, and sorts them by where they begin. If all of the text is read,
/// the pieces that are left are empty ones at its end.
fn read_turn<H: Threads + Sync>(
    rt: &H,
    text: &[u8],
    bytes: usize,
    layout: &Layout,
    width: usize,
    pieces: &mut [TextPiece],
)
    requires { Fits layout.now width }
    ensures { All (IsPieceThere layout.now text.now width) pieces.new }
{
    let next = AtomicUsize::new(0);
    let turn = Turn {
        text,
        bytes,
        next: &next,
    };
    read_pieces(rt, turn, layout, width, pieces);
    pieces.sort_unstable_by_key(|piece| piece.from);
    mend(text, layout, width, 0, pieces);
}

/// Reads pieces, up to eight on each thread. This thread starts the others and waits: while it is at work itself, Linux
/// may keep a thread that it started waiting for its processor, up to four milliseconds.
#[cycle(turn)]
fn read_pieces<H: Threads + Sync>(
    rt: &H,
    turn: Turn<'_>,
    layout: &Layout,
    width: usize,
    pieces: &mut [TextPiece],
)
    requires { Fits layout.now width }
    ensures { All (IsPieceThere layout.now turn.entry.text.now width) pieces.new }
{
    if pieces.is_empty() {
        return;
    }
    let (mine, others) = pieces.split_at_mut(MOST.min(pieces.len()));
    let mut read = ||
        requires { Fits layout.now width }
        ensures { All (IsPieceThere layout.entry.now turn.entry.text.now width) mine.exit.now }
    { read_own(turn, layout, width, mine) };
    let mut read_others = ||
        requires { IsSync H.row × Fits layout.now width }
        ensures { All (IsPieceThere layout.entry.now turn.entry.text.now width) others.exit.now }
    { read_pieces(rt, turn, layout, width, others) };
    thread::join_mut(rt, &mut read, &mut read_others);
}

/// Reads pieces on this thread.
fn read_own(turn: Turn<'_>, layout: &Layout, width: usize, pieces: &mut [TextPiece])
    requires { Fits layout.now width }
    ensures { All (IsPieceThere layout.now turn.entry.text.now width) pieces.new }
{
    if let Some((piece, others)) = pieces.split_first_mut() {
        let start = turn.next.fetch_add(turn.bytes, SeqCst);
        read_piece(turn.text, start, turn.bytes, layout, width, piece);
        read_own(turn, layout, width, others);
    }
}

/// Reads those pieces again that begin within the last row before them, which ends at `at` for the first one: the text
/// was cut in quotes.
fn mend(text: &[u8], layout: &Layout, width: usize, at: usize, pieces: &mut [TextPiece])
    requires fits { Fits layout.now width }
    requires there { All (IsPieceThere layout.now text.now width) pieces.old }
    ensures { All (IsPieceThere layout.now text.now width) pieces.new }
{
    if let Some((piece, later)) = pieces.split_first_mut() {
        if piece.from < at {
            let end = later.first().map_or(text.len(), |next| next.from);
            read_between(text, at, end, layout, width, piece);
        }
        mend(text, layout, width, piece.to, later);
    }
}

/// Reads a piece of this many bytes, from the first line on that begins at `start` or after it.
fn read_piece(
    text: &[u8],
    start: usize,
    bytes: usize,
    layout: &Layout,
    width: usize,
    piece: &mut TextPiece,
)
    requires { Fits layout.now width }
    ensures { IsPieceThere layout.now text.now width piece.new }
{
    let first = line_start(text, start.min(text.len()));
    let end = start.saturating_add(bytes).min(text.len());
    let to = line_start(text, end.max(first));
    read_between(text, first, to, layout, width, piece);
}

/// Reads a piece, until a row ends at `to` or after it, or isn't plain. A piece of another width stays unread.
fn read_between(
    text: &[u8],
    from: usize,
    to: usize,
    layout: &Layout,
    width: usize,
    piece: &mut TextPiece,
)
    requires { Fits layout.now width }
    ensures { IsPieceThere layout.now text.now width piece.new }
{
    piece.from = from.min(text.len());
    piece.is_read = piece.columns.len() == width;
    if piece.is_read {
        let end = to.min(text.len()).max(piece.from);
        piece.to = read_anew(text, piece.from, end, layout, piece.columns.as_mut_slice());
    }
}

/// Reads rows as `read_text_rows` does, without the names and cells that were there.
fn read_anew(text: &[u8], from: usize, to: usize, layout: &Layout, columns: &mut [Column]) -> usize
    requires within { (from ≤ to) × (to ≤ length text.now) }
    requires fits { Fits layout.now (length columns.old) }
    ensures read { AreReadBy layout.now (drop from text.now) (drop result text.now)
        (blanks (length columns.old)) (map named columns.new) }
    ensures within { result ≤ length text.now }
{
    empty(columns);
    read_text_rows(text, from, to, layout, columns)
}

/// Takes the names and the cells away, and keeps the room for them.
fn empty(columns: &mut [Column])
    ensures { map named columns.new ≡ blanks (length columns.old) }
{
    for column in columns.iter_mut() {
        column.name.clear();
        column.cells.clear();
    }
}

/// The first place from `at` on at which a line starts, or the end of the text.
fn line_start(text: &[u8], at: usize) -> usize
    requires { at ≤ length text.now }
    ensures { (at ≤ result) × (result ≤ length text.now) }
{
    for place in at..text.len() {
        if place == 0 || text[place - 1] == b'\n' {
            return place;
        }
    }
    text.len()
}

/// How many pieces start where the one before them ends, the first one at 0, and where the last of these ends.
fn pieces_in_line(text: &[u8], pieces: &[TextPiece]) -> (usize, usize)
    ensures read { (layout : Layout) (columns : List NamedColumn)
        → All (IsPieceThere layout text.now (length columns)) pieces.now
        → AreReadBy layout text.now (drop result.1 text.now) columns
        (append_pieces columns (take result.0 pieces.now)) }
    ensures within { (result.0 ≤ length pieces.now) × (result.1 ≤ length text.now) }
{
    let mut at = 0;
    for (count, piece) in pieces.iter().enumerate() {
        if !piece.is_read || piece.from != at || piece.to > text.len() {
            return (count, at);
        }
        at = piece.to;
    }
    (pieces.len(), at)
}
