//! Column files on threads, read and parsed at the same time.
//!
//! A file is read in rounds. While the whole lines of one round are parsed in pieces, or after it with one worker, the
//! bytes of the next one are read into another buffer, after the beginning of its first line. So few bytes of the file
//! are held at a time, and one piece of memory takes all of them: memory that is new to the system costs more time than
//! the reading.
//!
//! A round ends where its last line feed does. If that stands in quotes, the row before it goes to the next round.
//!
//! From a row on that isn't plain, all bytes are read whole, and `csv` puts their rows under the columns.
ghost use Rattle.std.specs.Prelude.{◌≡◌, ◌≢◌, ◌⊎◌, ◌++◌, ◌+◌, ◌||◌, ◌≤◌, ℕ, List, Option, true};
ghost use Rattle.std.specs.Prelude.{IfErr, IfOk, OnOk, length, map, take, drop, vec_len, nat_lt};
ghost use denote.Param.Send.{IsSync};
ghost use Rattle.std.specs.Io.KnownBytes.{Consumes, IsAtEnd};
ghost use Rattle.counted_io.specs.CountedRead.{GaveSome, HasGiven};
ghost use Rattle.counted_io.specs.FailureCounts.{HasRisen};
ghost use Rattle.csv.specs.Reading.{strip_bom};
ghost use Rattle.columns.specs.Fronts.{Goes, IsFront, IsPutBy, IsReadWhole, left_in};
ghost use Rattle.columns.specs.Layouts.{AreReadBy, Fits, IsAnswerBy, form_of};
ghost use Rattle.columns.specs.TableForms.{AbstractForm};
ghost use Rattle.columns.specs.TextRows.{AreEven, HaveRows};
ghost use Rattle.tables.specs.TableOfColumns.{named};

use crate::by_records::{columns_by_records, columns_in, put_by_records, put_rest};
use crate::fault::ColumnFault;
use crate::header::{mark_end, plain_header};
use crate::layout::{Layout, TableForm};
use crate::pieces::{TextPiece, read_in_turns};
use crate::round_bytes::{begin_with, last_line_end, no_bytes, read_on};
use crate::team::{Team, pieces_for};
use counted_io::CountedRead;
use std::alloc::{AllocError, Global};
use std::thread::Threads;
use std::{mem, thread};
use tables::{Column, Columns};

/// What the rounds of a file are read into, and the pieces in which they are parsed.
#[derive(Drop)]
struct Rounds {
    /// The bytes of this round, after those before `from`.
    bytes: Vec<u8>,
    from: usize,
    /// Whether the reader has no bytes after them.
    is_last: bool,
    /// The bytes of the next round.
    spare: Vec<u8>,
    /// How many bytes a round has at most, if a line isn't longer.
    limit: usize,
    /// How many bytes a piece has, up to the end of a line.
    piece: usize,
    /// None if one thread does all.
    pieces: Vec<TextPiece>,
}

/// The columns of these bytes and of all that the reader has left, read in rounds. The reader has no bytes left if
/// `is_last`.
pub(crate) fn columns_in_rounds<H: Threads + Sync, R: CountedRead>(
    team: &Team<'_, H>,
    alloc: Global,
    reader: &mut R,
    bytes: Vec<u8>,
    is_last: bool,
    form: &TableForm,
) -> Result<Columns, ColumnFault>
    requires last { is_last ≡ true → IsAtEnd (R.remaining reader.old) }
    ensures answer { (gone : List ℕ) × Consumes (R.remaining reader.old) (R.remaining reader.new) gone
        × IsAnswerBy (form_of form.now) (bytes.items ++ gone) result }
    ensures end { IsReadWhole (R.remaining reader.new) result }
    ensures read { IfErr result (λ fault. fault ≡ ColumnFault.Read
        → HasRisen (R.failures reader.old) (R.failures reader.new)) }
    ensures counts { R.failures reader.old ≤ R.failures reader.new }
{
    let total = bytes.len().saturating_add(reader.likely_size());
    if bytes.len() >= MARK.len() {
        if let Some((columns, layout, end)) = plain_header(alloc, &bytes, total, form) {
            let rounds = rounds_from(team, alloc, bytes, is_last, end, columns.len());
            return columns_after(team.rt, alloc, reader, &layout, rounds, columns);
        }
    }
    if is_last {
        return columns_in(alloc, &bytes, form);
    }
    columns_by_records(alloc, reader, bytes, form)
}

/// The rounds of a file that begins with these bytes, from `end` on after a byte order mark, with room for this many
/// columns. The reader has no bytes left if `is_last`.
fn rounds_from<H>(
    team: &Team<'_, H>,
    alloc: Global,
    bytes: Vec<u8>,
    is_last: bool,
    end: usize,
    width: usize,
) -> Rounds
    requires within { end ≤ length (strip_bom bytes.items) }
    ensures bytes { result.bytes ≡ bytes }
    ensures within { result.from ≤ vec_len bytes }
    ensures left { left_in result ≡ drop end (strip_bom bytes.items) }
    ensures last { result.is_last ≡ is_last }
{
    let from = mark_end(&bytes) + end;
    let limit = bytes.len();
    let spare = no_bytes(alloc, if is_last { 0 } else { limit });
    let pieces = pieces_for(team, alloc, &bytes, from, width);
    Rounds {
        bytes,
        from,
        is_last,
        spare,
        limit,
        piece: team.piece,
        pieces,
    }
}

/// The columns of a file whose rounds are read from here on under these, which have no cells yet.
fn columns_after<H: Threads + Sync, R: CountedRead>(
    rt: &H,
    alloc: Global,
    reader: &mut R,
    layout: &Layout,
    mut rounds: Rounds,
    mut columns: Vec<Column>,
) -> Result<Columns, ColumnFault>
    requires within { rounds.from ≤ vec_len rounds.bytes }
    requires last { rounds.is_last ≡ true → IsAtEnd (R.remaining reader.old) }
    requires fits { Fits layout.now (vec_len columns) }
    requires empty { HaveRows 0 (map named columns.items) }
    requires long { 3 ≤ vec_len rounds.bytes }
    ensures answer { (gone : List ℕ) × Consumes (R.remaining reader.old) (R.remaining reader.new) gone
        × ((form : AbstractForm) → IsFront form layout.now (strip_bom rounds.bytes.items) (left_in rounds)
        (map named columns.items) → IsAnswerBy form (rounds.bytes.items ++ gone) result) }
    ensures end { IsReadWhole (R.remaining reader.new) result }
    ensures read { IfErr result (λ fault. fault ≡ ColumnFault.Read
        → HasRisen (R.failures reader.old) (R.failures reader.new)) }
    ensures counts { R.failures reader.old ≤ R.failures reader.new }
{
    let slice = columns.as_mut_slice();
    put_rounds(rt, alloc, reader, layout, &mut rounds, slice)?;
    Ok(Columns::of(columns))
}

/// Puts the rows of these rounds and of all that the reader has left under the columns, round by round.
fn put_rounds<H: Threads + Sync, R: CountedRead>(
    rt: &H,
    alloc: Global,
    reader: &mut R,
    layout: &Layout,
    rounds: &mut Rounds,
    columns: &mut [Column],
) -> Result<(), ColumnFault>
    requires within { rounds.old.from ≤ vec_len rounds.old.bytes }
    requires last { rounds.old.is_last ≡ true → IsAtEnd (R.remaining reader.old) }
    requires fits { Fits layout.now (length columns.old) }
    requires even { AreEven (map named columns.old) }
    ensures put { IsPutBy layout.now (R.remaining reader.old) (R.remaining reader.new) (left_in rounds.old)
        (map named columns.old) result (map named columns.new) }
    ensures end { IsReadWhole (R.remaining reader.new) result }
    ensures read { IfErr result (λ fault. fault ≡ ColumnFault.Read
        → HasRisen (R.failures reader.old) (R.failures reader.new)) }
    ensures counts { R.failures reader.old ≤ R.failures reader.new }
{
    for _ in 0..u64::MAX {
        if rounds.is_last {
            return put_last(rt, alloc, layout, rounds, columns);
        }
        if !put_round(rt, reader, layout, rounds, columns)? {
            break;
        }
    }
    put_by_records(alloc, reader, &rounds.bytes[rounds.from..], layout, columns)
}

/// Puts the rows of the whole lines that were read under the columns, up to one that isn't plain, and reads the next
/// bytes meanwhile. Answers whether to go on in rounds: otherwise no row is put, and the reader may have more bytes.
fn put_round<H: Threads + Sync, R: CountedRead>(
    rt: &H,
    reader: &mut R,
    layout: &Layout,
    rounds: &mut Rounds,
    columns: &mut [Column],
) -> Result<bool, ColumnFault>
    requires within { rounds.old.from ≤ vec_len rounds.old.bytes }
    requires fits { Fits layout.now (length columns.old) }
    requires even { AreEven (map named columns.old) }
    ensures goes { OnOk result (Goes layout.now (R.remaining reader.old) (R.remaining reader.new)
        (left_in rounds.old) (left_in rounds.new) (map named columns.old) (map named columns.new)) }
    ensures within { OnOk result (rounds.new.from ≤ vec_len rounds.new.bytes) }
    ensures even { OnOk result (AreEven (map named columns.new)) }
    ensures end { OnOk result (rounds.new.is_last ≡ true → IsAtEnd (R.remaining reader.new)) }
    ensures gave { GaveSome (R.remaining reader.old) (R.remaining reader.new) }
    ensures refused { IfErr result (λ fault. (fault ≡ ColumnFault.Read) ⊎ (fault ≡ ColumnFault.NoMemory)) }
    ensures read { IfErr result (λ fault. fault ≡ ColumnFault.Read
        → HasRisen (R.failures reader.old) (R.failures reader.new)) }
    ensures counts { R.failures reader.old ≤ R.failures reader.new }
{
    let left = &rounds.bytes[rounds.from..];
    let end = last_line_end(left);
    begin_with(&mut rounds.spare, &left[end..])?;
    let (put, read) = put_and_read(rt, reader, layout, rounds, end, columns);
    let is_last = read?;
    let put_to = put?;
    go_on_from(rounds, put_to, end)?;
    rounds.is_last = is_last;
    Ok(goes_on(put_to, is_last))
}

/// Whether a round put rows, or the last one comes next.
fn goes_on(put_to: usize, is_last: bool) -> bool
    ensures { result ≡ (nat_lt 0 put_to || is_last) }
{
    put_to > 0 || is_last
}

/// Begins the next round at `put_to` in what was left, which isn't after `end`: with what is left of the lines before
/// `end`, and the bytes that were read meanwhile.
fn go_on_from(rounds: &mut Rounds, put_to: usize, end: usize) -> Result<(), AllocError>
    requires within { (put_to ≤ end) × (rounds.old.from + end ≤ vec_len rounds.old.bytes) }
    ensures left { OnOk result
        (left_in rounds.new ≡ drop put_to (take end (left_in rounds.old) ++ rounds.old.spare.items)) }
    ensures within { OnOk result (rounds.new.from ≤ vec_len rounds.new.bytes) }
{
    if put_to == end {
        mem::swap(&mut rounds.bytes, &mut rounds.spare);
        rounds.from = 0;
        return Ok(());
    }
    rounds.bytes.truncate(rounds.from + end);
    rounds.bytes.extend_from_slice(&rounds.spare)?;
    rounds.from += put_to;
    Ok(())
}

/// Puts the rows of the whole lines up to `end` in what is left under the columns, on threads, and reads on into
/// `spare` on this one; without pieces both are done on this one, in turn.
fn put_and_read<H: Threads + Sync, R: CountedRead>(
    rt: &H,
    reader: &mut R,
    layout: &Layout,
    rounds: &mut Rounds,
    end: usize,
    columns: &mut [Column],
) -> (Result<usize, AllocError>, Result<bool, ColumnFault>)
    requires within { rounds.old.from + end ≤ vec_len rounds.old.bytes }
    requires fits { Fits layout.now (length columns.old) }
    requires even { AreEven (map named columns.old) }
    ensures put { IfOk result.0 (λ put_to. AreReadBy layout.now (take end (left_in rounds.old))
        (drop put_to (take end (left_in rounds.old))) (map named columns.old) (map named columns.new)) }
    ensures within { IfOk result.0 (λ put_to. put_to ≤ end) }
    ensures same { (rounds.new.bytes ≡ rounds.old.bytes) × (rounds.new.from ≡ rounds.old.from) }
    ensures bytes { OnOk result.1
        (HasGiven (R.remaining reader.old) (R.remaining reader.new) rounds.old.spare.items rounds.new.spare.items) }
    ensures end { IfOk result.1 (λ is_end. is_end ≡ true → IsAtEnd (R.remaining reader.new)) }
    ensures gave { GaveSome (R.remaining reader.old) (R.remaining reader.new) }
    ensures refused { IfErr result.1 (λ fault. (fault ≡ ColumnFault.Read) ⊎ (fault ≡ ColumnFault.NoMemory)) }
    ensures read { IfErr result.1 (λ fault. fault ≡ ColumnFault.Read
        → HasRisen (R.failures reader.old) (R.failures reader.new)) }
    ensures counts { R.failures reader.old ≤ R.failures reader.new }
{
    let text = &rounds.bytes[rounds.from..rounds.from + end];
    let piece = rounds.piece;
    let pieces = rounds.pieces.as_mut_slice();
    let spare = &mut rounds.spare;
    let limit = rounds.limit;
    let is_alone = pieces.is_empty();
    let mut put = || -> Result<usize, AllocError>
        requires { IsSync H.row × Fits layout.now (length columns.now) × AreEven (map named columns.now) }
        ensures read { IfOk result (λ put_to. AreReadBy layout.entry.now text.entry.now (drop put_to text.entry.now)
            (map named columns.entry.now) (map named columns.exit.now)) }
        ensures within { IfOk result (λ put_to. put_to ≤ length text.entry.now) }
    { read_in_turns(rt, text, piece, layout, pieces, columns) };
    let mut read = || -> Result<bool, ColumnFault>
        ensures bytes { OnOk result (HasGiven (R.remaining reader.entry.now)
            (R.remaining reader.exit.now) spare.entry.now.items spare.exit.now.items) }
        ensures end { IfOk result (λ is_end. is_end ≡ true → IsAtEnd (R.remaining reader.exit.now)) }
        ensures gave { GaveSome (R.remaining reader.entry.now) (R.remaining reader.exit.now) }
        ensures refused { IfErr result (λ fault. (fault ≡ ColumnFault.Read) ⊎ (fault ≡ ColumnFault.NoMemory)) }
        ensures read { IfErr result (λ fault. fault ≡ ColumnFault.Read
            → HasRisen (R.failures reader.entry.now) (R.failures reader.exit.now)) }
        ensures counts { R.failures reader.entry.now ≤ R.failures reader.exit.now }
    {
        // The other thread starts more. Linux may keep it waiting while this one is at work, up to four milliseconds.
        thread::yield_now();
        read_on(reader, spare, limit)
    };
    if is_alone {
        return (put(), read());
    }
    thread::join_mut(rt, &mut put, &mut read)
}

/// Puts the rows of the last round under the columns.
fn put_last<H: Threads + Sync>(
    rt: &H,
    alloc: Global,
    layout: &Layout,
    rounds: &mut Rounds,
    columns: &mut [Column],
) -> Result<(), ColumnFault>
    requires within { rounds.old.from ≤ vec_len rounds.old.bytes }
    requires fits { Fits layout.now (length columns.old) }
    requires even { AreEven (map named columns.old) }
    ensures put { (left : Option (List ℕ)) → IsPutBy layout.now left left (left_in rounds.old)
        (map named columns.old) result (map named columns.new) }
    ensures unread { IfErr result (λ fault. fault ≢ ColumnFault.Read) }
{
    let text = &rounds.bytes[rounds.from..];
    let pieces = rounds.pieces.as_mut_slice();
    let end = read_in_turns(rt, text, rounds.piece, layout, pieces, columns)?;
    put_rest(alloc, &text[end..], layout, columns)
}

/// A byte order mark. `csv` skips one at the start of a text.
pub(crate) const MARK: [u8; 3] = [0xEF, 0xBB, 0xBF];
