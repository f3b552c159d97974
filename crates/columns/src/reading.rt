//! Column files, read whole or in rounds.
ghost use Rattle.std.specs.Prelude.{◌≡◌, ◌≢◌, ◌<◌, ◌≤◌, ◌⊎◌, [], ℕ, List};
ghost use Rattle.std.specs.Prelude.{IfErr, IfOk, IfSome, OnOk, length, map, drop};
ghost use Rattle.std.specs.Io.KnownBytes.{Consumes, IsAtEnd};
ghost use Rattle.counted_io.specs.CountedRead.{GaveSome};
ghost use Rattle.counted_io.specs.FailureCounts.{HasRisen};
ghost use Rattle.columns.specs.Cells.{IsAnswerTo};
ghost use Rattle.columns.specs.Fronts.{IsAnswerOf, IsFront, IsReadWhole};
ghost use Rattle.columns.specs.Layouts.{Fits, IsAnswerBy, form_of};
ghost use Rattle.columns.specs.TableForms.{AbstractForm};
ghost use Rattle.tables.specs.TableOfColumns.{named};
ghost use Rattle.columns.specs.TextRows.{HaveRows};

use crate::by_records::{columns_in, put_rest};
use crate::fault::ColumnFault;
use crate::header::{plain_header, without_mark};
use crate::layout::{Layout, TableForm};
use crate::round_bytes::{no_bytes, read_on};
use crate::rounds::columns_in_rounds;
use crate::team::{SHARE, Team};
use crate::text_rows::read_text_rows;
use counted_io::{CountedRead, ReadAllFault, read_all_of};
use std::alloc::Global;
use std::thread::Threads;
use tables::{Column, Columns};

/// How many threads parse a file at most: one thread reads it, and more wait for it.
const MOST_THREADS: usize = 16;

/// The columns of a file of comma-separated integers.
///
/// The bytes are read whole first, then their records: the first one is the header, whose fields are
/// the names as they stand, and each one after it is a row of numbers, counted from 1. One byte
/// order mark at the start is skipped, fields may be quoted, a record ends with LF, CR or CR LF,
/// and empty lines are no records. The whole file is held while it is read, and beside it 8 bytes
/// for each cell. Rows of numbers, bare or whole in quotes, are read where they stand; from the first other row on, the
/// file is read by its records. A read that fails otherwise than by an interruption is `Read`.
///
/// For other programs: `streamrun` reads on threads, by `read_columns_as`.
pub fn read_columns<R: CountedRead>(alloc: Global, reader: &mut R) -> Result<Columns, ColumnFault>
    // Of a reader whose bytes are known.
    ensures cells { IfSome (R.remaining reader.old) (λ bytes. IsAnswerTo bytes result) }
    ensures end { OnOk result (IsAtEnd (R.remaining reader.new)) }
    ensures gave { GaveSome (R.remaining reader.old) (R.remaining reader.new) }

    // Of every reader.
    ensures some_bytes { (bytes : List ℕ) × IsAnswerTo bytes result }
    ensures read { IfErr result (λ fault. fault ≡ ColumnFault.Read
        → HasRisen (R.failures reader.old) (R.failures reader.new)) }
    ensures counts { R.failures reader.old ≤ R.failures reader.new }
{
    let bytes = bytes_of(alloc, reader)?;
    let form = TableForm::of_integers(alloc);
    columns_alone(alloc, &bytes, &form)
}

/// The columns, or the fault, that `read_columns` gives, parsed on a thread for each worker, and on 16 at most.
///
/// The file is read in rounds: of each worker four pieces of some `piece` bytes, cut after line feeds. While the pieces
/// of one round are parsed, the bytes of the next one are read. A file of no more than a round is read whole first. Of
/// a longer file only these are held: the bytes of two rounds, room for their cells, and 8 bytes for each cell.
///
/// In each round threads are started twice: to parse its pieces, and to put the cells under the columns. One worker
/// reads and parses in turns: for it, and for a file of less than two pieces, no thread is started. If a row isn't
/// plain, all bytes from its round on are read whole and parsed on one thread: if the file is refused, or a number is
/// quoted in part.
///
/// For other programs: `streamrun` reads a table in the form that its settings ask for, by `read_columns_as`.
pub fn read_columns_by<H: Threads + Sync, R: CountedRead>(
    rt: &H,
    alloc: Global,
    reader: &mut R,
    workers: usize,
    piece: usize,
) -> Result<Columns, ColumnFault>
    // Of a reader whose bytes are known.
    ensures cells { IfSome (R.remaining reader.old) (λ bytes. IsAnswerTo bytes result) }
    ensures end { OnOk result (IsAtEnd (R.remaining reader.new)) }
    ensures gave { GaveSome (R.remaining reader.old) (R.remaining reader.new) }

    // Of every reader.
    ensures some_bytes { (bytes : List ℕ) × IsAnswerTo bytes result }
    ensures read { IfErr result (λ fault. fault ≡ ColumnFault.Read
        → HasRisen (R.failures reader.old) (R.failures reader.new)) }
    ensures counts { R.failures reader.old ≤ R.failures reader.new }
{
    let form = TableForm::of_integers(alloc);
    read_columns_as(rt, alloc, reader, workers, piece, &form)
}

/// The columns, or the fault, of a file that is read in this form, on threads as by `read_columns_by`.
///
/// All columns are looked at, or those alone that keys of the form name, in the order of the file: 256 at most, none of
/// them twice. A column is there under each key that names it, with the decimal places of the key, and as one of
/// integers if no key does. The cells of other columns may hold anything, and are skipped where they stand; a fault
/// says in which column of the file it is. Each row has as many cells as the header.
pub fn read_columns_as<H: Threads + Sync, R: CountedRead>(
    rt: &H,
    alloc: Global,
    reader: &mut R,
    workers: usize,
    piece: usize,
    form: &TableForm,
) -> Result<Columns, ColumnFault>
    // Of a reader whose bytes are known.
    ensures cells { IfSome (R.remaining reader.old) (λ bytes. IsAnswerBy (form_of form.now) bytes result) }
    ensures end { OnOk result (IsAtEnd (R.remaining reader.new)) }
    ensures gave { GaveSome (R.remaining reader.old) (R.remaining reader.new) }

    // Of every reader.
    ensures some_bytes { (bytes : List ℕ) × IsAnswerBy (form_of form.now) bytes result }
    ensures read { IfErr result (λ fault. fault ≡ ColumnFault.Read
        → HasRisen (R.failures reader.old) (R.failures reader.new)) }
    ensures counts { R.failures reader.old ≤ R.failures reader.new }
{
    let workers = workers.max(1).min(MOST_THREADS);
    // Of pieces without a byte a turn would read nothing.
    let piece = piece.max(1);
    let limit = piece.saturating_mul(SHARE * workers).max(1);
    let team = Team { rt, workers, piece };
    columns_up_to(&team, alloc, reader, limit, form)
}

/// The columns, or the fault, that `read_columns_as` gives. The first round has `limit` bytes at most.
fn columns_up_to<H: Threads + Sync, R: CountedRead>(
    team: &Team<'_, H>,
    alloc: Global,
    reader: &mut R,
    limit: usize,
    form: &TableForm,
) -> Result<Columns, ColumnFault>
    requires { 0 < limit }
    ensures answer { (gone : List ℕ) × Consumes (R.remaining reader.old) (R.remaining reader.new) gone
        × IsAnswerBy (form_of form.now) gone result }
    ensures end { IsReadWhole (R.remaining reader.new) result }
    ensures read { IfErr result (λ fault. fault ≡ ColumnFault.Read
        → HasRisen (R.failures reader.old) (R.failures reader.new)) }
    ensures counts { R.failures reader.old ≤ R.failures reader.new }
{
    let mut bytes = no_bytes(alloc, reader.likely_size().min(limit - 1) + 1);
    let is_last = read_on(reader, &mut bytes, limit)?;
    columns_in_rounds(team, alloc, reader, bytes, is_last, form)
}

/// The columns of some bytes, read on this thread alone.
fn columns_alone(alloc: Global, bytes: &[u8], form: &TableForm) -> Result<Columns, ColumnFault>
    ensures tells { IsAnswerBy (form_of form.now) bytes.now result }
    ensures unread { IfErr result (λ fault. fault ≢ ColumnFault.Read) }
{
    let Some((mut columns, layout, from)) = plain_header(alloc, bytes, bytes.len(), form) else {
        return columns_in(alloc, bytes, form);
    };
    put_text(
        alloc,
        without_mark(bytes),
        from,
        &layout,
        columns.as_mut_slice(),
    )?;
    Ok(Columns::of(columns))
}

/// Puts the rows of a text from `from` on under the columns, which have no cells yet.
fn put_text(
    alloc: Global,
    text: &[u8],
    from: usize,
    layout: &Layout,
    columns: &mut [Column],
) -> Result<(), ColumnFault>
    requires within { from ≤ length text.now }
    requires fits { Fits layout.now (length columns.old) }
    requires empty { HaveRows 0 (map named columns.old) }
    ensures put { (form : AbstractForm) → IsFront form layout.now text.now (drop from text.now) (map named columns.old)
        → IsAnswerOf form text.now result (map named columns.new) }
    ensures unread { IfErr result (λ fault. fault ≢ ColumnFault.Read) }
{
    let end = read_text_rows(text, from, text.len(), layout, columns);
    put_rest(alloc, &text[end..], layout, columns)
}

/// The bytes that a reader has left.
fn bytes_of<R: CountedRead>(alloc: Global, reader: &mut R) -> Result<Vec<u8>, ColumnFault>
    ensures bytes { IfOk result (λ all. IfSome (R.remaining reader.old) (λ left. all.items ≡ left)) }
    ensures end { OnOk result (IsAtEnd (R.remaining reader.new)) }
    ensures gave { GaveSome (R.remaining reader.old) (R.remaining reader.new) }
    ensures refused { IfErr result (λ fault. (fault ≡ ColumnFault.Read) ⊎ (fault ≡ ColumnFault.NoMemory)) }
    ensures read { IfErr result (λ fault. fault ≡ ColumnFault.Read
        → HasRisen (R.failures reader.old) (R.failures reader.new)) }
    ensures counts { R.failures reader.old ≤ R.failures reader.new }
{
    match read_all_of(alloc, reader) {
        Ok(bytes) => Ok(bytes),
        Err(ReadAllFault::Failed) => Err(ColumnFault::Read),
        Err(ReadAllFault::NoMemory) => Err(ColumnFault::NoMemory),
    }
}
