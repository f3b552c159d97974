//! A report that is being built.
ghost use Rattle.report.specs.AnswerForms.{further};
ghost use Rattle.report.specs.Numbers.{parted, separator_bytes};
ghost use Rattle.report.specs.Pieces.{bytes_of, draft_bytes};
ghost use Rattle.std.specs.Prelude.{◌≡◌, ◌≢◌, ◌<◌, ◌++◌, [], flat_map, IfOk, OnErr, OnOk};

use crate::NoMemory;
use crate::by_threads::others_by;
use crate::numbers::{split_first, write_number, write_others};
use crate::pieces::Report;
use crate::separator::Separator;
use job_meaning::Values;
use std::alloc::Global;
use std::mem;
use std::thread::Threads;

/// How many numbers are worth a thread: their text takes longer than starting one.
const WORTH_A_THREAD: usize = 32_768;

/// A report so far: pieces, and the one that grows.
#[derive(Drop)]
pub(crate) struct Draft {
    pub(crate) pieces: Vec<Vec<u8>>,
    pub(crate) last: Vec<u8>,
}

impl Draft {
    /// An empty draft. It takes no memory.
    pub(crate) fn new(alloc: Global) -> Draft
        ensures bytes { draft_bytes result ≡ [] }
        ensures pieces { result.pieces.items ≡ [] }
    {
        Draft {
            pieces: Vec::new(alloc),
            last: Vec::new(alloc),
        }
    }

    /// The report.
    pub(crate) fn finish(self) -> Result<Report, NoMemory>
        ensures ok { IfOk result (λ report. report ≡ draft_bytes self) }
        ensures err { OnErr result (self.pieces.items ≢ []) }
    {
        Report::of_pieces(self.pieces, self.last)
    }

    /// Adds the numbers of an array, with the separator between them. If they are many, the text of all but the first
    /// one is made in pieces, by a thread for each worker.
    pub(crate) fn add_numbers<H: Threads + Sync>(
        &mut self,
        rt: &H,
        workers: usize,
        separator: Separator,
        values: &Values,
    ) -> Result<(), NoMemory>
        ensures { OnOk result (draft_bytes self.new ≡ draft_bytes self.old ++ parted separator values.now) }
    {
        let Some((first, rest, pieces)) = split_first(values.pieces()) else {
            return Ok(());
        };
        write_number(&mut self.last, first)?;
        let count = count_of(rest, pieces);
        let threads = workers.min(count / WORTH_A_THREAD);
        if threads > 1 {
            let size = count.div_ceil(threads);
            return self.add_others(rt, separator, rest, pieces, size);
        }
        write_others(&mut self.last, separator, rest, pieces)
    }

    /// Adds the numbers after the first one, each after the separator: made on a thread for each `size` of them, or on
    /// this one if memory for that is refused.
    fn add_others<H: Threads + Sync>(
        &mut self,
        rt: &H,
        separator: Separator,
        rest: &[i64],
        pieces: &[Vec<i64>],
        size: usize,
    ) -> Result<(), NoMemory>
        ensures { OnOk result (draft_bytes self.new ≡ draft_bytes self.old
            ++ further (separator_bytes separator) (rest.now ++ flat_map (λ piece. piece.items) pieces.now)) }
    {
        let alloc = *self.last.allocator();
        if let Ok(texts) = others_by(rt, alloc, separator, rest, pieces, size)
            && self.pieces.reserve(texts.len().saturating_add(1)).is_ok()
        {
            return self.add_pieces(texts);
        }
        write_others(&mut self.last, separator, rest, pieces)
    }

    /// Adds pieces, for which there is room.
    fn add_pieces(&mut self, mut pieces: Vec<Vec<u8>>) -> Result<(), NoMemory>
        ensures { OnOk result
            (draft_bytes self.new ≡ draft_bytes self.old ++ flat_map (λ piece. piece.items) pieces.items) }
    {
        let none = Vec::new(*self.last.allocator());
        self.pieces.push(mem::replace(&mut self.last, none))?;
        self.pieces.append(&mut pieces)
    }
}

/// How many numbers there are, or the greatest `usize` if there are more. No text rests on it.
fn count_of(rest: &[i64], pieces: &[Vec<i64>]) -> usize {
    let mut count = rest.len();
    for piece in pieces {
        count = count.saturating_add(piece.len());
    }
    count
}
