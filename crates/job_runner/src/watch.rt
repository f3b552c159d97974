//! What a worker asks the words of early stop before it walks, and when it lowers them.
ghost use Rattle.std.specs.Prelude.{◌≡◌, ◌-◌, ◌^◌, ◌<◌, ◌≤◌, ℕ, true};
ghost use Rattle.early_stop.specs.Decisive.{IsDecisive};
ghost use Rattle.early_stop.specs.Seats.{table_of as stop_table_of, segments_of, count_of};
ghost use Rattle.job_runner.specs.Cuts.{Stands};
ghost use Rattle.job_runner.specs.Runs.{DecidesIn, pair_at, stop_id_of};

use crate::cut::{CutPiece, LegPart, Merged, TablePart, side_at};
use crate::legs::JobLegs;
use crate::piece::Piece;
use crate::places::{JobPlaces, size_of, word_of};
use crate::stopping::RunStops;
use crate::task::RunBrand;
use completer_tree::Looker;
use early_stop::{CutSeat, Stop};
use pending_count::{Place, Side};
use std::marker::PhantomData;
use std::thread::yield_now;
use worker_pool::Gate;

/// A worker's seat at the words of early stop, the leg that it asks about, if it has a word, and the gate that is
/// called as it asks on its way.
#[derive(Drop)]
pub struct Watch<'w, 'g, S: JobLegs, R: RunBrand, G> {
    pub(crate) gate: &'g G,
    pub(crate) jobs: &'w S,
    pub(crate) places: &'w [JobPlaces<S>],
    pub(crate) stops: &'w RunStops<S>,
    pub(crate) seat: CutSeat,
    pub(crate) job: usize,
    pub(crate) leg: usize,
    pub(crate) word: u32,
    pub(crate) of: PhantomData<R>,
    ghost seated: { (stop_table_of seat ≡ R.stops) × (stop_id_of stops.now ≡ R.stops) },
    ghost counted: { count_of stops.now ≡ (segments_of stops.now).count },
    ghost named: { word < 2 ^ 32 - 1 → (pair_at S.run.last S.run.jobs word ≡ (job, leg)) × (job < S.run.jobs)
        × (leg ≤ S.run.last job) },
}

impl<S: JobLegs, R: RunBrand, G> Watch<'_, '_, S, R, G> {
    /// From here on the leg is asked about.
    pub(crate) fn aim(&mut self, job: usize, leg: usize)
        requires known { (job < S.run.jobs) × (leg ≤ S.run.last job) }
        ensures { (self.new.job ≡ job) × (self.new.leg ≡ leg) }
    {
        self.word = word_of(self.places, job, leg);
        self.job = job;
        self.leg = leg;
    }

    /// A place that decides what the leg gives; the greatest u64 if none is known. One load.
    pub(crate) fn seen(&mut self) -> u64
        ensures decisive { IsDecisive (S.run.gives self.old.job self.old.leg)
            (S.run.goes_over self.old.job self.old.leg) result }
        ensures same { (self.new.job ≡ self.old.job) × (self.new.leg ≡ self.old.leg) }
    {
        if self.word < self.stops.segments() {
            self.stops.seen_with(&mut self.seat, self.word)
        } else {
            u64::MAX
        }
    }

    /// Whether a place at or before the first position of a piece is known to decide what its leg gives. From here on
    /// that leg is asked about.
    pub(crate) fn leaves_out(&mut self, piece: Piece) -> bool
        requires known { (piece.job < S.run.jobs) × (piece.leg ≤ S.run.last piece.job) }
        ensures decided { result ≡ true
            → (c : ℕ) × (c ≤ piece.from) × DecidesIn S.run piece.job piece.leg c }
        ensures aimed { (self.new.job ≡ piece.job) × (self.new.leg ≡ piece.leg) }
    {
        self.aim(piece.job, piece.leg);
        let seen = self.seen();
        if seen <= piece.from && seen != u64::MAX {
            return true;
        }
        false
    }

    /// Lowers the word of the leg to a place that decides what it gives. One `fetch_min`.
    fn lower(&mut self, place: u64)
        requires decisive { DecidesIn S.run self.old.job self.old.leg place }
    {
        if self.word < self.stops.segments() {
            self.stops.lower_with(&mut self.seat, self.word, place);
        }
    }

    /// Lowers the word of the leg to the end of a piece with this part, if nothing after that matters.
    pub(crate) fn settle(&mut self, piece: Piece, part: &S::Part)
        requires known { (piece.job < S.run.jobs) × (piece.leg ≤ S.run.last piece.job) }
        requires aimed { (self.old.job ≡ piece.job) × (self.old.leg ≡ piece.leg) }
        requires part { Stands S.run piece part.now }
    {
        let Some(size) = size_of(self.places, piece.job, piece.leg) else {
            return;
        };
        if piece.from <= piece.to && piece.to < size && self.jobs.is_settled(piece, part) {
            self.lower(piece.to);
        }
    }
}

impl<S: JobLegs, R: RunBrand, G: Gate> Stop for Watch<'_, '_, S, R, G> {
    ghost decides = { λ w c. DecidesIn S.run w.job w.leg c };

    fn place(&mut self) -> u64 {
        // With more workers than processors, the one that knows the place may be waiting for this worker's processor.
        yield_now();
        self.gate.at_stretch(self.job);
        self.seen()
    }
}

impl<S: JobLegs, R: RunBrand, G> Looker<LegPart<S>> for Watch<'_, '_, S, R, G> {
    fn look(&mut self, at: &Place<CutPiece>, value: &TablePart<S>) {
        if self.word == u32::MAX
            || at.side == Side::Whole
            || at.tag.job != self.job
            || at.tag.leg != self.leg
        {
            return;
        }
        let Ok(handed) = value else {
            return;
        };
        if let Merged::Part(part) = &handed.found {
            self.settle(side_at(at), part);
        }
    }
}
