//! New words of early stop, and the steps of their seats.
ghost use Rattle.std.specs.Prelude.{◌≡◌, ℕ, ◌+◌, ◌<◌, ◌≤◌, IfOk, replicate};
ghost use Rattle.early_stop.specs.Decisive.{IsDecisive};
ghost use Rattle.early_stop.specs.Cuts.{greatest, least, blank, rest_view, part_view};
ghost use Rattle.early_stop.specs.Cuts.{IsLowered, IsSeen, IsSplit, IsOpened};
ghost use Rattle.early_stop.specs.Seats.{view_of, actor_of, table_of, segments_of, count_of, IsSeatOf, IsSameSeat};

use crate::cut::{Cut, CutSeat};
use crate::rule::{CutActor, Lower, See, SplitPlaces};
use crate::segments::Segments;
use atomic_table::Table;
use std::alloc::{AllocError, Global};
use std::marker::Brand;

impl<S: Segments> Cut<S> {
    /// A word for each segment, which says that no place is known. `Err` if an allocation failed.
    pub fn new(alloc: Global, segments: &S) -> Result<(Cut<S>, CutSeat), AllocError>
        ensures seat { IfOk result (λ c. IsSeatOf c.0 c.1 × (segments_of c.0 ≡ segments.now)
            × (count_of c.0 ≡ S.count segments.now) × (view_of c.1 ≡ blank)) }
        ensures opened { IfOk result
            (λ c. IsOpened (λ i. IsDecisive (S.outcome segments.now i) (S.source segments.now i))
            (S.count segments.now + 1) (view_of c.1)) }
    {
        let mut words = Vec::new(alloc);
        let count = segments.segments();
        words.resize(count as usize + 1, u64::MAX)?;
        let (table, token) = Table::of_words(alloc, words.as_slice(), segments)?;
        let cut = Cut {
            table,
            segments: count,
        };
        Ok((cut, CutSeat { token }))
    }

    /// A second seat, which has lowered nothing and knows what this one knows. No word changes. One load.
    pub fn split(&self, seat: CutSeat) -> (CutSeat, CutSeat)
        requires table { IsSeatOf self.now seat }
        ensures seat { IsSameSeat seat result.0 × (table_of result.1 ≡ table_of seat) }
        ensures parts { (view_of result.0 ≡ rest_view (view_of seat)) × (view_of result.1 ≡ part_view (view_of seat)) }
        ensures split { IsSplit
            (λ i. IsDecisive (S.outcome (segments_of self.now) i) (S.source (segments_of self.now) i))
            (S.count (segments_of self.now) + 1) (view_of seat) (view_of result.0) (view_of result.1) }
    {
        let CutSeat { mut token } = seat;
        let part = self.table.shared.split_seat::<SplitPlaces>(&mut token);
        (CutSeat { token }, CutSeat { token: part })
    }

    /// Lowers the segment's word to the place, if it isn't lower already. One `fetch_min`.
    ///
    /// For other programs: `streamrun` calls `lower_with`.
    pub fn lower(&self, seat: CutSeat, segment: u32, place: u64) -> CutSeat
        requires table { IsSeatOf self.now seat }
        requires segment { (segment < count_of self.now) × (count_of self.now ≡ S.count (segments_of self.now)) }
        requires decisive { IsDecisive (S.outcome (segments_of self.now) segment)
            (S.source (segments_of self.now) segment) place }
        ensures seat { IsSameSeat seat result }
        ensures lowered { IsLowered
            (λ i. IsDecisive (S.outcome (segments_of self.now) i) (S.source (segments_of self.now) i))
            (S.count (segments_of self.now) + 1) (actor_of seat) segment place (view_of seat) (view_of result) }
    {
        let mut seat = seat;
        self.lower_with(&mut seat, segment, place);
        seat
    }

    /// Lowers the segment's word to the place, if it isn't lower already. One `fetch_min`. The seat stays where it is.
    pub fn lower_with(&self, seat: &mut CutSeat, segment: u32, place: u64)
        requires table { IsSeatOf self.now seat.old }
        requires segment { (segment < count_of self.now) × (count_of self.now ≡ S.count (segments_of self.now)) }
        requires decisive { IsDecisive (S.outcome (segments_of self.now) segment)
            (S.source (segments_of self.now) segment) place }
        ensures seat { IsSameSeat seat.old seat.new }
        ensures lowered { IsLowered (λ i. IsDecisive (S.outcome (segments_of self.now) i)
            (S.source (segments_of self.now) i)) (S.count (segments_of self.now) + 1) (actor_of seat.old) segment place
            (view_of seat.old) (view_of seat.new) }
    {
        self.lower_by::<Brand>(seat, segment, place)
    }

    fn lower_by<A: CutActor>(&self, seat: &mut CutSeat, segment: u32, place: u64)
        requires table { IsSeatOf self.now seat.old }
        requires segment { (segment < count_of self.now) × (count_of self.now ≡ S.count (segments_of self.now)) }
        requires decisive { A.decides segment place }
        requires picked { (A.words ≡ S.count (segments_of self.now) + 1) × (A.actor ≡ actor_of seat.old) }
        requires rule { (i p : ℕ)
            → (A.decides i p → IsDecisive (S.outcome (segments_of self.now) i) (S.source (segments_of self.now) i) p)
            × (IsDecisive (S.outcome (segments_of self.now) i) (S.source (segments_of self.now) i) p → A.decides i p) }
        ensures seat { IsSameSeat seat.old seat.new }
        ensures lowered { IsLowered A.decides A.words A.actor segment place (view_of seat.old) (view_of seat.new) }
    {
        self.table
            .shared
            .fetch_min::<Lower<A>>(&mut seat.token, segment as usize, place);
    }

    /// The segment's word: a place that decides what the segment gives, and is no greater than what the seat knows; the
    /// greatest u64 if no place is known. One load.
    ///
    /// For other programs: `streamrun` calls `seen_with`.
    pub fn seen(&self, seat: CutSeat, segment: u32) -> (CutSeat, u64)
        requires table { IsSeatOf self.now seat }
        requires segment { (segment < count_of self.now) × (count_of self.now ≡ S.count (segments_of self.now)) }
        ensures seat { IsSameSeat seat result.0 }
        ensures decisive { IsDecisive (S.outcome (segments_of self.now) segment)
            (S.source (segments_of self.now) segment) result.1 }
        ensures known { result.1 ≤ least segment (view_of seat).known }
        ensures seen { IsSeen (λ i. IsDecisive (S.outcome (segments_of self.now) i) (S.source (segments_of self.now) i))
            (S.count (segments_of self.now) + 1) (actor_of seat) segment (view_of seat) result.1 (view_of result.0) }
    {
        let mut seat = seat;
        let place = self.seen_with(&mut seat, segment);
        (seat, place)
    }

    /// The segment's word: a place that decides what the segment gives, and is no greater than what the seat knows; the
    /// greatest u64 if no place is known. One load. The seat stays where it is.
    pub fn seen_with(&self, seat: &mut CutSeat, segment: u32) -> u64
        requires table { IsSeatOf self.now seat.old }
        requires segment { (segment < count_of self.now) × (count_of self.now ≡ S.count (segments_of self.now)) }
        ensures seat { IsSameSeat seat.old seat.new }
        ensures decisive { IsDecisive (S.outcome (segments_of self.now) segment)
            (S.source (segments_of self.now) segment) result }
        ensures known { result ≤ least segment (view_of seat.old).known }
        ensures seen { IsSeen (λ i. IsDecisive (S.outcome (segments_of self.now) i) (S.source (segments_of self.now) i))
            (S.count (segments_of self.now) + 1) (actor_of seat.old) segment (view_of seat.old) result
            (view_of seat.new) }
    {
        self.seen_by::<Brand>(seat, segment)
    }

    fn seen_by<A: CutActor>(&self, seat: &mut CutSeat, segment: u32) -> u64
        requires table { IsSeatOf self.now seat.old }
        requires segment { (segment < count_of self.now) × (count_of self.now ≡ S.count (segments_of self.now)) }
        requires picked { (A.words ≡ S.count (segments_of self.now) + 1) × (A.actor ≡ actor_of seat.old) }
        requires rule { (i p : ℕ)
            → (A.decides i p → IsDecisive (S.outcome (segments_of self.now) i) (S.source (segments_of self.now) i) p)
            × (IsDecisive (S.outcome (segments_of self.now) i) (S.source (segments_of self.now) i) p → A.decides i p) }
        ensures seat { IsSameSeat seat.old seat.new }
        ensures seen { IsSeen A.decides A.words A.actor segment (view_of seat.old) result (view_of seat.new) }
    {
        self.table
            .shared
            .load::<See<A>>(&mut seat.token, segment as usize)
    }

    /// How many words there are.
    pub fn segments(&self) -> u32
        ensures { result ≡ count_of self.now }
    {
        self.segments
    }
}
