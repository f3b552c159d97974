//! What a leg gives to the next one.

ghost use Rattle.std.specs.Prelude.{◌≡◌, ◌<◌, ◌^◌, length};
ghost use Rattle.trace.specs.Trace.{Trace};
ghost use Rattle.job_language.specs.Jobs.{sources_of};
ghost use Rattle.job_meaning.specs.Walks.{source_walk};
ghost use Rattle.job_routes.specs.Legs.{leg_in, leg_walk, left_after, left_by_search, side_of, unfound, windowed};

use job_language::PlainSource;
use job_meaning::Answer;
use job_routes::{Leg, PlaceSide, SegmentEnd};
use prefix_walks::{GivenWalk, Window};
use std::marker::Model;
use trace::End;

/// What a leg gives to the next one: a walk that was kept, or positions of sources. Contracts see its walk.
#[derive(Drop)]
pub struct Given<'a, 'c> {
    pub(crate) walk: GivenWalk<'a>,
    pub(crate) sources: &'a [PlainSource<'c>],
    /// Positions of the sources; then the walk has nothing.
    pub(crate) window: Option<Window>,
}

impl<'a, 'c> Model for Given<'a, 'c> {
    ghost use Rattle.trace.specs.Trace.{Trace};
    ghost use Rattle.job_plan.specs.Bases.{given_in};

    ghost Value = { Trace };

    ghost view = { λ given. given_in given.window given.sources.now given.walk };
}

/// The positions of a window on one side of its position with this number.
fn side_of(window: Window, side: PlaceSide, count: u64) -> Window
    ensures { (t : Trace) → length t.items < 2 ^ 64
        → windowed result.from result.to t ≡ side_of side count (windowed window.from window.to t) }
{
    match side {
        PlaceSide::Before => window.within(0, Some(count)),
        PlaceSide::From => window.within(count, None),
    }
}

impl<'a, 'c> Given<'a, 'c> {
    /// Of a leg that gives a walk.
    pub fn walk(walk: GivenWalk<'a>) -> Given<'a, 'c>
        ensures { result ≡ walk.entry }
    {
        Given {
            walk,
            sources: &[],
            window: None,
        }
    }

    /// Of a search over these sources with this answer.
    pub fn searched(
        sources: &'a [PlainSource<'c>],
        leg: &Leg,
        side: PlaceSide,
        answer: Answer,
    ) -> Given<'a, 'c>
        ensures { result ≡ left_after side (leg_in leg.now) answer (source_walk (sources_of sources.now)) }
    {
        if matches!(leg.last.end, SegmentEnd::ExactSum) {
            return Given::walk(GivenWalk::ended(End::Done));
        }
        Given::left(sources, leg, side, answer)
    }

    /// What a search leaves that has this answer.
    fn left(
        sources: &'a [PlainSource<'c>],
        leg: &Leg,
        side: PlaceSide,
        answer: Answer,
    ) -> Given<'a, 'c>
        ensures { result ≡ left_by_search side leg.now.window.from answer
            (leg_walk (leg_in leg.now) (source_walk (sources_of sources.now))) }
    {
        match answer {
            Answer::Optional(Some(place)) => {
                let count = place.unsigned_abs().saturating_sub(leg.window.from);
                Given::positions(sources, side_of(leg.window, side, count))
            }
            other => Given::unfound(sources, leg, side, other),
        }
    }

    /// Positions of sources.
    fn positions(sources: &'a [PlainSource<'c>], window: Window) -> Given<'a, 'c>
        ensures { result ≡ windowed window.from window.to (source_walk (sources_of sources.now)) }
    {
        Given {
            walk: GivenWalk::ended(End::Done),
            sources,
            window: Some(window),
        }
    }

    /// Of a search that found no place.
    fn unfound(
        sources: &'a [PlainSource<'c>],
        leg: &Leg,
        side: PlaceSide,
        answer: Answer,
    ) -> Given<'a, 'c>
        ensures { result ≡ unfound side answer (leg_walk (leg_in leg.now) (source_walk (sources_of sources.now))) }
    {
        if matches!(side, PlaceSide::Before) {
            return Given::positions(sources, leg.window);
        }
        match answer {
            Answer::Fault(fault) => Given::walk(GivenWalk::ended(End::Fault(fault))),
            _ => Given::walk(GivenWalk::ended(End::Done)),
        }
    }
}
