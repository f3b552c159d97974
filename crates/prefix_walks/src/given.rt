//! A walk that was kept, as the source of another one.

ghost use Rattle.std.specs.Prelude.{◌≡◌, [], length};
ghost use Rattle.trace.specs.Trace.{trace};
ghost use Rattle.sort_ops.specs.Ranges.{ordered};

use crate::kept::Kept;
use crate::scanned::ScannedWalk;
use sort_ops::SortedRuns;
use std::marker::Model;
use trace::{End, Item};

/// A walk that was kept, as the source of another one, in which any number of callers look for their positions.
///
/// Contracts see the trace of the walk that was kept. After a prefix it may borrow the sources of the job.
#[derive(Drop)]
pub struct GivenWalk<'a> {
    pub(crate) kept: Kept<'a>,
}

impl<'a> Model for GivenWalk<'a> {
    ghost use Rattle.trace.specs.Trace.{Trace};
    ghost use Rattle.prefix_walks.specs.Kept.{kept_walk};

    ghost Value = { Trace };

    ghost view = { λ given. kept_walk given.kept };
}

impl<'a> GivenWalk<'a> {
    /// A walk without items that ended so.
    pub fn ended(end: End) -> GivenWalk<'a>
        ensures { result ≡ trace [] end }
    {
        GivenWalk {
            kept: Kept::Ended(end),
        }
    }

    /// Keeps what a prefix gave.
    pub(crate) fn scanned(walk: ScannedWalk<'a>) -> GivenWalk<'a>
        ensures { result ≡ walk.entry }
    {
        GivenWalk {
            kept: Kept::Scanned(walk),
        }
    }

    /// Keeps items, and the end of the walk that has them.
    pub fn items(items: Vec<Item>, end: End) -> GivenWalk<'a>
        ensures { result ≡ trace items.items end }
    {
        GivenWalk {
            kept: Kept::Items(items, end),
        }
    }

    /// Keeps runs, for the walk that has their items in order, and its end.
    pub fn sorted(runs: SortedRuns, end: End) -> GivenWalk<'a>
        ensures { result ≡ trace (ordered runs.count runs.runs.items) end }
    {
        GivenWalk {
            kept: Kept::Sorted(runs, end),
        }
    }

    /// How the walk ended.
    pub fn end(&self) -> End
        ensures { result ≡ self.now.ending }
    {
        match &self.kept {
            Kept::Ended(end) => *end,
            Kept::Scanned(walk) => walk.end(),
            Kept::Items(_, end) | Kept::Sorted(_, end) => *end,
        }
    }

    /// How many items the walk has.
    pub fn size(&self) -> u64
        ensures { result ≡ length self.now.items }
    {
        match &self.kept {
            Kept::Ended(_) => 0,
            Kept::Scanned(walk) => walk.size(),
            Kept::Items(items, _) => items.len() as u64,
            Kept::Sorted(runs, _) => runs.count,
        }
    }
}
