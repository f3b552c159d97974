//! Where a piece is cut in two, and how the parts of the two sides are joined.
ghost use Rattle.std.specs.Prelude.{◌≡◌, ◌≢◌, ◌+◌, ◌-◌, ◌<◌, ◌≤◌, ℕ, Some, None, IfOk};
ghost use Rattle.trace.specs.declared.item.Fault.{Fault};
ghost use Rattle.pending_count.specs.Pairs.{side_of};
ghost use Rattle.pending_count.specs.declared.place.Side.TheVariants.{Whole};
ghost use Rattle.job_runner.specs.Cuts.{begins, ends_at, Fits, IsPiece, IsSideOf, StandsWhole};
ghost use Rattle.job_runner.specs.Cuts.{stands_moved, stands_whole};

use crate::legs::JobLegs;
use crate::piece::Piece;
use completer_tree::{Completer, Continuation, Failure, Handed, PartValue, TreeCounts, TreeSeat};
use pending_count::{Place, Side};
use std::marker::PhantomData;

/// A piece of a leg of a job that is cut in two: the left side is the positions before `middle`.
#[derive(Clone, Copy)]
pub struct CutPiece {
    pub job: usize,
    pub leg: usize,
    pub from: u64,
    pub middle: u64,
    pub to: u64,
}

impl CutPiece {
    /// A cut in the middle. If the two sides can't be equally long, the right one is one longer.
    pub(crate) fn halves(piece: Piece) -> CutPiece
        requires { piece.from + 1 < piece.to }
        ensures of { (result.job ≡ piece.job) × (result.leg ≡ piece.leg) × (result.from ≡ piece.from)
            × (result.to ≡ piece.to) }
        ensures within { (result.from < result.middle) × (result.middle < result.to) }
        ensures middle { (result.middle - piece.from ≤ piece.to - result.middle)
            × (piece.to - result.middle ≤ result.middle - piece.from + 1) }
    {
        let Piece { job, leg, from, to } = piece;
        CutPiece {
            job,
            leg,
            from,
            middle: from + (to - from) / 2,
            to,
        }
    }
}

/// Whether a place is on the left side of a cut.
pub(crate) fn is_left(place: &Place<CutPiece>) -> bool
    requires { place.now.side ≢ Whole }
    ensures { place.now.side ≡ side_of result }
{
    place.side == Side::Left
}

/// One side of a cut.
pub(crate) fn side_at(place: &Place<CutPiece>) -> Piece
    requires { place.now.side ≢ Whole }
    ensures of { (result.job ≡ place.now.tag.job) × (result.leg ≡ place.now.tag.leg) }
    ensures positions { (result.from ≡ begins place.now.tag place.now.side)
        × (result.to ≡ ends_at place.now.tag place.now.side) }
{
    let cut = place.tag;
    let (from, to) = if is_left(place) {
        (cut.from, cut.middle)
    } else {
        (cut.middle, cut.to)
    };
    Piece {
        job: cut.job,
        leg: cut.leg,
        from,
        to,
    }
}

/// What comes of pieces that were merged.
#[derive(Drop)]
pub enum Merged<P> {
    /// The part that they were merged to.
    Part(P),
    /// At the top of a tree: a piece has a fault, and the job gives another answer after it.
    Caught,
}

/// A part as completion trees see it.
#[derive(Drop)]
pub struct LegPart<S: JobLegs> {
    pub(crate) found: Merged<S::Part>,
    pub(crate) of: PhantomData<S>,
}

impl<S: JobLegs> LegPart<S> {
    /// A part that is handed in.
    pub(crate) fn of_part(part: S::Part) -> LegPart<S>
        ensures { result.found ≡ Merged.Part part }
    {
        LegPart {
            found: Merged::Part(part),
            of: PhantomData,
        }
    }
}

impl<S: JobLegs> PartValue for LegPart<S> {
    type Tag = CutPiece;

    ghost fits = { λ cut side v. Fits S.run (λ x. x.found) cut side v };

    ghost result = { λ cut v. StandsWhole S.run (λ x. x.found) cut.job cut.leg v };
}

/// Merges the parts of the two sides of a cut. A fault on a side goes on to the parent; at the top of a tree it is
/// caught.
#[derive(Drop)]
pub struct Join<S: JobLegs> {
    pub(crate) cut: CutPiece,
    pub(crate) parent: Option<(CutPiece, bool)>,
    pub(crate) of: PhantomData<S>,
    ghost piece: { IsPiece S.run.jobs S.run.last S.run.size cut.job cut.leg cut.from cut.to },
    ghost within: { (cut.from < cut.middle) × (cut.middle < cut.to) },
    ghost side: { (p : _) → parent ≡ Some p → IsSideOf cut p },
    ghost top: { parent ≡ None → (cut.from ≡ 0) × (cut.to ≡ S.run.size cut.job cut.leg) },
}

impl<S: JobLegs> Continuation<LegPart<S>> for Join<S> {
    ghost tag_of = { λ c. c.cut };

    ghost goes_to = { λ c. c.parent };

    ghost leads = { λ c p e v h. stands_moved S.run (λ x. x.found) v (c.side p e).0 (c.side p e).1 h };

    ghost ends = { λ c e v h.
        stands_whole S.run (λ x. x.found) v c.cut.job c.cut.leg (c.top e).0 (c.top e).1 h };

    fn tag(&self) -> CutPiece {
        self.cut
    }

    fn goes_to(&self) -> Option<(CutPiece, bool)> {
        self.parent
    }

    fn on_completion(self, left: LegPart<S>, right: LegPart<S>) -> Handed<LegPart<S>> {
        let Merged::Part(left) = left.found else {
            unreachable!()
        };
        let Merged::Part(right) = right.found else {
            unreachable!()
        };
        match S::merge(self.cut, left, right) {
            Ok(part) => Ok(LegPart::of_part(part)),
            Err(_refused) => Err(Failure::NoMemory),
        }
    }

    fn on_exceptional_completion(self, failure: Failure) -> Handed<LegPart<S>> {
        let Failure::Fault(_) = failure else {
            return Err(failure);
        };
        if self.parent.is_some() {
            return Err(failure);
        }
        Ok(LegPart {
            found: Merged::Caught,
            of: PhantomData,
        })
    }
}

/// The counts of a run.
pub type TableCounts<S> = TreeCounts<LegPart<S>, Join<S>>;

/// A seat of them.
pub type TableSeat<S> = TreeSeat<LegPart<S>, Join<S>>;

/// What a pair of them keeps.
pub type TableKept<S> = Completer<LegPart<S>, Join<S>>;

/// What is handed in at a place.
pub type TablePart<S> = Handed<LegPart<S>>;
