//! Pieces: cut in two while they are long, and walked.
ghost use Rattle.std.specs.Prelude.{◌≡◌, ◌+◌, ◌<◌, ◌≤◌, IfErr, IfOk, IfSome};
ghost use Rattle.trace.specs.declared.item.Fault.{Fault};
ghost use Rattle.job_runner.specs.Cuts.{HandedIn, IfMerged, IsPieceOf, StandsWhole, begins, ends_at, positions_at};

use crate::NoMemory;
use crate::cut::{CutPiece, Join, LegPart, TableKept, TablePart, is_left, side_at};
use crate::legs::JobLegs;
use crate::nodes::longest_piece;
use crate::parts::part_of;
use crate::piece::Piece;
use crate::places::{kept_given, size_of};
use crate::task::{
    FinishedLeg, JobSeat, RunBrand, SideTask, TableFinishedLeg, TableJobSeat, TableSideTask,
    TableTask, Task,
};
use crate::tools::TableTools;
use crate::work::{JobWork, TableWork};
use completer_tree::{Failure, Forked, Half, Tree};
use std::marker::PhantomData;
use trace::Fault;
use worker_pool::{Gate, Spawn};

/// Walks a piece. What is handed in for it: its part, or the fault that ends it, if the job gives an answer in its
/// place. The watch then asks about its leg.
fn handed<S: JobLegs, R: RunBrand, G: Gate, P>(
    work: &TableWork<S, R>,
    piece: Piece,
    tools: &mut TableTools<'_, S, R, G, P>,
) -> TablePart<S>
    requires piece { IsPieceOf S.run piece }
    ensures handed { HandedIn S.run (λ x. x.found) piece.job piece.leg piece.from piece.to result }
    ensures caught { IfOk result (λ x.
        IfMerged (λ part. (fault : Fault) → S.run.is_caught piece.job piece.leg part fault → ⊥) ⊥ x.found) }
{
    let Ok(part) = part_of(work, piece, tools) else {
        return Err(Failure::NoMemory);
    };
    let Some(kept) = kept_given(&work.places, piece.job) else {
        return Err(Failure::NoMemory);
    };
    tools.watch.aim(piece.job, piece.leg);
    match work.jobs.fault(piece, &kept.given, &part) {
        Some(fault) => {
            tools.watch.settle(piece, &part);
            Err(Failure::Fault(fault))
        }
        None => Ok(LegPart::of_part(part)),
    }
}

/// Walks one side of a cut as one piece, and hands its part in.
#[tactic(auto, using(crate::proofs::SameRun::as_planned))]
fn leaf<S: JobLegs, R: RunBrand, G: Gate, P>(
    work: &TableWork<S, R>,
    side: TableSideTask<S, R>,
    tools: &mut TableTools<'_, S, R, G, P>,
) -> Option<TableFinishedLeg<S, R>>
    ensures { IfSome result (λ whole. StandsWhole S.run (λ x. x.found) whole.job.job whole.leg whole.part) }
{
    let Half { seat, place } = side.half;
    let cut = place.tag;
    let value = handed(work, side_at(&place), tools);
    let tree = Tree::new(&work.nodes.counts, &[]);
    let (seat, found) = tree.try_complete_with(seat, Some(place), value, &mut tools.watch);
    let Some(part) = found else {
        return None;
    };
    let begun = JobSeat {
        seat,
        job: cut.job,
        of: PhantomData,
    };
    Some(FinishedLeg {
        job: begun,
        leg: cut.leg,
        part,
    })
}

/// The most positions of a piece of a leg that isn't cut. A leg that turns out longer than it was counted with isn't
/// cut into more pieces than others, so that no worker spends all nodes on its beginning.
fn longest_of<S: JobLegs, R: RunBrand>(
    work: &TableWork<S, R>,
    job: usize,
    leg: usize,
    size: u64,
) -> u64
    requires known { (job < S.run.jobs) × (leg ≤ S.run.last job) }
    ensures { 0 < result }
{
    let values = work.jobs.likely_values(job, leg);
    longest_piece(work.settings, work.threshold, size, values)
}

impl<'a, S: JobLegs, R: RunBrand> JobWork<'a, S, TablePart<S>, TableKept<S>, R> {
    /// Cuts one side of a cut in two, if a node can be claimed. If not, the side comes back.
    #[tactic(auto, using(crate::proofs::SameRun::as_planned))]
    fn cut_side(
        &self,
        side: TableSideTask<S, R>,
    ) -> Result<(TableSideTask<S, R>, TableSideTask<S, R>), TableSideTask<S, R>>
        requires long { begins side.half.place.tag side.half.place.side + 1
            < ends_at side.half.place.tag side.half.place.side }
        ensures shorter { IfOk result (λ cut. (positions_at cut.0.half.place < positions_at side.half.place)
            × (positions_at cut.1.half.place < positions_at side.half.place)) }
    {
        let Half { seat, place } = side.half;
        let piece = side_at(&place);
        let run = Join {
            cut: CutPiece::halves(piece),
            parent: Some((place.tag, is_left(&place))),
            of: PhantomData,
        };
        let tree = Tree::new(&self.nodes.counts, &[]);
        match tree.fork(seat, Some(place), run) {
            Forked::Whole(seat, _run) => {
                let whole = SideTask {
                    half: Half { seat, place },
                    of: PhantomData,
                };
                Err(whole)
            }
            Forked::Split(left, right) => {
                let own = SideTask {
                    half: left,
                    of: PhantomData,
                };
                let other = SideTask {
                    half: right,
                    of: PhantomData,
                };
                Ok((own, other))
            }
        }
    }

    /// Walks one side of a cut. While it has more positions than `longest_of` says and a node can be claimed, it is cut
    /// in two, and the right side goes to the pool. `Some` is the whole leg, if this was its last part.
    #[cycle(walk)]
    #[tactic(auto, using(crate::proofs::SameRun::as_planned))]
    pub(crate) fn walk<G: Gate, P: Spawn<TableTask<S, R>>>(
        &self,
        side: TableSideTask<S, R>,
        tools: &mut TableTools<'_, S, R, G, P>,
    ) -> Option<TableFinishedLeg<S, R>>
        ensures { IfSome result (λ whole. StandsWhole S.run (λ x. x.found) whole.job.job whole.leg whole.part) }
    {
        let piece = side_at(&side.half.place);
        let size = size_of(&self.places, piece.job, piece.leg).unwrap_or(u64::MAX);
        let longest = longest_of(self, piece.job, piece.leg, size);
        if piece.to - piece.from <= longest || tools.watch.leaves_out(piece) {
            return leaf(self, side, tools);
        }
        match self.cut_side(side) {
            Ok((own, other)) => self.walk_both(own, other, tools),
            Err(whole) => leaf(self, whole, tools),
        }
    }

    /// Walks two sides of a cut: the second one goes to the pool, and is walked here if that has no room.
    #[cycle(walk)]
    fn walk_both<G: Gate, P: Spawn<TableTask<S, R>>>(
        &self,
        own: TableSideTask<S, R>,
        other: TableSideTask<S, R>,
        tools: &mut TableTools<'_, S, R, G, P>,
    ) -> Option<TableFinishedLeg<S, R>>
        ensures { IfSome result (λ whole. StandsWhole S.run (λ x. x.found) whole.job.job whole.leg whole.part) }
    {
        let pushed = tools.spawn.push(Task::Walk(other));
        let first = self.walk(own, tools);
        match pushed {
            Err(Task::Walk(other)) => first.or(self.walk(other, tools)),
            _ => first,
        }
    }
}

/// Walks a leg as one piece.
#[tactic(auto, using(crate::proofs::SameRun::as_planned))]
fn walk_whole<S: JobLegs, R: RunBrand, G: Gate, P>(
    work: &TableWork<S, R>,
    job: TableJobSeat<S, R>,
    leg: usize,
    size: u64,
    tools: &mut TableTools<'_, S, R, G, P>,
) -> TableFinishedLeg<S, R>
    requires known { leg ≤ R.last job.job }
    requires size { size ≡ R.size job.job leg }
    ensures { StandsWhole S.run (λ x. x.found) result.job.job result.leg result.part }
{
    let all = Piece::all(job.job, leg, size);
    let part = match part_of(work, all, tools) {
        Ok(part) => Ok(LegPart::of_part(part)),
        Err(_refused) => Err(Failure::NoMemory),
    };
    FinishedLeg { job, leg, part }
}

impl<'a, S: JobLegs, R: RunBrand> JobWork<'a, S, TablePart<S>, TableKept<S>, R> {
    /// Cuts a leg in two, at the top of its tree, if a node can be claimed. If not, the right to end the job comes
    /// back.
    #[tactic(auto, using(crate::proofs::SeatLemmas::can_keep, crate::proofs::SameRun::as_planned))]
    fn cut_leg(
        &self,
        begun: TableJobSeat<S, R>,
        leg: usize,
        size: u64,
    ) -> Result<(TableSideTask<S, R>, TableSideTask<S, R>), TableJobSeat<S, R>>
        requires known { leg ≤ R.last begun.job }
        requires size { size ≡ R.size begun.job leg }
        requires long { 1 < size }
        ensures same { IfErr result (λ back. back.job ≡ begun.job) }
    {
        let JobSeat { seat, job, of } = begun;
        let all = Piece::all(job, leg, size);
        let run = Join {
            cut: CutPiece::halves(all),
            parent: None,
            of: PhantomData,
        };
        let tree = Tree::new(&self.nodes.counts, &self.nodes.start(job).onward);
        match tree.fork(seat, None, run) {
            Forked::Whole(seat, _run) => {
                let whole = JobSeat { seat, job, of };
                Err(whole)
            }
            Forked::Split(left, right) => {
                let own = SideTask {
                    half: left,
                    of: PhantomData,
                };
                let other = SideTask {
                    half: right,
                    of: PhantomData,
                };
                Ok((own, other))
            }
        }
    }

    /// Begins the tree of a leg, for which this worker pays. `Some` is the whole leg, if no part of it is left to
    /// others.
    pub(crate) fn begin<G: Gate, P: Spawn<TableTask<S, R>>>(
        &self,
        begun: TableJobSeat<S, R>,
        leg: usize,
        size: u64,
        tools: &mut TableTools<'_, S, R, G, P>,
    ) -> Option<TableFinishedLeg<S, R>>
        requires known { leg ≤ R.last begun.job }
        requires size { size ≡ R.size begun.job leg }
        ensures { IfSome result (λ whole. StandsWhole S.run (λ x. x.found) whole.job.job whole.leg whole.part) }
    {
        if size <= longest_of(self, begun.job, leg, size) {
            return Some(walk_whole(self, begun, leg, size, tools));
        }
        let paid = self.nodes.pay(self.share, begun, &mut tools.spare);
        match self.cut_leg(paid, leg, size) {
            Ok((own, other)) => self.walk_both(own, other, tools),
            Err(begun) => Some(walk_whole(self, begun, leg, size, tools)),
        }
    }
}
