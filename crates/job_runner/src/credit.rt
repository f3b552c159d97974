//! The credit of the workers: what pays for the nodes of the trees that they begin.
ghost use Rattle.std.specs.Prelude.{◌≡◌, ◌+◌, ◌-◌, ◌^◌, ◌<◌, ◌≤◌, min, IfSome};
ghost use Rattle.pending_count.specs.Seats.{view_of};

use crate::cut::CutPiece;
use crate::run_nodes::RunNodes;
use crate::task::{JobSeat, RunBrand, Spare};
use completion_core::END;
use pending_count::Fits;
use std::marker::PhantomData;

impl<V, K: Fits<V, Tag = CutPiece>, R: RunBrand> RunNodes<V, K, R> {
    /// Splits one of that many equal parts off a worker's credit.
    pub(crate) fn split_spare(
        &self,
        spare: Spare<V, K, R>,
        parts: u64,
    ) -> (Spare<V, K, R>, Spare<V, K, R>)
        requires parts { 0 < parts }
    {
        let Spare { seat, of } = spare;
        let share = seat.credit() / parts;
        let (seat, part) = self.counts.split(seat, END, 0, share);
        let rest = Spare { seat, of };
        let part = Spare {
            seat: part,
            of: PhantomData,
        };
        (rest, part)
    }

    /// Gives a job the credit for one more tree, this share or what is left of the credit of the worker that begins it.
    pub(crate) fn pay(
        &self,
        most: u64,
        begun: JobSeat<V, K, R>,
        spare: &mut Option<Spare<V, K, R>>,
    ) -> JobSeat<V, K, R>
        ensures job { result.job ≡ begun.job }
        ensures paid { IfSome spare.old (λ s. (view_of result.seat).credit
            ≡ min ((view_of begun.seat).credit + min most (view_of s.seat).credit) (2 ^ 62)) }
        ensures left { IfSome spare.old (λ s. IfSome spare.new (λ t. (view_of t.seat).credit
            ≡ (view_of s.seat).credit - min most (view_of s.seat).credit)) }
    {
        let Some(own) = spare.take() else {
            return begun;
        };
        let Spare { seat: credit, of } = own;
        let share = most.min(credit.credit());
        let (rest, part) = self.counts.split(credit, END, 0, share);
        let rest = Spare { seat: rest, of };
        *spare = Some(rest);
        let JobSeat { seat, job, of } = begun;
        let seat = self.counts.join(seat, part);
        JobSeat { seat, job, of }
    }
}
