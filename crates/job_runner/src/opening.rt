//! The counts of a run, the openings of the jobs, and the seats of the workers.
ghost use Rattle.std.specs.Prelude.{◌≡◌, ◌<◌, ◌≤◌, [], length, IfOk, IfSome};
ghost use Rattle.pending_count.specs.Seats.{table_of, view_of, IsSeatOf};
ghost use Rattle.early_stop.specs.Seats.{IsSeatOf as IsStopSeatOf, table_of as stop_table_of, segments_of, count_of};
ghost use Rattle.job_runner.specs.Tasks.{HasStarts};
ghost use Rattle.run_settings.specs.SettingsParts.{workers_of};

use crate::NoMemory;
use crate::arming::arm_all;
use crate::cut::{CutPiece, TableCounts, TableKept, TablePart, TableSeat};
use crate::legs::JobLegs;
use crate::nodes::{leg_count, most_positions, node_count};
use crate::run_nodes::RunNodes;
use crate::start::Start;
use crate::stopping::{RunLegs, RunStops};
use crate::task::{Idle, RunBrand, Spare, TableIdle, TableSpare, TableTask, Task, UnopenedJobs};
use crate::work::JobWork;
use completion_core::END;
use early_stop::CutSeat;
use pending_count::{Counts, Fits, Seat};
use run_settings::Settings;
use std::alloc::Global;
use std::marker::PhantomData;

/// The counts of a run that hasn't begun, the start nodes of its jobs, and the seat that has an arrival at each of
/// them.
#[derive(Drop)]
pub struct FreshCounts<S: JobLegs, V, K: Fits<V, Tag = CutPiece>> {
    pub(crate) counts: Counts<V, K>,
    pub(crate) seat: Seat<V, K>,
    pub(crate) starts: Vec<Start>,
    pub(crate) stops: RunStops<S>,
    pub(crate) stop_seat: CutSeat,
    /// The most positions of a piece that isn't cut.
    pub(crate) longest: u64,
    ghost seated: { IsSeatOf counts seat },
    ghost started: { HasStarts 0 starts.items [] (view_of seat) },
    ghost stop_seated: { IsStopSeatOf stops stop_seat },
    ghost counted: { count_of stops ≡ (segments_of stops).count },
    ghost splits: { 0 < longest },
}

pub type TableFreshCounts<S> = FreshCounts<S, TablePart<S>, TableKept<S>>;

impl<S: JobLegs> FreshCounts<S, TablePart<S>, TableKept<S>> {
    /// Makes the counts of a run, and no more nodes than its jobs can use. `None` if there can't be a node for each
    /// job.
    pub fn new(
        alloc: Global,
        jobs: &S,
        settings: Settings,
    ) -> Result<Option<TableFreshCounts<S>>, NoMemory>
        ensures { IfOk result (λ o. IfSome o (λ opened. length opened.starts.items ≡ S.run.jobs)) }
    {
        let longest = most_positions(jobs, settings);
        let nodes = node_count(alloc, jobs, settings, longest)?;
        let (counts, seat) = TableCounts::<S>::new(alloc, nodes, jobs.jobs() as u64)?;
        let Some((seat, starts)) = arm_all(alloc, jobs, &counts, seat)? else {
            return Ok(None);
        };
        let (stops, stop_seat) = stop_words(alloc, jobs)?;
        Ok(Some(FreshCounts {
            counts,
            seat,
            starts,
            stops,
            stop_seat,
            longest,
        }))
    }
}

/// The words of early stop of a run, one for each leg.
fn stop_words<S: JobLegs>(alloc: Global, jobs: &S) -> Result<(RunStops<S>, CutSeat), NoMemory>
    ensures { IfOk result (λ made. IsStopSeatOf made.0 made.1 × (count_of made.0 ≡ (segments_of made.0).count)) }
{
    let legs = RunLegs::<S> {
        count: leg_count(jobs).min(u64::from(u32::MAX)) as u32,
        of: PhantomData,
    };
    RunStops::<S>::new(alloc, &legs)
}

impl<V, K: Fits<V, Tag = CutPiece>, R: RunBrand> RunNodes<V, K, R> {
    /// Tasks for the jobs that name no other one, the last job first.
    fn open_jobs(
        &self,
        alloc: Global,
        first: UnopenedJobs<V, K, R>,
    ) -> Result<Vec<Task<V, K, R>>, NoMemory>
        ensures { IfOk result (λ tasks. length tasks.items ≤ first.jobs) }
    {
        let mut tasks = Vec::new(alloc);
        let count = first.jobs;
        let mut unopened = first;
        for _opened in 0..count {
            let (rest, begun) = self.open_one(unopened);
            unopened = rest;
            if let Some(begun) = begun {
                tasks.push(Task::Begin(begun))?;
            }
        }
        Ok(tasks)
    }
}

impl<S: JobLegs, R: RunBrand> JobWork<'_, S, TablePart<S>, TableKept<S>, R> {
    /// What is left of both seats, and an `Idle` with its share of the credit, one of `parts` equal ones.
    fn idle_one(
        &self,
        credit: TableSpare<S, R>,
        stop_seat: CutSeat,
        parts: u64,
    ) -> (TableSpare<S, R>, CutSeat, TableIdle<S, R>)
        requires stops { stop_table_of stop_seat ≡ R.stops }
        requires parts { 0 < parts }
        ensures { stop_table_of result.1 ≡ R.stops }
    {
        let (credit, part) = self.nodes.split_spare(credit, parts);
        let Spare { seat, of } = part;
        let (seat, asking) = self.nodes.counts.split(seat, END, 0, 0);
        let (stop_seat, stop_part) = self.stops.split(stop_seat);
        let idle = Idle {
            seat: asking,
            spare: Some(Spare { seat, of }),
            stop_seat: stop_part,
            scratch: self.jobs.scratch(self.alloc),
            of: PhantomData,
        };
        (credit, stop_seat, idle)
    }

    /// An `Idle` for each worker, each with an equal part of the credit.
    fn idle_seats(
        &self,
        credit: TableSpare<S, R>,
        stop_seat: CutSeat,
    ) -> Result<Vec<TableIdle<S, R>>, NoMemory>
        requires stops { stop_table_of stop_seat ≡ R.stops }
        ensures { IfOk result (λ idles. length idles.items ≡ workers_of self.now.settings) }
    {
        let mut idles = Vec::new(self.alloc);
        let mut left = credit;
        let mut stop_left = stop_seat;
        let workers = self.settings.workers();
        for made in 0..workers {
            let (rest, stop_rest, idle) = self.idle_one(left, stop_left, workers - made);
            left = rest;
            stop_left = stop_rest;
            idles.push(idle)?;
        }
        Ok(idles)
    }

    /// Tasks for the jobs that name no other one, the last job first, and an `Idle` for each worker. Half of the credit
    /// is for the jobs, and an equal part of the other half for each worker.
    pub(crate) fn open_all(
        &self,
        seat: TableSeat<S>,
        stop_seat: CutSeat,
    ) -> Result<(Vec<TableTask<S, R>>, Vec<TableIdle<S, R>>), NoMemory>
        requires table { table_of seat ≡ R.table }
        requires started { HasStarts 0 self.now.nodes.starts.items [] (view_of seat) }
        requires stops { stop_table_of stop_seat ≡ R.stops }
        ensures tasks { IfOk result (λ made. length made.0.items ≤ R.jobs) }
        ensures idles { IfOk result (λ made. length made.1.items ≡ workers_of self.now.settings) }
    {
        let half = seat.credit() / 2;
        let (seat, other) = self.nodes.counts.split(seat, END, 0, half);
        let unopened = UnopenedJobs {
            seat,
            jobs: self.nodes.starts.len(),
            of: PhantomData,
        };
        let spare = Spare {
            seat: other,
            of: PhantomData,
        };
        let tasks = self.nodes.open_jobs(self.alloc, unopened)?;
        let idles = self.idle_seats(spare, stop_seat)?;
        Ok((tasks, idles))
    }
}
