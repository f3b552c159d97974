//! The jobs of a run as work for a pool.
ghost use Rattle.std.specs.Prelude.{◌≡◌, ◌-◌, ◌<◌, ◌≤◌, ℕ, Some, length, IfSome, IfOk};
ghost use Rattle.run_settings.specs.SettingsParts.{workers_of};
ghost use Rattle.pending_count.specs.Seats.{actor_of, view_of};
ghost use Rattle.completer_tree.specs.Trees.{table_id_of};
ghost use Rattle.early_stop.specs.Seats.{table_of as stop_table_of, segments_of, count_of};
ghost use Rattle.job_runner.specs.Runs.{stop_id_of};
ghost use Rattle.job_runner.specs.Tasks.{kept_at, node_at};

use crate::NoMemory;
use crate::cut::{CutPiece, TableKept, TablePart};
use crate::legs::JobLegs;
use crate::nodes::leg_count;
use crate::opening::{FreshCounts, TableFreshCounts};
use crate::places::{JobPlaces, empty_places, kept_answer};
use crate::run_nodes::RunNodes;
use crate::stopping::RunStops;
use crate::task::{Idle, RunBrand, TableIdle, TableTask};
use crate::tools::Tools;
use crate::watch::Watch;
use early_stop::CutSeat;
use pending_count::Fits;
use run_settings::Settings;
use std::alloc::Global;
use std::marker::PhantomData;
use std::sync::Wait;
use worker_pool::{Gate, Spawn, Work};

/// All jobs of a run, over one table of counts.
#[derive(Drop)]
pub struct JobWork<'a, S: JobLegs, V, K: Fits<V, Tag = CutPiece>, R: RunBrand> {
    pub(crate) alloc: Global,
    pub(crate) nodes: RunNodes<V, K, R>,
    pub(crate) jobs: &'a S,
    pub(crate) threshold: u64,
    pub(crate) settings: Settings,
    /// What a worker pays for each tree that it begins.
    pub(crate) share: u64,
    pub(crate) places: Vec<JobPlaces<S>>,
    pub(crate) stops: RunStops<S>,
    ghost planned: { (R.jobs ≡ S.run.jobs) × ((j : ℕ) → R.last j ≡ S.run.last j)
        × ((j k : ℕ) → R.size j k ≡ S.run.size j k) },
    ghost splits: { 0 < threshold },
    ghost stopping: { stop_id_of stops ≡ R.stops },
    ghost counted: { count_of stops ≡ (segments_of stops).count },
}

pub type TableWork<'a, S, R> = JobWork<'a, S, TablePart<S>, TableKept<S>, R>;

impl<'a, S: JobLegs, R: RunBrand> JobWork<'a, S, TablePart<S>, TableKept<S>, R> {
    /// The work of a run, with what a pool takes for it: a task for each job that names no other one, and an `Idle` for
    /// each worker.
    pub fn new(
        alloc: Global,
        jobs: &'a S,
        settings: Settings,
        opened: TableFreshCounts<S>,
    ) -> Result<
        (
            TableWork<'a, S, R>,
            Vec<TableTask<S, R>>,
            Vec<TableIdle<S, R>>,
        ),
        NoMemory,
    >
        requires count { length opened.starts.items ≡ S.run.jobs }
        requires started { (j : ℕ) → (R.start j ≡ node_at opened.starts.items (R.jobs - 1 - j))
            × (R.keeps j ≡ kept_at opened.starts.items (R.jobs - 1 - j)) }
        requires table { table_id_of opened.counts ≡ R.table }
        requires stops { stop_id_of opened.stops ≡ R.stops }
        requires planned { (R.jobs ≡ S.run.jobs) × ((j : ℕ) → R.last j ≡ S.run.last j)
            × ((j k : ℕ) → R.size j k ≡ S.run.size j k) }
        ensures tasks { IfOk result (λ made. length made.1.items ≤ S.run.jobs) }
        ensures idles { IfOk result (λ made. length made.2.items ≡ workers_of settings) }
    {
        let places = empty_places(alloc, jobs)?;
        let FreshCounts {
            counts,
            seat,
            starts,
            stops,
            stop_seat,
            longest,
        } = opened;
        let share = seat.credit() / 2 / settings.workers() / leg_count(jobs).max(1);
        let work = TableWork::<S, R> {
            alloc,
            nodes: RunNodes {
                counts,
                starts,
                of: PhantomData,
            },
            jobs,
            threshold: longest,
            settings,
            share,
            places,
            stops,
        };
        let (tasks, idles) = work.open_all(seat, stop_seat)?;
        Ok((work, tasks, idles))
    }

    /// What a worker asks the words of early stop with, about no leg yet.
    fn watch<'w, 'g, G>(&'w self, gate: &'g G, seat: CutSeat) -> Watch<'w, 'g, S, R, G>
        requires seat { stop_table_of seat ≡ R.stops }
    {
        Watch {
            gate,
            jobs: self.jobs,
            places: &self.places,
            stops: &self.stops,
            seat,
            job: 0,
            leg: 0,
            word: u32::MAX,
            of: PhantomData,
        }
    }

    /// The answer of a job, if a task left it; for other programs.
    pub fn found(&self, job: usize) -> Option<&S::Answer>
        ensures { IfSome result (λ answer. S.run.is_answer job answer.now) }
    {
        kept_answer(&self.places, job)
    }
}

impl<'a, S: JobLegs + Send + Sync, R: RunBrand + Send + Sync> Work
    for JobWork<'a, S, TablePart<S>, TableKept<S>, R>
where
    S::Part: Send,
    S::Source: Send + Sync,
    S::Answer: Send + Sync,
    S::Given: Send + Sync,
    S::Scratch: Send,
{
    type Task = TableTask<S, R>;

    type Idle = TableIdle<S, R>;

    ghost is_over = { λ _ idle. (view_of idle.seat).seen ≡ Some 0 };

    ghost owner_of = { λ idle. actor_of idle.seat };

    fn left<H: Wait>(&self, _rt: &H, idle: TableIdle<S, R>) -> (TableIdle<S, R>, u64) {
        let (seat, left) = self.nodes.counts.left(idle.seat);
        let idle = Idle {
            seat,
            spare: idle.spare,
            stop_seat: idle.stop_seat,
            scratch: idle.scratch,
            of: idle.of,
        };
        (idle, left)
    }

    fn run<H: Wait, G: Gate, P: Spawn<TableTask<S, R>>>(
        &self,
        _rt: &H,
        _worker: usize,
        gate: &G,
        idle: TableIdle<S, R>,
        task: TableTask<S, R>,
        spawn: &mut P,
    ) -> TableIdle<S, R> {
        let Idle {
            seat,
            spare,
            stop_seat,
            scratch,
            of,
        } = idle;
        let mut tools = Tools {
            gate,
            spawn,
            scratch,
            watch: self.watch(gate, stop_seat),
            spare,
        };
        self.take(task, &mut tools, self.nodes.starts.len());
        let Tools {
            scratch,
            watch,
            spare,
            gate: _,
            spawn: _,
        } = tools;
        let Watch {
            seat: stop_seat,
            ..
        } = watch;
        Idle {
            seat,
            spare,
            stop_seat,
            scratch,
            of,
        }
    }
}
