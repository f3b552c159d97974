//! What waits to be run, and what a worker keeps.
ghost use Rattle.std.specs.Prelude.{◌≡◌, ◌<◌, ◌≤◌, ℕ, List, [], length};
ghost use Rattle.atomic_table.specs.Seated.{TableId};
ghost use Rattle.completion_core.specs.Legal.{count};
ghost use Rattle.pending_count.specs.Seats.{table_of, view_of};
ghost use Rattle.completer_tree.specs.Trees.{CanFork};
ghost use Rattle.early_stop.specs.Seats.{table_of as stop_table_of};
ghost use Rattle.job_runner.specs.Cuts.{IsPiece, begins, ends_at};
ghost use Rattle.job_runner.specs.Tasks.{nodes_below, HasKept, KnowsStarts, KnowsTop};

use crate::cut::{CutPiece, TableKept, TablePart};
use crate::legs::JobLegs;
use completer_tree::Half;
use early_stop::CutSeat;
use pending_count::{Fits, Seat};
use std::marker::{Brand, PhantomData};

/// The table of a run's counts, the start nodes of its jobs and what they keep, and the sizes of its jobs. The function
/// that runs the jobs picks them.
pub trait RunBrand {
    ghost table: { TableId };

    ghost jobs: { ℕ };

    ghost start: { ℕ → ℕ };

    ghost keeps: { ℕ → List ℕ };

    ghost last: { ℕ → ℕ };

    ghost size: { ℕ → ℕ → ℕ };

    // The table of its words of early stop.
    ghost stops: { TableId };
}

impl RunBrand for Brand {
    ghost table = { record { words = 0; slots = 0; views_name = 0; atom = 0; block = 0; offset = 0; slot_names = [] } };

    ghost jobs = { 0 };

    ghost start = { λ _. 0 };

    ghost keeps = { λ _. [] };

    ghost last = { λ _. 0 };

    ghost size = { λ _ _. 0 };

    ghost stops = { record { words = 0; slots = 0; views_name = 0; atom = 0; block = 0; offset = 0; slot_names = [] } };
}

/// The right to end a job: the seat has what the start node of the job kept.
#[derive(Drop)]
pub struct JobSeat<V, K: Fits<V, Tag = CutPiece>, R: RunBrand> {
    pub(crate) seat: Seat<V, K>,
    pub(crate) job: usize,
    pub(crate) of: PhantomData<R>,
    ghost has: { HasKept R.table R.jobs R.start R.keeps (R.keeps job) seat },
    ghost known: { job < R.jobs },
}

/// One side of a cut that is still to be handed in, with the seat that does it.
#[derive(Drop)]
pub struct SideTask<V, K: Fits<V, Tag = CutPiece>, R: RunBrand> {
    pub(crate) half: Half<V, K>,
    pub(crate) of: PhantomData<R>,
    ghost can: { CanFork R.table half.place half.seat },
    ghost top: { KnowsTop (R.keeps half.place.tag.job) half.place.root (view_of half.seat) },
    ghost knows: { KnowsStarts R.jobs R.start R.keeps (view_of half.seat) },
    ghost piece: { IsPiece R.jobs R.last R.size half.place.tag.job half.place.tag.leg
        (begins half.place.tag half.place.side) (ends_at half.place.tag half.place.side) },
}

/// What a worker takes.
#[derive(Drop)]
pub enum Task<V, K: Fits<V, Tag = CutPiece>, R: RunBrand> {
    /// Begin a job: the jobs that it names have ended.
    Begin(JobSeat<V, K, R>),
    /// Walk one side of a cut.
    Walk(SideTask<V, K, R>),
}

/// The credit of a worker, for the trees that it begins. Its seat has noted no place of a tree.
#[derive(Drop)]
pub struct Spare<V, K: Fits<V, Tag = CutPiece>, R: RunBrand> {
    pub(crate) seat: Seat<V, K>,
    pub(crate) of: PhantomData<R>,
    ghost table: { table_of seat ≡ R.table },
    ghost unplaced: { length (view_of seat).places ≡ 0 },
}

/// A worker's right to ask how many jobs are left, its credit, its seat at the words of early stop, and what it keeps
/// from one leaf to the next.
#[derive(Drop)]
pub struct Idle<V, K: Fits<V, Tag = CutPiece>, R: RunBrand, T> {
    pub(crate) seat: Seat<V, K>,
    pub(crate) spare: Option<Spare<V, K, R>>,
    pub(crate) stop_seat: CutSeat,
    pub(crate) scratch: T,
    pub(crate) of: PhantomData<R>,
    ghost table: { table_of seat ≡ R.table },
    ghost stops: { stop_table_of stop_seat ≡ R.stops },
}

/// The seat from which the openings are split off. It has an arrival at the start node of each job that isn't opened
/// yet: the first `jobs`.
#[derive(Drop)]
pub struct UnopenedJobs<V, K: Fits<V, Tag = CutPiece>, R: RunBrand> {
    pub(crate) seat: Seat<V, K>,
    pub(crate) jobs: usize,
    pub(crate) of: PhantomData<R>,
    ghost table: { table_of seat ≡ R.table },
    ghost held: { (i : ℕ) → count i (nodes_below R.start jobs) ≤ count i (view_of seat).held },
    ghost no_side: { (k : ℕ) → count k (view_of seat).sides ≡ 0 },
    ghost knows: { KnowsStarts R.jobs R.start R.keeps (view_of seat) },
    ghost few: { jobs ≤ R.jobs },
}

/// A leg that was walked whole, with the right to end its job.
#[derive(Drop)]
pub struct FinishedLeg<V, K: Fits<V, Tag = CutPiece>, R: RunBrand> {
    pub(crate) job: JobSeat<V, K, R>,
    pub(crate) leg: usize,
    pub(crate) part: V,
    ghost known: { leg ≤ R.last job.job },
}

pub type TableJobSeat<S, R> = JobSeat<TablePart<S>, TableKept<S>, R>;

pub(crate) type TableSpare<S, R> = Spare<TablePart<S>, TableKept<S>, R>;

pub type TableSideTask<S, R> = SideTask<TablePart<S>, TableKept<S>, R>;

pub type TableTask<S, R> = Task<TablePart<S>, TableKept<S>, R>;

pub type TableIdle<S, R> = Idle<TablePart<S>, TableKept<S>, R, <S as JobLegs>::Scratch>;

pub type TableFinishedLeg<S, R> = FinishedLeg<TablePart<S>, TableKept<S>, R>;
