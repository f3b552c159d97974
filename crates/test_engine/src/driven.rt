//! A run without a pool: tasks that are driven by hand.
ghost use Rattle.std.specs.Prelude.{◌≡◌, ◌-◌, ℕ, ℤ, List, [], length, IfErr};
ghost use Rattle.completer_tree.specs.Trees.{table_id_of};
ghost use Rattle.job_runner.specs.Tasks.{kept_at, node_at};
ghost use Rattle.job_runner.specs.Runs.{stop_id_of};

use crate::shown::{columns_of, plan_of};
use crate::worked::{COLUMNS, FILES};
use job_plan::Plan;
use job_runner::{JobLegs, NoMemory, RunBrand, TableFreshCounts, TableWork};
use job_table::PlanJobs;
use run_settings::{Form, Settings};
use std::alloc::{AllocError, Global};
use std::marker::Brand;
use std::sync::Wait;
use std::test::Fail;
use worker_pool::{Gate, Spawn, Work};

/// These settings, or `NoMemory` if they are none.
pub(crate) fn settings(workers: u64, threshold: u64, nodes: u64) -> Result<Settings, NoMemory> {
    Settings::of(workers, threshold, nodes, Form::Text).ok_or(NoMemory)
}

/// Hands each task back but the first few, which it drops and says that it took.
#[derive(Drop)]
struct Dropping {
    drops: u64,
}

impl<T: Drop> Spawn<T> for Dropping {
    fn push(&mut self, task: T) -> Result<(), T> {
        if self.drops == 0 {
            return Err(task);
        }
        self.drops -= 1;
        Ok(())
    }
}

/// Enters no leaf of its own.
#[derive(Drop)]
struct Open;

impl Gate for Open {
    fn at_leaf(&self, _job: usize, _from: u64, _to: u64) {}
}

/// Runs tasks here, one after the other, with the first of what workers keep, and a `Spawn` that drops the first
/// `drops`.
fn run_here<W: Work, H: Wait>(
    rt: &H,
    work: &W,
    tasks: Vec<W::Task>,
    idles: Vec<W::Idle>,
    drops: u64,
)
where
    W::Task: Drop,
{
    let mut spawn = Dropping { drops };
    let mut left = idles.into_iter().next();
    for task in tasks {
        let Some(idle) = left.take() else {
            break;
        };
        left = Some(work.run(rt, 0, &Open, idle, task, &mut spawn));
    }
}

/// How many answers are found after all tasks were run here, with a `Spawn` that drops the first `drops`.
fn answers_found<S: JobLegs + Send + Sync, R: RunBrand + Send + Sync, H: Wait>(
    rt: &H,
    alloc: Global,
    jobs: &S,
    settings: Settings,
    opened: TableFreshCounts<S>,
    drops: u64,
) -> Result<usize, NoMemory>
where
    S::Part: Send,
    S::Source: Send + Sync,
    S::Answer: Send + Sync,
    S::Given: Send + Sync,
    S::Scratch: Send,
    requires count { length opened.starts.items ≡ S.run.jobs }
    requires started { (j : ℕ) → (R.start j ≡ node_at opened.starts.items (R.jobs - 1 - j))
        × (R.keeps j ≡ kept_at opened.starts.items (R.jobs - 1 - j)) }
    requires table { table_id_of opened.counts ≡ R.table }
    requires stops { stop_id_of opened.stops ≡ R.stops }
    requires planned { (R.jobs ≡ S.run.jobs) × ((j : ℕ) → R.last j ≡ S.run.last j)
        × ((j k : ℕ) → R.size j k ≡ S.run.size j k) }
{
    let (work, tasks, idles) = TableWork::<S, R>::new(alloc, jobs, settings, opened)?;
    run_here(rt, &work, tasks, idles, drops);
    let mut count = 0usize;
    for job in 0..jobs.jobs() {
        if work.found(job).is_some() {
            count = count.saturating_add(1);
        }
    }
    Ok(count)
}

/// How many answers of these jobs are found after a run whose tasks are dropped.
fn found<S: JobLegs + Send + Sync, H: Wait>(
    rt: &H,
    alloc: Global,
    jobs: &S,
    settings: Settings,
    drops: u64,
) -> Result<usize, NoMemory>
where
    S::Part: Send,
    S::Source: Send + Sync,
    S::Answer: Send + Sync,
    S::Given: Send + Sync,
    S::Scratch: Send,
{
    match TableFreshCounts::<S>::new(alloc, jobs, settings)? {
        Some(opened) => answers_found::<S, Brand, H>(rt, alloc, jobs, settings, opened, drops),
        None => Ok(0),
    }
}

fn plan_found_as<P: job_table::PlanBrand + Send + Sync, H: Wait>(
    rt: &H,
    alloc: Global,
    plan: &Plan<'_>,
    settings: Settings,
    drops: u64,
) -> Result<usize, NoMemory>
    requires planned { plan.now.jobs.items ≡ P.jobs }
{
    let jobs = PlanJobs::<P>::of(plan);
    found(rt, alloc, &jobs, settings, drops)
}

/// How many answers of a plan are found after a run whose tasks are dropped.
fn plan_found<H: Wait>(
    rt: &H,
    alloc: Global,
    plan: &Plan<'_>,
    settings: Settings,
    drops: u64,
) -> Result<usize, NoMemory> {
    plan_found_as::<Brand, H>(rt, alloc, plan, settings, drops)
}

/// A star, a diamond, a name that is written twice, and jobs that can't be run.
const JOBS: &str = "\
a = range(0, 3000).toArray()
b = result(a).sum()
c = result(a).map(x -> x + $b).max()
d = concat(result(a), of(1), result(a)).filter(x -> x * 3000 > $b).count()
e = of(1).map(x -> $c + $d + $c).sum()
f = result(a).filter(x -> x > $b).min()
g = of(1).map(x -> x + $e + $f).sum()
h = range(0, 3000).map(x -> x + $g).sum()";

/// How many answers of a file are found on this many nodes after a run that drops the first `drops` tasks.
fn found_of<H: Wait>(
    rt: &H,
    alloc: Global,
    file: &str,
    threshold: u64,
    nodes: u64,
    drops: u64,
) -> Result<usize, AllocError> {
    let columns = columns_of(alloc, COLUMNS)?;
    let plan = plan_of(alloc, file.as_bytes(), &columns)?;
    plan_found(rt, alloc, &plan, settings(1, threshold, nodes)?, drops)
}

/// Files with their threshold, nodes and dropped tasks, and how many answers are found.
const DRIVEN: [(&str, u64, u64, u64, usize); 5] = [
    (JOBS, 7, 4096, 0, 8),
    (JOBS, 1000, 100, 0, 8),
    ("s = of(1, 2).sum()\nt = of(3, 4).sum()", 1, 4096, 0, 2),
    ("s = of(1, 2).sum()\nt = of(3, 4).sum()", 1, 4096, 1, 1),
    ("s = of(1, 2).sum()", 1, 4096, 1, 0),
];

/// The first file whose number of found answers isn't the one that the table says. All answers of each worked file are
/// found, on any number of nodes.
fn first_other<H: Wait>(rt: &H, alloc: Global) -> Result<Option<&'static str>, AllocError> {
    for (file, threshold, nodes, drops, answers) in DRIVEN {
        if found_of(rt, alloc, file, threshold, nodes, drops)? != answers {
            return Ok(Some(file));
        }
    }
    for file in FILES.split("--\n") {
        let (jobs, answers) = file.split_once("=>\n").unwrap_or((file, ""));
        for nodes in [0, 1, 2, 3, 4096] {
            if found_of(rt, alloc, jobs, 1, nodes, 0)? != answers.lines().count() {
                return Ok(Some(jobs));
            }
        }
    }
    Ok(None)
}

/// No clause says that a job is begun when the jobs that it names have ended, or that its answer comes from a task.
#[test]
fn answers_are_found_exactly_when_no_task_is_dropped(rt: HostRuntime) -> Result<(), Fail> {
    let found = first_other(&rt, rt.alloc())?;
    assert!(rt; found.is_none(), "{found:?}");
    Ok(())
}
