//! Running all jobs.
ghost use Rattle.std.specs.Prelude.{◌≡◌, ◌-◌, ◌<◌, ◌≤◌, ℕ, IfOk, length};
ghost use Rattle.completer_tree.specs.Trees.{table_id_of};
ghost use Rattle.job_runner.specs.Runs.{AreAnswers, stop_id_of};
ghost use Rattle.job_runner.specs.Tasks.{kept_at, node_at};

use crate::NoMemory;
use crate::alone::answer_alone;
use crate::earlier::Earlier;
use crate::legs::JobLegs;
use crate::nodes::workers_worth;
use crate::opening::TableFreshCounts;
use crate::places::{JobPlaces, answer_in, empty_places};
use crate::task::RunBrand;
use crate::work::TableWork;
use run_settings::Settings;
use std::alloc::Global;
use std::marker::Brand;
use std::sync::Wait;
use std::thread::Threads;
use worker_pool::{Gate, run_pool};

/// The answer that lies in the job's place. If there is none, it is worked out from the answers of the jobs before it.
fn read_answer<S: JobLegs, G: Gate>(
    alloc: Global,
    gate: &G,
    jobs: &S,
    job: usize,
    places: Option<JobPlaces<S>>,
    earlier: &Earlier<'_, S>,
) -> Result<S::Answer, NoMemory>
    requires job { job < S.run.jobs }
    ensures { IfOk result (λ answer. S.run.is_answer job answer) }
{
    if let Some(places) = places {
        if let Some(answer) = answer_in(places, job) {
            return Ok(answer);
        }
    }
    answer_alone(alloc, gate, jobs, job, earlier)
}

/// The answers of all jobs, in their order.
#[tactic(auto, using(crate::proofs::AnswerLemmas::more_answers))]
fn read_answers<S: JobLegs, G: Gate>(
    alloc: Global,
    gate: &G,
    jobs: &S,
    places: Vec<JobPlaces<S>>,
) -> Result<Vec<S::Answer>, NoMemory>
    ensures count { IfOk result (λ answers. length answers.items ≡ S.run.jobs) }
    ensures each { IfOk result (λ answers. AreAnswers S.run.is_answer 0 answers.items) }
{
    let mut answers = Vec::new(alloc);
    let mut places = places.into_iter();
    for job in 0..jobs.jobs() {
        let earlier = Earlier::listed(&answers);
        let answer = read_answer(alloc, gate, jobs, job, places.next(), &earlier)?;
        answers.push(answer)?;
    }
    Ok(answers)
}

/// Runs the jobs over one table of counts, and gives back their places.
fn run_on<
    S: JobLegs + Send + Sync,
    R: RunBrand + Send + Sync,
    H: Threads + Wait + Sync,
    G: Gate + Sync,
>(
    rt: &H,
    alloc: Global,
    gate: &G,
    jobs: &S,
    settings: Settings,
    opened: TableFreshCounts<S>,
) -> Result<Vec<JobPlaces<S>>, NoMemory>
where
    S::Part: Send,
    S::Source: Send + Sync,
    S::Answer: Send + Sync,
    S::Given: Send + Sync,
    S::Scratch: Send,
    requires count { length opened.starts.items ≡ S.run.jobs }
    requires started { (j : ℕ) → (R.start j ≡ node_at opened.starts.items (R.jobs - 1 - j))
        × (R.keeps j ≡ kept_at opened.starts.items (R.jobs - 1 - j)) }
    requires table { table_id_of opened.counts ≡ R.table }
    requires stops { stop_id_of opened.stops ≡ R.stops }
    requires planned { (R.jobs ≡ S.run.jobs) × ((j : ℕ) → R.last j ≡ S.run.last j)
        × ((j k : ℕ) → R.size j k ≡ S.run.size j k) }
{
    let (work, tasks, mut idles) = TableWork::<S, R>::new(alloc, jobs, settings, opened)?;
    // Each task begins a job or has a node.
    let nodes = work.nodes.counts.nodes() as usize;
    idles.truncate(workers_worth(jobs, settings).min(nodes.saturating_add(tasks.len())));
    if !idles.is_empty() {
        run_pool(rt, alloc, gate, &work, tasks, idles);
    }
    Ok(work.places)
}

/// The answers of all jobs, in their order, worked out by no more workers than the settings say.
///
/// Each piece that is walked enters the gate first. An answer that no task left is worked out here, in the jobs' order,
/// which enters the gate once, for all of the job's source. `NoMemory` says that a job couldn't be worked out here
/// either.
pub fn run_all<S: JobLegs + Send + Sync, H: Threads + Wait + Sync, G: Gate + Sync>(
    rt: &H,
    alloc: Global,
    jobs: &S,
    settings: Settings,
    gate: &G,
) -> Result<Vec<S::Answer>, NoMemory>
where
    S::Part: Send,
    S::Source: Send + Sync,
    S::Answer: Send + Sync,
    S::Given: Send + Sync,
    S::Scratch: Send,
    ensures count { IfOk result (λ answers. length answers.items ≡ S.run.jobs) }
    ensures each { IfOk result (λ answers. AreAnswers S.run.is_answer 0 answers.items) }
{
    let places = match TableFreshCounts::<S>::new(alloc, jobs, settings)? {
        Some(opened) => run_on::<S, Brand, H, G>(rt, alloc, gate, jobs, settings, opened)?,
        None => Vec::new(alloc),
    };
    read_answers(alloc, gate, jobs, places)
}
