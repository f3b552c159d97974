//! From a job file and columns to the bytes of the report.

ghost use Rattle.engine.specs.Refused.{IsEarly};
ghost use Rattle.engine.specs.Run.{IsReport, Says, columns_by, form_for, report_in};
ghost use Rattle.job_language.specs.Jobs.{jobs_of, names_of};
ghost use Rattle.job_meaning.specs.FileAnswers.{meaning_of};
ghost use Rattle.job_plan.specs.Plans.{plan_names};
ghost use Rattle.run_settings.specs.Asked.{asked_of};
ghost use Rattle.run_settings.specs.SettingsParts.{form_of};
ghost use Rattle.report.specs.Named.{IsNamed, IsText};
ghost use Rattle.std.specs.Prelude.{◌≡◌, ◌≢◌, ℕ, All, List, length, Option, Ok, IfErr, IfOk};
ghost use Rattle.stream_tokens.specs.Forms.{IsName};

use crate::fault::EngineFault;
use crate::gate::RunGate;
use columns::Columns;
use job_language::{Job, read_jobs_within};
use job_meaning::Answer;
use job_plan::{JobPlan, Plan};
use job_table::{RunFault, likely_size, run_jobs};
use report::{Report, json_by, text_by};
use run_settings::{Form, Settings};
use std::alloc::Global;
use std::sync::Wait;
use std::thread::Threads;
use stream_tokens::{Bytes, NoMemory};

/// The report of the jobs that these bytes spell, with these columns.
pub(crate) fn report_of<H: Threads + Wait + Sync, G: RunGate + Sync>(
    rt: &H,
    alloc: Global,
    columns: &Columns,
    bytes: &[u8],
    settings: &Settings,
    gate: &G,
) -> Result<Report, EngineFault>
    ensures ok { IfOk result (λ report. (file : Option (List ℕ))
        → columns_by (form_for (asked_of settings.now) bytes.now) file ≡ Ok columns.now
        → IsReport (record { columns = file; jobs = bytes.now; asked = asked_of settings.now }) report) }
    ensures err { IfErr result (λ fault. (file : Option (List ℕ))
        → columns_by (form_for (asked_of settings.now) bytes.now) file ≡ Ok columns.now
        → Says (record { columns = file; jobs = bytes.now; asked = asked_of settings.now }) fault) }
    ensures early { IfErr result IsEarly }
    ensures read { IfErr result (λ fault. fault ≢ EngineFault.JobsRead) }
{
    let jobs = match read_jobs_within(alloc, bytes, columns, settings.language().newest()) {
        Ok(jobs) => jobs,
        Err(fault) => return Err(EngineFault::Jobs(fault)),
    };
    match written(rt, alloc, jobs, settings, gate) {
        Ok(report) => Ok(report),
        Err(_) => Err(EngineFault::NoMemory),
    }
}

/// The report of jobs.
fn written<H: Threads + Wait + Sync, G: RunGate + Sync>(
    rt: &H,
    alloc: Global,
    jobs: Vec<Job>,
    settings: &Settings,
    gate: &G,
) -> Result<Report, NoMemory>
    requires names { All IsName (names_of (jobs_of jobs.items)) }
    ensures { IfOk result (λ report. report
        ≡ report_in (form_of settings.now) (names_of (jobs_of jobs.entry.items))
        (meaning_of (jobs_of jobs.entry.items))) }
{
    let plan = Plan::of(alloc, jobs, settings.workers())?;
    announce(&plan, gate);
    let answers = match run_jobs(rt, alloc, &plan, settings, gate) {
        Ok(answers) => answers,
        Err(RunFault::NoMemory) => return Err(NoMemory),
    };
    announce_lack(&answers, gate);
    let names = names_in(alloc, plan.jobs)?;
    printed(rt, alloc, &names, &answers, settings)
}

/// Says to the gate which jobs there are.
fn announce<G: RunGate>(plan: &Plan, gate: &G) {
    for (number, job) in plan.jobs.iter().enumerate() {
        gate.before_job(number, likely_size(job, 0));
    }
}

/// Says to the gate if a job has no value.
fn announce_lack<G: RunGate>(answers: &[Answer], gate: &G) {
    let lacks = |answer: &Answer| matches!(answer, Answer::Fault(_) | Answer::Unusable(_));
    if answers.iter().any(lacks) {
        gate.without_value();
    }
}

/// The report of answers in the form that the settings ask for.
fn printed<H: Threads + Sync>(
    rt: &H,
    alloc: Global,
    names: &[Bytes],
    answers: &[Answer],
    settings: &Settings,
) -> Result<Report, NoMemory>
    requires paired { length names.now ≡ length answers.now }
    requires named { All (IsNamed names.now) answers.now }
    requires text { All IsText names.now }
    ensures { IfOk result (λ report. report ≡ report_in (form_of settings.now) names.now answers.now) }
{
    match settings.form() {
        Form::Text => text_by(rt, alloc, settings.workers() as usize, names, answers),
        Form::Json => json_by(rt, alloc, settings.workers() as usize, names, answers),
    }
}

/// The names of planned jobs, in their order; nothing is copied.
fn names_in(alloc: Global, jobs: Vec<JobPlan>) -> Result<Vec<Bytes>, NoMemory>
    ensures { IfOk result (λ names. names.items ≡ plan_names jobs.entry.items) }
{
    let mut names = Vec::new(alloc);
    for job in jobs {
        names.push(job.into_name())?;
    }
    Ok(names)
}
