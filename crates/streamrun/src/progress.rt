//! How far a long run is: one line on standard error, if that is a terminal. It has at most 39 characters: a line that
//! is longer than the terminal is wide can't be wiped, and the width can't be asked for.

use engine::RunGate;
use std::io::{IsTerminal, Write};
use std::sync::atomic::AtomicU64;
use std::sync::atomic::Ordering::SeqCst;
use std::sync::{Mutex, Wait};
use std::time::{Duration, Instant};
use worker_pool::Gate;

/// How many jobs a file has at most.
const MOST_JOBS: usize = 256;

/// How many positions a worker walks over between two calls of the gate.
const STRETCH: u64 = 65_536;

/// For how many milliseconds a line stands before it is written anew.
const STEP: u64 = 250;

/// What is known of a job.
#[derive(Drop)]
struct JobProgress {
    /// How many items its first walk goes over, as far as that was known before the jobs ran.
    items: AtomicU64,
    /// How many positions the pieces have that were entered, later walks included.
    entered: AtomicU64,
    /// How many positions of these pieces, or values of inner streams, were walked over: a stretch of a piece counts as
    /// it begins.
    walked: AtomicU64,
}

/// The state of the line.
#[derive(Drop)]
struct ShownLine {
    is_shown: bool,
    is_over: bool,
}

/// What all jobs together have reached.
#[derive(Drop)]
struct ReachedWork {
    items: u64,
    walked: u64,
}

impl ReachedWork {
    /// How many thousandths of the items were walked over; at most 999, since the run goes on as long as a line is
    /// shown.
    fn thousandths(&self) -> u64 {
        let share = if self.items < 1_000_000 {
            self.walked.saturating_mul(1000) / self.items.max(1)
        } else {
            self.walked / (self.items / 1000).max(1)
        };
        share.min(999)
    }
}

/// How long a run has taken, with its unit, in at most six characters.
fn elapsed(seconds: u64) -> (u64, &'static str) {
    if seconds < 1000 {
        (seconds, "s")
    } else if seconds < 6000 {
        (seconds / 60, "min")
    } else {
        ((seconds / 3600).min(9999), "h")
    }
}

/// The gate of a run, which counts what the run enters.
#[derive(Drop)]
pub struct Progress<'a, H> {
    pub(crate) host: &'a HostRuntime,
    pub(crate) threads: &'a H,
    started: Option<Instant>,
    /// Empty if standard error is no terminal: then nothing is counted.
    jobs: Vec<JobProgress>,
    known: AtomicU64,
    /// How many jobs have answers.
    answered: AtomicU64,
    /// Whether a job has no value: 1 if one has none.
    lacking: AtomicU64,
    line: Mutex<ShownLine>,
    ended: AtomicU64,
}

impl<'a, H> Progress<'a, H> {
    /// Begins at this moment. Without memory for the counts nothing is counted.
    pub fn new(host: &'a HostRuntime, threads: &'a H) -> Progress<'a, H> {
        let mut jobs = Vec::new(host.alloc());
        if host.stderr().is_terminal() {
            for _ in 0..MOST_JOBS {
                let job = JobProgress {
                    items: AtomicU64::new(0),
                    entered: AtomicU64::new(0),
                    walked: AtomicU64::new(0),
                };
                if jobs.push(job).is_err() {
                    break;
                }
            }
        }
        Progress {
            host,
            threads,
            started: Instant::now(host).ok(),
            jobs,
            known: AtomicU64::new(0),
            answered: AtomicU64::new(0),
            lacking: AtomicU64::new(0),
            line: Mutex::new(ShownLine {
                is_shown: false,
                is_over: false,
            }),
            ended: AtomicU64::new(0),
        }
    }

    /// Whether the run came to its jobs, and there are some.
    pub fn has_jobs(&self) -> bool {
        self.known.load(SeqCst) > 0
    }

    /// Whether the answer of a job is a fault, or says that the job is unusable.
    pub fn lacks_value(&self) -> bool {
        self.lacking.load(SeqCst) > 0
    }

    /// Whether there is a terminal to show it on.
    pub fn is_counted(&self) -> bool {
        !self.jobs.is_empty()
    }

    /// How many whole seconds the run has taken.
    fn seconds(&self) -> u64 {
        match self.started {
            Some(started) => started
                .elapsed(self.host)
                .map_or(0, |elapsed| elapsed.as_secs()),
            None => 0,
        }
    }

    /// Writes the line.
    fn show(&self, seconds: u64) {
        let (time, unit) = elapsed(seconds);
        let known = self.known.load(SeqCst);
        let answered = self.answered.load(SeqCst);
        let reached = self.reached();
        let mut stderr = self.host.stderr();
        let _ = if known == 0 {
            write!(stderr, "\r\x1b[Kstreamrun: {time} {unit}, reading")
        } else if reached.items == 0 {
            write!(
                stderr,
                "\r\x1b[Kstreamrun: {time} {unit}, {answered}/{known} jobs"
            )
        } else {
            let share = reached.thousandths();
            write!(
                stderr,
                "\r\x1b[Kstreamrun: {time} {unit}, {answered}/{known} jobs, {}.{} %",
                share / 10,
                share % 10
            )
        };
    }

    /// What all jobs have reached. A job counts only the items of its first walk, since its later walks enter positions
    /// too.
    fn reached(&self) -> ReachedWork {
        let mut reached = ReachedWork {
            items: 0,
            walked: 0,
        };
        for job in self.jobs.iter() {
            let items = job.items.load(SeqCst);
            let walked = job.walked.load(SeqCst).min(job.entered.load(SeqCst));
            reached.items = reached.items.saturating_add(items);
            reached.walked = reached.walked.saturating_add(walked.min(items));
        }
        reached
    }
}

impl<'a, H: Wait> Progress<'a, H> {
    /// Shows the line once the run has taken a second, and then keeps it up to date until `end` is called.
    pub fn keep_shown(&self) {
        for _ in 0..u64::MAX {
            self.ended
                .park_timeout(self.threads, 0, Duration::from_millis(STEP));
            let mut line = self.line.lock(self.threads);
            if line.is_over {
                break;
            }
            let seconds = self.seconds();
            if seconds > 0 {
                line.is_shown = true;
                self.show(seconds);
            }
        }
    }

    /// Wipes the line, if there is one, and lets none be shown any more.
    pub fn end(&self) {
        if self.is_counted() {
            let mut line = self.line.lock(self.threads);
            if line.is_shown {
                let _ = write!(self.host.stderr(), "\r\x1b[K");
            }
            line.is_shown = false;
            line.is_over = true;
            self.ended.store(1, SeqCst);
            self.ended.wake_all();
        }
    }
}

impl<'a, H> Gate for Progress<'a, H> {
    fn at_leaf(&self, job: usize, from: u64, to: u64) {
        if let Some(job) = self.jobs.get(job) {
            let positions = to.saturating_sub(from);
            job.entered.fetch_add(positions, SeqCst);
            job.walked.fetch_add(positions.min(STRETCH), SeqCst);
        }
    }

    fn at_stretch(&self, job: usize) {
        if let Some(job) = self.jobs.get(job) {
            job.walked.fetch_add(STRETCH, SeqCst);
        }
    }

    fn at_answer(&self, _job: usize) {
        if self.is_counted() {
            self.answered.fetch_add(1, SeqCst);
        }
    }
}

impl<'a, H: Wait> RunGate for Progress<'a, H> {
    fn before_job(&self, job: usize, items: u64) {
        if let Some(job) = self.jobs.get(job) {
            job.items.store(items, SeqCst);
        }
        self.known.fetch_add(1, SeqCst);
    }

    fn without_value(&self) {
        self.lacking.store(1, SeqCst);
    }

    fn before_report(&self) {
        self.end();
    }
}
