//! What a job may name: earlier jobs and columns.
ghost use Rattle.std.specs.Prelude.{◌≡◌, map};
ghost use Rattle.job_language.specs.Causes.{given};
ghost use Rattle.job_language.specs.Jobs.{jobs_of};
ghost use Rattle.job_language.specs.Verdicts.{earlier_of};

use crate::job::Job;
use crate::terminal::Gives;
use tables::Columns;

/// What a job is read with: the version of the language, the jobs above it in file order, and the columns.
#[derive(Clone, Copy)]
pub struct Scope<'s, 'c> {
    /// The version of the language: 1, 2, or 3 if lambdas may have cells and rows, and columns decimal places.
    pub version: u8,
    /// Whether the items of the job are rows of the columns.
    pub rows: bool,
    pub jobs: &'s [Job<'c>],
    pub columns: &'c Columns,
}

/// What the earlier job with this name gives. Looks at the names in turn.
pub fn given(jobs: &[Job], name: &[u8]) -> Option<Gives>
    ensures { result ≡ given (map earlier_of (jobs_of jobs.now)) name.now }
{
    for job in jobs {
        if name == job.name.as_slice() {
            return Some(job.terminal.gives());
        }
    }
    None
}
