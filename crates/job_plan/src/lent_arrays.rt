//! Which jobs give arrays that later jobs go over.

use crate::plan::{JobPlan, Named, Plan};
use std::alloc::Global;
use trace::NoMemory;

impl Plan<'_> {
    /// Whether a later job goes over the array of this one. A run then puts it in one piece when it is there. No answer
    /// depends on it.
    pub fn lends(&self, job: usize) -> bool {
        self.lent.get(job).copied().unwrap_or(false)
    }
}

/// For each of these jobs, whether a later one goes over its array. None at all if no job goes over one.
pub(crate) fn lent_arrays(alloc: Global, jobs: &[JobPlan]) -> Result<Vec<bool>, NoMemory> {
    let mut lent = Vec::new(alloc);
    for job in jobs {
        if job.takes_arrays() {
            lent.resize(jobs.len(), false)?;
            lend(&mut lent, &job.named);
        }
    }
    Ok(lent)
}

/// Notes the jobs with these names, which another job takes.
fn lend(lent: &mut [bool], named: &[Named]) {
    for name in named {
        if let Some(known) = lent.get_mut(name.job) {
            *known = true;
        }
    }
}
