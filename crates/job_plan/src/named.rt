//! Whether a job takes arrays of earlier jobs.

ghost use Rattle.std.specs.Prelude.{◌≡◌, false, List};
ghost use Rattle.job_language.specs.Jobs.{sources_of};
ghost use Rattle.job_plan.specs.Owned.{takes_arrays};
ghost use Rattle.job_meaning.specs.FileAnswers.{EarlierJob, all_put_in};

use crate::plan::JobPlan;
use job_language::PlainSource;

/// Whether a source is the array of an earlier job.
pub(crate) fn has_array(sources: &[PlainSource]) -> bool
    ensures arrays { result ≡ takes_arrays (sources_of sources.now) }
    ensures none { result ≡ false → (named : List EarlierJob)
        → all_put_in named (sources_of sources.now) ≡ sources_of sources.now }
{
    let Some((source, later)) = sources.split_first() else {
        return false;
    };
    matches!(source, PlainSource::Result(_)) || has_array(later)
}

impl JobPlan<'_> {
    /// Whether a source is the array of an earlier job, `result(NAME)`.
    pub fn takes_arrays(&self) -> bool
        ensures { result ≡ false → (named : List EarlierJob)
            → all_put_in named (sources_of self.now.sources.items) ≡ sources_of self.now.sources.items }
    {
        has_array(&self.sources)
    }
}
