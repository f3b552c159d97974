//! The words of early stop of a run.
ghost use Rattle.job_runner.specs.Runs.{pair_at};

use crate::legs::JobLegs;
use early_stop::Cut as StopWords;
use std::marker::PhantomData;

/// The legs of all jobs of a run, one after the other.
#[derive(Drop)]
pub struct RunLegs<S> {
    pub(crate) count: u32,
    pub(crate) of: PhantomData<S>,
}

impl<S: JobLegs> early_stop::Segments for RunLegs<S> {
    type Outcome = S::Outcome;

    ghost count = { λ z. z.count };

    ghost source = { λ _ i. S.run.goes_over (pair_at S.run.last S.run.jobs i).0 (pair_at S.run.last S.run.jobs i).1 };

    ghost outcome = { λ _ i. S.run.gives (pair_at S.run.last S.run.jobs i).0 (pair_at S.run.last S.run.jobs i).1 };

    fn segments(&self) -> u32 {
        self.count
    }
}

/// The words of a run, one for each leg.
pub type RunStops<S> = StopWords<RunLegs<S>>;
