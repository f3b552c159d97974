//! How many positions a job has, as far as it is known before a run.

use crate::names::place_of;
use crate::plan::JobPlan;
use crate::sources::plain_size;
use job_language::PlainSource;
use prefix_walks::{Window, within};

/// How many values a source has: the array of an earlier job counts with that job's likely size.
fn likely_values(source: &PlainSource, before: &[JobPlan]) -> u64 {
    let PlainSource::Result(name) = source else {
        return plain_size(source);
    };
    match place_of(before, name.as_slice()) {
        Some(job) => before[job].likely_size,
        None => 0,
    }
}

/// How many positions the first leg of a job has, if it goes over these of its sources. No answer rests on it: it
/// shares out nodes before a run.
pub(crate) fn likely_size(sources: &[PlainSource], window: Window, before: &[JobPlan]) -> u64 {
    let mut values = 0u64;
    for source in sources {
        values = values.saturating_add(likely_values(source, before));
    }
    let (_, count) = within(window.from, window.to, values);
    count
}
