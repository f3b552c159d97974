//! How many nodes a run can use.
ghost use Rattle.std.specs.Prelude.{◌≡◌, ◌+◌, ◌-◌, ◌^◌, ◌<◌, ◌≤◌, false, ℕ, IfOk};
ghost use Rattle.run_settings.specs.SettingsParts.{is_adaptive, nodes_of, threshold_of};

use crate::NoMemory;
use crate::legs::JobLegs;
use run_settings::Settings;
use std::alloc::Global;

/// How many pieces a leg is cut into for each worker, if its positions, the threshold and the nodes are enough. While
/// the last pieces are walked some workers have nothing left, so there are many; each costs a node, so there aren't
/// more.
const PIECES_FOR_WORKER: u64 = 64;

/// How many values of inner streams count as one position against the threshold. A value takes less time than a
/// position, so this is more than 1.
const VALUES_FOR_POSITION: u64 = 16;

/// How many pieces for each worker a leg of few items is cut into, if nobody knows how many values these become.
const PIECES_IF_UNKNOWN: u64 = 8;

/// How many positions the caller has walked, about, by the time that another thread is at work.
const POSITIONS_ALONE: u64 = 32_768;

/// The most positions of one of that many equal pieces.
fn share_of(size: u64, pieces: u64) -> u64
    ensures { 0 < result }
{
    let before_last = size.saturating_sub(1).checked_div(pieces).unwrap_or(0);
    before_last.saturating_add(1)
}

/// The most positions of a piece that isn't cut, of a leg of this size whose items become this many values: `longest`,
/// fewer if the settings are adaptive and the values may be many, and not fewer than one of many equal pieces.
pub(crate) fn longest_piece(settings: Settings, longest: u64, size: u64, values: Option<u64>) -> u64
    requires some { 0 < longest }
    ensures some { 0 < result }
    ensures fixed { is_adaptive settings ≡ false → longest ≤ result }
{
    let share = share_of(size, settings.workers().saturating_mul(PIECES_FOR_WORKER));
    if !settings.is_adaptive() {
        return longest.max(share);
    }
    let threshold = settings.threshold();
    let few = match values {
        Some(values) => {
            let worth = threshold.saturating_mul(VALUES_FOR_POSITION);
            worth.checked_div(values).unwrap_or(threshold).max(1)
        }
        None => share_of(size, settings.workers().saturating_mul(PIECES_IF_UNKNOWN)),
    };
    // A threshold that was doubled for want of nodes doubles these pieces too.
    let doubled = longest.checked_div(threshold).unwrap_or(1);
    few.saturating_mul(doubled).min(longest).max(share)
}

/// How many legs all jobs have together.
pub(crate) fn leg_count<S: JobLegs>(jobs: &S) -> u64 {
    let mut count = 0u64;
    for job in 0..jobs.jobs() {
        let of_job = (jobs.last_leg(job) as u64).saturating_add(1);
        count = count.saturating_add(of_job);
    }
    count
}

/// How many positions all legs have together; the greatest u64 if this isn't known, or if items become many.
fn all_positions<S: JobLegs>(jobs: &S) -> u64 {
    let mut count = 0u64;
    for job in 0..jobs.jobs() {
        for leg in 0..=jobs.last_leg(job) {
            let likely = jobs.likely_size(job, leg);
            if likely == 0 || jobs.likely_values(job, leg) != Some(1) {
                return u64::MAX;
            }
            count = count.saturating_add(likely);
        }
    }
    count
}

/// How many workers a run is worth: one, if the settings leave it to the run and the caller has walked all positions
/// before another thread is at work.
pub(crate) fn workers_worth<S: JobLegs>(jobs: &S, settings: Settings) -> usize {
    if settings.is_adaptive() && all_positions(jobs) <= POSITIONS_ALONE {
        1
    } else {
        settings.workers() as usize
    }
}

/// The most nodes that a leg of this many positions uses, if pieces longer than `longest` are cut. Each cut leaves half
/// of the positions at most, rounded up.
fn cuts_within(size: u64, longest: u64) -> u64 {
    let mut length = size;
    let mut cuts = 0u64;
    for _level in 0..64 {
        if length <= longest {
            break;
        }
        length -= length / 2;
        cuts = cuts.saturating_mul(2).saturating_add(1);
    }
    cuts
}

/// The most nodes that the legs of a job use, of those from this number on, if no piece is longer than `longest_piece`
/// says. A leg that is walked in pieces is taken to have `size` positions at least.
fn cuts_of_job<S: JobLegs>(
    jobs: &S,
    settings: Settings,
    job: usize,
    from: usize,
    size: u64,
    longest: u64,
) -> u64
    requires job { job < S.run.jobs }
    requires some { 0 < longest }
{
    let mut cuts = 0u64;
    for leg in from..=jobs.last_leg(job) {
        let likely = jobs.likely_size(job, leg);
        if likely > 0 {
            let size = likely.max(size);
            let values = jobs.likely_values(job, leg);
            let longest = longest_piece(settings, longest, size, values);
            cuts = cuts.saturating_add(cuts_within(size, longest));
        }
    }
    cuts
}

/// The most nodes that the legs of all jobs use, of those from this number on in each job.
fn cuts_of_all<S: JobLegs>(
    jobs: &S,
    settings: Settings,
    from: usize,
    size: u64,
    longest: u64,
) -> u64
    requires some { 0 < longest }
{
    let mut cuts = 0u64;
    for job in 0..jobs.jobs() {
        cuts = cuts.saturating_add(cuts_of_job(jobs, settings, job, from, size, longest));
    }
    cuts
}

/// The most positions of a piece that isn't cut: the threshold, doubled until there are nodes for all cuts, as long as
/// something is cut. So no piece is left long because others were cut small before it, and the last of many jobs is cut
/// as the first one is.
pub(crate) fn most_positions<S: JobLegs>(jobs: &S, settings: Settings) -> u64
    ensures some { 0 < result }
    ensures threshold { threshold_of settings ≤ result }
{
    let mut longest = settings.threshold();
    let nodes = cuts_of_all(jobs, settings, 0, u64::MAX, longest).min(settings.nodes());
    for _doubled in 0..64 {
        let twice = longest.saturating_mul(2);
        if cuts_of_all(jobs, settings, 0, 0, longest) <= nodes
            || cuts_of_all(jobs, settings, 0, 0, twice) == 0
        {
            break;
        }
        longest = twice;
    }
    longest
}

/// How many jobs have start nodes: those that name others, and those that others name.
fn start_count<S: JobLegs>(alloc: Global, jobs: &S) -> Result<u64, NoMemory>
    ensures { IfOk result (λ count. count ≤ S.run.jobs) }
{
    let count = jobs.jobs();
    let mut needs = Vec::from_elem(alloc, false, count)?;
    for job in 0..count {
        let names = jobs.names(alloc, job)?;
        for named in names.iter() {
            mark(&mut needs, *named);
            mark(&mut needs, job);
        }
    }
    let starts = needs.iter().filter(|is_marked| **is_marked).count();
    Ok(starts.min(count) as u64)
}

/// Marks the one at this place, if there is one.
fn mark(marks: &mut [bool], place: usize) {
    if let Some(is_marked) = marks.get_mut(place) {
        *is_marked = true;
    }
}

/// The start nodes, and no more nodes for cuts than the settings allow and the jobs can use, if pieces longer than
/// `longest` are cut; 2^32 - 1 at most. A later leg may have more positions than the first one, as `flatMap` makes
/// them, and how many isn't known before it begins.
pub(crate) fn node_count<S: JobLegs>(
    alloc: Global,
    jobs: &S,
    settings: Settings,
    longest: u64,
) -> Result<u32, NoMemory>
    requires some { 0 < longest }
    ensures few { IfOk result (λ nodes. nodes ≤ S.run.jobs + nodes_of settings) }
{
    let starts = start_count(alloc, jobs)?;
    let all = cuts_of_all(jobs, settings, 0, 0, longest)
        .max(cuts_of_all(jobs, settings, 1, u64::MAX, longest))
        .min(settings.nodes())
        .saturating_add(starts);
    Ok(all.min(u64::from(u32::MAX)) as u32)
}
