//! Runs of jobs that are no streams, with different settings.
use crate::driven::settings;
use crate::gates::{Holds, Watching};
use crate::lists::copies;
use run_settings::Settings;
use std::alloc::Global;
use std::sync::Wait;
use std::sync::atomic::Ordering::SeqCst;
use std::test::Fail;
use std::thread::Threads;

/// Six lists of 0, 7, .. 35 numbers.
fn lists(alloc: Global) -> Result<Vec<Vec<i64>>, Fail> {
    let mut lists = Vec::new(alloc);
    for job in 0..6i64 {
        let mut numbers = Vec::new(alloc);
        for number in 0..job.wrapping_mul(7) {
            numbers.push(number.wrapping_mul(31).wrapping_add(job))?;
        }
        lists.push(numbers)?;
    }
    Ok(lists)
}

/// How many leaves a run has whose first leaves are refused memory: `None` if its answers aren't the lists, or it is
/// refused.
fn leaves<H: Threads + Wait + Sync>(
    rt: &H,
    alloc: Global,
    refusals: u64,
    settings: Settings,
) -> Result<Option<u64>, Fail> {
    let lists = lists(alloc)?;
    let gate = Watching::new(Holds::Nothing);
    match copies(rt, alloc, lists.as_slice(), refusals, settings, &gate) {
        Ok(answers) if answers.as_slice() == lists.as_slice() => Ok(Some(gate.leaves.load(SeqCst))),
        _ => Ok(None),
    }
}

#[test]
fn lists_keep_their_order_and_a_refused_leaf_is_tried_again_by_the_reader(
    rt: HostRuntime,
) -> Result<(), Fail> {
    for workers in [1, 2, 8, 64] {
        for (threshold, nodes, refusals, least, greatest) in [
            (1, 4096, 0, 239, 239),
            (1000, 4096, 0, 12, 12),
            (1, 0, 0, 12, 12),
            (4, 7, 0, 12, 239),
            (4, 4096, 1, 12, 239),
            (4, 4096, u64::MAX, u64::MAX, u64::MAX),
        ] {
            let settings = settings(workers, threshold, nodes)?;
            let found = leaves(&rt, rt.alloc(), refusals, settings)?.unwrap_or(u64::MAX);
            assert!(rt;
                least <= found && found <= greatest,
                "{workers} {threshold} {nodes} {refusals}: {found}"
            );
        }
    }
    Ok(())
}
