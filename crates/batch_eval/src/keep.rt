//! The lanes that pass a test, moved to the front.

ghost use Rattle.batch_eval.specs.Batches.{CountsUp, origin_at, passing};
ghost use Rattle.batch_eval.specs.Lanes.{at};
ghost use Rattle.std.specs.Prelude.{◌≡◌, ℕ, ◌<◌, ◌≤◌, length, slice_index};

use crate::batch::origin_of;
use crate::choose::none_set;
use crate::flag::is_set;
use crate::number_test::NumberTest;

/// Moves the items of the lanes whose flag is set to the front, and answers how many they are. Their places are listed.
/// The loop takes a step for each lane, so it isn't entered where no flag is set.
pub(crate) fn keep_lanes(
    flags: &[i64],
    live: usize,
    start: Option<u64>,
    values: &mut [i64],
    origins: &mut [u64],
) -> usize
    requires flags { live ≤ length flags.now }
    requires values { live ≤ length values.old }
    requires origins { live ≤ length origins.old }
    requires counts { CountsUp start live }
    ensures count { result ≡ length (passing flags.now live) }
    ensures within { result ≤ live }
    ensures values { (j : ℕ) → j < result → at values.new j ≡ at values.old (slice_index (passing flags.now live) j) }
    ensures origins { (j : ℕ) → j < result → slice_index origins.new j
        ≡ origin_at start origins.old (slice_index (passing flags.now live) j) }
{
    let set = NumberTest::is_set();
    if none_set(flags, set, live) {
        return 0;
    }
    let mut kept = 0;
    for i in 0..live {
        let place = origin_of(start, origins, i);
        values[kept] = values[i];
        origins[kept] = place;
        if is_set(flags[i]) {
            kept += 1;
        }
    }
    kept
}
