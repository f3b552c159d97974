//! Stages and values that a seed chooses.

ghost use Rattle.std.specs.Prelude.{◌<◌};

use crate::batches::{ENDS, IMAGES, TESTS, flat_map, stage};
use lambda_expr::Want;
use std::alloc::Global;
use trace::{NoMemory, Stage};

/// The next one of a row of numbers without a pattern.
pub(crate) fn next(seed: u64) -> u64 {
    seed.wrapping_mul(6364136223846793005)
        .wrapping_add(1442695040888963407)
}

/// One of the stages of the tables.
pub(crate) fn any_stage(alloc: Global, seed: u64) -> Result<Stage, NoMemory> {
    let pick = (seed >> 33) as usize;
    match pick % 7 {
        0 | 1 => {
            let at = pick / 7 % 9;
            stage(alloc, TESTS.split(';').nth(at).unwrap_or(""), Want::Bool)
        }
        2 => {
            let at = pick / 7 % 3;
            flat_map(alloc, ENDS.split(';').nth(at).unwrap_or(""))
        }
        _ => {
            let at = pick / 7 % 22;
            stage(alloc, IMAGES.split(';').nth(at).unwrap_or(""), Want::Long)
        }
    }
}

/// Values from -8 to 7, `count` of them.
pub(crate) fn any_values(alloc: Global, seed: u64, count: u64) -> Result<Vec<i64>, NoMemory> {
    let mut values = Vec::new(alloc);
    let mut seed = seed;
    for _ in 0..count {
        seed = next(seed);
        values.push((seed >> 60) as i64 - 8)?;
    }
    Ok(values)
}
