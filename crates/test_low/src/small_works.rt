//! What the small works of these tests share.
ghost use Rattle.std.specs.Prelude.{◌≡◌};

use std::alloc::{AllocError, Global};
use worker_pool::Gate;

/// A worker's number and the last answer of `left`.
#[derive(Drop)]
pub struct Asked {
    pub worker: usize,
    pub last: u64,
}

/// One `Asked` for each worker.
pub fn idle_workers(alloc: Global, workers: usize) -> Result<Vec<Asked>, AllocError> {
    let mut idle = Vec::new(alloc);
    for worker in 0..workers {
        idle.push(Asked { worker, last: 1 })?;
    }
    Ok(idle)
}

/// A gate that holds nothing.
pub struct Open;

impl Gate for Open {
    fn at_leaf(&self, _job: usize, _from: u64, _to: u64) {}
}
