//! What a pool runs.
ghost use Rattle.std.specs.Prelude.{◌≡◌, ℕ, IfErr};

use crate::gate::Gate;
use std::sync::Wait;

/// Where a running task puts the tasks that it makes.
pub trait Spawn<T> {
    /// Hands the task to the pool. If the pool has no room for it, it comes back, and whoever pushed it runs it.
    fn push(&mut self, task: T) -> Result<(), T>
        ensures refused { IfErr result (λ back. back ≡ task) };
}

/// Tasks, how to run one, and how much is left.
pub trait Work: Sync {
    type Task: Send;

    /// What one worker keeps between two tasks. The worker passes it to each call and gets it back.
    type Idle: Send + Drop;

    // The last `left` of this `Idle` answered 0.
    ghost is_over: { Self → Self.Idle → Type 0 };

    // Whose `Idle` it is.
    ghost owner_of: { Self.Idle → ℕ } = { λ _. 0 };

    /// How much is left. A worker that gets 0 ends.
    fn left<R: Wait>(&self, rt: &R, idle: Self::Idle) -> (Self::Idle, u64)
        ensures over { result.1 ≡ 0 → is_over self.now result.0 }
        ensures same { owner_of result.0 ≡ owner_of idle };

    /// Runs a task, and also the tasks that `push` hands back. `worker` is 0 for the caller of the pool.
    fn run<R: Wait, G: Gate, S: Spawn<Self::Task>>(
        &self,
        rt: &R,
        worker: usize,
        gate: &G,
        idle: Self::Idle,
        task: Self::Task,
        spawn: &mut S,
    ) -> Self::Idle
        ensures same { owner_of result ≡ owner_of idle };
}
