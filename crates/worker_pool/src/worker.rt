//! What one worker does.
ghost use Rattle.std.specs.Prelude.{◌≡◌};

use crate::gate::Gate;
use crate::pause::{Bell, Pause};
use crate::queues::TaskFinder;
use crate::work::Work;
use std::sync::Wait;

/// A worker: its number, what it keeps between tasks, and where it finds them.
#[derive(Drop)]
pub struct Worker<I, F> {
    pub number: usize,
    pub idle: I,
    pub finder: F,
}

/// What all workers of a pool share.
#[derive_where(Clone, Copy)]
pub struct Pool<'a, R, W, G> {
    pub rt: &'a R,
    pub gate: &'a G,
    pub work: &'a W,
    pub bell: &'a Bell,
}

impl<R: Wait, W: Work, G: Gate> Pool<'_, R, W, G> {
    /// Runs the tasks that a worker finds, until nothing is left.
    pub fn work_on<F: TaskFinder<W::Task> + Drop>(self, worker: Worker<W::Idle, F>) -> W::Idle
        ensures over { W.is_over self.entry.work.now result }
        ensures same { W.owner_of result ≡ W.owner_of worker.idle }
    {
        let Worker {
            number,
            mut idle,
            mut finder,
        } = worker;
        let mut pause = Pause::new(self.bell);
        for _ in self.rt.forever() {
            if let Some(task) = finder.find(self.rt) {
                idle = self
                    .work
                    .run(self.rt, number, self.gate, idle, task, &mut finder);
                pause.reset();
            } else {
                let (asked, left) = self.work.left(self.rt, idle);
                if left == 0 {
                    pause.reset();
                    self.bell.ring_all();
                    return asked;
                }
                idle = asked;
                pause.wait(self.rt);
            }
        }
        unreachable!()
    }

    /// Puts the tasks into the inbox, and runs those that it doesn't take.
    pub fn begin<F: TaskFinder<W::Task>>(
        self,
        mut idle: W::Idle,
        first: Vec<W::Task>,
        finder: &mut F,
    ) -> W::Idle
    where
        W::Task: Drop,
        ensures same { W.owner_of result ≡ W.owner_of idle }
    {
        for task in first {
            if let Err(task) = finder.put(self.rt, task) {
                idle = self.work.run(self.rt, 0, self.gate, idle, task, finder);
            }
        }
        idle
    }
}
