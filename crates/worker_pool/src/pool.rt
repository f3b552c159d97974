//! Starting the workers and waiting for their end.
ghost use Rattle.std.specs.Prelude.{◌≡◌, ◌<◌, vec_len, slice_get, IfSome};

use crate::gate::Gate;
use crate::pause::Bell;
use crate::queues::{Queues, TaskFinder, queues_of};
use crate::work::Work;
use crate::worker::{Pool, Worker};
use deques::Inbox;
use std::alloc::Global;
use std::sync::Wait;
use std::thread;
use std::thread::{Scope, Threads};
use std::vec::IntoIter;

impl<'s, R: Wait + Sync, W: Work, G: Gate + Sync> Pool<'s, R, W, G>
where
    W::Task: Drop,
{
    /// Starts a thread for each worker from number 1 on, as long as something is left, and as far as threads can be
    /// made.
    fn start<E, F: TaskFinder<W::Task> + Send + Drop>(
        self,
        scope: &Scope<'s, E>,
        idle: IntoIter<W::Idle>,
        finders: IntoIter<F>,
    )
    where
        F: 's,
        W: 's,
    {
        for (number, (idle, finder)) in (1..).zip(idle.zip(finders)) {
            let (idle, left) = self.work.left(self.rt, idle);
            if left == 0 {
                return;
            }
            let worker = Worker {
                number,
                idle,
                finder,
            };
            let _ = scope.spawn(move || {
                self.work_on(worker);
            });
        }
    }

    /// Runs the tasks on the workers. Worker 0 is the caller. It works after it has started the others, which start
    /// none: Linux may begin a thread up to four milliseconds late while the thread that started it is at work.
    fn run_workers<F: TaskFinder<W::Task> + Send + Drop>(
        self,
        first: Vec<W::Task>,
        idle: Vec<W::Idle>,
        mut mine: F,
        mut others: IntoIter<F>,
    ) -> W::Idle
    where
        R: Threads,
        requires { 0 < vec_len idle }
        ensures over { W.is_over self.entry.work.now result }
        ensures mine { IfSome (slice_get idle.items 0) (λ i. W.owner_of result ≡ W.owner_of i) }
    {
        thread::scope(
            thread::scope_env(),
            self.rt,
            move |scope| -> W::Idle
                requires { 0 < vec_len idle }
                ensures { W.is_over self.entry.work.now result × IfSome (slice_get idle.items 0)
                    (λ i. W.owner_of result ≡ W.owner_of i) }
            {
                let mut idle = idle.into_iter();
                let Some(my_idle) = idle.next() else {
                    unreachable!()
                };
                let me = Worker {
                    number: 0,
                    idle: self.begin(my_idle, first, &mut mine),
                    finder: mine,
                };
                self.start(scope, idle, others);
                self.work_on(me)
            },
        )
    }
}

/// Runs the tasks of `first`, and the tasks that they push, with one worker for each `Idle`. The caller is worker 0,
/// whose `Idle` comes back once nothing is left. If a thread, a deque or the inbox can't be made, the run goes on
/// without it.
pub fn run_pool<R: Threads + Wait + Sync, W: Work, G: Gate + Sync>(
    rt: &R,
    alloc: Global,
    gate: &G,
    work: &W,
    first: Vec<W::Task>,
    idle: Vec<W::Idle>,
) -> W::Idle
where
    W::Task: Drop,
    requires { 0 < vec_len idle }
    ensures over { W.is_over work.now result }
    ensures mine { IfSome (slice_get idle.items 0) (λ i. W.owner_of result ≡ W.owner_of i) }
{
    let inbox = Inbox::new(alloc).ok().map(|made| made.0);
    let bell = Bell::new();
    let mut others = queues_of(alloc, idle.len(), inbox.as_ref(), &bell).into_iter();
    let mine = others.next().unwrap_or(Queues::none(alloc, &bell));
    let pool = Pool {
        rt,
        gate,
        work,
        bell: &bell,
    };
    pool.run_workers(first, idle, mine, others)
}
