//! The handles of a deque and of an inbox.
ghost use Rattle.std.specs.Prelude.{◌≡◌, ◌≤◌, length};
ghost use Rattle.crossbeam_deque.specs.Handles.{IsPassOf, stealer_deque, worker_capacity};
ghost use Rattle.crossbeam_deque.specs.Handles.{worker_flavor, worker_index, worker_view};

use crate::calls::Calls;
use crate::rule::History;
use crossbeam_deque::{Injector, InjectorPass, Stealer, Worker};
use std::alloc::Global;

/// The side of a deque that belongs to one thread, which pushes and pops the newest task.
#[derive(Drop)]
pub struct Owner<T> {
    pub(crate) worker: Worker<T, Global, Calls<T>, History>,
    ghost lifo: { worker_flavor worker ≡ 1 },
    ghost roomy: { 64 ≤ worker_capacity worker },
    ghost counted: { worker_index worker ≤ length (worker_view worker).list },
}

/// The side of a deque for one other thread, which steals the oldest task. It is one pointer.
#[derive(Drop)]
pub struct Thief<T> {
    pub(crate) stealer: Stealer<T, Global, Calls<T>, History>,
    pub(crate) pass: crossbeam_deque::Pass<T, Calls<T>>,
    ghost seated: { IsPassOf (stealer_deque stealer) pass },
}

/// A queue of tasks that threads share by `&`; each of them needs a `Pass`.
#[derive(Drop)]
pub struct Inbox<T> {
    pub(crate) injector: Injector<T, Global, Calls<T>, History>,
}

/// The right of one thread to use an inbox. It takes no memory.
#[derive(Drop)]
pub struct Pass<T> {
    pub(crate) pass: InjectorPass<T, Calls<T>>,
}
