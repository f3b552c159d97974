//! The queues that one worker uses: its own deque, thieves of the other deques, and the inbox.
ghost use Rattle.std.specs.Prelude.{◌≡◌, IfErr, IfNone, IfOk};
ghost use Rattle.worker_pool.specs.Queues.{IsPushed, IsPut, SameCalls};

use crate::door::Door;
use crate::pause::Bell;
use crate::work::Spawn;
use deques::{Inbox, Owner, Thief};
use std::alloc::Global;
use std::sync::Wait;

/// Where a worker finds tasks. Threads are started for a type parameter with this bound, since a closure that is sent
/// to a thread can't capture a deque whose task type is an associated type.
pub trait TaskFinder<T>: Spawn<T> {
    fn find<R: Wait>(&mut self, rt: &R) -> Option<T>;

    /// Puts a task where every worker finds it.
    fn put<R: Wait>(&mut self, rt: &R, task: T) -> Result<(), T>
        ensures refused { IfErr result (λ back. back ≡ task) };
}

/// The queues of one worker, each as far as it could be made.
#[derive(Drop)]
pub struct Queues<'a, T> {
    own: Option<Owner<T>>,
    others: Vec<Thief<T>>,
    door: Option<Door<'a, T>>,
    bell: &'a Bell,
}

impl<'a, T: Drop> Queues<'a, T> {
    /// No queues: nothing is found in them, and every task comes back.
    pub fn none(alloc: Global, bell: &'a Bell) -> Queues<'a, T> {
        Queues {
            own: None,
            others: Vec::new(alloc),
            door: None,
            bell,
        }
    }

    fn pop(&mut self) -> Option<T>
        ensures none { IfNone result (SameCalls self.old self.new) }
    {
        match &mut self.own {
            Some(own) => own.pop(),
            None => None,
        }
    }

    fn steal(&mut self) -> Option<T>
        ensures none { IfNone result (SameCalls self.old self.new) }
    {
        for thief in self.others.iter_mut() {
            if let Some(task) = thief.steal() {
                return Some(task);
            }
        }
        None
    }

    fn take<R: Wait>(&mut self, rt: &R) -> Option<T>
        ensures none { IfNone result (SameCalls self.old self.new) }
    {
        let (door, task) = self.door.take()?.take(rt);
        self.door = Some(door);
        task
    }
}

impl<'a, T: Drop> Spawn<T> for Queues<'a, T> {
    fn push(&mut self, task: T) -> Result<(), T>
        ensures refused { IfErr result (λ back. back ≡ task) }
        ensures pushed { IfOk result (λ _. IsPushed self.old self.new task) }
    {
        let bell = self.bell;
        match &mut self.own {
            Some(own) => {
                let pushed = own.push(task);
                bell.ring();
                pushed
            }
            None => Err(task),
        }
    }
}

impl<'a, T: Drop> TaskFinder<T> for Queues<'a, T> {
    /// The newest task of its own, then the oldest of another worker, then the oldest of the inbox.
    fn find<R: Wait>(&mut self, rt: &R) -> Option<T>
        ensures none { IfNone result (SameCalls self.old self.new) }
    {
        if let Some(task) = self.pop() {
            return Some(task);
        }
        if let Some(task) = self.steal() {
            return Some(task);
        }
        self.take(rt)
    }

    fn put<R: Wait>(&mut self, rt: &R, task: T) -> Result<(), T>
        ensures refused { IfErr result (λ back. back ≡ task) }
        ensures put { IfOk result (λ _. IsPut self.old self.new task) }
    {
        let Some(door) = self.door.take() else {
            return Err(task);
        };
        let (door, put) = door.put(rt, task);
        self.door = Some(door);
        self.bell.ring();
        put
    }
}

/// As many deques as are wanted and can be made.
fn owners<T: Drop>(alloc: Global, workers: usize) -> Vec<Owner<T>> {
    let mut owners = Vec::new(alloc);
    for _ in 0..workers {
        let Ok(owner) = Owner::new(alloc) else {
            return owners;
        };
        if owners.push(owner).is_err() {
            return owners;
        }
    }
    owners
}

/// Thieves of the deques of all other workers, the next one first.
fn thieves<T: Drop>(alloc: Global, owners: &[Owner<T>], worker: usize) -> Vec<Thief<T>> {
    let mut thieves = Vec::new(alloc);
    let (before, from) = owners.split_at(worker.min(owners.len()));
    for owner in from.iter().skip(1).chain(before.iter()) {
        let Ok(thief) = owner.thief() else {
            return thieves;
        };
        if thieves.push(thief).is_err() {
            return thieves;
        }
    }
    thieves
}

/// The queues of `workers` workers, or of fewer if memory is refused, without deques of their own.
fn shared_queues<'a, T: Drop>(
    alloc: Global,
    owners: &[Owner<T>],
    workers: usize,
    inbox: Option<&'a Inbox<T>>,
    bell: &'a Bell,
) -> Vec<Queues<'a, T>> {
    let mut all = Vec::new(alloc);
    for worker in 0..workers {
        let queues = Queues {
            own: None,
            others: thieves(alloc, owners, worker),
            door: inbox.map(Door::of),
            bell,
        };
        if all.push(queues).is_err() {
            break;
        }
    }
    all
}

/// The queues of `workers` workers, or of fewer if memory is refused.
pub fn queues_of<'a, T: Drop>(
    alloc: Global,
    workers: usize,
    inbox: Option<&'a Inbox<T>>,
    bell: &'a Bell,
) -> Vec<Queues<'a, T>> {
    let owners = owners(alloc, workers);
    let mut all = shared_queues(alloc, owners.as_slice(), workers, inbox, bell);
    for (queues, owner) in all.iter_mut().zip(owners) {
        queues.own = Some(owner);
    }
    all
}
