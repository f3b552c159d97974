//! How a worker waits that found no task, and what wakes it.
use crossbeam_utils::Backoff;
use std::sync::Wait;
use std::sync::atomic::AtomicU64;
use std::sync::atomic::Ordering::SeqCst;
use std::time::Duration;

// How often a worker spins or yields before it sleeps: about 100 microseconds. A shorter wait costs time where tasks
// are small; docs/DECISIONS.md has figures.
const PATIENCE: u32 = 256;

// How long a worker sleeps that nothing wakes, in milliseconds.
const SLEEP: u64 = 100;

/// What the workers of a pool sleep at, and are woken by.
#[derive(Drop)]
pub struct Bell {
    /// How many workers sleep or are about to.
    sleepers: AtomicU64,
    rings: AtomicU64,
}

impl Bell {
    /// A bell at which nobody sleeps.
    pub fn new() -> Bell {
        Bell {
            sleepers: AtomicU64::new(0),
            rings: AtomicU64::new(0),
        }
    }

    /// Wakes a worker, if one sleeps: there is a new task.
    pub fn ring(&self) {
        if self.sleepers.load(SeqCst) != 0 {
            self.rings.fetch_add(1, SeqCst);
            self.rings.wake_one();
        }
    }

    /// Wakes all workers: nothing is left.
    pub fn ring_all(&self) {
        if self.sleepers.load(SeqCst) != 0 {
            self.rings.fetch_add(1, SeqCst);
            self.rings.wake_all();
        }
    }

    /// The number of rings, as far as a sleep compares it.
    fn heard(&self) -> u32 {
        (self.rings.load(SeqCst) % (1 << 32)) as u32
    }
}

/// Spins at first, then yields the processor, then sleeps until a task is pushed.
#[derive(Drop)]
pub struct Pause<'a> {
    bell: &'a Bell,
    backoff: Backoff,
    rounds: u32,
    /// The rings before the last look for a task, of a worker that counts as a sleeper.
    heard: Option<u32>,
}

impl<'a> Pause<'a> {
    /// The pause of a worker that is awake. All workers of a pool share the bell.
    pub fn new(bell: &'a Bell) -> Pause<'a> {
        Pause {
            bell,
            backoff: Backoff::new(),
            rounds: 0,
            heard: None,
        }
    }

    /// The worker is awake: the next wait is short again.
    pub fn reset(&mut self) {
        if self.heard.take().is_some() {
            self.bell.sleepers.fetch_sub(1, SeqCst);
        }
        self.backoff.reset();
        self.rounds = 0;
    }

    /// Waits for a bounded time. A worker counts as a sleeper before it looks for a task for the last time, so that
    /// each task that this look misses wakes it.
    pub fn wait<R: Wait>(&mut self, rt: &R) {
        if self.rounds < PATIENCE {
            self.rounds += 1;
            self.backoff.snooze();
            return;
        }
        match self.heard {
            Some(heard) => {
                let sleep = Duration::from_millis(SLEEP);
                self.bell.rings.park_timeout(rt, heard, sleep);
            }
            None => {
                self.bell.sleepers.fetch_add(1, SeqCst);
            }
        }
        self.heard = Some(self.bell.heard());
    }
}
