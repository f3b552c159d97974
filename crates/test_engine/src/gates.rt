//! A gate that looks at the leaves of a run.

use std::sync::atomic::Ordering::SeqCst;
use std::sync::atomic::{AtomicBool, AtomicU64};
use worker_pool::Gate;

const TURNS: u64 = 100_000_000;

/// How many turns a leaf is held that no other one lets go.
const HELD_TURNS: u64 = 1000;

/// Which leaf a gate holds.
#[derive(Clone, Copy)]
pub(crate) enum Holds {
    Nothing,
    /// The leaf at position 0, until another leaf is entered.
    First,
    /// The leaf with this number, in the order in which leaves are entered, for 1,000 turns.
    Number(u64),
}

/// Counts the leaves, keeps the length of the longest, and may hold one: `turns` says how long, `TURNS` if no leaf was
/// held, or none let it go.
#[derive(Drop)]
pub(crate) struct Watching {
    holds: Holds,
    entered: AtomicBool,
    pub(crate) leaves: AtomicU64,
    pub(crate) longest: AtomicU64,
    turns: AtomicU64,
}

impl Watching {
    /// A gate that no leaf has entered.
    pub(crate) fn new(holds: Holds) -> Watching {
        Watching {
            holds,
            entered: AtomicBool::new(false),
            leaves: AtomicU64::new(0),
            longest: AtomicU64::new(0),
            turns: AtomicU64::new(TURNS),
        }
    }

    /// Waits until another leaf is entered, at most this many turns.
    fn hold(&self, turns: u64) {
        for turn in 0..turns {
            if self.entered.load(SeqCst) {
                self.turns.store(turn, SeqCst);
                return;
            }
            // On a busy machine the other thread needs the processor.
            if turns == HELD_TURNS || turn % 4096 == 0 {
                std::thread::yield_now();
            }
        }
        self.turns.store(turns, SeqCst);
    }

    /// Whether the leaf that it holds was entered, held and let go; so it is if it holds none.
    pub(crate) fn let_go(&self) -> bool {
        matches!(self.holds, Holds::Nothing) || self.turns.load(SeqCst) < TURNS
    }
}

impl Gate for Watching {
    fn at_leaf(&self, _job: usize, from: u64, to: u64) {
        let number = self.leaves.fetch_add(1, SeqCst);
        self.longest.fetch_max(to.saturating_sub(from), SeqCst);
        match self.holds {
            Holds::First if from == 0 => self.hold(TURNS),
            Holds::First => self.entered.store(true, SeqCst),
            Holds::Number(held) if held == number => self.hold(HELD_TURNS),
            Holds::Number(_) | Holds::Nothing => {}
        }
    }
}
