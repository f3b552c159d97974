//! The words of early stop, from two threads.
ghost use Rattle.std.specs.Prelude.{◌≡◌, ◌≤◌, ◌<◌, ℕ};
ghost use Rattle.trace.specs.Trace.{Trace, trace};
ghost use Rattle.trace.specs.declared.item.End.TheVariants as end;
ghost use Rattle.early_stop.specs.Seats.{IsSeatOf, count_of, segments_of};
ghost use Rattle.test_low.specs.Words.{first_item, three_numbers};

use early_stop::{Cut, CutSeat, NoMemory, Segments};
use std::test::Fail;
use std::thread;
use std::thread::Threads;
use trace::Chunk;

/// One segment over the numbers 7, 8, 9, which gives its first item.
#[derive(Clone, Copy)]
struct FirstOfThree;

impl Segments for FirstOfThree {
    type Outcome = Chunk;

    ghost count = { λ _. 1 };

    ghost source = { λ _ _. three_numbers };

    ghost outcome = { λ _ _ walk. first_item walk };

    fn segments(&self) -> u32 {
        1
    }
}

/// Lowers the word to the place after the first item, and looks at it.
fn lowered(words: &Cut<FirstOfThree>, seat: CutSeat) -> (CutSeat, u64)
    requires table { IsSeatOf words.now seat }
    requires count { count_of words.now ≡ 1 }
    ensures seat { IsSeatOf words.now result.0 }
    ensures place { result.1 ≤ 1 }
{
    let seat = words.lower(seat, 0, 1);
    words.seen(seat, 0)
}

/// What two seats see after one of them lowered the word on a thread of its own, while the other looked at it.
fn seen_by_two<R: Threads + Sync>(
    rt: &R,
    words: &Cut<FirstOfThree>,
    seat: CutSeat,
) -> (u64, u64, u64)
    requires table { IsSeatOf words.now seat }
    requires count { count_of words.now ≡ 1 }
    ensures own { result.0 ≤ 1 }
{
    let (one, other) = words.split(seat);
    let (lowerer, looker) = thread::join(
        rt,
        move || -> (CutSeat, u64)
            requires { IsSeatOf words.now one × (count_of words.now ≡ 1) }
            ensures { IsSeatOf words.entry.now result.0 × (result.1 ≤ 1) }
        { lowered(words, one) },
        move || -> (CutSeat, u64)
            requires { IsSeatOf words.now other × (count_of words.now ≡ 1) }
            ensures { IsSeatOf words.entry.now result.0 }
        { words.seen(other, 0) },
    );
    let (other, during) = looker;
    let (_other, after) = words.seen(other, 0);
    (lowerer.1, during, after)
}

#[test]
fn a_place_that_one_thread_lowers_is_seen_by_the_other(rt: HostRuntime) -> Result<(), Fail> {
    let (words, seat) = Cut::new(rt.alloc(), &FirstOfThree)?;
    let (own, during, after) = seen_by_two(&rt, &words, seat);
    assert!(rt; own == 1 && after == 1);
    assert!(rt; during == 1 || during == u64::MAX);
    Ok(())
}
