//! Owners, thieves and inboxes on one thread.
use deques::{Inbox, Owner, Thief};
use std::alloc::Global;
use std::sync::Wait;
use std::sync::atomic::AtomicU64;
use std::sync::atomic::Ordering::SeqCst;
use std::test::*;

/// Whether the owner gets the newest tasks and thieves the oldest, until none is left.
fn both_ends_hand_out(owner: &mut Owner<u32>, thief: &mut Thief<u32>) -> bool {
    let mut is_right = owner.pop().is_none() && thief.steal().is_none();
    for task in 0..1000 {
        is_right &= owner.push(task).is_ok();
    }
    is_right &= owner.pop() == Some(999) && owner.pop() == Some(998);
    is_right &= thief.steal() == Some(0);
    is_right &= owner.push(7).is_ok() && thief.steal() == Some(1) && owner.pop() == Some(7);
    for task in 2..998 {
        is_right &= thief.steal() == Some(task);
    }
    is_right && owner.pop().is_none() && thief.steal().is_none()
}

#[test]
fn an_owner_pops_the_newest_and_a_thief_steals_the_oldest(rt: HostRuntime) -> Result<(), Fail> {
    let mut owner = Owner::new(rt.alloc())?;
    let mut thief = owner.thief()?;
    assert!(rt; both_ends_hand_out(&mut owner, &mut thief));
    Ok(())
}

#[test]
fn an_inbox_hands_out_the_oldest(rt: HostRuntime) -> Result<(), Fail> {
    let (inbox, first) = Inbox::new(rt.alloc())?;
    let second = inbox.pass();
    let (first, one) = inbox.put(&rt, first, 1u32);
    let (second, two) = inbox.put(&rt, second, 2);
    assert!(rt; one.is_ok() && two.is_ok(), "both are put");
    let (second, oldest) = inbox.take(&rt, second);
    let (_, next) = inbox.take(&rt, first);
    let (_, none) = inbox.take(&rt, second);
    assert!(rt;
        oldest == Some(1) && next == Some(2) && none.is_none(),
        "in their order"
    );
    Ok(())
}

/// A task that counts its drop.
struct Counted<'a>(&'a AtomicU64);

impl Drop for Counted<'_> {
    fn drop(self) {
        self.0.fetch_add(1, SeqCst);
        let Self(_) = self;
    }
}

/// Pushes 100 tasks, takes one out at each end, and drops the deque with the others in it.
fn drop_a_deque(alloc: Global, drops: &AtomicU64) -> Result<u64, Fail> {
    let mut owner = Owner::new(alloc)?;
    let mut thief = owner.thief()?;
    for _ in 0..100 {
        let _ = owner.push(Counted(drops));
    }
    let _ = owner.pop();
    let _ = thief.steal();
    Ok(drops.load(SeqCst))
}

/// Drops an inbox, which has one end to take from, and counts its tasks.
fn drop_an_inbox<R: Wait>(rt: &R, alloc: Global, drops: &AtomicU64) -> Result<u64, Fail> {
    let (inbox, mut pass) = Inbox::new(alloc)?;
    for _ in 0..100 {
        pass = inbox.put(rt, pass, Counted(drops)).0;
    }
    let _ = inbox.take(rt, pass);
    Ok(drops.load(SeqCst))
}

#[test]
fn tasks_that_are_left_are_dropped_once(rt: HostRuntime) -> Result<(), Fail> {
    let drops = AtomicU64::new(0);
    assert!(rt;
        drop_a_deque(rt.alloc(), &drops)? == 2,
        "those that were handed out"
    );
    assert!(rt; drops.load(SeqCst) == 100, "all of the deque");
    assert!(rt;
        drop_an_inbox(&rt, rt.alloc(), &drops)? == 101,
        "the one that was handed out"
    );
    assert!(rt; drops.load(SeqCst) == 200, "all of the inbox");
    Ok(())
}
