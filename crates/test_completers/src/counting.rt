//! Callers of the counts, proved and run.
ghost use Rattle.std.specs.Prelude.{◌≡◌, ◌<◌, ◌≤◌, None, IfSome};
ghost use Rattle.completion_core.specs.Legal.{count};
ghost use Rattle.pending_count.specs.Views.{IsPlainAt, first_view};
ghost use Rattle.std.specs.Thread.{IsSync};
ghost use Rattle.pending_count.specs.Seats.{view_of, IsSeatOf};

use completion_core::Node;
use pending_count::{Arrived, Counts, Fits, Place, Seat};
use std::test::Fail;
use std::thread;
use std::thread::Threads;

/// No pair is armed with it.
#[derive(Drop)]
pub(crate) struct NoPair;

impl Fits<()> for NoPair {
    type Tag = ();

    ghost fits = { λ _ _ _. Unit {0} };

    ghost tag_of = { λ _. tt };

    ghost place_of = { λ _. None };

    fn tag(&self) {}

    fn place(&self) -> Option<Place<()>> {
        None
    }
}

pub(crate) type Plain = Counts<(), NoPair>;

pub(crate) type PlainSeat = Seat<(), NoPair>;

/// Two nodes: the second keeps an arrival at the first, and the first one at END. What each step answered.
fn two_nodes(counts: &Plain, seat: PlainSeat) -> Option<([Node; 2], u64, [Node; 2], u64)>
    requires table { IsSeatOf counts.now seat }
    requires first { view_of seat ≡ first_view 1 }
{
    let (seat, drawn) = counts.claim(seat);
    let a = drawn?;
    let seat = counts.arm(seat, a, 0, &[0]);
    let (seat, drawn) = counts.claim(seat);
    let b = drawn?;
    let seat = counts.arm(seat, b, 1, &[a]);
    let Arrived::Pending(seat, pending) = counts.arrive(seat, b) else {
        return None;
    };
    let Arrived::Last(seat, second) = counts.arrive(seat, b) else {
        return None;
    };
    let Arrived::Last(seat, first) = counts.arrive(seat, a) else {
        return None;
    };
    let seat = counts.settle(seat);
    let (_seat, left) = counts.left(seat);
    Some(([a, b], pending, [second.node(), first.node()], left))
}

/// Splits k, k - 1, .. 1 arrivals off, each time from the second seat of the split before, with half its credit.
fn last_part(counts: &Plain, seat: PlainSeat, node: Node, k: u64) -> PlainSeat
    requires table { IsSeatOf counts.now seat }
    requires node { 0 < node }
    requires have { (0 < count node (view_of seat).held) × (k ≤ count node (view_of seat).held) }
    requires plain { IsPlainAt node (view_of seat) }
    ensures table { IsSeatOf counts.now result }
    ensures have { 0 < count node (view_of result).held }
    ensures plain { IsPlainAt node (view_of result) }
{
    if k == 0 {
        return seat;
    }
    let credit = seat.credit() / 2;
    let (_rest, part) = counts.split(seat, node, k, credit);
    last_part(counts, part, node, k - 1)
}

/// What a seat finds whose credit was halved away: no claim, no addition, and what its arrival answers.
fn without_credit(counts: &Plain, seat: PlainSeat) -> Option<(Option<Node>, u64)>
    requires table { IsSeatOf counts.now seat }
    requires first { view_of seat ≡ first_view 0 }
{
    let (seat, drawn) = counts.claim(seat);
    let node = drawn?;
    let seat = counts.arm(seat, node, 62, &[]);
    let seat = last_part(counts, seat, node, 62);
    if seat.credit() != 0 {
        return None;
    }
    let (seat, second) = counts.claim(seat);
    let Err(seat) = counts.add(seat, node, 1) else {
        return None;
    };
    let Arrived::Pending(_seat, pending) = counts.arrive(seat, node) else {
        return None;
    };
    Some((second, pending))
}

/// What one arrival answers: the pending count, or none where it was the last.
fn one_arrival(counts: &Plain, seat: PlainSeat, node: Node) -> Option<u64>
    requires table { IsSeatOf counts.now seat }
    requires node { 0 < node }
    requires have { 0 < count node (view_of seat).held }
    requires plain { IsPlainAt node (view_of seat) }
{
    match counts.arrive(seat, node) {
        Arrived::Pending(_seat, pending) => Some(pending),
        Arrived::Last(_seat, _finish) => None,
    }
}

/// A node with three arrivals, each with a seat of its own.
fn three_parts(counts: &Plain, seat: PlainSeat) -> Option<(Node, PlainSeat, PlainSeat, PlainSeat)>
    requires table { IsSeatOf counts.now seat }
    requires first { view_of seat ≡ first_view 0 }
    ensures table { IfSome result (λ p. IsSeatOf counts.now p.1 × IsSeatOf counts.now p.2 × IsSeatOf counts.now p.3) }
    ensures node { IfSome result (λ p. 0 < p.0) }
    ensures have { IfSome result (λ p. (0 < count p.0 (view_of p.1).held) × (0 < count p.0 (view_of p.2).held)
        × (0 < count p.0 (view_of p.3).held)) }
    ensures plain { IfSome result (λ p. IsPlainAt p.0 (view_of p.1) × IsPlainAt p.0 (view_of p.2)
        × IsPlainAt p.0 (view_of p.3)) }
{
    let (seat, drawn) = counts.claim(seat);
    let node = drawn?;
    let seat = counts.arm(seat, node, 2, &[]);
    let (first, rest) = counts.split(seat, node, 2, 0);
    let (second, third) = counts.split(rest, node, 1, 0);
    Some((node, first, second, third))
}

/// Its three arrivals, each made by a thread of its own.
fn on_three_threads<R: Threads + Sync>(
    rt: &R,
    counts: &Plain,
    seat: PlainSeat,
) -> Option<[Option<u64>; 3]>
    requires table { IsSeatOf counts.now seat }
    requires first { view_of seat ≡ first_view 0 }
{
    let (node, first, second, third) = three_parts(counts, seat)?;
    let (one, (two, three)) = thread::join(
        rt,
        move || -> Option<u64>
            requires { IsSeatOf counts.now first × (0 < node) × (0 < count node (view_of first).held)
                × IsPlainAt node (view_of first) }
        { one_arrival(counts, first, node) },
        move || -> (Option<u64>, Option<u64>)
            requires { IsSync R.row × IsSeatOf counts.now second × IsSeatOf counts.now third
                × (0 < node) × (0 < count node (view_of second).held) × IsPlainAt node (view_of second)
                × (0 < count node (view_of third).held) × IsPlainAt node (view_of third) }
        {
            thread::join(
                rt,
                move || -> Option<u64>
                    requires { IsSeatOf counts.now second × (0 < node) × (0 < count node (view_of second).held)
                        × IsPlainAt node (view_of second) }
                { one_arrival(counts, second, node) },
                move || -> Option<u64>
                    requires { IsSeatOf counts.now third × (0 < node) × (0 < count node (view_of third).held)
                        × IsPlainAt node (view_of third) }
                { one_arrival(counts, third, node) },
            )
        },
    );
    Some([one, two, three])
}

#[test]
fn each_step_answers_as_the_machine(rt: HostRuntime) -> Result<(), Fail> {
    let (counts, seat) = Counts::new(rt.alloc(), 2, 1)?;
    assert!(rt; two_nodes(&counts, seat) == Some(([1, 2], 0, [2, 1], 0)));
    Ok(())
}

#[test]
fn a_claim_needs_a_node_and_credit(rt: HostRuntime) -> Result<(), Fail> {
    let (counts, seat) = Plain::new(rt.alloc(), 1, 0)?;
    let (seat, first) = counts.claim(seat);
    let (_seat, second) = counts.claim(seat);
    assert!(rt; (first, second) == (Some(1), None));
    let (counts, seat) = Plain::new(rt.alloc(), 2, 0)?;
    assert!(rt; without_credit(&counts, seat) == Some((None, 61)));
    Ok(())
}

#[test]
fn three_threads_answer_one_after_the_other(rt: HostRuntime) -> Result<(), Fail> {
    let (counts, seat) = Plain::new(rt.alloc(), 1, 0)?;
    let found = on_three_threads(&rt, &counts, seat).expect(&rt, "a node is left");
    for want in [Some(1), Some(0), None] {
        assert!(rt; found.iter().filter(|&&answer| answer == want).count() == 1);
    }
    Ok(())
}
