//! The rule of the table, and what each step says to its caller.
ghost use Rattle.std.specs.Prelude.{ℕ, Bool, true, List, []};
ghost use Rattle.pending_count.specs.Pairs.{Ruled};
ghost use Rattle.pending_count.specs.Views.{blank, first_view, rest_view, part_view, joined_view};
ghost use Rattle.pending_count.specs.Plays.{claimed, armed, arrived, added, settled, looked, took, paired, handed};

use crate::place::{Fits, Slot};
use crate::view::{Sizes, View};
use atomic_table::{Join, Play, Split, TableRule};
use std::marker::{Brand, PhantomData};

pub struct Rule<V, K> {
    of: PhantomData<(V, K)>,
}

impl<V, K: Fits<V>> TableRule<Option<Slot<V, K>>, View<K::Tag>, Sizes> for Rule<V, K> {
    ghost holds = { λ z. Ruled K.fits K.tag_of K.place_of z.nodes };

    ghost first = { λ z. first_view z.ends };
}

/// Whose step it is, among how many nodes. Each call picks it.
pub trait Acting {
    ghost nodes: { ℕ };

    ghost actor: { ℕ };
}

impl Acting for Brand {
    ghost nodes = { 0 };

    ghost actor = { 0 };
}

pub struct Claim<A> {
    of: PhantomData<A>,
}

impl<S, T, A: Acting> Play<S, View<T>> for Claim<A> {
    ghost then = { claimed A.nodes A.actor };
}

pub struct Arrive<A> {
    of: PhantomData<A>,
}

impl<S, T, A: Acting> Play<S, View<T>> for Arrive<A> {
    ghost then = { arrived A.nodes A.actor };
}

pub struct Add<A> {
    of: PhantomData<A>,
}

impl<S, T, A: Acting> Play<S, View<T>> for Add<A> {
    ghost then = { added A.nodes A.actor };
}

pub struct Settle<A> {
    of: PhantomData<A>,
}

impl<S, T, A: Acting> Play<S, View<T>> for Settle<A> {
    ghost then = { settled A.nodes A.actor };
}

pub struct Look<A> {
    of: PhantomData<A>,
}

impl<S, T, A: Acting> Play<S, View<T>> for Look<A> {
    ghost then = { looked A.nodes A.actor };
}

/// What a node is armed with. Each call picks it.
pub trait Arming {
    ghost nodes: { ℕ };

    ghost actor: { ℕ };

    ghost pending: { ℕ };

    ghost onward: { List ℕ };

    // Of a pair, the slot of what it keeps.
    ghost slot: { ℕ };
}

impl Arming for Brand {
    ghost nodes = { 0 };

    ghost actor = { 0 };

    ghost pending = { 0 };

    ghost onward = { [] };

    ghost slot = { 0 };
}

pub struct Arm<A> {
    of: PhantomData<A>,
}

impl<S, T, A: Arming> Play<S, View<T>> for Arm<A> {
    ghost then = { armed A.nodes A.actor A.pending A.onward };
}

/// What is split off. Each call picks it.
pub trait Parting {
    ghost node: { ℕ };

    ghost arrivals: { ℕ };

    ghost credit: { ℕ };

    ghost sides: { List ℕ };
}

impl Parting for Brand {
    ghost node = { 0 };

    ghost arrivals = { 0 };

    ghost credit = { 0 };

    ghost sides = { [] };
}

pub struct SplitArrivals<A> {
    of: PhantomData<A>,
}

impl<T, A: Parting> Split<View<T>> for SplitArrivals<A> {
    ghost left = { rest_view A.node A.arrivals A.credit A.sides };

    ghost right = { part_view A.node A.arrivals A.credit A.sides };
}

pub struct Both;

impl<T> Join<View<T>> for Both {
    ghost both = { joined_view };

    ghost spent = { blank };
}

pub struct All;

impl<T> Split<View<T>> for All {
    ghost left = { λ _. blank };

    ghost right = { λ v. v };
}

pub struct TakeKept<A> {
    of: PhantomData<A>,
}

impl<S, T, A: Arming> Play<Option<S>, View<T>> for TakeKept<A> {
    ghost then = { took A.nodes A.actor A.slot };
}

pub struct ArmPair<V, K, A> {
    of: PhantomData<(V, K, A)>,
}

impl<V, K: Fits<V>, A: Arming> Play<Option<Slot<V, K>>, View<K::Tag>> for ArmPair<V, K, A> {
    ghost then = { paired K.fits K.tag_of K.place_of A.nodes A.actor A.onward };
}

/// On which side a value is handed in, and in which slot. Each call picks it.
pub trait Handing {
    ghost nodes: { ℕ };

    ghost actor: { ℕ };

    ghost slot: { ℕ };

    ghost left: { Bool };
}

impl Handing for Brand {
    ghost nodes = { 0 };

    ghost actor = { 0 };

    ghost slot = { 0 };

    ghost left = { true };
}

pub struct TakeSide<A> {
    of: PhantomData<A>,
}

impl<S, T, A: Handing> Play<Option<S>, View<T>> for TakeSide<A> {
    ghost then = { took A.nodes A.actor A.slot };
}

pub struct Hand<V, K, A> {
    of: PhantomData<(V, K, A)>,
}

impl<V, K: Fits<V>, A: Handing> Play<Option<Slot<V, K>>, View<K::Tag>> for Hand<V, K, A> {
    ghost then = { handed K.fits K.tag_of K.place_of A.nodes A.actor A.left };
}
