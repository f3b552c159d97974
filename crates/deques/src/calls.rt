//! The calls of one pass, which exist in proofs only.
use std::collections::LinkedList;

/// A call that changed what a deque holds. The number of a task is the number of calls of this kind before the one that
/// added it.
pub enum Call<T> {
    Added(T),
    Newest(u64, T),
    Oldest(u64, T),
}

/// The calls of one pass, in their order. No value of this type is ever made.
pub struct Calls<T> {
    pub list: LinkedList<Call<T>>,
}
