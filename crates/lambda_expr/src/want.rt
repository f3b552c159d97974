//! What a text is read as.

/// What kind of lambda a text has to be.
#[derive(Clone, Copy, Debug, PartialEq, Eq)]
pub enum Want {
    /// From a number to a number, as `map` takes it.
    Long,
    /// From a number to a boolean, as `filter` takes it.
    Bool,
    /// From a number to a stream of numbers, as `flatMap` takes it.
    Stream,
    /// From two numbers to a number, as `reduce` takes it.
    Pair,
}
