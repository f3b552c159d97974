//! The stages of a pipeline that look at one item at a time.

use lambda_values::{BoolExpr, InnerExpr, LongExpr};

/// A stage that looks at one item at a time.
#[derive(Drop)]
pub enum Stage {
    /// `map` of `LongStream`: the image of each item, at the place of that item.
    Map(LongExpr),
    /// `filter` of `LongStream`: the items at which the test is true.
    Filter(BoolExpr),
    /// `flatMap` of `LongStream`: for each item the values of an inner stream, all at its place.
    FlatMap(InnerExpr),
}
