//! Jobs as they are kept once they are read.

ghost use Rattle.std.specs.Prelude.{◌≤◌, length};

use crate::terminal::Terminal;
use reduce_ops::Op;
use slice_ops::Slice;
use stream_tokens::Bytes;
use tables::Columns;
use trace::Stage;

/// A source that is no `concat`.
#[derive(Drop)]
pub enum PlainSource<'c> {
    /// `range(from, to)`: from `from` up to, not with, `to`; empty if `to` is not above it.
    Range { from: i64, to: i64 },
    /// `rangeClosed(from, to)`: from `from` up to and with `to`; empty if `to` is below it.
    RangeClosed { from: i64, to: i64 },
    /// `of(..)` and `empty()`: these values.
    Values(Vec<i64>),
    /// `column("name")`: the cells of the column, borrowed.
    Column(&'c [i64]),
    /// `result(NAME)`: the array of the earlier job with this name.
    Result(Bytes),
}

/// A stage of a job.
#[derive(Drop)]
pub enum JobStage {
    /// `map`, `filter`, `flatMap`: a stage that looks at one item at a time.
    Item(Stage),
    /// `limit`, `skip`, `takeWhile`, `dropWhile`: a stage that looks at the whole walk.
    Slice(Slice),
    /// `prefix(OPERATOR)`, and `prefix(from, to, OPERATOR)` of the positions from `from` up to, not with, `to`.
    Prefix {
        positions: Option<(u64, u64)>,
        op: Op,
    },
    /// `sorted()`: the items in the order of their values.
    Sorted,
    /// `distinct()`: the first of items with one value.
    Distinct,
}

/// A job: its name, where its items come from, what they pass through, what is asked of them, and what is
/// answered instead of a fault.
#[derive(Drop)]
pub struct Job<'c> {
    pub name: Bytes,
    /// The plain sources in order of writing, 1 to 8; more than one if the source is a `concat`. For a
    /// `concat` in a `concat`, its parts stand here.
    pub sources: Vec<PlainSource<'c>>,
    /// The stages in order of writing, at most 32.
    pub stages: Vec<JobStage>,
    pub terminal: Terminal,
    /// `onFault(number)`: the number that the job gives after a fault; only if the terminal gives a number.
    pub on_fault: Option<i64>,
    /// The columns whose rows the items are, if the only source is a column and lambdas may have cells.
    pub table: Option<&'c Columns>,
    ghost few: { length stages.items ≤ 32 },
}

/// A job that is being read. It has a terminal once its terminal was read.
#[derive(Drop)]
pub(crate) struct BegunJob<'c> {
    pub(crate) name: Bytes,
    pub(crate) sources: Vec<PlainSource<'c>>,
    pub(crate) stages: Vec<JobStage>,
    pub(crate) terminal: Option<Terminal>,
    pub(crate) on_fault: Option<i64>,
    ghost few: { length stages.items ≤ 32 },
}
