//! A sink that leaves a walk which no longer matters, in the middle of inner streams too.

ghost use Rattle.std.specs.Prelude.{◌≡◌, ◌≤◌, ℕ, Bool, true, false, List};
ghost use Rattle.lambda_values.specs.declared.item.Item.{Item as item};
ghost use Rattle.job_plan.specs.Stretches.{IsDecided, KnowsPlaces, UnlessLeft, flow_unless};

use batch_eval::{BatchSink, FlaggedLanes, LaneItems};
use early_stop::Stop;
use lambda_values::{BoolExpr, Run};
use std::marker::{Brand, PhantomData};
use trace::{Fed, Flow, Item, LongSink, NoMemory};

/// After how many positions of the source, or values of inner streams, a walk looks for a place that decides.
pub(crate) const STRETCH: u64 = 65_536;

/// Where a piece begins, and which places decide what its walk is for, as contracts see it. No value has this type.
pub(crate) trait StartBrand {
    ghost decides: { ℕ → Type 0 };

    ghost from: { ℕ };
}

impl StartBrand for Brand {
    ghost decides = { λ _. ⊥ };

    ghost from = { 0 };
}

/// A sink that may leave a walk.
pub(crate) trait LeavingSink: BatchSink {
    // whether it has left
    ghost has_left: { Self → Bool };

    /// Leaves the walk if it no longer matters, and answers whether it has left.
    fn leaves(&mut self) -> bool
        requires { Self.flow self.old ≡ Flow.More }
        ensures answer { result ≡ has_left self.new }
        ensures taken { (xs : List item) → Self.has_taken self.old xs → Self.has_taken self.new xs }
        ensures wants { result ≡ false → Self.flow self.new ≡ Flow.More };
}

/// A sink that hands items on to another one, until it sees that nothing of its piece matters.
#[derive(Drop)]
pub(crate) struct Looking<'w, P: StartBrand, S: Drop, W: Stop> {
    pub(crate) inner: S,
    pub(crate) stop: &'w mut W,
    /// The first position of the piece.
    pub(crate) from: u64,
    /// After this number of values of inner streams it looks.
    pub(crate) until_look: u64,
    pub(crate) has_left: bool,
    pub(crate) of: PhantomData<P>,
}

/// Whether a place at or before this position is known to decide what the walk is for.
fn is_past<W: Stop>(stop: &mut W, position: u64) -> bool
    ensures past { result ≡ true → IsDecided (W.decides stop.old) position }
    ensures still { (c : ℕ) → W.decides stop.new c → W.decides stop.old c }
{
    let place = stop.place();
    place != u64::MAX && place <= position
}

/// Whether a place is known that decides, if a look is due after this number of values.
fn is_seen<W: Stop>(stop: &mut W, position: u64, until_look: &mut u64, values: u64) -> bool
    ensures past { result ≡ true → IsDecided (W.decides stop.old) position }
    ensures still { (c : ℕ) → W.decides stop.new c → W.decides stop.old c }
{
    if values < *until_look {
        *until_look -= values;
        return false;
    }
    *until_look = STRETCH;
    is_past(stop, position)
}

impl<P: StartBrand, S: BatchSink + Drop, W: Stop> LongSink for Looking<'_, P, S, W> {
    ghost has_taken = { λ sink items. (sink.from ≡ P.from) × KnowsPlaces W.decides P.decides sink.stop.now
        × UnlessLeft sink.has_left P.decides P.from (S.has_taken sink.inner items) };

    ghost flow = { λ sink. flow_unless sink.has_left (S.flow sink.inner) };

    ghost takes_memory = { S.takes_memory };

    fn accept(&mut self, item: Item) -> Result<Flow, NoMemory> {
        self.inner.accept(item)
    }

    fn still_wants(&mut self, values: u64) -> Flow {
        if is_seen(self.stop, self.from, &mut self.until_look, values) {
            self.has_left = true;
            return Flow::Enough;
        }
        Flow::More
    }
}

impl<P: StartBrand, S: BatchSink + Drop, W: Stop> BatchSink for Looking<'_, P, S, W> {
    fn accept_lanes(&mut self, lanes: LaneItems<'_>, room: &mut [i64]) -> Result<Fed, NoMemory> {
        self.inner.accept_lanes(lanes, room)
    }

    fn takes_flags(&self) -> bool {
        self.inner.takes_flags()
    }

    fn accept_flagged(&mut self, lanes: FlaggedLanes<'_>) -> Result<Fed, NoMemory> {
        self.inner.accept_flagged(lanes)
    }

    fn takes_runs(&self) -> bool {
        self.inner.takes_runs()
    }

    fn accept_run(&mut self, run: Run) -> bool {
        self.inner.accept_run(run)
    }

    fn test(&self) -> Option<&BoolExpr> {
        self.inner.test()
    }
}

impl<P: StartBrand, S: BatchSink + Drop, W: Stop> LeavingSink for Looking<'_, P, S, W> {
    ghost has_left = { λ sink. sink.has_left };

    fn leaves(&mut self) -> bool {
        self.has_left = is_past(self.stop, self.from);
        self.has_left
    }
}
