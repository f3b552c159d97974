//! Where the items go after the last stage.

ghost use Rattle.std.specs.Prelude.{◌≡◌, List, [], ◌∷◌, ◌++◌, IfOk, OnOk, OnErr};
ghost use Rattle.lambda_values.specs.declared.item.Item.{Item};
ghost use Rattle.trace.specs.declared.sink.Flow.{Flow};

use crate::NoMemory;
use lambda_values::Item;

/// Whether a sink wants another item.
#[derive(Clone, Copy, Debug, PartialEq, Eq)]
pub enum Flow {
    More,
    Enough,
}

/// What takes the items after the last stage, one by one.
pub trait LongSink {
    // These are the items that the sink has taken, in turn.
    ghost has_taken: { Self → List Item → Type 0 };

    // Whether the sink wants another item.
    ghost flow: { Self → Flow };

    // Whether a sink of this type may need memory for an item.
    ghost takes_memory: { Type 0 };

    /// Takes one more item, and answers whether the sink wants another.
    ///
    /// After a refusal it has taken what it had before.
    fn accept(&mut self, item: Item) -> Result<Flow, NoMemory>
        requires { flow self.old ≡ Flow.More }
        ensures ok { OnOk result
            ((xs : List Item) → has_taken self.old xs → has_taken self.new (xs ++ item ∷ [])) }
        ensures answer { IfOk result (λ answer. answer ≡ flow self.new) }
        ensures err { OnErr result
            ((xs : List Item) → has_taken self.old xs → has_taken self.new xs) }
        ensures wants { OnErr result (flow self.new ≡ Flow.More) }
        ensures refused { OnErr result takes_memory };

    /// Answers whether the sink still wants an item, after this number of values of inner streams, perhaps none of
    /// them for it. It may leave the walk then.
    fn still_wants(&mut self, _values: u64) -> Flow
        requires { flow self.old ≡ Flow.More }
        ensures taken { (xs : List Item) → has_taken self.old xs → has_taken self.new xs }
        ensures answer { result ≡ flow self.new }
    {
        Flow::More
    }
}
