//! What an expression is evaluated at.

ghost use Rattle.lambda_values.specs.Wrap.{wrap};
ghost use Rattle.std.specs.Prelude.{◌≡◌, pos};

/// A value on its way through the stages.
#[derive(Clone, Copy, Debug, PartialEq, Eq)]
pub struct Item {
    /// The place in the source, from 0, of the item that this value came from.
    pub origin: u64,
    pub value: i64,
}

impl Item {
    /// The place as a number, as Java casts an unsigned one: a place of 2^63 or more, which no source has, is negative.
    pub fn row(self) -> i64
        ensures { result ≡ wrap (pos self.origin) }
    {
        self.origin.cast_signed()
    }

    /// A value by itself, at place 0.
    pub fn alone(value: i64) -> Item
        ensures { result ≡ record { origin = 0; value = value } }
    {
        Item { origin: 0, value }
    }
}
