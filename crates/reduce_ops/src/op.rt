//! The operators with which a stream is folded.

ghost use Rattle.std.specs.Prelude.{◌≡◌, ◌/◌, ◌%◌, ◌^◌};
ghost use Rattle.reduce_ops.specs.Operators.{value_of, identity_of, affine, bits_of, upper, lower};

/// An operator for `reduce` and `prefix`.
///
/// All ten are associative, so a stream may be folded in parts.
#[derive(Clone, Copy, PartialEq, Eq)]
pub enum Op {
    /// The sum, wrapping to 64 bits. Identity 0.
    Sum,
    /// The product, wrapping to 64 bits. Identity 1.
    Product,
    /// The lesser value. Identity `i64::MAX`.
    Min,
    /// The greater value. Identity `i64::MIN`.
    Max,
    /// The bits set in both values. Identity -1.
    And,
    /// The bits set in at least one value. Identity 0.
    Or,
    /// The bits set in exactly one value. Identity 0.
    Xor,
    /// The composition of two affine maps modulo 2^32, the left one first. Identity 2^32.
    ///
    /// A value encodes the map from y to `a * y + b` modulo 2^32: `a` is its upper 32 bits and `b` its lower 32 bits.
    Affine,
    /// The left value. It has no identity.
    First,
    /// The right value. It has no identity.
    Last,
}

impl Op {
    /// The value of the operator at two values in encounter order. It takes no memory.
    pub fn apply(self, left: i64, right: i64) -> i64
        ensures { result ≡ value_of self left right }
    {
        match self {
            Op::Sum => left.wrapping_add(right),
            Op::Product => left.wrapping_mul(right),
            Op::Min => left.min(right),
            Op::Max => left.max(right),
            Op::And => left & right,
            Op::Or => left | right,
            Op::Xor => left ^ right,
            Op::Affine => compose(left, right),
            Op::First => left,
            Op::Last => right,
        }
    }

    /// The value that changes nothing on either side, or `None` if there is none. It takes no memory.
    pub fn identity(self) -> Option<i64>
        ensures { result ≡ identity_of self }
    {
        match self {
            Op::Sum | Op::Or | Op::Xor => Some(0),
            Op::Product => Some(1),
            Op::Min => Some(i64::MAX),
            Op::Max => Some(i64::MIN),
            Op::And => Some(-1),
            Op::Affine => Some(1 << 32),
            Op::First | Op::Last => None,
        }
    }
}

/// The composition of two affine maps, `first` before `second`.
fn compose(first: i64, second: i64) -> i64
    ensures { result ≡ affine first second }
{
    let (first_factor, first_offset) = halves(first);
    let (factor, offset) = halves(second);
    let product = first_factor.wrapping_mul(factor);
    let sum = first_offset.wrapping_mul(factor).wrapping_add(offset);
    (u64::from(product) * 4_294_967_296 + u64::from(sum)).cast_signed()
}

/// The upper and the lower 32 bits of a value.
fn halves(value: i64) -> (u32, u32)
    ensures upper { result.0 ≡ upper value }
    ensures lower { result.1 ≡ lower value }
{
    let bits = value.cast_unsigned();
    ((bits / 4_294_967_296) as u32, (bits % 4_294_967_296) as u32)
}
