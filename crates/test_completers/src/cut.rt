//! Where a part of a list of numbers is cut in two. It stands outside the tests, since definitions of theirs name it.
ghost use Rattle.std.specs.Prelude.{◌≡◌, ◌+◌, ◌<◌};

/// The numbers of a node. Its left side has the numbers before `middle`.
#[derive(Clone, Copy)]
pub struct NumberCut {
    pub from: usize,
    pub middle: usize,
    pub to: usize,
}

impl NumberCut {
    /// A cut that leaves at least one number on each side.
    pub fn within(from: usize, to: usize) -> NumberCut
        requires { from + 1 < to }
        ensures { (result.from ≡ from) × (from < result.middle) × (result.middle < to) × (result.to ≡ to) }
    {
        NumberCut {
            from,
            middle: from + 1 + from.wrapping_mul(7919).wrapping_add(to) % (to - from - 1),
            to,
        }
    }
}
