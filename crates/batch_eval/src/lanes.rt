//! What loops over lanes read. Each is a type, so that one function is all loops.

ghost use Rattle.batch_eval.specs.Batches.{holds};
ghost use Rattle.batch_eval.specs.Lanes.{at, flag_of, or_zero};
ghost use Rattle.lambda_values.specs.Wrap.{wrap};
ghost use Rattle.std.specs.Prelude.{◌≡◌, ◌<◌, ◌^◌, ◌+ℤ◌, ℕ, ℤ, length, pos};

use crate::flag::flag;
use crate::kernel::Kernel;
use crate::number_test::NumberTest;
use std::marker::PhantomData;

/// A number at each lane.
pub(crate) trait Lanes: Copy {
    // How many lanes there are at least.
    ghost count: { Self → ℕ };

    // What a lane has where the register of the results has this.
    ghost number: { Self → ℤ → ℕ → ℤ };

    /// What a lane has where the register of the results has this.
    fn get(self, lane: usize, old: i64) -> i64
        requires { lane < count self }
        ensures { result ≡ number self old lane };
}

/// What the register of the results has.
#[derive(Clone, Copy)]
pub(crate) struct Own;

impl Lanes for Own {
    ghost count = { λ _. 2 ^ 64 };

    ghost number = { λ _ old _. old };

    fn get(self, _lane: usize, old: i64) -> i64 {
        old
    }
}

/// What another register has.
#[derive(Clone, Copy)]
pub(crate) struct Register<'a>(pub(crate) &'a [i64]);

impl Lanes for Register<'_> {
    ghost count = { λ register. length register.0.now };

    ghost number = { λ register _ lane. at register.0.now lane };

    fn get(self, lane: usize, _old: i64) -> i64 {
        self.0[lane]
    }
}

/// One number at all lanes.
#[derive(Clone, Copy)]
pub(crate) struct Number(pub(crate) i64);

impl Lanes for Number {
    ghost count = { λ _. 2 ^ 64 };

    ghost number = { λ number _ _. number.0 };

    fn get(self, _lane: usize, _old: i64) -> i64 {
        self.0
    }
}

/// Numbers that count up from one.
#[derive(Clone, Copy)]
pub(crate) struct Counting(pub(crate) i64);

impl Lanes for Counting {
    ghost count = { λ _. 2 ^ 63 };

    ghost number = { λ counting _ lane. wrap (counting.0 +ℤ pos lane) };

    fn get(self, lane: usize, _old: i64) -> i64 {
        self.0.wrapping_add(lane as i64)
    }
}

/// Other lanes after an operator by a number, which has no fault.
#[derive_where(Clone, Copy; A)]
pub(crate) struct Stepped<K, A> {
    pub(crate) of: A,
    pub(crate) by: i64,
    pub(crate) kernel: PhantomData<K>,
}

impl<K: Kernel, A: Lanes> Lanes for Stepped<K, A> {
    ghost count = { λ stepped. A.count stepped.of };

    ghost number = { λ stepped old lane. or_zero (K.value (A.number stepped.of old lane) stepped.by) };

    fn get(self, lane: usize, old: i64) -> i64 {
        match K::apply(self.of.get(lane, old), self.by) {
            Ok(value) => value,
            Err(_) => 0,
        }
    }
}

/// What a test says of other lanes, as flags.
#[derive_where(Clone, Copy; A)]
pub(crate) struct Flags<A> {
    pub(crate) of: A,
    pub(crate) set: NumberTest,
}

impl<A: Lanes> Lanes for Flags<A> {
    ghost count = { λ flags. A.count flags.of };

    ghost number = { λ flags old lane. flag_of (holds flags.set (A.number flags.of old lane)) };

    fn get(self, lane: usize, old: i64) -> i64 {
        flag(self.set.holds(self.of.get(lane, old)))
    }
}
