//! How far the sums of values reach.

ghost use Rattle.std.specs.Prelude.{◌≡◌, true, ◌^◌, ◌≤ℤ◌, pos, negsuc};
ghost use Rattle.reduce_ops.specs.Reaches.{Covers, IsOneSided, IsReach, IsSumFrom};
ghost use Rattle.reduce_ops.specs.Reaches.{no_reach, reach_beside, reach_in, reach_on};

/// The sum of values, and the least and the greatest of their running sums, 0 among them, which is the sum of none. All
/// differ by less than 2^64, so that there may be a start in 64 bits from which all sums are in 64 bits.
#[derive(Clone, Copy)]
pub struct Reach {
    /// How far the least sum is below 0.
    below: u64,
    /// How far the greatest sum is above 0.
    above: u64,
    /// How far the sum of all values is above the least sum.
    rise: u64,
}

impl Reach {
    /// The range of the sums of no value.
    pub(crate) fn none() -> Reach
        ensures { reach_in result ≡ no_reach }
    {
        Reach {
            below: 0,
            above: 0,
            rise: 0,
        }
    }

    /// Of values with these sums.
    pub(crate) fn between(total: i64, least: i64, greatest: i64) -> Reach
        requires least { (negsuc (2 ^ 61) ≤ℤ least) × (least ≤ℤ pos 0) }
        requires greatest { (pos 0 ≤ℤ greatest) × (greatest ≤ℤ pos (2 ^ 61)) }
        requires total { (least ≤ℤ total) × (total ≤ℤ greatest) }
        ensures { reach_in result ≡ record { total = total; least = least; greatest = greatest } }
    {
        Reach {
            below: (-least) as u64,
            above: greatest as u64,
            rise: (total - least) as u64,
        }
    }

    /// The sum of all values.
    fn total(self) -> i128
        ensures { result ≡ (reach_in self).total }
    {
        i128::from(self.rise) - i128::from(self.below)
    }

    /// With one more value. `None` if sums would differ by 2^64 or more.
    pub(crate) fn on(self, value: i64) -> Option<Reach>
        ensures { IsReach result (reach_on (reach_in self) value) }
    {
        let total = self.total() + i128::from(value);
        let least = total.min(-i128::from(self.below));
        let greatest = total.max(i128::from(self.above));
        of_sums(total, least, greatest)
    }

    /// Of the values of two pieces side by side. `None` if sums would differ by 2^64 or more.
    pub(crate) fn beside(self, right: Reach) -> Option<Reach>
        ensures { IsReach result (reach_beside (reach_in self) (reach_in right)) }
    {
        of_sums(
            self.total_beside(right),
            self.least_beside(right),
            self.greatest_beside(right),
        )
    }

    /// Whether no sum is below 0, or none is above.
    pub(crate) fn is_one_sided(self) -> bool
        ensures { result ≡ true → IsOneSided (reach_in self) }
    {
        self.below == 0 || self.above == 0
    }

    /// Whether sums that come after these and reach so far are neither below the least of these nor above the greatest.
    pub(crate) fn covers(self, later: Reach) -> bool
        ensures { result ≡ true → Covers (reach_in self) (reach_in later) }
    {
        let total = self.total();
        let least = total - i128::from(later.below);
        let greatest = total + i128::from(later.above);
        least >= -i128::from(self.below) && greatest <= i128::from(self.above)
    }

    /// The sum of all values of both.
    fn total_beside(self, right: Reach) -> i128
        ensures { result ≡ (reach_beside (reach_in self) (reach_in right)).total }
    {
        self.total() + right.total()
    }

    /// The least sum of both.
    fn least_beside(self, right: Reach) -> i128
        ensures { result ≡ (reach_beside (reach_in self) (reach_in right)).least }
    {
        (self.total() - i128::from(right.below)).min(-i128::from(self.below))
    }

    /// The greatest sum of both.
    fn greatest_beside(self, right: Reach) -> i128
        ensures { result ≡ (reach_beside (reach_in self) (reach_in right)).greatest }
    {
        let greatest = (self.total() + i128::from(right.above)).max(i128::from(self.above));
        self.total_beside(right).max(greatest)
    }

    /// The sum of a start and all values, if no sum from the start on is outside 64 bits.
    pub(crate) fn sum_from(self, start: i64) -> Option<i64>
        ensures { IsSumFrom start result (reach_in self) }
    {
        let first = i128::from(start);
        let total = first + self.total();
        let least = first - i128::from(self.below);
        let greatest = first + i128::from(self.above);
        if least < -9_223_372_036_854_775_808
            || greatest > 9_223_372_036_854_775_807
            || total > 9_223_372_036_854_775_807
        {
            return None;
        }
        Some(total as i64)
    }
}

/// The reach of values with these sums. `None` if they differ by 2^64 or more.
fn of_sums(total: i128, least: i128, greatest: i128) -> Option<Reach>
    requires least { (negsuc (2 ^ 70) ≤ℤ least) × (least ≤ℤ pos 0) }
    requires greatest { (pos 0 ≤ℤ greatest) × (greatest ≤ℤ pos (2 ^ 70)) }
    requires total { (least ≤ℤ total) × (total ≤ℤ greatest) }
    ensures { IsReach result (record { total = total; least = least; greatest = greatest }) }
{
    if greatest - least > 18_446_744_073_709_551_615 {
        return None;
    }
    Some(Reach {
        below: (-least) as u64,
        above: greatest as u64,
        rise: (total - least) as u64,
    })
}
