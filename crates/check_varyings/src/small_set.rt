//! Sets of small numbers.

ghost use Rattle.std.specs.Prelude.{◌≡◌, ◌<◌, ◌||◌, ◌==◌, ℕ, false};
ghost use Rattle.check_varyings.specs.SmallSets.{has_number};

/// A set of numbers below 64, a bit each.
#[derive(Clone, Copy)]
pub(crate) struct SmallSet {
    bits: u64,
}

impl SmallSet {
    /// The empty set.
    pub(crate) fn new() -> SmallSet
        ensures { (n : ℕ) → has_number result n ≡ false }
    {
        SmallSet { bits: 0 }
    }

    /// Whether a number is in the set.
    #[inline]
    pub(crate) fn contains(self, number: u32) -> bool
        requires { number < 64 }
        ensures { result ≡ has_number self number }
    {
        (self.bits >> number) & 1 == 1
    }

    /// Puts a number in.
    #[inline]
    pub(crate) fn insert(&mut self, number: u32)
        requires { number < 64 }
        ensures { (n : ℕ) → has_number self.new n ≡ (has_number self.old n || (n == number)) }
    {
        self.bits |= 1 << number;
    }
}
