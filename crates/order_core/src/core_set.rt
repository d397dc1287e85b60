//! Sets of cores.

ghost use Rattle.std.specs.Prelude.{◌≡◌, ◌≢◌, ℕ, ◌<◌, max, MatchOption};
ghost use Rattle.order_core.specs.CoreSets.{count_in};

/// Some of the cores 0 to 31.
#[derive(Clone, Copy, Debug, PartialEq, Eq)]
pub(crate) struct CoreSet {
    mask: u32,
}

impl CoreSet {
    /// No core.
    pub(crate) fn none() -> CoreSet
        ensures { (core : ℕ) → count_in result core ≡ 0 }
    {
        CoreSet { mask: 0 }
    }

    /// All 32 cores.
    pub(crate) fn all() -> CoreSet
        ensures { (core : ℕ) → core < 32 → count_in result core ≡ 1 }
    {
        CoreSet { mask: u32::MAX }
    }

    /// The core with the least number, `None` where there is none.
    pub(crate) fn least(self) -> Option<u8>
        ensures { MatchOption result ((core : ℕ) → count_in self core ≡ 0) (λ least. (least < 32) × (count_in self least ≡ 1) × ((core : ℕ) → core < least → count_in self core ≡ 0)) }
    {
        if self.mask == 0 {
            return None;
        }
        Some(self.mask.trailing_zeros() as u8)
    }

    /// The set with the core.
    pub(crate) fn with(self, core: u8) -> CoreSet
        requires { core < 32 }
        ensures same { count_in result core ≡ 1 }
        ensures others { (other : ℕ) → other ≢ core → count_in result other ≡ count_in self other }
    {
        CoreSet {
            mask: self.mask | 1u32 << core,
        }
    }

    /// The set without the core.
    pub(crate) fn without(self, core: u8) -> CoreSet
        requires { core < 32 }
        ensures same { count_in result core ≡ 0 }
        ensures others { (other : ℕ) → other ≢ core → count_in result other ≡ count_in self other }
        ensures less { count_in self core ≡ 1 → result.mask < self.mask }
    {
        CoreSet {
            mask: self.mask & !(1u32 << core),
        }
    }

    /// The cores of both sets.
    pub(crate) fn union(self, other: CoreSet) -> CoreSet
        ensures { (core : ℕ) → count_in result core ≡ max (count_in self core) (count_in other core) }
    {
        CoreSet {
            mask: self.mask | other.mask,
        }
    }
}
