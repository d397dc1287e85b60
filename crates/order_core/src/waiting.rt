//! The cores that a walk need not look at.

ghost use Rattle.std.specs.Prelude.{◌≡◌, ◌≢◌, ℕ, ◌+◌, ◌<◌, ◌≤◌, max, vec_len, IfOk};
ghost use Rattle.order_core.specs.CoreSets.{count_in};
ghost use Rattle.order_core.specs.Walking.{set_for, waits_in};

use crate::core_set::CoreSet;
use crate::entry::Access;
use bounded_list::NoMemory;
use std::alloc::Global;

/// How many sets there are.
const SETS: usize = 1024;

/// Which cores wait. A core is kept in the set of the word and the number that it waits for, so that few are woken in vain.
#[derive(Debug, Drop)]
pub(crate) struct WaitingCores {
    /// The cores that do not wait.
    pub(crate) awake: CoreSet,
    sets: Vec<CoreSet>,
}

/// In which set a core waits for this number of a word.
fn set_for(word: u32, number: u64) -> usize
    requires { number ≤ 4294967296 }
    ensures is { result ≡ set_for word number }
    ensures within { result < 1024 }
{
    (word as usize + number as usize) % SETS
}

impl WaitingCores {
    /// All cores awake.
    pub(crate) fn create(alloc: Global) -> Result<WaitingCores, NoMemory>
        ensures awake { IfOk result (λ waiting. (core : ℕ) → core < 32 → count_in waiting.awake core ≡ 1) }
        ensures sets { IfOk result (λ waiting. vec_len waiting.sets ≡ 1024) }
    {
        let sets = vec![in alloc; CoreSet::none(); SETS].map_err(|_| NoMemory)?;
        Ok(WaitingCores {
            awake: CoreSet::all(),
            sets,
        })
    }

    /// Wakes all cores.
    pub(crate) fn wake_all(&mut self)
        ensures awake { (core : ℕ) → core < 32 → count_in self.new.awake core ≡ 1 }
        ensures sets { self.new.sets ≡ self.old.sets }
    {
        self.awake = CoreSet::all();
    }

    /// The core has nothing to come.
    pub(crate) fn end(&mut self, core: u8)
        requires { core < 32 }
        ensures others { (other : ℕ) → other ≢ core → count_in self.new.awake other ≡ count_in self.old.awake other }
        ensures less { count_in self.old.awake core ≡ 1 → self.new.awake.mask < self.old.awake.mask }
        ensures sets { self.new.sets ≡ self.old.sets }
    {
        self.awake = self.awake.without(core);
    }

    /// The core waits until the word of its access has reached its number.
    pub(crate) fn wait(&mut self, core: u8, access: Access)
        requires core { core < 32 }
        requires sets { vec_len self.old.sets ≡ 1024 }
        ensures others { (other : ℕ) → other ≢ core → count_in self.new.awake other ≡ count_in self.old.awake other }
        ensures less { count_in self.old.awake core ≡ 1 → self.new.awake.mask < self.old.awake.mask }
        ensures waits { waits_in self.new.sets.items (set_for access.word access.number) core ≡ 1 }
        ensures kept { (place other : ℕ) → waits_in self.old.sets.items place other ≡ 1 → waits_in self.new.sets.items place other ≡ 1 }
        ensures sets { vec_len self.new.sets ≡ 1024 }
    {
        self.awake = self.awake.without(core);
        let place = set_for(access.word, access.number as u64);
        self.sets[place] = self.sets[place].with(core);
    }

    /// Wakes the cores that wait for this number of the word.
    pub(crate) fn wake(&mut self, word: u32, number: u64)
        requires number { number ≤ 4294967296 }
        requires sets { vec_len self.old.sets ≡ 1024 }
        ensures awake { (core : ℕ) → count_in self.new.awake core ≡ max (count_in self.old.awake core) (waits_in self.old.sets.items (set_for word number) core) }
        ensures kept { (place core : ℕ) → place ≢ set_for word number → waits_in self.new.sets.items place core ≡ waits_in self.old.sets.items place core }
        ensures sets { vec_len self.new.sets ≡ 1024 }
    {
        let place = set_for(word, number);
        self.awake = self.awake.union(self.sets[place]);
        self.sets[place] = CoreSet::none();
    }
}
