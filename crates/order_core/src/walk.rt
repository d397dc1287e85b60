//! The canonical merge, one core at a time.

ghost use Rattle.std.specs.Prelude.{◌≡◌, ◌≢◌, ℕ, ◌+◌, ◌^◌, ◌<◌, ◌≤◌, true, false, List, ◌++◌, length, slice_get, slice_index, vec_len, option_to_list, replicate, IfOk, IfSome, IsSome, MatchOption, None, Some};
ghost use Rattle.order_core.specs.Logs.{logs_of, TouchesBelow, AllTouchBelow};
ghost use Rattle.order_core.specs.CanonicalMerge.{is_ready, may_touch, least_ready, left_after, raised, reached_after};
ghost use Rattle.order_core.specs.CoreSets.{count_in};
ghost use Rattle.order_core.specs.Places.{left_at, reached_at};
ghost use Rattle.order_core.specs.Walk.{IsSameSize};
ghost use Rattle.order_core.specs.Walking.{OthersWait, HasGiven};
ghost use Rattle.order_core.specs.WalkCalls.{IsAtStart, IsWalking, IsNext};

use crate::entry::{Access, CoreLog, Entry};
use crate::numbers::{set_to_zero, zeros};
use crate::waiting::WaitingCores;
use bounded_list::NoMemory;
use std::alloc::Global;
use std::marker::Model;

/// A walk along the canonical merge of logs, which gives one core at a time and keeps no list of them.
#[derive(Debug, Drop)]
pub struct Walk {
    places: Vec<u32>,
    counts: Vec<u64>,
    waiting: WaitingCores,
}

impl Model for Walk {
    ghost use Rattle.std.specs.Prelude.{vec_len};
    ghost use Rattle.order_core.specs.Walk.{WalkSeen};
    ghost use Rattle.order_core.specs.Walking.{IsWalk};

    ghost Value = { WalkSeen };

    ghost view = { λ walk. record {
      cores = vec_len walk.places;
      words = vec_len walk.counts;
      places = walk.places.items;
      counts = walk.counts.items;
      awake = walk.waiting.awake;
      sets = walk.waiting.sets.items;
    } };

    ghost invariant = { λ walk. IsWalk (vec_len walk.places) (vec_len walk.waiting.sets) };
}

impl Walk {
    /// A walk for this many cores, at most 32, and for the words below `words`.
    pub fn create(alloc: Global, words: u32, cores: u8) -> Result<Walk, NoMemory>
        requires { cores ≤ 32 }
        ensures size { IfOk result (λ walk. (walk.cores ≡ cores) × (walk.words ≡ words)) }
        ensures start { IfOk result IsAtStart }
    {
        let places = zeros(alloc, cores as usize)?;
        let counts = no_counts(alloc, words)?;
        let waiting = WaitingCores::create(alloc)?;
        Ok(Walk {
            places,
            counts,
            waiting,
        })
    }

    /// Goes back to the start. From here on other logs may be walked.
    pub fn restart(&mut self)
        ensures size { IsSameSize self.new self.old }
        ensures start { IsAtStart self.new }
    {
        set_to_zero(&mut self.places);
        clear(&mut self.counts);
        self.waiting.wake_all();
    }

    /// The core at the next place of the canonical merge of the logs, which are the same as at each call since the start.
    /// `None` where the merge is whole: exactly where all entries were given, if the logs have a legal merge.
    pub fn next(&mut self, logs: &[CoreLog]) -> Option<u8>
        requires { IsWalking self.old (logs_of logs.now) }
        ensures walking { IsWalking self.new (logs_of logs.now) }
        ensures size { IsSameSize self.new self.old }
        ensures core { (given : List ℕ) → HasGiven self.old (logs_of logs.now) given → IsNext (logs_of logs.now) given result }
        ensures given { (given : List ℕ) → HasGiven self.old (logs_of logs.now) given → HasGiven self.new (logs_of logs.now) (given ++ option_to_list result) }
    {
        walk_on(logs, &mut self.places, &mut self.counts, &mut self.waiting)
    }
}

/// A count of 0 for each word.
fn no_counts(alloc: Global, words: u32) -> Result<Vec<u64>, NoMemory>
    ensures { IfOk result (λ counts. counts.items ≡ replicate words 0) }
{
    vec![in alloc; 0; words as usize].map_err(|_| NoMemory)
}

/// Sets each count to 0.
fn clear(counts: &mut Vec<u64>)
    ensures items { counts.new.items ≡ replicate (vec_len counts.old) 0 }
    ensures words { vec_len counts.new ≡ vec_len counts.old }
{
    counts.fill(0);
}

/// The next entry of a core, `None` where it is not among these or has none left.
fn next_entry(logs: &[CoreLog], places: &[u32], core: u8) -> Option<Entry>
    requires { length logs.now ≡ length places.now }
    ensures next { result ≡ slice_get (left_at (logs_of logs.now) places.now core) 0 }
    ensures within { IsSome result → core < length logs.now }
    ensures small { IsSome result → slice_index places.now core + 1 < 2 ^ 32 }
    ensures below { (words : ℕ) → AllTouchBelow words (logs_of logs.now) → IfSome result (TouchesBelow words) }
{
    let log = logs.get(core as usize)?.as_slice();
    let place = places[core as usize] as usize;
    if place < log.len() {
        Some(log[place])
    } else {
        None
    }
}

/// The access, where its word has not reached its number.
fn awaited(counts: &[u64], touch: Option<Access>) -> Option<Access>
    requires { IfSome touch (λ access. access.word < length counts.now) }
    ensures { MatchOption result (may_touch (reached_at counts.now) touch ≡ true) (λ access. (touch ≡ Some access) × (access.number ≢ reached_at counts.now access.word)) }
{
    let access = touch?;
    if access.number as u64 == counts[access.word as usize] {
        return None;
    }
    Some(access)
}

/// One access more to a word, whose count is the access's number.
fn raise_count(counts: &mut Vec<u64>, access: Access)
    requires below { access.word < vec_len counts.old }
    requires number { access.number ≡ reached_at counts.old.items access.word }
    ensures reached { reached_at counts.new.items ≡ raised (reached_at counts.old.items) (Some access) }
    ensures words { vec_len counts.new ≡ vec_len counts.old }
{
    counts[access.word as usize] += 1;
}

/// Moves a core's place by one.
fn pass_entry(places: &mut Vec<u32>, core: u8)
    requires within { core < vec_len places.old }
    requires small { slice_index places.old.items core + 1 < 2 ^ 32 }
    ensures left { (logs : List (List Entry)) → left_at logs places.new.items ≡ left_after (left_at logs places.old.items) core }
    ensures cores { vec_len places.new ≡ vec_len places.old }
{
    places[core as usize] += 1;
}

/// Gives the next entry of a core, which is ready: the cores wake that wait for the next number of its word.
#[tactic(auto, using(crate::proofs::Sleeping::waits_quiet, crate::proofs::Sleeping::waits_raised))]
fn give(
    core: u8,
    touch: Option<Access>,
    places: &mut Vec<u32>,
    counts: &mut Vec<u64>,
    waiting: &mut WaitingCores,
)
    requires place { (core < vec_len places.old) × (slice_index places.old.items core + 1 < 2 ^ 32) }
    requires below { IfSome touch (λ access. access.word < vec_len counts.old) }
    requires ready { may_touch (reached_at counts.old.items) touch ≡ true }
    requires sets { vec_len waiting.old.sets ≡ 1024 }
    ensures left { (logs : List (List Entry)) → left_at logs places.new.items ≡ left_after (left_at logs places.old.items) core }
    ensures reached { reached_at counts.new.items ≡ raised (reached_at counts.old.items) touch }
    ensures waits { (left : ℕ → List Entry) → OthersWait left (reached_at counts.old.items) waiting.old.awake waiting.old.sets.items → count_in waiting.old.awake core ≡ 1
        → OthersWait (left_after left core) (raised (reached_at counts.old.items) touch) waiting.new.awake waiting.new.sets.items }
    ensures places { vec_len places.new ≡ vec_len places.old }
    ensures words { vec_len counts.new ≡ vec_len counts.old }
    ensures sets { vec_len waiting.new.sets ≡ 1024 }
{
    pass_entry(places, core);
    if let Some(access) = touch {
        raise_count(counts, access);
        waiting.wake(access.word, access.number as u64 + 1);
    }
}

/// Gives the next entry of a core if it is ready, and else lets the core wait.
fn look_at(
    logs: &[CoreLog],
    core: u8,
    places: &mut Vec<u32>,
    counts: &mut Vec<u64>,
    waiting: &mut WaitingCores,
) -> bool
    requires cores { length logs.now ≡ vec_len places.old }
    requires words { AllTouchBelow (vec_len counts.old) (logs_of logs.now) }
    requires core { (core < 32) × (count_in waiting.old.awake core ≡ 1) }
    requires sets { vec_len waiting.old.sets ≡ 1024 }
    requires waits { OthersWait (left_at (logs_of logs.now) places.old.items) (reached_at counts.old.items) waiting.old.awake waiting.old.sets.items }
    ensures ready { result ≡ is_ready (reached_at counts.old.items) (left_at (logs_of logs.now) places.old.items core) }
    ensures within { result ≡ true → core < length logs.now }
    ensures left { result ≡ true → left_at (logs_of logs.now) places.new.items ≡ left_after (left_at (logs_of logs.now) places.old.items) core }
    ensures reached { result ≡ true → reached_at counts.new.items ≡ reached_after (reached_at counts.old.items) (left_at (logs_of logs.now) places.old.items core) }
    ensures same { result ≡ false → (places.new ≡ places.old) × (counts.new ≡ counts.old) × (waiting.new.awake.mask < waiting.old.awake.mask) }
    ensures waits { OthersWait (left_at (logs_of logs.now) places.new.items) (reached_at counts.new.items) waiting.new.awake waiting.new.sets.items }
    ensures cores { vec_len places.new ≡ vec_len places.old }
    ensures words { vec_len counts.new ≡ vec_len counts.old }
    ensures sets { vec_len waiting.new.sets ≡ 1024 }
{
    let Some(entry) = next_entry(logs, places, core) else {
        waiting.end(core);
        return false;
    };
    match awaited(counts, entry.touch) {
        None => {
            give(core, entry.touch, places, counts, waiting);
            true
        }
        Some(access) => {
            waiting.wait(core, access);
            false
        }
    }
}

/// Gives the next core of the canonical merge.
fn walk_on(
    logs: &[CoreLog],
    places: &mut Vec<u32>,
    counts: &mut Vec<u64>,
    waiting: &mut WaitingCores,
) -> Option<u8>
    requires cores { length logs.now ≡ vec_len places.old }
    requires words { AllTouchBelow (vec_len counts.old) (logs_of logs.now) }
    requires sets { vec_len waiting.old.sets ≡ 1024 }
    requires waits { OthersWait (left_at (logs_of logs.now) places.old.items) (reached_at counts.old.items) waiting.old.awake waiting.old.sets.items }
    ensures least { result ≡ least_ready (left_at (logs_of logs.now) places.old.items) (reached_at counts.old.items) (length logs.now) }
    ensures left { IfSome result (λ core. left_at (logs_of logs.now) places.new.items
        ≡ left_after (left_at (logs_of logs.now) places.old.items) core) }
    ensures reached { IfSome result (λ core. reached_at counts.new.items
        ≡ reached_after (reached_at counts.old.items) (left_at (logs_of logs.now) places.old.items core)) }
    ensures same { result ≡ None → (places.new ≡ places.old) × (counts.new ≡ counts.old) }
    ensures waits { OthersWait (left_at (logs_of logs.now) places.new.items) (reached_at counts.new.items) waiting.new.awake waiting.new.sets.items }
    ensures cores { vec_len places.new ≡ vec_len places.old }
    ensures words { vec_len counts.new ≡ vec_len counts.old }
    ensures sets { vec_len waiting.new.sets ≡ 1024 }
{
    'looks: while let Some(core) = waiting.awake.least() {
        if look_at(logs, core, places, counts, waiting) {
            return Some(core);
        }
    }
    None
}
