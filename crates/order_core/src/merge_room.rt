ghost use Rattle.std.specs.Prelude.{◌≡◌, ℕ, ◌+◌, ◌^◌, ◌<◌, ◌≤◌, List, [], ◌∷◌, length, drop, replicate, slice_index, vec_len, All, IfOk, IfSome, IsTrue, ◌↔◌};
ghost use Rattle.order_core.specs.Logs.{logs_of, log_of, entry_count, TouchesBelow, AllTouchBelow};
ghost use Rattle.order_core.specs.LegalMerge.{HasLegalMerge, IsLegalOrder};
ghost use Rattle.order_core.specs.CanonicalMerge.{is_ready, least_ready, left_after, raised, reached_after, canonical, IsCanonicalMerge};
ghost use Rattle.order_core.specs.Places.{left_at, reached_at};
ghost use Rattle.order_core.specs.Room.{Room};

use crate::entry::{Access, CoreLog, Entry, Order};
use crate::numbers::{set_to_zero, zeros};
use bounded_list::NoMemory;
use std::alloc::Global;
use std::marker::Model;

/// The most logs that a merge takes.
const MOST_LOGS: usize = 32;

/// The memory of a merge. It is taken once, and serves as many merges as are wanted.
#[derive(Debug, Drop)]
pub struct MergeRoom {
    order: Order,
    places: Vec<u32>,
    counts: Vec<u32>,
}

impl Model for MergeRoom {
    ghost Value = { Room };

    ghost view = { λ room. record { words = vec_len room.counts; order = room.order } };

    ghost invariant = { λ room. vec_len room.places ≡ 32 };
}

impl MergeRoom {
    /// Room to merge logs whose words are below `words`, and that hold at most `units` entries together.
    pub fn create(alloc: Global, words: u32, units: u32) -> Result<MergeRoom, NoMemory>
        ensures { IfOk result (λ room. room ≡ record { words = words; order = record { items = []; room = units } }) }
    {
        let order = Order::create(alloc, units)?;
        let places = zeros(alloc, MOST_LOGS)?;
        let counts = zeros(alloc, words as usize)?;
        Ok(MergeRoom {
            order,
            places,
            counts,
        })
    }

    /// The order that the last merge gave.
    pub fn order(&self) -> &Order
        ensures { result.now ≡ self.now.order }
    {
        &self.order
    }
}

/// Whether the core with this log, of which `place` entries were given, may come next.
fn is_next_ready(log: &[Entry], place: u32, counts: &[u32]) -> bool
    requires { All (TouchesBelow (length counts.now)) log.now }
    ensures { result ≡ is_ready (reached_at counts.now) (drop place log.now) }
{
    match log.get(place as usize) {
        None => false,
        Some(entry) => match entry.touch {
            None => true,
            Some(access) => access.number == counts[access.word as usize],
        },
    }
}

/// The least core that may come next.
fn find_least_ready(logs: &[CoreLog], places: &[u32], counts: &[u32]) -> Option<usize>
    requires few { length logs.now ≤ length places.now }
    requires words { AllTouchBelow (length counts.now) (logs_of logs.now) }
    ensures least { result ≡ least_ready (left_at (logs_of logs.now) places.now) (reached_at counts.now) (length logs.now) }
    ensures within { IfSome result (λ core. core < length logs.now) }
    ensures unfinished { IfSome result (λ core. slice_index places.now core < length (log_of (logs_of logs.now) core)) }
{
    for core in 0..logs.len() {
        if is_next_ready(logs[core].as_slice(), places[core], counts) {
            return Some(core);
        }
    }
    None
}

/// Raises the count of the word that is touched, if one is.
fn raise_count(counts: &mut Vec<u32>, touch: Option<Access>)
    requires below { IfSome touch (λ access. access.word < vec_len counts.old) }
    requires low { (word : ℕ) → slice_index counts.old.items word + 1 < 2 ^ 32 }
    ensures reached { reached_at counts.new.items ≡ raised (reached_at counts.old.items) touch }
    ensures words { vec_len counts.new ≡ vec_len counts.old }
    ensures low { (word : ℕ) → slice_index counts.new.items word ≤ slice_index counts.old.items word + 1 }
{
    if let Some(access) = touch {
        counts[access.word as usize] += 1;
    }
}

/// The next entry of a core.
fn next_entry(log: &CoreLog, place: u32) -> Entry
    requires { place < length log.now.items }
    ensures next { drop place log.now.items ≡ result ∷ drop 1 (drop place log.now.items) }
    ensures touches { (words : ℕ) → All (TouchesBelow words) log.now.items → TouchesBelow words result }
    ensures small { place + 1 < 2 ^ 32 }
{
    log.as_slice()[place as usize]
}

/// Gives the next entry of the canonical merge, and tells its core.
fn give_next(logs: &[CoreLog], places: &mut Vec<u32>, counts: &mut Vec<u32>) -> Option<usize>
    requires few { length logs.now ≤ vec_len places.old }
    requires words { AllTouchBelow (vec_len counts.old) (logs_of logs.now) }
    requires low { (word : ℕ) → slice_index counts.old.items word + 1 < 2 ^ 32 }
    ensures least { result
        ≡ least_ready (left_at (logs_of logs.now) places.old.items) (reached_at counts.old.items) (length logs.now) }
    ensures within { IfSome result (λ core. core < length logs.now) }
    ensures left { IfSome result (λ core. left_at (logs_of logs.now) places.new.items
        ≡ left_after (left_at (logs_of logs.now) places.old.items) core) }
    ensures reached { IfSome result (λ core. reached_at counts.new.items
        ≡ reached_after (reached_at counts.old.items) (left_at (logs_of logs.now) places.old.items core)) }
    ensures places { vec_len places.new ≡ vec_len places.old }
    ensures words { vec_len counts.new ≡ vec_len counts.old }
    ensures low { (word : ℕ) → slice_index counts.new.items word ≤ slice_index counts.old.items word + 1 }
{
    let core = find_least_ready(logs, places, counts)?;
    let entry = next_entry(&logs[core], places[core]);
    raise_count(counts, entry.touch);
    places[core] += 1;
    Some(core)
}

/// Puts the canonical merge into an empty order, from places and counts that are all 0.
fn fill_order(logs: &[CoreLog], places: &mut Vec<u32>, counts: &mut Vec<u32>, order: &mut Order)
    requires few { length logs.now ≤ 32 }
    requires cores { vec_len places.old ≡ 32 }
    requires words { AllTouchBelow (vec_len counts.old) (logs_of logs.now) }
    requires units { entry_count (logs_of logs.now) ≤ order.old.room }
    requires no_places { places.old.items ≡ replicate (vec_len places.old) 0 }
    requires no_counts { counts.old.items ≡ replicate (vec_len counts.old) 0 }
    requires empty { order.old.items ≡ [] }
    ensures order { order.new ≡ record order.old { items = canonical (logs_of logs.now) } }
    ensures places { vec_len places.new ≡ vec_len places.old }
    ensures words { vec_len counts.new ≡ vec_len counts.old }
{
    'entries: for _ in 0..order.room() {
        let Some(core) = give_next(logs, places, counts) else {
            return;
        };
        order.push(core as u8);
    }
}

/// Whether each access of the log is to a word below `words`.
fn log_touches_below(log: &CoreLog, words: u32) -> bool
    ensures { IsTrue result ↔ All (TouchesBelow words) log.now.items }
{
    log.as_slice().iter().all(|entry| match entry.touch {
        None => true,
        Some(access) => access.word < words,
    })
}

fn each_touches_below(logs: &[CoreLog], words: u32) -> bool
    ensures { IsTrue result ↔ All (λ log. All (TouchesBelow words) log.items) logs.now }
{
    logs.iter().all(|log| log_touches_below(log, words))
}

/// Whether each access of the logs is to a word below `words`, as a merge asks.
pub fn all_touch_below(logs: &[CoreLog], words: u32) -> bool
    ensures { IsTrue result ↔ AllTouchBelow words (logs_of logs.now) }
{
    each_touches_below(logs, words)
}

/// Puts the canonical merge of the logs into the room, in place of what it held.
///
/// At each place stands the least core whose next entry has no access, or has the number that its word has reached;
/// the order ends where no core is ready, which is at the end of all logs wherever they have a legal merge.
pub fn merge(logs: &[CoreLog], room: &mut MergeRoom)
    requires few { length logs.now ≤ 32 }
    requires words { AllTouchBelow room.old.words (logs_of logs.now) }
    requires units { entry_count (logs_of logs.now) ≤ room.old.order.room }
    ensures order { room.new
        ≡ record room.old { order = record room.old.order { items = canonical (logs_of logs.now) } } }
    ensures legal { HasLegalMerge (logs_of logs.now) → IsLegalOrder (logs_of logs.now) room.new.order.items }
    ensures least { HasLegalMerge (logs_of logs.now) → IsCanonicalMerge (logs_of logs.now) room.new.order.items }
{
    set_to_zero(&mut room.places);
    set_to_zero(&mut room.counts);
    room.order.clear();
    fill_order(logs, &mut room.places, &mut room.counts, &mut room.order);
}
