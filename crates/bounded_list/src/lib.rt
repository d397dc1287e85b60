//! A list whose memory is taken once, when it is created: a push within its room cannot fail.
#![tactic(auto)]

ghost use Rattle.std.specs.Prelude.{◌≡◌, ◌+◌, ◌^◌, ◌<◌, ◌≤◌, [], ◌∷◌, ◌++◌, length, drop, slice_get, IfOk, vec_capacity};
ghost use Rattle.bounded_list.specs.Bounded.{Bounded, IsWithinRoom, overwritten};

use std::alloc::Global;
use std::marker::Model;

/// The memory that was asked for could not be had.
#[derive(Clone, Copy, Debug, PartialEq, Eq)]
pub struct NoMemory;

/// A list of at most `room` items, where `room` is fixed when the list is created.
#[derive(Debug, Drop)]
pub struct BoundedList<T> {
    items: Vec<T>,
    room: u32,
}

impl<T> Model for BoundedList<T> {
    ghost Value = { Bounded T };

    ghost view = { λ list. record { items = list.items.items; room = list.room } };

    ghost invariant = { λ list. IsWithinRoom (length list.items.items) list.room (vec_capacity list.items) };
}

impl<T> BoundedList<T> {
    /// The empty list with room for `room` items.
    pub fn create(alloc: Global, room: u32) -> Result<BoundedList<T>, NoMemory>
        ensures { IfOk result (λ list. list ≡ record { items = []; room = room }) }
    {
        match Vec::with_capacity(alloc, room as usize) {
            Ok(items) => Ok(BoundedList { items, room }),
            Err(_) => Err(NoMemory),
        }
    }

    /// Puts the item at the end.
    pub fn push(&mut self, item: T)
        requires { length self.old.items < self.old.room }
        ensures { self.new ≡ record self.old { items = self.old.items ++ item ∷ [] } }
    {
        self.items.push(item).unwrap();
    }

    /// Takes all items out; the room stays.
    pub fn clear(&mut self)
    where
        T: Drop,
        ensures { self.new ≡ record self.old { items = [] } }
    {
        self.items.clear();
    }

    /// Takes the first item out.
    pub fn remove_first(&mut self) -> T
        requires { 0 < length self.old.items }
        ensures item { slice_get self.old.items 0 ≡ Some result }
        ensures rest { self.new ≡ record self.old { items = drop 1 self.old.items } }
    {
        self.items.remove(0)
    }

    /// How many items the list holds.
    pub fn len(&self) -> usize
        ensures count { result ≡ length self.now.items }
        ensures within { result ≤ self.now.room }
        ensures small { result < 2 ^ 32 }
    {
        self.items.len()
    }

    /// How many items the list has room for.
    pub fn room(&self) -> u32
        ensures { result ≡ self.now.room }
    {
        self.room
    }

    /// The items, in the order in which they were pushed.
    pub fn as_slice(&self) -> &[T]
        ensures items { result.now ≡ self.now.items }
        ensures within { length result.now ≤ self.now.room }
        ensures small { length result.now < 2 ^ 32 }
    {
        self.items.as_slice()
    }

    /// The items alone, in the memory of the list.
    pub fn into_vec(self) -> Vec<T>
        ensures { result.items ≡ self.items }
    {
        let BoundedList { items, room: _ } = self;
        items
    }
}

impl<T: Copy> BoundedList<T> {
    /// The item at this place, counted from 0: `None` exactly where the place is at or above `len`.
    pub fn get(&self, place: usize) -> Option<T>
        ensures { result ≡ slice_get self.now.items place }
    {
        self.items.get(place).copied()
    }

    /// Sets the items from this place on to these.
    pub fn overwrite(&mut self, place: usize, items: &[T])
        requires { place + length items.now ≤ length self.old.items }
        ensures { self.new ≡ record self.old { items = overwritten self.old.items place items.now } }
    {
        self.items.as_mut_slice()[place..place + items.len()].copy_from_slice(items);
    }
}
