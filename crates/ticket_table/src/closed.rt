//! The words of a table that no thread shares any more.

ghost use Rattle.std.specs.Prelude.{◌≡◌, ◌<◌, length, slice_index};
ghost use Rattle.std.specs.Slots.{slots_items, slots_len, IsFull};

use crate::change::Note;
use std::alloc::Global;
use std::marker::Model;

/// The words of a table that was closed. Contracts see it as their list.
pub struct Closed {
    inner: atomic_table::Closed<Note, Global>,
}

impl Model for Closed {
    ghost use Rattle.std.specs.Prelude.{◌≡◌, ℕ, List, length};
    ghost use Rattle.std.specs.Slots.{slots_items, slots_len, IsFull};

    ghost Value = { List ℕ };

    ghost view = { λ closed. slots_items closed.inner.words };

    ghost invariant = { λ closed. IsFull closed.inner.words × (slots_len closed.inner.words ≡ length (slots_items closed.inner.words)) × (slots_len closed.inner.slots ≡ 0) };
}

impl Closed {
    pub(crate) fn of(inner: atomic_table::Closed<Note, Global>) -> Closed
        requires full { IsFull inner.words }
        requires empty { slots_len inner.slots ≡ 0 }
        ensures { result ≡ slots_items inner.words }
    {
        Closed { inner }
    }

    /// The word of this number, with its count and its payload.
    pub fn word(&self, word: u32) -> u64
        requires { word < length self.now }
        ensures { result ≡ slice_index self.now word }
    {
        self.inner.word(word as usize)
    }
}

impl Drop for Closed {
    fn drop(self) {
        let Self { inner } = self;
        inner.free();
    }
}
