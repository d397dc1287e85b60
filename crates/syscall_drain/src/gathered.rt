//! The bytes that a write call gathers from the words of its buffer.
ghost use Rattle.std.specs.Prelude.{◌≡◌, ◌<◌, ◌≤◌, ◌+◌, ◌-◌, ◌*◌, ◌/◌, ◌%◌, ◌^◌, ◌++◌, ◌∷◌, [], min, length};
ghost use Rattle.syscall_drain.specs.Buffers.{covers, gather, byte_if};

use crate::buffer::Buffer;
use crate::limits::MOST_BYTES;
use std::marker::Model;

/// The bytes that a call can gather.
const ROOM: usize = MOST_BYTES as usize;

/// The bytes that a write call gathered.
#[derive(Drop)]
pub struct Gathered {
    bytes: [u8; ROOM],
    length: usize,
}

impl Model for Gathered {
    ghost use Rattle.std.specs.Prelude.{◌≤◌, ℕ, List, take};
    ghost use Rattle.syscall_drain.specs.declared.limits.TheConstants.{MOST_BYTES};

    ghost Value = { List ℕ };

    ghost view = { λ gathered. take gathered.length gathered.bytes };

    ghost invariant = { λ gathered. gathered.length ≤ MOST_BYTES };
}

/// A byte of a word, by its place from the lowest on.
fn byte_of(word: u32, j: u32) -> u8
    requires { j < 4 }
    ensures { result ≡ word / 256 ^ j % 256 }
{
    let shifted = match j {
        0 => word,
        1 => word / 256,
        2 => word / 65536,
        _ => word / 16777216,
    };
    (shifted % 256) as u8
}

impl Gathered {
    pub fn new() -> Gathered
        ensures { result ≡ [] }
    {
        Gathered {
            bytes: [0; ROOM],
            length: 0,
        }
    }

    /// The bytes, in the order in which they were gathered.
    pub fn as_slice(&self) -> &[u8]
        ensures bytes { result.now ≡ self.now }
        ensures few { length result.now ≤ MOST_BYTES }
    {
        &self.bytes[..self.length]
    }

    /// Takes all bytes out.
    pub fn clear(&mut self)
        ensures { self.new ≡ [] }
    {
        self.length = 0;
    }

    /// Adds a byte at the end.
    fn push(&mut self, byte: u8)
        requires { length self.old < MOST_BYTES }
        ensures { self.new ≡ self.old ++ byte ∷ [] }
    {
        self.bytes[self.length] = byte;
        self.length += 1;
    }

    /// Adds a byte of a word that was read, where the buffer has it.
    fn gather_byte(&mut self, buffer: Buffer, index: u32, j: u32, word: u32)
        requires few { buffer.count ≤ MOST_BYTES }
        requires low { index ≤ 1024 }
        requires byte { j < 4 }
        requires before { length self.old ≡ min (4 * index + j) (buffer.start % 4 + buffer.count) - buffer.start % 4 }
        ensures bytes { self.new ≡ self.old ++ byte_if (covers buffer.start buffer.count index j) j word [] }
        ensures after { length self.new ≡ min (4 * index + (j + 1)) (buffer.start % 4 + buffer.count) - buffer.start % 4 }
    {
        if buffer.covers(index, j) {
            self.push(byte_of(word, j));
        }
    }

    /// Adds the buffer's bytes of a word that was read.
    pub fn gather(&mut self, buffer: Buffer, index: u32, word: u32)
        requires few { buffer.count ≤ MOST_BYTES }
        requires low { index ≤ 1024 }
        requires before { length self.old ≡ min (4 * index) (buffer.start % 4 + buffer.count) - buffer.start % 4 }
        ensures { self.new ≡ self.old ++ gather buffer.start buffer.count index word }
    {
        self.gather_byte(buffer, index, 0, word);
        self.gather_byte(buffer, index, 1, word);
        self.gather_byte(buffer, index, 2, word);
        self.gather_byte(buffer, index, 3, word);
    }
}
