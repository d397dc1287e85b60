//! The words that hold a call's buffer, and its bytes in them.
ghost use Rattle.std.specs.Prelude.{◌≡◌, ◌+◌, ◌-◌, ◌*◌, ◌/◌, ◌%◌, ◌^◌, ◌<◌, ◌≤◌, slice_index, if◌then◌else◌, length, IfSome};
ghost use Rattle.elf_image.specs.Layout.{word_of, words_of};
ghost use Rattle.rv_decode.specs.Four.{bit_value};
ghost use Rattle.syscall_drain.specs.Buffers.{word_count, word_address, buffer_word, place_of, covers, buffer_bytes, word_from, buffer_mask, buffer_value, fill};

use crate::limits::MOST_BYTES;
use elf_image::Image;
use rv_execute::Op;

/// The buffer of a call: its first address, and its count of bytes.
#[derive(Clone, Copy)]
pub struct Buffer {
    pub start: u32,
    pub count: u32,
}

/// The number of the word that holds an address.
#[tactic(auto, using(crate::proofs::Within::word_below))]
pub fn word_of(image: &Image, address: u32) -> Option<u32>
    ensures value { result ≡ word_of image.now address }
    ensures within { IfSome result (λ word. word < words_of image.now) }
{
    image.word_of(address)
}

/// The number of a word of a buffer.
#[tactic(auto, using(crate::proofs::Within::some_words))]
pub fn buffer_word(image: &Image, buffer: Buffer, index: u32) -> u32
    requires few { buffer.count ≤ MOST_BYTES }
    requires fits { buffer.start + buffer.count ≤ 4294967296 }
    requires inside { index < word_count buffer.start buffer.count }
    ensures value { result ≡ buffer_word image.now buffer.start index }
    ensures within { result < words_of image.now }
{
    match word_of(image, buffer.word_address(index)) {
        Some(word) => word,
        None => 0,
    }
}

impl Buffer {
    /// How many words have a byte of the buffer.
    pub fn words(self) -> u32
        requires { self.count ≤ MOST_BYTES }
        ensures { result ≡ word_count self.start self.count }
    {
        (self.start % 4 + self.count + 3) / 4
    }

    /// The address of a word of the buffer.
    pub fn word_address(self, index: u32) -> u32
        requires { self.start - self.start % 4 + 4 * index < 4294967296 }
        ensures { result ≡ word_address self.start index }
    {
        self.start - self.start % 4 + 4 * index
    }

    /// Whether the buffer has byte `j` of a word.
    pub fn covers(self, index: u32, j: u32) -> bool
        requires few { self.count ≤ MOST_BYTES }
        requires low { index ≤ 1024 }
        requires byte { j < 4 }
        ensures { result ≡ covers self.start self.count index j }
    {
        let place = 4 * index + j;
        self.start % 4 <= place && place < self.start % 4 + self.count
    }

    fn bit(self, index: u32, j: u32) -> u8
        requires few { self.count ≤ MOST_BYTES }
        requires low { index ≤ 1024 }
        requires byte { j < 4 }
        ensures value { result ≡ bit_value (covers self.start self.count index j) }
        ensures small { result < 2 }
    {
        u8::from(self.covers(index, j))
    }

    /// The buffer's bytes in a word, a bit for each.
    pub fn bytes(self, index: u32) -> u8
        requires few { self.count ≤ MOST_BYTES }
        requires low { index ≤ 1024 }
        ensures value { result ≡ buffer_bytes self.start self.count index }
        ensures small { result < 16 }
    {
        self.bit(index, 0)
            + 2 * self.bit(index, 1)
            + 4 * self.bit(index, 2)
            + 8 * self.bit(index, 3)
    }

    fn mask_byte(self, index: u32, j: u32) -> u32
        requires few { self.count ≤ MOST_BYTES }
        requires low { index ≤ 1024 }
        requires byte { j < 4 }
        ensures value { result ≡ (if covers self.start self.count index j then 255 else 0) }
        ensures small { result < 256 }
    {
        if self.covers(index, j) { 255 } else { 0 }
    }

    /// The mask of the buffer's bytes in a word.
    pub fn mask(self, index: u32) -> u32
        requires few { self.count ≤ MOST_BYTES }
        requires low { index ≤ 1024 }
        ensures { result ≡ buffer_mask self.start self.count index }
    {
        self.mask_byte(index, 0)
            + 256 * self.mask_byte(index, 1)
            + 65536 * self.mask_byte(index, 2)
            + 16777216 * self.mask_byte(index, 3)
    }

    fn value_byte(self, index: u32, j: u32, input: &[u8], position: u32) -> u32
        requires few { self.count ≤ MOST_BYTES }
        requires low { index ≤ 1024 }
        requires byte { j < 4 }
        ensures value { result ≡ (if covers self.start self.count index j then slice_index input.now (position + (place_of index j - self.start % 4)) else 0) }
        ensures small { result < 256 }
    {
        if self.covers(index, j) {
            let place = position as usize + (4 * index + j - self.start % 4) as usize;
            u32::from(input.get(place).copied().unwrap_or(0))
        } else {
            0
        }
    }

    /// The bytes of the input from a position on, as they stand in a word of the buffer.
    pub fn value(self, index: u32, input: &[u8], position: u32) -> u32
        requires few { self.count ≤ MOST_BYTES }
        requires low { index ≤ 1024 }
        ensures { result ≡ buffer_value self.start self.count index input.now position }
    {
        self.value_byte(index, 0, input, position)
            + 256 * self.value_byte(index, 1, input, position)
            + 65536 * self.value_byte(index, 2, input, position)
            + 16777216 * self.value_byte(index, 3, input, position)
    }

    /// The store of a read call to a word of its buffer, of the input's bytes from a position on.
    pub fn fill(self, index: u32, input: &[u8], position: u32) -> Op
        requires few { self.count ≤ MOST_BYTES }
        requires low { index ≤ 1024 }
        ensures { result ≡ fill self.start self.count index input.now position }
    {
        Op::Write {
            mask: self.mask(index),
            value: self.value(index, input, position),
        }
    }
}
