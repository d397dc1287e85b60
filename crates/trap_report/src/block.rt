//! A block of text with a fixed room, written field by field.
ghost use Rattle.std.specs.Prelude.{◌≡◌, ◌+◌, ◌^◌, ◌<◌, ◌≤◌, [], ◌∷◌, ◌++◌, length};
ghost use Rattle.trap_report.specs.Digits.{hex, hex_digit};

use itoa::{Buffer, Integer};
use std::marker::Model;

/// How many bytes a block has room for.
pub const ROOM: usize = 4096;

const SPACE: u8 = b' ';

const LINE_FEED: u8 = b'\n';

/// Text of at most 4,096 bytes.
#[derive(Drop)]
pub struct Block {
    bytes: [u8; ROOM],
    len: usize,
}

impl Model for Block {
    ghost use Rattle.std.specs.Prelude.{◌≤◌, ℕ, List, take};

    ghost Value = { List ℕ };

    ghost view = { λ block. take block.len block.bytes };

    ghost invariant = { λ block. block.len ≤ 4096 };
}

impl Block {
    /// A block with nothing on it yet.
    pub fn new() -> Block
        ensures { result ≡ [] }
    {
        Block {
            bytes: [0; ROOM],
            len: 0,
        }
    }

    pub fn as_bytes(&self) -> &[u8]
        ensures { result.now ≡ self.now }
    {
        &self.bytes[..self.len]
    }

    pub fn len(&self) -> usize
        ensures { result ≡ length self.now }
    {
        self.len
    }

    pub fn clear(&mut self)
        ensures { self.new ≡ [] }
    {
        self.len = 0;
    }

    fn push(&mut self, byte: u8)
        requires { length self.old < ROOM }
        ensures text { self.new ≡ self.old ++ byte ∷ [] }
        ensures len { length self.new ≡ length self.old + 1 }
    {
        self.bytes[self.len] = byte;
        self.len += 1;
    }

    /// Puts a text at the end, with no space before it.
    pub fn push_text(&mut self, text: &[u8])
        requires { length self.old + length text.now ≤ ROOM }
        ensures text { self.new ≡ self.old ++ text.now }
        ensures len { length self.new ≡ length self.old + length text.now }
    {
        for byte in text {
            self.push(*byte);
        }
    }

    /// Puts a number at the end in decimal, with no space before it.
    pub fn push_number<I: Integer>(&mut self, number: I)
        requires { length self.old + I.MAX_STR_LEN ≤ ROOM }
        ensures text { self.new ≡ self.old ++ I.text number }
        ensures len { length self.new ≤ length self.old + I.MAX_STR_LEN }
    {
        let mut buffer = Buffer::new();
        self.push_text(buffer.format(number).as_bytes());
    }

    // The last digits of a number in base 16, the highest first.
    fn push_hex(&mut self, number: u128, digits: u8)
        requires room { length self.old + digits ≤ ROOM }
        requires few { digits ≤ 32 }
        ensures text { self.new ≡ self.old ++ hex digits number }
        ensures len { length self.new ≡ length self.old + digits }
    {
        let mut left = digits;
        while left > 0 {
            left -= 1;
            self.push(hex_digit(((number >> (4 * left)) % 16) as u8));
        }
    }

    /// A further field with a text.
    pub fn text_field(&mut self, text: &[u8])
        requires { length self.old + length text.now < ROOM }
        ensures text { self.new ≡ self.old ++ 32 ∷ text.now }
        ensures len { length self.new ≡ length self.old + length text.now + 1 }
    {
        self.push(SPACE);
        self.push_text(text);
    }

    /// A further field with a number in decimal.
    pub fn number_field<I: Integer>(&mut self, number: I)
        requires { length self.old + I.MAX_STR_LEN < ROOM }
        ensures text { self.new ≡ self.old ++ 32 ∷ I.text number }
        ensures len { length self.new ≤ length self.old + I.MAX_STR_LEN + 1 }
    {
        self.push(SPACE);
        self.push_number(number);
    }

    /// A further field with the last `digits` digits of a number in hexadecimal.
    pub fn hex_field(&mut self, number: u128, digits: u8)
        requires room { length self.old + digits < ROOM }
        requires few { digits ≤ 32 }
        ensures text { self.new ≡ self.old ++ 32 ∷ hex digits number }
        ensures len { length self.new ≡ length self.old + digits + 1 }
    {
        self.push(SPACE);
        self.push_hex(number, digits);
    }

    /// Ends the line.
    pub fn end_line(&mut self)
        requires { length self.old < ROOM }
        ensures { self.new ≡ self.old ++ 10 ∷ [] }
    {
        self.push(LINE_FEED);
    }
}

// A digit of base 16, in lower case.
fn hex_digit(digit: u8) -> u8
    requires { digit < 16 }
    ensures { result ≡ hex_digit digit }
{
    if digit < 10 {
        b'0' + digit
    } else {
        b'a' + (digit - 10)
    }
}
