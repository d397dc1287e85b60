//! The numbers of the words of the devices. The words of memory follow them.

/// How far the input was taken.
pub const INPUT_WORD: u32 = 0;

/// How long the output is.
pub const OUTPUT_WORD: u32 = 1;

/// The program break.
pub const BREAK_WORD: u32 = 2;

/// How many words the devices have.
pub const DEVICE_WORDS: u32 = 3;
