//! Images and files, as `guest_images` makes them.
//!
//! These have no contracts on purpose: the contract of a call comes into the proof of each test, at the words that are written there.

use guest_images::{echo_image, file_of, small_image};
use std::alloc::{AllocError, Global};

/// The small image of a program.
pub fn image_of(alloc: Global, program: &[u32]) -> Result<Vec<u8>, AllocError> {
    small_image(alloc, program)
}

/// The image of two segments, with these flags.
pub fn echo(alloc: Global, flags: u32) -> Result<Vec<u8>, AllocError> {
    echo_image(alloc, flags)
}

/// A file of these words.
pub fn words_file(alloc: Global, words: &[u32]) -> Result<Vec<u8>, AllocError> {
    file_of(alloc, words)
}
