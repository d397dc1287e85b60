//! Files of words.
ghost use Rattle.std.specs.Prelude.{◌≡◌, ◌++◌, IfOk, OnOk, OnErr};
ghost use Rattle.guest_images.specs.Files.{bytes_of, IsPartlyAdded, padded, small_image, echo_words, echo_image};

use crate::programs::{CODE_HEADER, COUNT_HEADER, ECHO, HEADERS, PROCESSOR_HEADER, STACK_HEADER};
use std::alloc::{AllocError, Global};

/// Adds the words, the lowest byte of each first. Where memory runs out, the first of them are added.
pub fn push_words(bytes: &mut Vec<u8>, words: &[u32]) -> Result<(), AllocError>
    ensures added { OnOk result (bytes.new.items ≡ bytes.old.items ++ bytes_of words.now) }
    ensures partly { OnErr result (IsPartlyAdded bytes.old.items words.now bytes.new.items) }
{
    for word in words {
        bytes.extend_from_slice(&word.to_le_bytes())?;
    }
    Ok(())
}

/// A file of these words.
pub fn file_of(alloc: Global, words: &[u32]) -> Result<Vec<u8>, AllocError>
    ensures { IfOk result (λ file. file.items ≡ bytes_of words.now) }
{
    let mut file = Vec::new(alloc);
    push_words(&mut file, words)?;
    Ok(file)
}

/// The small image of a program: one segment at 0x10000, which may be read, written and executed.
pub fn small_image(alloc: Global, program: &[u32]) -> Result<Vec<u8>, AllocError>
    ensures { IfOk result (λ file. file.items ≡ small_image program.now) }
{
    let size = u32::try_from(4 * program.len()).unwrap_or(u32::MAX);
    let mut file = file_of(alloc, &HEADERS)?;
    push_words(&mut file, &[size, size, 7, 4])?;
    push_words(&mut file, program)?;
    Ok(file)
}

/// The words of the image of `ECHO` up to the end of its code.
fn echo_front(alloc: Global, flags: u32) -> Result<Vec<u8>, AllocError>
    ensures { IfOk result (λ file. file.items ≡ bytes_of (echo_words flags)) }
{
    let mut file = file_of(alloc, &HEADERS[..6])?;
    push_words(&mut file, &[0x0001_00b4, 52, 0, flags, 0x0020_0034, 4, 0])?;
    push_words(&mut file, &PROCESSOR_HEADER)?;
    push_words(&mut file, &CODE_HEADER)?;
    push_words(&mut file, &COUNT_HEADER)?;
    push_words(&mut file, &STACK_HEADER)?;
    push_words(&mut file, &ECHO)?;
    Ok(file)
}

/// The file with zeros after its last byte, up to this size.
fn padded(mut file: Vec<u8>, size: usize) -> Result<Vec<u8>, AllocError>
    ensures { IfOk result (λ longer. longer.items ≡ padded size file.items) }
{
    file.resize(size, 0)?;
    Ok(file)
}

/// The image of `ECHO`, of four program headers, where the ELF header has these flags.
pub fn echo_image(alloc: Global, flags: u32) -> Result<Vec<u8>, AllocError>
    ensures { IfOk result (λ file. file.items ≡ echo_image flags) }
{
    let front = echo_front(alloc, flags)?;
    let mut file = padded(front, 0x1000)?;
    push_words(&mut file, &[1])?;
    Ok(file)
}
