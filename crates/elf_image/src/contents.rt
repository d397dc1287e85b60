//! What memory holds before the first instruction.
ghost use Rattle.std.specs.Prelude.{◌≡◌, ◌≤◌, ◌+◌, ◌*◌, ◌<◌, ◌%◌, All, find, length, IfOk, IfSome, OnOk};
ghost use Rattle.elf_image.specs.Layout.{fills, byte_of, loaded_word};
ghost use Rattle.elf_image.specs.PageTable.{IsContents, IsExtended};

use crate::limits::{ALL_PAGES, MOST_PAGES, PAGE_BYTES, PAGE_WORDS};
use crate::segments::Segment;
use byteorder::{ByteOrder, LittleEndian};
use std::alloc::{AllocError, Global};

/// The first segment for which the file has the byte at an address.
fn segment_filling(segments: &[Segment], address: u32) -> Option<Segment>
    ensures found { result ≡ find (fills address) segments.now }
    ensures above { IfSome result (λ segment. segment.start ≤ address) }
{
    for segment in segments {
        if segment.fills(address) {
            return Some(*segment);
        }
    }
    None
}

/// The byte that the file puts at an address, and 0 where it puts none.
fn byte_at(bytes: &[u8], segments: &[Segment], address: u32) -> u8
    ensures { result ≡ byte_of bytes.now segments.now address }
{
    match segment_filling(segments, address) {
        None => 0,
        Some(segment) => {
            let place = segment.offset as usize + (address - segment.start) as usize;
            bytes.get(place).copied().unwrap_or(0)
        }
    }
}

/// The word that the file puts at an address.
fn loaded_word(bytes: &[u8], segments: &[Segment], address: u32) -> u32
    requires { address % 4 ≡ 0 }
    ensures { result ≡ loaded_word bytes.now segments.now address }
{
    let word = [
        byte_at(bytes, segments, address),
        byte_at(bytes, segments, address + 1),
        byte_at(bytes, segments, address + 2),
        byte_at(bytes, segments, address + 3),
    ];
    LittleEndian::read_u32(&word)
}

/// Adds the words of a page.
fn push_page(
    words: &mut Vec<u32>,
    bytes: &[u8],
    segments: &[Segment],
    page: u32,
) -> Result<(), AllocError>
    requires { page < ALL_PAGES }
    ensures { OnOk result (IsExtended words.old.items words.new.items (λ index. loaded_word bytes.now segments.now (PAGE_BYTES * page + 4 * index)) PAGE_WORDS) }
{
    for index in 0..PAGE_WORDS {
        words.push(loaded_word(bytes, segments, PAGE_BYTES * page + 4 * index))?;
    }
    Ok(())
}

/// The words of some pages, one after another.
pub fn first_words(
    alloc: Global,
    bytes: &[u8],
    segments: &[Segment],
    pages: &[u32],
) -> Result<Vec<u32>, AllocError>
    requires few { length pages.now ≤ MOST_PAGES }
    requires low { All (λ page. page < ALL_PAGES) pages.now }
    ensures { IfOk result (λ words. IsContents (loaded_word bytes.now segments.now) pages.now words.items (length pages.now)) }
{
    let mut words = Vec::with_capacity(alloc, PAGE_WORDS as usize * pages.len())?;
    for page in pages {
        push_page(&mut words, bytes, segments, *page)?;
    }
    Ok(words)
}
