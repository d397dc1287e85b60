//! The memory map of a loaded file.
ghost use Rattle.std.specs.Prelude.{◌≡◌, ◌≢◌, ◌/◌, ◌%◌, ◌<◌, ◌≤◌, length, Some, None, IfOk, IfErr, OnOk};
ghost use Rattle.elf_image.specs.Elf.{segments};
ghost use Rattle.elf_image.specs.ImageFault.{IsAccepted, image_fault};
ghost use Rattle.elf_image.specs.Layout.{break_base, entry_of, fetched, first_word, first_words, heap_end, is_writable, layout_of, segment_at, word_of, words_of};
ghost use Rattle.elf_image.specs.Memory.{page_of_layout};

use crate::contents::first_words;
use crate::device::{BREAK_WORD, DEVICE_WORDS};
use crate::fault::ImageFault;
use crate::headers::entry_address;
use crate::limits::{MOST_CORES, MOST_HEAP, MOST_STACK, PAGE_BYTES, PAGE_WORDS};
use crate::loading::{PageTable, accepted_segments, check_entry, map_memory};
use crate::page_directory::{Page, PageDirectory};
use crate::segments::{Segment, break_page, segment_at};
use boxcar::tag::{Names, Tag};
use std::alloc::{AllocError, Global};
use std::marker::Model;

/// The bytes of a file as the numbers of a tag, which has no bytes and which clauses alone see.
struct FileBytes;

impl Names<&[u8]> for FileBytes {
    ghost numbers = { λ bytes. bytes.now };
}

/// A loaded image: what memory holds before the first instruction, and which of it may be written
/// and executed.
#[derive(Drop)]
pub struct Image {
    file: Tag,
    cores: u8,
    stack: u32,
    heap: u32,
    segments: Vec<Segment>,
    directory: PageDirectory,
    words: Vec<u32>,
    break_base: u32,
    entry: u32,
}

impl Model for Image {
    ghost use Rattle.std.specs.Prelude.{◌≤◌};
    ghost use Rattle.elf_image.specs.Layout.{Layout, layout_of};
    ghost use Rattle.elf_image.specs.ImageFault.{IsAccepted};
    ghost use Rattle.elf_image.specs.Memory.{IsMemoryOf, IsReadFrom};

    ghost Value = { Layout };

    ghost view = { λ image. layout_of image.file.numbers image.cores image.stack image.heap };

    ghost invariant = { λ image. IsMemoryOf (layout_of image.file.numbers image.cores image.stack image.heap) image.directory.leaves.items image.directory.entries.items image.words.items × IsReadFrom (layout_of image.file.numbers image.cores image.stack image.heap) image.segments.items image.break_base image.entry × IsAccepted (layout_of image.file.numbers image.cores image.stack image.heap) };
}

/// The image of a file for a count of cores, of the pages of each core's stack and of those of the
/// heap, or the first of the file's faults. `NoMemory` may come in place of either.
pub fn load(
    alloc: Global,
    bytes: &[u8],
    cores: u8,
    stack: u32,
    heap: u32,
) -> Result<Image, ImageFault>
    requires cores_low { 1 ≤ cores }
    requires cores_high { cores ≤ MOST_CORES }
    requires stack_low { 1 ≤ stack }
    requires stack_high { stack ≤ MOST_STACK }
    requires heap_high { heap ≤ MOST_HEAP }
    ensures image { IfOk result (λ image. image ≡ layout_of bytes.now cores stack heap) }
    ensures accepted { OnOk result (image_fault bytes.now cores stack heap ≡ None) }
    ensures refused { IfErr result (λ fault. fault ≢ ImageFault.NoMemory → image_fault bytes.now cores stack heap ≡ Some fault) }
{
    let segments = accepted_segments(alloc, bytes, heap)?;
    let table = map_memory(alloc, &segments, cores, stack, heap)?;
    let entry = entry_address(bytes);
    check_entry(entry, &segments)?;
    let words = first_words(alloc, bytes, &segments, &table.mapped)?;
    let file = Tag::of::<&[u8], FileBytes>(&bytes);
    let break_base = PAGE_BYTES * break_page(&segments) as u32;
    let PageTable { directory, .. } = table;
    Ok(Image {
        file,
        cores,
        stack,
        heap,
        segments,
        directory,
        words,
        break_base,
        entry,
    })
}

impl Image {
    /// The count of cores.
    pub fn cores(&self) -> u8
        ensures cores { result ≡ self.now.cores }
        ensures accepted { IsAccepted self.now }
    {
        self.cores
    }

    /// The pages of each stack.
    pub fn stack(&self) -> u32
        ensures { result ≡ self.now.stack }
    {
        self.stack
    }

    /// The pages of the heap.
    pub fn heap(&self) -> u32
        ensures { result ≡ self.now.heap }
    {
        self.heap
    }

    /// The address of the first instruction.
    pub fn entry(&self) -> u32
        ensures entry { result ≡ entry_of self.now }
        ensures aligned { result % 4 ≡ 0 }
    {
        self.entry
    }

    /// The first address of the heap.
    pub fn break_base(&self) -> u32
        ensures { result ≡ break_base self.now }
    {
        self.break_base
    }

    /// The address above the heap.
    pub fn heap_end(&self) -> u32
        ensures { result ≡ heap_end self.now }
    {
        self.break_base + PAGE_BYTES * self.heap
    }

    /// How many segments are loaded.
    pub fn segments(&self) -> u32
        ensures { result ≡ length (segments self.now.bytes) }
    {
        self.segments.len() as u32
    }

    /// The first address, the address after the last and the permission flags of a segment, in file
    /// order; `None` at or past their count.
    pub fn segment(&self, place: u32) -> Option<(u32, u32, u32)>
        ensures { result ≡ segment_at self.now place }
    {
        let segment = segment_at(&self.segments, place as usize)?;
        Some((segment.start, segment.end as u32, segment.flags))
    }

    /// What the directory of pages says of the page of an address; `None` where it is not mapped.
    fn page(&self, address: u32) -> Option<Page>
        ensures { result ≡ page_of_layout self.now (address / PAGE_BYTES) }
    {
        self.directory.entry(address / PAGE_BYTES)
    }

    /// The number of the word that holds an address; `None` where the page is not mapped.
    pub fn word_of(&self, address: u32) -> Option<u32>
        ensures { result ≡ word_of self.now address }
    {
        let page = self.page(address)?;
        Some(DEVICE_WORDS + page.index_of(address))
    }

    /// Whether the page of an address may be written.
    pub fn writable(&self, address: u32) -> bool
        ensures { result ≡ is_writable self.now address }
    {
        match self.page(address) {
            None => false,
            Some(page) => page.permissions.writable,
        }
    }

    /// The loaded word at a pc that is a multiple of 4 on an executable page.
    pub fn fetch(&self, pc: u32) -> Option<u32>
        ensures { result ≡ fetched self.now pc }
    {
        if pc % 4 != 0 {
            return None;
        }
        let page = self.page(pc)?;
        if !page.permissions.executable {
            return None;
        }
        Some(self.words[page.index_of(pc) as usize])
    }

    /// How many words there are: the three devices, and those of all mapped pages.
    pub fn words(&self) -> u32
        ensures { result ≡ words_of self.now }
    {
        DEVICE_WORDS + self.words.len() as u32
    }

    /// The first value of a word.
    pub fn first_word(&self, word: u32) -> u32
        requires { word < words_of self.now }
        ensures { result ≡ first_word self.now word }
    {
        if word < BREAK_WORD {
            0
        } else if word == BREAK_WORD {
            self.break_base
        } else {
            self.words[(word - DEVICE_WORDS) as usize]
        }
    }

    /// The first values of all words, in the order of their numbers.
    #[tactic(auto, using(crate::proofs::FirstWords::map_more))]
    pub fn first_words(&self, alloc: Global) -> Result<Vec<u32>, AllocError>
        ensures { IfOk result (λ words. words.items ≡ first_words self.now) }
    {
        let count = self.words();
        let mut words = Vec::with_capacity(alloc, count as usize)?;
        for word in 0..count {
            words.push(self.first_word(word))?;
        }
        Ok(words)
    }
}
