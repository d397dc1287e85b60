//! Which pages are mapped, and what may be done on each.
ghost use Rattle.std.specs.Prelude.{◌≡◌, ◌≢◌, ◌≤◌, ◌||◌, ◌&&◌, ◌+◌, ◌<◌, IfOk, IfErr, vec_len};
ghost use Rattle.std.specs.List.{list_any};
ghost use Rattle.elf_image.specs.Elf.{may_write};
ghost use Rattle.elf_image.specs.Layout.{all_pages, break_page, count_below, executes, is_heap_page, is_stack_page, is_stack_page_of, maps, touches};
ghost use Rattle.elf_image.specs.PageTable.{IsListed, IsNextOf, may_write_page, permissions_of};

use crate::fault::ImageFault;
use crate::limits::{ALL_PAGES, MOST_CORES, MOST_PAGES, MOST_STACK};
use crate::segments::Segment;
use std::alloc::Global;

/// The page above the stack of core 0, and the distance between two stacks.
const FIRST_STACK_TOP: u32 = 0xf_0000;

const STACK_DISTANCE: u32 = 0x2000;

/// What may be done on a mapped page.
#[derive(Clone, Copy)]
pub struct Permissions {
    pub writable: bool,
    pub executable: bool,
}

/// Where the heap and the stacks lie: the first page of the heap and its count of pages, the count
/// of cores and that of the pages of each stack.
#[derive(Clone, Copy)]
pub struct DataPages {
    pub first: u32,
    pub heap: u32,
    pub cores: u8,
    pub stack: u32,
}

impl DataPages {
    /// Whether a page is one of the heap or of a stack.
    pub fn contains(self, page: u32) -> bool
        requires cores { self.cores ≤ MOST_CORES }
        requires stack { self.stack ≤ MOST_STACK }
        ensures { result ≡ (is_heap_page self.first self.heap page || is_stack_page self.cores self.stack page) }
    {
        let is_heap = self.first <= page
            && u64::from(page) < u64::from(self.first) + u64::from(self.heap);
        is_heap || is_stack_page(self.cores, self.stack, page)
    }

    /// The first page from a page on that is one of the heap, or that of the end of memory.
    fn next_heap_page(self, from: u32) -> u32
        requires { from ≤ ALL_PAGES }
        ensures { IsNextOf (is_heap_page self.first self.heap) from result }
    {
        let next = from.max(self.first);
        if next < ALL_PAGES && u64::from(next) < u64::from(self.first) + u64::from(self.heap) {
            next
        } else {
            ALL_PAGES
        }
    }
}

/// The first page from a page on that is one of the stack of a core, or that of the end of memory.
fn next_page_of_stack(stack: u32, core: u8, from: u32) -> u32
    requires from { from ≤ ALL_PAGES }
    requires core { core < MOST_CORES }
    requires stack { stack ≤ MOST_STACK }
    ensures { IsNextOf (λ page. is_stack_page_of stack page core) from result }
{
    let top = FIRST_STACK_TOP - STACK_DISTANCE * u32::from(core);
    let next = from.max(top - stack);
    if next < top { next } else { ALL_PAGES }
}

/// The first page from a page on that is one of some stack, or that of the end of memory.
fn next_stack_page(cores: u8, stack: u32, from: u32) -> u32
    requires from { from ≤ ALL_PAGES }
    requires cores { cores ≤ MOST_CORES }
    requires stack { stack ≤ MOST_STACK }
    ensures { IsNextOf (is_stack_page cores stack) from result }
{
    let mut next = ALL_PAGES;
    for core in 0..cores {
        next = next.min(next_page_of_stack(stack, core, from));
    }
    next
}

/// The first page from a page on where some segment has a byte, or that of the end of memory.
fn next_touched(segments: &[Segment], from: u32) -> u32
    requires { from ≤ ALL_PAGES }
    ensures { IsNextOf (λ page. list_any (touches page) segments.now) from result }
{
    match segments {
        [] => ALL_PAGES,
        [first, rest @ ..] => first.next_touched(from).min(next_touched(rest, from)),
    }
}

/// The first page from a page on that is mapped, or that of the end of memory.
pub fn next_mapped(segments: &[Segment], regions: DataPages, from: u32) -> u32
    requires from { from ≤ ALL_PAGES }
    requires cores { regions.cores ≤ MOST_CORES }
    requires stack { regions.stack ≤ MOST_STACK }
    requires first { regions.first ≡ break_page segments.now }
    ensures { IsNextOf (maps segments.now regions.cores regions.stack regions.heap) from result }
{
    let touched = next_touched(segments, from);
    let heap = regions.next_heap_page(from);
    let stack = next_stack_page(regions.cores, regions.stack, from);
    touched.min(heap.min(stack))
}

/// Whether a page is one of the stack of a core.
fn is_stack_page(cores: u8, stack: u32, page: u32) -> bool
    requires cores { cores ≤ MOST_CORES }
    requires stack { stack ≤ MOST_STACK }
    ensures { result ≡ is_stack_page cores stack page }
{
    if page >= FIRST_STACK_TOP {
        return false;
    }
    let below = FIRST_STACK_TOP - 1 - page;
    below / STACK_DISTANCE < u32::from(cores) && below % STACK_DISTANCE < stack
}

/// Whether some segment that may be written has a byte on a page.
fn any_writable(segments: &[Segment], page: u32) -> bool
    ensures { result ≡ list_any (may_write_page page) segments.now }
{
    segments
        .iter()
        .any(|segment| segment.touches(page) && segment.may_write())
}

/// Whether some segment that may be executed has a byte on a page.
pub fn any_executable(segments: &[Segment], page: u32) -> bool
    ensures { result ≡ executes segments.now page }
{
    segments
        .iter()
        .any(|segment| segment.touches(page) && segment.may_execute())
}

/// What may be done on a page.
pub fn permissions_on(segments: &[Segment], regions: DataPages, page: u32) -> Permissions
    requires cores { regions.cores ≤ MOST_CORES }
    requires stack { regions.stack ≤ MOST_STACK }
    requires first { regions.first ≡ break_page segments.now }
    ensures { result ≡ permissions_of segments.now regions.cores regions.stack regions.heap page }
{
    let executable = any_executable(segments, page);
    let writable = any_writable(segments, page) || regions.contains(page);
    Permissions {
        writable,
        executable,
    }
}

/// The mapped pages in ascending order, which are to be at most `MOST_PAGES`.
pub fn mapped_pages(
    alloc: Global,
    segments: &[Segment],
    regions: DataPages,
) -> Result<Vec<u32>, ImageFault>
    requires cores { regions.cores ≤ MOST_CORES }
    requires stack { regions.stack ≤ MOST_STACK }
    requires first { regions.first ≡ break_page segments.now }
    ensures listed { IfOk result (λ mapped. IsListed segments.now regions.cores regions.stack regions.heap mapped.items) }
    ensures few { IfOk result (λ mapped. vec_len mapped ≤ MOST_PAGES) }
    ensures refused { IfErr result (λ fault. fault ≢ ImageFault.NoMemory → (fault ≡ ImageFault.TooLarge) × (MOST_PAGES < count_below (maps segments.now regions.cores regions.stack regions.heap) all_pages)) }
{
    let mut mapped = Vec::new(alloc);
    let mut page = next_mapped(segments, regions, 0);
    while page < ALL_PAGES {
        if mapped.len() >= MOST_PAGES {
            return Err(ImageFault::TooLarge);
        }
        mapped.push(page)?;
        page = next_mapped(segments, regions, page + 1);
    }
    Ok(mapped)
}
