//! The segments that a file loads into memory.
ghost use Rattle.std.specs.Prelude.{◌≡◌, ◌≤◌, IfOk, slice_get};
ghost use Rattle.std.specs.List.{list_any};
ghost use Rattle.elf_image.specs.Elf.{segments_of, may_execute, may_write};
ghost use Rattle.elf_image.specs.Layout.{touches, fills, highest_end, break_page};
ghost use Rattle.elf_image.specs.ImageFault.{passes_limit, shares_byte, overlaps, address_limit};
ghost use Rattle.elf_image.specs.PageTable.{IsNextOf};

use crate::headers::ProgramHeader;
use crate::limits::{ADDRESS_LIMIT, ALL_PAGES, PAGE_BYTES};
use std::alloc::{AllocError, Global};

const PF_X: u32 = 1;

const PF_W: u32 = 2;

/// A loaded segment: its first address, the address after its last, its permission flags, and where
/// its bytes stand in the file.
#[derive(Clone, Copy)]
pub struct Segment {
    pub start: u32,
    pub end: u64,
    pub flags: u32,
    pub offset: u32,
    pub file_size: u32,
}

impl Segment {
    /// Whether instructions may be fetched from the segment.
    pub fn may_execute(&self) -> bool
        ensures { result ≡ may_execute self.now }
    {
        self.flags & PF_X != 0
    }

    /// Whether the segment may be written.
    pub fn may_write(&self) -> bool
        ensures { result ≡ may_write self.now }
    {
        self.flags & PF_W != 0
    }

    /// Whether the segment passes the highest address of segments.
    pub fn passes_limit(&self) -> bool
        ensures { result ≡ passes_limit self.now }
    {
        self.end > ADDRESS_LIMIT
    }

    /// Whether two segments share a byte of memory.
    pub fn shares_byte(&self, other: &Segment) -> bool
        ensures { result ≡ shares_byte self.now other.now }
    {
        u64::from(self.start) < other.end && u64::from(other.start) < self.end
    }

    /// Whether the segment has a byte on a page.
    pub fn touches(&self, page: u32) -> bool
        ensures { result ≡ touches page self.now }
    {
        let bytes = u64::from(PAGE_BYTES);
        let first = bytes * u64::from(page);
        u64::from(self.start) < first + bytes && first < self.end
    }

    /// The first page from a page on where the segment has a byte, or that of the end of memory.
    pub fn next_touched(&self, from: u32) -> u32
        requires { from ≤ ALL_PAGES }
        ensures { IsNextOf (λ page. touches page self.now) from result }
    {
        let next = from.max(self.start / PAGE_BYTES);
        if next < ALL_PAGES && self.touches(next) {
            next
        } else {
            ALL_PAGES
        }
    }

    /// Whether the file has the byte at an address of the segment.
    pub fn fills(&self, address: u32) -> bool
        ensures { result ≡ fills address self.now }
    {
        self.start <= address
            && u64::from(address) < u64::from(self.start) + u64::from(self.file_size)
    }
}

/// The segments that headers load, in their order.
pub fn loaded_segments(alloc: Global, headers: &[ProgramHeader]) -> Result<Vec<Segment>, AllocError>
    ensures { IfOk result (λ segments. segments.items ≡ segments_of headers.now) }
{
    headers
        .iter()
        .filter(|header| header.takes_memory())
        .map(|header| header.segment())
        .collect(alloc)
}

/// The segment at a place.
pub fn segment_at(segments: &[Segment], place: usize) -> Option<Segment>
    ensures { result ≡ slice_get segments.now place }
{
    segments.get(place).copied()
}

/// Whether some segment passes the highest address of segments.
pub fn any_passes_limit(segments: &[Segment]) -> bool
    ensures { result ≡ list_any passes_limit segments.now }
{
    segments.iter().any(|segment| segment.passes_limit())
}

/// Whether a segment shares a byte of memory with one of some others.
fn shares_byte_with_any(segment: &Segment, others: &[Segment]) -> bool
    ensures { result ≡ list_any (shares_byte segment.now) others.now }
{
    others.iter().any(|other| segment.shares_byte(other))
}

/// Whether some two segments share a byte of memory.
pub fn overlap(segments: &[Segment]) -> bool
    ensures { result ≡ overlaps segments.now }
{
    match segments {
        [] => false,
        [first, rest @ ..] => shares_byte_with_any(first, rest) || overlap(rest),
    }
}

/// The highest end of the segments.
pub fn highest_end(segments: &[Segment]) -> u64
    ensures { result ≡ highest_end segments.now }
{
    segments
        .iter()
        .fold(0, |high, segment| high.max(segment.end))
}

/// The first page at or above the highest end of the segments.
pub fn break_page(segments: &[Segment]) -> u64
    ensures { result ≡ break_page segments.now }
{
    highest_end(segments).div_ceil(u64::from(PAGE_BYTES))
}
