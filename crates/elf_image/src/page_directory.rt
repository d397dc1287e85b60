//! The directory of pages: what may be done on each page of memory, found by two indexes.
ghost use Rattle.std.specs.Prelude.{◌≡◌, ◌≤◌, ◌<◌, ◌+◌, ◌*◌, ◌/◌, ◌%◌, ◌++◌, length, map, IfOk, OnOk};
ghost use Rattle.std.specs.List.{range_with_len};
ghost use Rattle.elf_image.specs.Layout.{all_pages, break_page, count_below, maps};
ghost use Rattle.elf_image.specs.PageTable.{permissions_of};
ghost use Rattle.elf_image.specs.Directory.{IsComplete, IsCursor, IsDirectoryBelow, found_entry, page_entry};

use crate::limits::{
    ALL_PAGES, LEAF_PAGES, LEAVES, MOST_CORES, MOST_PAGES, MOST_STACK, PAGE_BYTES, PAGE_WORDS,
};
use crate::page_table::{DataPages, Permissions, next_mapped, permissions_on};
use crate::segments::Segment;
use std::alloc::{AllocError, Global};

/// A mapped page: how many mapped pages lie below it, and what may be done there.
#[derive(Clone, Copy)]
pub struct Page {
    pub place: u16,
    pub permissions: Permissions,
}

impl Page {
    /// The index, among the words of memory, of the word that holds an address of the page.
    pub fn index_of(self, address: u32) -> u32
        ensures { result ≡ PAGE_WORDS * self.place + address % PAGE_BYTES / 4 }
    {
        PAGE_WORDS * u32::from(self.place) + address % PAGE_BYTES / 4
    }
}

/// All pages of memory in leaves of `LEAF_PAGES` entries: where the leaf of a page begins, and the
/// entries of all leaves, `None` for a page that is not mapped. One leaf serves wherever no page of
/// a leaf is mapped.
#[derive(Drop)]
pub struct PageDirectory {
    pub leaves: Vec<u32>,
    pub entries: Vec<Option<Page>>,
    pub ghost complete: { IsComplete leaves.items entries.items },
}

impl PageDirectory {
    /// The entry of a page.
    pub fn entry(&self, page: u32) -> Option<Page>
        requires { page < ALL_PAGES }
        ensures { result ≡ found_entry self.now.leaves.items self.now.entries.items page }
    {
        let leaf = self.leaves[(page / LEAF_PAGES) as usize];
        self.entries[leaf as usize + (page % LEAF_PAGES) as usize]
    }
}

/// The first mapped page from some page on, and how many mapped pages lie below it.
#[derive(Clone, Copy)]
struct Cursor {
    next: u32,
    place: u16,
}

/// Adds the entries of the pages of a leaf, from its first page on.
fn push_leaf(
    entries: &mut Vec<Option<Page>>,
    segments: &[Segment],
    regions: DataPages,
    first: u32,
    cursor: Cursor,
) -> Result<Cursor, AllocError>
    requires cores { regions.cores ≤ MOST_CORES }
    requires stack { regions.stack ≤ MOST_STACK }
    requires first { regions.first ≡ break_page segments.now }
    requires few { count_below (maps segments.now regions.cores regions.stack regions.heap) all_pages ≤ MOST_PAGES }
    requires inside { first + LEAF_PAGES ≤ ALL_PAGES }
    requires cursor { IsCursor (maps segments.now regions.cores regions.stack regions.heap) first cursor.next cursor.place }
    ensures entries { OnOk result (entries.new.items ≡ entries.old.items ++ map (page_entry (maps segments.now regions.cores regions.stack regions.heap) (permissions_of segments.now regions.cores regions.stack regions.heap)) (range_with_len first LEAF_PAGES)) }
    ensures cursor { IfOk result (λ cursor. IsCursor (maps segments.now regions.cores regions.stack regions.heap) (first + LEAF_PAGES) cursor.next cursor.place) }
{
    let mut next = cursor.next;
    let mut place = cursor.place;
    for page in first..first + LEAF_PAGES {
        if page == next {
            let permissions = permissions_on(segments, regions, page);
            entries.push(Some(Page { place, permissions }))?;
            next = next_mapped(segments, regions, page + 1);
            place += 1;
        } else {
            entries.push(None)?;
        }
    }
    Ok(Cursor { next, place })
}

/// The directory of all pages, of which at most `MOST_PAGES` are mapped.
pub fn page_directory(
    alloc: Global,
    segments: &[Segment],
    regions: DataPages,
) -> Result<PageDirectory, AllocError>
    requires cores { regions.cores ≤ MOST_CORES }
    requires stack { regions.stack ≤ MOST_STACK }
    requires first { regions.first ≡ break_page segments.now }
    requires few { count_below (maps segments.now regions.cores regions.stack regions.heap) all_pages ≤ MOST_PAGES }
    ensures { IfOk result (λ directory. IsDirectoryBelow (page_entry (maps segments.now regions.cores regions.stack regions.heap) (permissions_of segments.now regions.cores regions.stack regions.heap)) directory.leaves.items directory.entries.items all_pages) }
{
    let mut leaves = Vec::with_capacity(alloc, LEAVES as usize)?;
    let mut entries = Vec::new(alloc);
    entries.resize(LEAF_PAGES as usize, None)?;
    let mut cursor = Cursor {
        next: next_mapped(segments, regions, 0),
        place: 0,
    };
    for leaf in 0..LEAVES {
        let first = LEAF_PAGES * leaf;
        if cursor.next < first + LEAF_PAGES {
            leaves.push(entries.len() as u32)?;
            cursor = push_leaf(&mut entries, segments, regions, first, cursor)?;
        } else {
            leaves.push(0)?;
        }
    }
    Ok(PageDirectory { leaves, entries })
}
