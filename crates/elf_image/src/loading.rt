//! The tests of a file in their order, and what is kept of one that passes them.
ghost use Rattle.std.specs.Prelude.{◌≡◌, ◌≢◌, ◌+◌, ◌/◌, ◌%◌, ◌<◌, ◌≤◌, ◌||◌, ◌==◌, not, false, if◌then◌else◌, IfOk, IfErr, OnOk, Some, None, length, vec_len};
ghost use Rattle.std.specs.List.{list_any};
ghost use Rattle.std.specs.Result.{result_err};
ghost use Rattle.elf_image.specs.Elf.{segments};
ghost use Rattle.elf_image.specs.Layout.{all_pages, count_below, end_of_heap, executes, maps};
ghost use Rattle.elf_image.specs.ImageFault.{address_limit, file_tests, first_fault, passes_limit};
ghost use Rattle.elf_image.specs.PageTable.{IsListed, permissions_of};
ghost use Rattle.elf_image.specs.Directory.{IsDirectoryBelow, page_entry};

use crate::fault::ImageFault;
use crate::headers::read_headers;
use crate::limits::{MOST_CORES, MOST_PAGES, MOST_STACK, PAGE_BYTES};
use crate::page_directory::{PageDirectory, page_directory};
use crate::page_table::{DataPages, any_executable, mapped_pages};
use crate::segments::{Segment, break_page, loaded_segments};
use crate::validation::{check_header, check_identification, check_segments};
use std::alloc::Global;

/// The segments of a file that passes all tests of the file by itself.
pub fn accepted_segments(alloc: Global, bytes: &[u8], heap: u32) -> Result<Vec<Segment>, ImageFault>
    ensures segments { IfOk result (λ loaded. loaded.items ≡ segments bytes.now) }
    ensures accepted { OnOk result (first_fault (file_tests bytes.now heap) ≡ None) }
    ensures refused { IfErr result (λ fault. fault ≢ ImageFault.NoMemory → first_fault (file_tests bytes.now heap) ≡ Some fault) }
    ensures long { OnOk result (52 ≤ length bytes.now) }
    ensures few { IfOk result (λ loaded. length loaded.items ≤ 64) }
    ensures ends { IfOk result (λ loaded. list_any passes_limit loaded.items ≡ false) }
    ensures heap_end { IfOk result (λ loaded. end_of_heap loaded.items heap ≤ address_limit) }
{
    check_identification(bytes)?;
    check_header(bytes)?;
    let headers = read_headers(alloc, bytes)?;
    let segments = loaded_segments(alloc, &headers)?;
    check_segments(bytes.len(), &headers, &segments, heap)?;
    Ok(segments)
}

/// The mapped pages in ascending order, and the directory of all pages.
#[derive(Drop)]
pub struct PageTable {
    pub mapped: Vec<u32>,
    pub directory: PageDirectory,
}

/// The table of the mapped pages, unless they are too many.
pub fn map_memory(
    alloc: Global,
    segments: &[Segment],
    cores: u8,
    stack: u32,
    heap: u32,
) -> Result<PageTable, ImageFault>
    requires cores { cores ≤ MOST_CORES }
    requires stack { stack ≤ MOST_STACK }
    requires heap_end { end_of_heap segments.now heap ≤ address_limit }
    ensures listed { IfOk result (λ table. IsListed segments.now cores stack heap table.mapped.items) }
    ensures directory { IfOk result (λ table. IsDirectoryBelow (page_entry (maps segments.now cores stack heap) (permissions_of segments.now cores stack heap)) table.directory.leaves.items table.directory.entries.items all_pages) }
    ensures few { IfOk result (λ table. vec_len table.mapped ≤ MOST_PAGES) }
    ensures refused { IfErr result (λ fault. fault ≢ ImageFault.NoMemory → (fault ≡ ImageFault.TooLarge) × (MOST_PAGES < count_below (maps segments.now cores stack heap) all_pages)) }
{
    let regions = DataPages {
        first: break_page(segments) as u32,
        heap,
        cores,
        stack,
    };
    let mapped = mapped_pages(alloc, segments, regions)?;
    let directory = page_directory(alloc, segments, regions)?;
    Ok(PageTable { mapped, directory })
}

/// Refuses an entry that is not a multiple of 4 or not on an executable page.
pub fn check_entry(entry: u32, segments: &[Segment]) -> Result<(), ImageFault>
    ensures { result_err result ≡ (if not (entry % 4 == 0) || not (executes segments.now (entry / PAGE_BYTES)) then Some ImageFault.Entry else None) }
{
    if entry % 4 != 0 {
        Err(ImageFault::Entry)
    } else if any_executable(segments, entry / PAGE_BYTES) {
        Ok(())
    } else {
        Err(ImageFault::Entry)
    }
}
