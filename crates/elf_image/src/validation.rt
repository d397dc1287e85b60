//! The tests of a file's headers and segments, in the order of their faults.
ghost use Rattle.std.specs.Prelude.{◌≡◌, ◌≤◌, false, length};
ghost use Rattle.std.specs.List.{list_any};
ghost use Rattle.std.specs.Result.{result_err};
ghost use Rattle.elf_image.specs.Layout.{end_of_heap};
ghost use Rattle.elf_image.specs.ImageFault.{first_fault, has_bad_table, header_tests, identification_tests, passes_limit, segment_tests};

use crate::fault::ImageFault;
use crate::headers::{
    HEADER_BYTES, ProgramHeader, any_bad_file_range, any_dynamic, table_entries, table_offset,
};
use crate::limits::{ADDRESS_LIMIT, PAGE_BYTES};
use crate::segments::{Segment, any_passes_limit, break_page, overlap};
use byteorder::{ByteOrder, LittleEndian};

const ELF_HEADER_BYTES: usize = 52;

const MAGIC: [u8; 4] = *b"\x7fELF";

const CLASS_32: u8 = 1;

const LITTLE_ENDIAN: u8 = 1;

const CURRENT_VERSION: u8 = 1;

const EXECUTABLE: u16 = 2;

const RISC_V: u16 = 243;
/// Compressed instructions, the floating-point calling conventions and the small register set.
const UNSUPPORTED_FLAGS: u32 = 0b1111;

const MOST_HEADERS: u16 = 64;

/// Whether the program headers are too many, of another size, or pass the end of the file.
fn has_bad_table(bytes: &[u8]) -> bool
    requires { 52 ≤ length bytes.now }
    ensures { result ≡ has_bad_table bytes.now }
{
    let count = table_entries(bytes);
    if count > MOST_HEADERS {
        true
    } else if count == 0 {
        false
    } else if usize::from(LittleEndian::read_u16(&bytes[42..])) != HEADER_BYTES {
        true
    } else {
        bytes.len() < table_offset(bytes) + HEADER_BYTES * usize::from(count)
    }
}

/// Refuses a file by the first fault of the bytes that identify an ELF file.
pub fn check_identification(bytes: &[u8]) -> Result<(), ImageFault>
    ensures { result_err result ≡ first_fault (identification_tests bytes.now) }
{
    if bytes.len() < ELF_HEADER_BYTES {
        Err(ImageFault::Short)
    } else if !bytes.starts_with(&MAGIC) {
        Err(ImageFault::Magic)
    } else if bytes[4] != CLASS_32 {
        Err(ImageFault::Class)
    } else if bytes[5] != LITTLE_ENDIAN {
        Err(ImageFault::ByteOrder)
    } else if bytes[6] != CURRENT_VERSION || LittleEndian::read_u32(&bytes[20..]) != 1 {
        Err(ImageFault::Version)
    } else {
        Ok(())
    }
}

/// Refuses a file by the first fault of the rest of its ELF header.
pub fn check_header(bytes: &[u8]) -> Result<(), ImageFault>
    requires { 52 ≤ length bytes.now }
    ensures { result_err result ≡ first_fault (header_tests bytes.now) }
{
    if LittleEndian::read_u16(&bytes[16..]) != EXECUTABLE {
        Err(ImageFault::Kind)
    } else if LittleEndian::read_u16(&bytes[18..]) != RISC_V {
        Err(ImageFault::Machine)
    } else if LittleEndian::read_u32(&bytes[36..]) & UNSUPPORTED_FLAGS != 0 {
        Err(ImageFault::Flags)
    } else if has_bad_table(bytes) {
        Err(ImageFault::HeaderSize)
    } else {
        Ok(())
    }
}

/// The address above a heap of some pages that begins at the first page boundary at or above the
/// segments.
pub fn end_of_heap(segments: &[Segment], heap: u32) -> u64
    requires { list_any passes_limit segments.now ≡ false }
    ensures { result ≡ end_of_heap segments.now heap }
{
    u64::from(PAGE_BYTES) * (break_page(segments) + u64::from(heap))
}

/// Refuses a file of a size by the first fault of its program headers, of the segments that they load
/// and of a heap of some pages.
pub fn check_segments(
    size: usize,
    headers: &[ProgramHeader],
    segments: &[Segment],
    heap: u32,
) -> Result<(), ImageFault>
    ensures { result_err result ≡ first_fault (segment_tests size headers.now segments.now heap) }
{
    if any_dynamic(headers) {
        Err(ImageFault::Dynamic)
    } else if segments.is_empty() {
        Err(ImageFault::NoLoad)
    } else if any_bad_file_range(headers, size) {
        Err(ImageFault::FileRange)
    } else if any_passes_limit(segments) {
        Err(ImageFault::AddressRange)
    } else if end_of_heap(segments, heap) > ADDRESS_LIMIT {
        Err(ImageFault::AddressRange)
    } else if overlap(segments) {
        Err(ImageFault::Overlap)
    } else {
        Ok(())
    }
}
