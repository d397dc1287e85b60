//! The program headers of an ELF file.
ghost use Rattle.std.specs.Prelude.{◌≡◌, ◌+◌, ◌*◌, ◌^◌, ◌<◌, ◌≤◌, false, length, IfOk};
ghost use Rattle.std.specs.List.{list_any};
ghost use Rattle.elf_image.specs.Elf.{entry_address, header_at, program_headers, is_load, table_entries, table_offset, takes_memory, segment_of};
ghost use Rattle.elf_image.specs.ImageFault.{is_dynamic, has_bad_file_range, has_bad_table};

use crate::segments::Segment;
use byteorder::{ByteOrder, LittleEndian};
use std::alloc::{AllocError, Global};

const PT_LOAD: u32 = 1;

const PT_DYNAMIC: u32 = 2;

const PT_INTERP: u32 = 3;

/// The bytes of one program header.
pub const HEADER_BYTES: usize = 32;

/// A program header: what a part of the file is, and where it stands in the file and in memory.
#[derive(Clone, Copy)]
pub struct ProgramHeader {
    pub kind: u32,
    pub offset: u32,
    pub address: u32,
    pub file_size: u32,
    pub memory_size: u32,
    pub flags: u32,
}

impl ProgramHeader {
    /// The header whose bytes begin at a place of the file.
    pub fn read(bytes: &[u8], place: usize) -> ProgramHeader
        requires { place + 32 ≤ length bytes.now }
        ensures { result ≡ header_at bytes.now place }
    {
        ProgramHeader {
            kind: LittleEndian::read_u32(&bytes[place..]),
            offset: LittleEndian::read_u32(&bytes[place + 4..]),
            address: LittleEndian::read_u32(&bytes[place + 8..]),
            file_size: LittleEndian::read_u32(&bytes[place + 16..]),
            memory_size: LittleEndian::read_u32(&bytes[place + 20..]),
            flags: LittleEndian::read_u32(&bytes[place + 24..]),
        }
    }

    /// Whether the header loads some bytes of memory.
    pub fn takes_memory(&self) -> bool
        ensures { result ≡ takes_memory self.now }
    {
        self.kind == PT_LOAD && self.memory_size > 0
    }

    /// Whether the header asks for a dynamic linker or for an interpreter.
    pub fn is_dynamic(&self) -> bool
        ensures { result ≡ is_dynamic self.now }
    {
        self.kind == PT_DYNAMIC || self.kind == PT_INTERP
    }

    /// Whether the bytes to load are more than fit into memory, or pass the end of a file of a size.
    pub fn has_bad_file_range(&self, size: usize) -> bool
        ensures { result ≡ has_bad_file_range size self.now }
    {
        let end = u64::from(self.offset) + u64::from(self.file_size);
        self.kind == PT_LOAD
            && (self.file_size > self.memory_size || self.file_size > 0 && (size as u64) < end)
    }

    /// What the header loads.
    pub fn segment(&self) -> Segment
        ensures { result ≡ segment_of self.now }
    {
        Segment {
            start: self.address,
            end: u64::from(self.address) + u64::from(self.memory_size),
            flags: self.flags,
            offset: self.offset,
            file_size: self.file_size,
        }
    }
}

/// The address of the first instruction.
pub fn entry_address(bytes: &[u8]) -> u32
    requires { 52 ≤ length bytes.now }
    ensures { result ≡ entry_address bytes.now }
{
    LittleEndian::read_u32(&bytes[24..])
}

/// Where the program headers begin in the file.
pub fn table_offset(bytes: &[u8]) -> usize
    requires { 52 ≤ length bytes.now }
    ensures value { result ≡ table_offset bytes.now }
    ensures bound { result < 2 ^ 32 }
{
    LittleEndian::read_u32(&bytes[28..]) as usize
}

/// How many program headers there are.
pub fn table_entries(bytes: &[u8]) -> u16
    requires { 52 ≤ length bytes.now }
    ensures { result ≡ table_entries bytes.now }
{
    LittleEndian::read_u16(&bytes[44..])
}

/// The program headers of a file whose table is good.
pub fn read_headers(alloc: Global, bytes: &[u8]) -> Result<Vec<ProgramHeader>, AllocError>
    requires header { 52 ≤ length bytes.now }
    requires table { has_bad_table bytes.now ≡ false }
    ensures { IfOk result (λ headers. headers.items ≡ program_headers bytes.now) }
{
    let offset = table_offset(bytes);
    let count = table_entries(bytes);
    let mut headers = Vec::new(alloc);
    for k in 0..count {
        headers.push(ProgramHeader::read(bytes, offset + HEADER_BYTES * usize::from(k)))?;
    }
    Ok(headers)
}

/// Whether some header asks for a dynamic linker or for an interpreter.
pub fn any_dynamic(headers: &[ProgramHeader]) -> bool
    ensures { result ≡ list_any is_dynamic headers.now }
{
    headers.iter().any(|header| header.is_dynamic())
}

/// Whether some header has bytes to load that it must not have, in a file of a size.
pub fn any_bad_file_range(headers: &[ProgramHeader], size: usize) -> bool
    ensures { result ≡ list_any (has_bad_file_range size) headers.now }
{
    headers.iter().any(|header| header.has_bad_file_range(size))
}
