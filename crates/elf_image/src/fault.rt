//! Why a file is no image.
ghost use Rattle.std.specs.Prelude.{◌≡◌, ◌≤◌, length};
ghost use Rattle.elf_image.specs.ImageFault.{image_fault_number, image_fault_name};
ghost use Rattle.elf_image.specs.declared.fault.ImageFault.TheVariants.{NoMemory};

use std::alloc::{AllocError, AllocFailed};

/// Why `load` gives no image: the first of the tests, in this order, that applies to the file.
#[derive(Clone, Copy, Debug, PartialEq, Eq)]
pub enum ImageFault {
    /// Fewer than the 52 bytes of an ELF header.
    Short,
    /// The file does not begin with the four bytes that mark ELF.
    Magic,
    /// The file is not of the 32-bit class.
    Class,
    /// The file is not little endian.
    ByteOrder,
    /// A version other than 1.
    Version,
    /// The file is not an executable.
    Kind,
    /// The machine is not RISC-V.
    Machine,
    /// Compressed instructions, a floating-point calling convention or the small register set.
    Flags,
    /// More than 64 program headers, or headers of another size or past the file's end.
    HeaderSize,
    /// The file asks for a dynamic linker or for an interpreter.
    Dynamic,
    /// No segment is loaded.
    NoLoad,
    /// A segment's bytes in the file are more than those in memory, or pass the file's end.
    FileRange,
    /// A segment or the heap passes the address 0xB0000000.
    AddressRange,
    /// Two segments share a byte of memory.
    Overlap,
    /// More than 4,096 mapped pages.
    TooLarge,
    /// The entry is not a multiple of 4 or not on an executable page.
    Entry,
    /// There was no memory for the image. It says nothing of the file.
    NoMemory,
}

impl ImageFault {
    /// The fault's number: 1 to 16 in the order of the tests, and 0 for `NoMemory`, which is no
    /// test.
    pub fn number(self) -> u8
        ensures { result ≡ image_fault_number self }
    {
        match self {
            ImageFault::Short => 1,
            ImageFault::Magic => 2,
            ImageFault::Class => 3,
            ImageFault::ByteOrder => 4,
            ImageFault::Version => 5,
            ImageFault::Kind => 6,
            ImageFault::Machine => 7,
            ImageFault::Flags => 8,
            ImageFault::HeaderSize => 9,
            ImageFault::Dynamic => 10,
            ImageFault::NoLoad => 11,
            ImageFault::FileRange => 12,
            ImageFault::AddressRange => 13,
            ImageFault::Overlap => 14,
            ImageFault::TooLarge => 15,
            ImageFault::Entry => 16,
            ImageFault::NoMemory => 0,
        }
    }

    /// The fault's name, as it stands here.
    pub fn name(self) -> &'static str
        ensures name { result.now ≡ image_fault_name self }
        ensures short { length result.now ≤ 12 }
    {
        match self {
            ImageFault::Short => "Short",
            ImageFault::Magic => "Magic",
            ImageFault::Class => "Class",
            ImageFault::ByteOrder => "ByteOrder",
            ImageFault::Version => "Version",
            ImageFault::Kind => "Kind",
            ImageFault::Machine => "Machine",
            ImageFault::Flags => "Flags",
            ImageFault::HeaderSize => "HeaderSize",
            ImageFault::Dynamic => "Dynamic",
            ImageFault::NoLoad => "NoLoad",
            ImageFault::FileRange => "FileRange",
            ImageFault::AddressRange => "AddressRange",
            ImageFault::Overlap => "Overlap",
            ImageFault::TooLarge => "TooLarge",
            ImageFault::Entry => "Entry",
            ImageFault::NoMemory => "NoMemory",
        }
    }
}

impl From<AllocError> for ImageFault {
    ghost from_gives = { λ _ fault. fault ≡ NoMemory };

    fn from(_error: AllocError) -> ImageFault {
        ImageFault::NoMemory
    }
}

impl<T: Drop> From<AllocFailed<T>> for ImageFault {
    ghost from_gives = { λ _ fault. fault ≡ NoMemory };

    fn from(_error: AllocFailed<T>) -> ImageFault {
        ImageFault::NoMemory
    }
}
