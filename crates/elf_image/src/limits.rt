//! The sizes of pages and of memory, and how much of each a layout has at most (this project's own).

/// The bytes of a page.
pub const PAGE_BYTES: u32 = 4096;

/// The words of a page.
pub const PAGE_WORDS: u32 = 1024;

/// The pages of the whole address space.
pub const ALL_PAGES: u32 = 1 << 20;

/// The pages of a leaf of the directory of pages, which has an entry for each page.
pub const LEAF_PAGES: u32 = 1024;

/// The leaves of all pages.
pub const LEAVES: u32 = 1024;

/// The pages that are mapped at most.
pub const MOST_PAGES: usize = 4096;

/// The cores of a layout at most.
pub const MOST_CORES: u8 = 32;

/// The pages of the stack of a core at most.
pub const MOST_STACK: u32 = 4096;

/// The pages of the heap at most.
pub const MOST_HEAP: u32 = 4096;

/// The address that no segment and no heap passes.
pub const ADDRESS_LIMIT: u64 = 0xb000_0000;
