//! Reads a statically linked 32-bit RISC-V ELF file into the memory map of the emulated machine:
//! its mapped pages, their permissions, the numbers of their words and the words' first values.
#![tactic(auto)]

mod contents;
pub mod device;
mod fault;
mod headers;
pub mod limits;
mod loading;
mod memory_image;
mod page_directory;
mod page_table;
mod segments;
mod validation;

pub use crate::fault::ImageFault;
pub use crate::memory_image::{Image, load};
