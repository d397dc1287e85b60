//! Loaded guests.
//!
//! The contracts say little on purpose. That of `load` at numbers that are written out, as a test has them, takes a proof a minute
//! at each place; at the parameters of a function it takes a second.

ghost use Rattle.std.specs.Prelude.{◌≡◌, ◌≤◌, IfOk};
ghost use Rattle.elf_image.specs.declared.limits.TheConstants.{MOST_CORES, MOST_STACK, MOST_HEAP};

use crate::files::small_image;
use elf_image::{Image, ImageFault, load};
use std::alloc::Global;
use syscall_drain::Guest;

/// The image of a file, as `load` gives it.
pub fn loaded(
    alloc: Global,
    bytes: &[u8],
    cores: u8,
    stack: u32,
    heap: u32,
) -> Result<Image, ImageFault>
    requires cores { (1 ≤ cores) × (cores ≤ MOST_CORES) }
    requires stack { (1 ≤ stack) × (stack ≤ MOST_STACK) }
    requires heap { heap ≤ MOST_HEAP }
    ensures { IfOk result (λ image. image.cores ≡ cores) }
{
    load(alloc, bytes, cores, stack, heap)
}

/// A program without input on so many cores, with one page of stack for each and one of heap.
pub fn guest_of(alloc: Global, program: &[u32], cores: u8) -> Result<Guest, ImageFault>
    requires { (1 ≤ cores) × (cores ≤ MOST_CORES) }
    ensures { IfOk result (λ guest. guest.layout.cores ≡ cores) }
{
    let bytes = small_image(alloc, program)?;
    let (stack, heap) = (1, 1);
    let image = loaded(alloc, &bytes, cores, stack, heap)?;
    Ok(Guest::new(image, Vec::new(alloc)))
}
