ghost use Rattle.std.specs.Prelude.{◌≡◌, ◌≤◌, length};

use crate::limits::MOST_INPUT;
use elf_image::Image;
use std::marker::Model;

/// A program and its input.
#[derive(Drop)]
pub struct Guest {
    image: Image,
    input: Vec<u8>,
}

impl Model for Guest {
    ghost use Rattle.std.specs.Prelude.{◌≤◌, length};
    ghost use Rattle.syscall_drain.specs.declared.limits.TheConstants.{MOST_INPUT};
    ghost use Rattle.syscall_drain.specs.Programs.{Program};

    ghost Value = { Program };

    ghost view = { λ guest. record { layout = guest.image; input = guest.input.items } };

    ghost invariant = { λ guest. length guest.input.items ≤ MOST_INPUT };
}

impl Guest {
    /// A program with its input.
    pub fn new(image: Image, input: Vec<u8>) -> Guest
        requires { length input.items ≤ MOST_INPUT }
        ensures { result ≡ record { layout = image; input = input.items } }
    {
        Guest { image, input }
    }

    /// The program's memory map.
    pub fn image(&self) -> &Image
        ensures { result.now ≡ self.now.layout }
    {
        &self.image
    }

    /// The bytes that its read calls give.
    pub fn input(&self) -> &[u8]
        ensures bytes { result.now ≡ self.now.input }
        ensures within { length result.now ≤ MOST_INPUT }
    {
        self.input.as_slice()
    }
}
