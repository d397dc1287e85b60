//! The words of a run, each with its tag.
ghost use Rattle.std.specs.Prelude.{◌≡◌, ◌<◌, ◌-◌, ◌^◌, if◌then◌else◌, map, IfOk};
ghost use Rattle.rv_execute.specs.Payloads.{changed};
ghost use Rattle.std.specs.List.{range_with_len};
ghost use Rattle.elf_image.specs.Layout.{words_of};
ghost use Rattle.inline_tracker.specs.Cells.{first_cell, untouched, cell_found, cell_after};

use elf_image::Image;
use order_core::NoMemory;
use rv_execute::{Op, Taken, apply};
use std::alloc::Global;

/// One word: what it holds, how many accesses it has had, and its tag word.
#[derive(Clone, Copy)]
pub(crate) struct Cell {
    payload: u32,
    count: u32,
    tag: u32,
}

/// Words with these payloads, before their first accesses.
fn cells_of(alloc: Global, payloads: &[u32]) -> Result<Vec<Cell>, NoMemory>
    ensures { IfOk result (λ cells. cells.items ≡ map untouched payloads.now) }
{
    let Ok(mut cells) = Vec::with_capacity(alloc, payloads.len()) else {
        return Err(NoMemory);
    };
    for payload in payloads {
        let cell = Cell {
            payload: *payload,
            count: 0,
            tag: 0,
        };
        let Ok(()) = cells.push(cell) else {
            return Err(NoMemory);
        };
    }
    Ok(cells)
}

/// The words that a run begins with.
pub(crate) fn first_cells(alloc: Global, image: &Image) -> Result<Vec<Cell>, NoMemory>
    ensures { IfOk result (λ cells.
        cells.items ≡ map (first_cell image.now) (range_with_len 0 (words_of image.now))) }
{
    let Ok(payloads) = image.first_words(alloc) else {
        return Err(NoMemory);
    };
    cells_of(alloc, payloads.as_slice())
}

/// The payload that an access leaves: a spent one changes nothing.
fn payload_left(op: Op, taken: Taken) -> u32
    ensures { result ≡ (if taken.spent then taken.old else changed op taken.number taken.old) }
{
    if taken.spent {
        taken.old
    } else {
        apply(op, taken.number, taken.old)
    }
}

impl Cell {
    /// One access. From the limit on it is spent, and raises the count alone.
    pub(crate) fn access(&mut self, op: Op, limit: u32) -> Taken
        requires { self.old.count < 2 ^ 32 - 1 }
        ensures found { result ≡ cell_found limit self.old }
        ensures after { self.new ≡ cell_after limit op self.old }
    {
        let taken = Taken {
            number: self.count,
            old: self.payload,
            spent: self.count >= limit,
        };
        self.payload = payload_left(op, taken);
        self.count += 1;
        taken
    }

    /// The operation of an access on the tag word, which is handed out as it was.
    pub(crate) fn serve(&mut self, op: Op, number: u32) -> u32
        ensures found { result ≡ self.old.tag }
        ensures after { self.new ≡ record self.old { tag = changed op number self.old.tag } }
    {
        let old = self.tag;
        self.tag = apply(op, number, old);
        old
    }
}
