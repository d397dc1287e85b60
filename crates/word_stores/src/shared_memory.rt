//! The words of an image, shared by the cores of a run.

ghost use Rattle.std.specs.Prelude.{◌≡◌, ◌+◌, ◌<◌, ◌≤◌, length, IfOk};
ghost use Rattle.elf_image.specs.Layout.{first_words, words_of};
ghost use Rattle.ticket_table.specs.declared.change.Role.TheVariants.{Draw};
ghost use Rattle.ticket_table.specs.Passes.{AreFresh};
ghost use Rattle.ticket_table.specs.Calls.{MayDraw, MayClose, HasDrawn, IsClosed};

use bounded_list::NoMemory;
use elf_image::Image;
use rv_execute::{MOST_NUMBERS, Op, Taken};
use std::alloc::Global;
use std::marker::Model;
use ticket_table::{Closed, Pass, Role, TicketTable};

/// The memory of a run: each access to a word draws the word's next number.
#[derive(Drop)]
pub struct SharedMemory {
    words: TicketTable,
}

impl Model for SharedMemory {
    ghost use Rattle.std.specs.Prelude.{◌≡◌};
    ghost use Rattle.ticket_table.specs.declared.change.Role.TheVariants.{Draw};
    ghost use Rattle.ticket_table.specs.Passes.{TableSeen};

    ghost Value = { TableSeen };

    ghost view = { λ memory. memory.words };

    ghost invariant = { λ memory. memory.words.basis.terms.role ≡ Draw };
}

impl SharedMemory {
    /// The first words of an image, with a pass for each of the callers 0, 1, 2 and so on. From `limit` on the accesses to a word
    /// are spent.
    #[tactic(auto, using(elf_image::proofs::FirstWords::first_words_count, elf_image::proofs::FirstWords::some_word))]
    pub fn create(
        alloc: Global,
        image: &Image,
        callers: u8,
        limit: u32,
    ) -> Result<(SharedMemory, Vec<Pass>), NoMemory>
        requires callers { 0 < callers }
        requires room { limit + callers ≤ MOST_NUMBERS }
        ensures basis { IfOk result (λ made. made.0.basis ≡ record { terms = record { role = Draw; limit = limit; callers = callers }; first = first_words image.now }) }
        ensures words { IfOk result (λ made. length made.0.basis.first ≡ words_of image.now) }
        ensures passes { IfOk result (λ made. AreFresh made.0 made.1.items) }
    {
        let Ok(payloads) = image.first_words(alloc) else {
            return Err(NoMemory);
        };
        let (words, passes) = TicketTable::create(
            alloc,
            payloads.as_slice(),
            callers,
            limit,
            Role::Draw,
        )?;
        Ok((SharedMemory { words }, passes))
    }

    /// One access to a word: draws its next number and changes it by the operation, in one step.
    pub fn access(&self, pass: &mut Pass, word: u32, op: Op) -> Taken
        requires { MayDraw self.now pass.old word }
        ensures { HasDrawn self.now pass.old pass.new word op result }
    {
        self.words.take(pass, word, op)
    }

    /// Ends the memory, once all callers have given their passes back: its words, and a history of all accesses.
    pub fn close(self, passes: Vec<Pass>) -> Closed
        requires { MayClose self passes.items }
        ensures { IsClosed self.basis passes.items result }
    {
        let SharedMemory { words } = self;
        words.close(passes)
    }
}
