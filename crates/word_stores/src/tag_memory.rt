//! The tags of a run's words, shared by the tag actors.

ghost use Rattle.std.specs.Prelude.{◌≡◌, ◌+◌, ◌<◌, ◌≤◌, replicate, IfOk};
ghost use Rattle.ticket_table.specs.declared.change.Role.TheVariants.{Serve};
ghost use Rattle.ticket_table.specs.Passes.{AreFresh};
ghost use Rattle.ticket_table.specs.Calls.{MayServe, MayClose, HasServed, IsClosed};

use bounded_list::NoMemory;
use rv_execute::{MOST_NUMBERS, Op};
use std::alloc::Global;
use std::marker::Model;
use ticket_table::{Closed, Pass, Role, Served, TicketTable};

/// As many zeros as are wanted.
fn zeros(alloc: Global, words: u32) -> Result<Vec<u32>, NoMemory>
    ensures { IfOk result (λ payloads. payloads.items ≡ replicate words 0) }
{
    vec![in alloc; 0; words as usize].map_err(|_| NoMemory)
}

/// The tags of a run's words: each change comes with its number, and is made when the word has reached it.
#[derive(Drop)]
pub struct TagMemory {
    words: TicketTable,
}

impl Model for TagMemory {
    ghost use Rattle.std.specs.Prelude.{◌≡◌};
    ghost use Rattle.ticket_table.specs.declared.change.Role.TheVariants.{Serve};
    ghost use Rattle.ticket_table.specs.Passes.{TableSeen};

    ghost Value = { TableSeen };

    ghost view = { λ memory. memory.words };

    ghost invariant = { λ memory. memory.words.basis.terms.role ≡ Serve };
}

impl TagMemory {
    /// As many words as are wanted, each without a tag, and a pass for each of the callers 0, 1, 2 and so on. Numbers up to
    /// `limit + callers` are served.
    pub fn create(
        alloc: Global,
        words: u32,
        callers: u8,
        limit: u32,
    ) -> Result<(TagMemory, Vec<Pass>), NoMemory>
        requires size { (0 < words) × (0 < callers) }
        requires room { limit + callers ≤ MOST_NUMBERS }
        ensures basis { IfOk result (λ made. made.0.basis ≡ record { terms = record { role = Serve; limit = limit; callers = callers }; first = replicate words 0 }) }
        ensures passes { IfOk result (λ made. AreFresh made.0 made.1.items) }
    {
        let payloads = zeros(alloc, words)?;
        let (words, passes) = TicketTable::create(
            alloc,
            payloads.as_slice(),
            callers,
            limit,
            Role::Serve,
        )?;
        Ok((TagMemory { words }, passes))
    }

    /// Changes a word by the operation if its number is this one, in one step: `Done` with the tag that the operation found.
    /// `NotYet` where one step of this call found another number, which it gives: then nothing changed.
    pub fn serve(&self, pass: &mut Pass, word: u32, number: u32, op: Op) -> Served
        requires { MayServe self.now pass.old word number }
        ensures { HasServed self.now pass.old pass.new word number op result }
    {
        self.words.serve(pass, word, number, op)
    }

    /// Ends the memory, once all callers have given their passes back: its words, and a history of all changes.
    pub fn close(self, passes: Vec<Pass>) -> Closed
        requires { MayClose self passes.items }
        ensures { IsClosed self.basis passes.items result }
    {
        let TagMemory { words } = self;
        words.close(passes)
    }
}
