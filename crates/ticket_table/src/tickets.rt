//! Words that callers in many threads change by number.

ghost use Rattle.std.specs.Prelude.{◌≡◌, ◌+◌, ◌<◌, ◌≤◌, length, IfOk};
ghost use Rattle.ticket_table.specs.declared.change.Role.TheVariants.{Draw, Serve};
ghost use Rattle.ticket_table.specs.Passes.{AreFresh};
ghost use Rattle.ticket_table.specs.Calls.{MayDraw, MayServe, MayClose, HasDrawn, HasServed, IsClosed};

use crate::change::{Note, Role, Setting, Terms, View};
use crate::closed::Closed;
use crate::dealing::{deal, widened};
use crate::gathering::gather;
use crate::pass::Pass;
use crate::rule::Tickets;
use crate::served::Served;
use crate::steps::{draw, offer};
use atomic_table::Table;
use bounded_list::NoMemory;
use rv_execute::{MOST_NUMBERS, Op, Taken};
use std::alloc::Global;
use std::marker::Model;

/// Shared words, each with a payload and the count of its changes. Callers in many threads change them through a `&`, each with
/// its own pass.
#[derive(Drop)]
pub struct TicketTable {
    table: Table<Note, View, Setting, Tickets, Global>,
    limit: u32,
}

impl Model for TicketTable {
    ghost use Rattle.ticket_table.specs.Passes.{TableSeen};
    ghost use Rattle.ticket_table.specs.Rule.{basis_of, IsTable};

    ghost Value = { TableSeen };

    ghost view = { λ tickets. record { table = tickets.table.shared.table_id; basis = basis_of tickets.table.shared.key } };

    ghost invariant = { λ tickets. IsTable tickets.limit tickets.table.shared.table_id (basis_of tickets.table.shared.key) };
}

impl TicketTable {
    /// A table of words with these first payloads and count 0, and one pass for each of the callers 0, 1, 2 and so on.
    /// `NoMemory` where there is none to be had.
    pub fn create(
        alloc: Global,
        payloads: &[u32],
        callers: u8,
        limit: u32,
        role: Role,
    ) -> Result<(TicketTable, Vec<Pass>), NoMemory>
        requires size { (0 < length payloads.now) × (0 < callers) }
        requires room { limit + callers ≤ MOST_NUMBERS }
        ensures basis { IfOk result (λ made. made.0.basis ≡ record { terms = record { role = role; limit = limit; callers = callers }; first = payloads.now }) }
        ensures passes { IfOk result (λ made. AreFresh made.0 made.1.items) }
    {
        let setting = Setting {
            terms: Terms {
                role,
                limit,
                callers,
            },
            first: widened(alloc, payloads)?,
        };
        let Ok((table, seat)) = Table::of_words(alloc, setting.first.as_slice(), &setting) else {
            return Err(NoMemory);
        };
        let passes = deal(alloc, &table.shared, seat, callers)?;
        Ok((TicketTable { table, limit }, passes))
    }

    /// Draws the word's next number and changes the word by the operation, in one step: `old` is the payload that the operation
    /// found. Where the number is at or above the limit it is spent, and the payload stays.
    /// A read is a single step. For another operation, an exchange that is lost to another caller is tried again.
    pub fn take(&self, pass: &mut Pass, word: u32, op: Op) -> Taken
        requires role { self.now.basis.terms.role ≡ Draw }
        requires may { MayDraw self.now pass.old word }
        ensures { HasDrawn self.now pass.old pass.new word op result }
    {
        let note = Note {
            caller: pass.caller,
            op,
        };
        let (number, old) = draw(&self.table.shared, &mut pass.seat, word, self.limit, &note);
        let spent = number >= self.limit;
        pass.spent = spent;
        Taken { number, old, spent }
    }

    /// Changes the word by the operation if its number is this one, in one step: `Done` with the payload that the operation found.
    /// `NotYet` where one step of this call found another number, which it gives: then nothing changed.
    pub fn serve(&self, pass: &mut Pass, word: u32, number: u32, op: Op) -> Served
        requires role { self.now.basis.terms.role ≡ Serve }
        requires may { MayServe self.now pass.old word number }
        ensures { HasServed self.now pass.old pass.new word number op result }
    {
        let note = Note {
            caller: pass.caller,
            op,
        };
        offer(&self.table.shared, &mut pass.seat, word, number, &note)
    }

    /// Ends the table, once all callers have given their passes back: its words, and a history of all that they did.
    pub fn close(self, passes: Vec<Pass>) -> Closed
        requires { MayClose self passes.items }
        ensures { IsClosed self.basis passes.items result }
    {
        let TicketTable { table, limit: _ } = self;
        let seat = gather(&table.shared, passes);
        Closed::of(table.close_with(seat))
    }
}
