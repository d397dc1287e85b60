//! The passes of a new table.

ghost use Rattle.std.specs.Prelude.{◌≡◌, ◌<◌, [], length, IfOk};
ghost use Rattle.ticket_table.specs.Views.{stock};
ghost use Rattle.ticket_table.specs.Passes.{fresh_from};

use crate::change::{Note, Setting, View};
use crate::pass::Pass;
use crate::rule::{OneCaller, Tickets};
use atomic_table::{Seat, Shared};
use bounded_list::NoMemory;
use std::alloc::Global;

/// The payloads as words with count 0.
pub(crate) fn widened(alloc: Global, payloads: &[u32]) -> Result<Vec<u64>, NoMemory>
    ensures { IfOk result (λ words. words.items ≡ payloads.now) }
{
    payloads
        .iter()
        .map(|payload| u64::from(*payload))
        .collect(alloc)
        .map_err(|_| NoMemory)
}

/// Splits the seat of all callers into one pass for each.
pub(crate) fn deal(
    alloc: Global,
    shared: &Shared<Note, View, Setting, Tickets>,
    mut seat: Seat<Note, View>,
    callers: u8,
) -> Result<Vec<Pass>, NoMemory>
    requires place { (seat.table_id ≡ shared.now.table_id) × (0 < shared.now.table_id.words) }
    requires whole { seat.me ≡ (stock seat.me.0.terms 0 callers, []) }
    ensures { IfOk result (λ passes. passes.items ≡ fresh_from seat.table_id seat.me.0.terms 0 callers) }
{
    let mut passes = Vec::new(alloc);
    for caller in 0..callers {
        let pass = Pass {
            seat: shared.split_seat::<OneCaller>(&mut seat),
            caller,
            spent: false,
        };
        let Ok(()) = passes.push(pass) else {
            return Err(NoMemory);
        };
    }
    Ok(passes)
}
