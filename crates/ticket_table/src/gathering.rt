//! All seats of a table joined into one.

ghost use Rattle.std.specs.Prelude.{◌≡◌, ◌<◌, length};
ghost use Rattle.ticket_table.specs.Passes.{ArePasses};
ghost use Rattle.ticket_table.specs.Gathered.{HasFrom};

use crate::change::{Note, Setting, View};
use crate::pass::Pass;
use crate::rule::{BothCallers, Tickets};
use atomic_table::{Seat, Shared};

/// The seat that stands for the callers of all passes.
pub(crate) fn gather(
    shared: &Shared<Note, View, Setting, Tickets>,
    mut passes: Vec<Pass>,
) -> Seat<Note, View>
    requires place { 0 < shared.now.table_id.words }
    requires passes { ArePasses shared.now.table_id passes.items × (0 < length passes.items) }
    ensures { (result.table_id ≡ shared.now.table_id) × HasFrom 0 passes.items result.me.0 }
{
    let Some(last) = passes.pop() else {
        unreachable!()
    };
    let mut seat = last.seat;
    while let Some(pass) = passes.pop() {
        shared.join_seat::<BothCallers>(&mut seat, pass.seat);
    }
    seat
}
