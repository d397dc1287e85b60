//! What a caller comes with.

ghost use Rattle.std.specs.Prelude.{◌≡◌};
ghost use Rattle.ticket_table.specs.Passes.{is_spent};

use crate::change::{Note, View};
use atomic_table::Seat;
use std::marker::Model;

/// A caller's token at one table. It knows the caller's changes, which proofs alone see.
#[derive(Drop)]
pub struct Pass {
    pub(crate) seat: Seat<Note, View>,
    pub(crate) caller: u8,
    pub(crate) spent: bool,
}

impl Model for Pass {
    ghost use Rattle.std.specs.Prelude.{◌≡◌, []};
    ghost use Rattle.ticket_table.specs.Passes.{PassSeen};
    ghost use Rattle.ticket_table.specs.History.{has_spent};
    ghost use Rattle.ticket_table.specs.Views.{IsAlone};

    ghost Value = { PassSeen };

    ghost view = { λ pass. record {
      table = pass.seat.table_id;
      terms = pass.seat.me.0.terms;
      caller = pass.caller;
      changes = pass.seat.me.0.mine;
      last = pass.seat.me.0.last;
      steps = pass.seat.me.0.steps;
    } };

    ghost invariant = { λ pass. (pass.seat.me.1 ≡ []) × IsAlone pass.seat.me.0 pass.caller × (pass.spent ≡ has_spent pass.seat.me.0.terms.role pass.seat.me.0.terms.limit pass.seat.me.0.mine) };
}

impl Pass {
    /// The number of its caller, from 0.
    pub fn caller(&self) -> u8
        ensures { result ≡ self.now.caller }
    {
        self.caller
    }

    /// Whether its caller has drawn a number at or above the limit.
    pub fn spent(&self) -> bool
        ensures { result ≡ is_spent self.now }
    {
        self.spent
    }
}
