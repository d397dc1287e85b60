//! The rule of the table, and what each kind of step tells its caller.

use crate::change::{Note, Setting, View};
use atomic_table::{Join, Play, Split, TableRule};

/// The rule: one history leaves the words, and has what each seat knows.
pub struct Tickets;

impl TableRule<Note, View, Setting> for Tickets {
    ghost use Rattle.ticket_table.specs.Views.{opened};
    ghost use Rattle.ticket_table.specs.Rule.{Kept, basis_of};

    ghost holds = { λ setting. Kept (basis_of setting) };

    ghost first = { λ setting. opened (basis_of setting) };
}

/// A load of a word.
pub struct Looks;

impl Play<Note, View> for Looks {
    ghost use Rattle.ticket_table.specs.Rule.{Looked};

    ghost then = { Looked };
}

/// An exchange of a word, won or lost.
pub struct Exchanges;

impl Play<Note, View> for Exchanges {
    ghost use Rattle.ticket_table.specs.Rule.{Exchanged};

    ghost then = { Exchanged };
}

/// A count of a read, which leaves the payload.
pub struct Counts;

impl Play<Note, View> for Counts {
    ghost use Rattle.ticket_table.specs.Rule.{Counted};

    ghost then = { Counted };
}

/// The first of several callers gets a seat of its own.
pub struct OneCaller;

impl Split<View> for OneCaller {
    ghost use Rattle.ticket_table.specs.Views.{without_first, first_alone};

    ghost left = { without_first };

    ghost right = { first_alone };
}

/// One seat stands for the callers of both.
pub struct BothCallers;

impl Join<View> for BothCallers {
    ghost use Rattle.ticket_table.specs.Views.{together, nobody};

    ghost both = { together };

    ghost spent = { nobody };
}
