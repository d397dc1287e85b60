//! The order of a finished run, as a list or as a walk.
ghost use Rattle.std.specs.Prelude.{◌≡◌, ℕ, List, ◌+◌, ◌<◌, ◌^◌, length, slice_get, option_to_list};
ghost use Rattle.order_core.specs.declared.entry.Entry.{Entry};
ghost use Rattle.order_core.specs.Logs.{logs_of, entry_count};
ghost use Rattle.inline_tracker.specs.Orders.{order_in, IsOrderAt};

use order_core::{CoreLog, Order, Walk};

/// Where a finished run has its order: in a list, or in its logs, along which it is walked.
#[derive(Drop)]
pub(crate) enum RunOrder {
    Listed(Order),
    Walked { walk: Walk, units: u32 },
}

impl RunOrder {
    /// The core of the unit at this place, up to which it was given.
    pub(crate) fn next(&mut self, logs: &[CoreLog], place: usize) -> Option<u8>
        requires { IsOrderAt (logs_of logs.now) place self.old }
        ensures core { result ≡ slice_get (order_in (logs_of logs.now) self.old) place }
        ensures order { order_in (logs_of logs.now) self.new ≡ order_in (logs_of logs.now) self.old }
        ensures place { IsOrderAt (logs_of logs.now) (place + length (option_to_list result)) self.new }
        ensures small { place + length (option_to_list result) < 2 ^ 32 }
    {
        match self {
            RunOrder::Listed(order) => order.as_slice().get(place).copied(),
            RunOrder::Walked { walk, .. } => walk.next(logs),
        }
    }

    /// Goes back to its first place.
    pub(crate) fn rewind(&mut self)
        ensures order { (logs : List (List Entry)) → order_in logs self.new ≡ order_in logs self.old }
        ensures place { (logs : List (List Entry)) (place : ℕ) → IsOrderAt logs place self.old → IsOrderAt logs 0 self.new }
    {
        match self {
            RunOrder::Listed(_) => {}
            RunOrder::Walked { walk, .. } => walk.restart(),
        }
    }
}

/// How many entries the logs hold together.
pub(crate) fn units_of(logs: &[CoreLog]) -> u32
    requires { entry_count (logs_of logs.now) < 2 ^ 32 }
    ensures { result ≡ entry_count (logs_of logs.now) }
{
    let mut units = 0;
    for log in logs {
        units += log.len() as u32;
    }
    units
}
