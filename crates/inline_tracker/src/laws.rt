//! What holds of every order that a setup can play. Each law is the contract of a function that does nothing.
ghost use Rattle.machine.specs.TrapLaws.{TrapsHold, TrapsHoldOn};
ghost use Rattle.machine.specs.TraceLaws.{TraceLaw, CanonicalLaw};

/// A core with a trap is in no call, or has ended by no exit call; and from the unit of its trap on
/// it touches no device word and stores no word of a read call.
pub fn traps_hold()
    ensures at_each_moment { TrapsHold }
    ensures from_its_trap_on { TrapsHoldOn }
{}

/// Each legal merge of the logs of an order is an order of the same run.
pub fn trace()
    ensures { TraceLaw }
{}

/// The canonical merge of the logs of an order is an order of the same run.
pub fn canonical()
    ensures { CanonicalLaw }
{}
