//! A run with one more unit.
ghost use Rattle.std.specs.Prelude.{◌≡◌, ◌+◌, ◌<◌, ◌≤◌, [], ◌∷◌, ◌++◌, length};
ghost use Rattle.syscall_drain.specs.declared.ask.CoreAsk.TheVariants.{Quiet as AsksNothing, Touch as Touches, Meet as Meets};
ghost use Rattle.syscall_drain.specs.Pieces.{bytes_placed};
ghost use Rattle.inline_tracker.specs.Standing.{Stands, IsTurnOf};
ghost use Rattle.inline_tracker.specs.Seats.{local_in};

use crate::run::Run;
use crate::seat::Seat;
use crate::setup::Setup;
use crate::unit::{meet, quiet, take};
use order_core::Bytes;
use record_lane::Record;
use rv_execute::Op;
use syscall_drain::{CoreAsk, NextUnit};

/// A unit that asks for nothing.
fn quiet_unit(run: &mut Run, setup: &Setup, core: u8, unit: NextUnit)
    requires stands { Stands setup.now run.old }
    requires turn { IsTurnOf setup.now run.old core unit }
    requires asked { unit.ask ≡ AsksNothing }
    ensures stands { Stands setup.now run.new }
    ensures order { run.new.order.items ≡ run.old.order.items ++ core ∷ [] }
{
    let seat = &mut run.seats[core as usize];
    quiet(seat, setup, unit);
    run.order.push(core);
}

/// A meeting.
fn meeting_unit(run: &mut Run, setup: &Setup, core: u8, unit: NextUnit, item: Record)
    requires stands { Stands setup.now run.old }
    requires turn { IsTurnOf setup.now run.old core unit }
    requires asked { unit.ask ≡ Meets item }
    ensures stands { Stands setup.now run.new }
    ensures order { run.new.order.items ≡ run.old.order.items ++ core ∷ [] }
{
    let seat = &mut run.seats[core as usize];
    meet(seat, setup, unit, item);
    run.order.push(core);
}

/// Appends bytes to the output.
fn append(output: &mut Bytes, bytes: &[u8])
    requires { length output.old.items + length bytes.now ≤ output.old.room }
    ensures { output.new ≡ record output.old { items = output.old.items ++ bytes.now } }
{
    for byte in bytes {
        output.push(*byte);
    }
}

/// Puts out the bytes that a core gathered, where it claimed a place for them.
fn put_out(output: &mut Bytes, seat: &Seat, place: Option<u32>)
    requires { length output.old.items + length (bytes_placed place (local_in seat.now).gathered) ≤ output.old.room }
    ensures { output.new ≡ record output.old { items = output.old.items ++ bytes_placed place (local_in seat.now).gathered } }
{
    if place.is_some() {
        append(output, seat.state.gathered());
    }
}

/// A unit with an access to this word.
fn access_unit(run: &mut Run, setup: &Setup, core: u8, unit: NextUnit, word: u32, op: Op)
    requires stands { Stands setup.now run.old }
    requires turn { IsTurnOf setup.now run.old core unit }
    requires asked { unit.ask ≡ Touches word op }
    ensures stands { Stands setup.now run.new }
    ensures order { run.new.order.items ≡ run.old.order.items ++ core ∷ [] }
{
    let seat = &mut run.seats[core as usize];
    let cell = &mut run.cells[word as usize];
    let place = take(seat, cell, setup, unit, word, op);
    put_out(&mut run.output, seat, place);
    run.order.push(core);
}

/// Spends this unit of a core.
pub(crate) fn run_unit(run: &mut Run, setup: &Setup, core: u8, unit: NextUnit)
    requires stands { Stands setup.now run.old }
    requires turn { IsTurnOf setup.now run.old core unit }
    ensures stands { Stands setup.now run.new }
    ensures order { run.new.order.items ≡ run.old.order.items ++ core ∷ [] }
{
    match unit.ask {
        CoreAsk::Quiet => quiet_unit(run, setup, core, unit),
        CoreAsk::Touch { word, op } => access_unit(run, setup, core, unit, word, op),
        CoreAsk::Meet { item } => meeting_unit(run, setup, core, unit, item),
        CoreAsk::Ended => unreachable!(),
    }
}
