//! The state that a run begins with.
ghost use Rattle.std.specs.Prelude.{◌≡◌, ◌<◌, [], IfOk};
ghost use Rattle.machine.specs.Setups.{core_count};
ghost use Rattle.machine.specs.States.{opening_core};
ghost use Rattle.inline_tracker.specs.Standing.{Sits, Stands, AreFirstSeats};

use crate::memory::first_cells;
use crate::run::Run;
use crate::seat::Seat;
use crate::setup::Setup;
use bounded_list::BoundedList;
use order_core::{Bytes, CoreLog, NoMemory, Order};
use record_lane::Notes;
use std::alloc::Global;
use syscall_drain::CoreState;
use tag_registers::TagFile;

/// A core before its first unit.
#[tactic(auto, unfolding(syscall_drain::specs::Locals::opening_local))]
fn first_seat(alloc: Global, setup: &Setup, core: u8) -> Result<Seat, NoMemory>
    requires { core < core_count setup.now }
    ensures { IfOk result (Sits setup.now.budget (opening_core setup.now core) []) }
{
    let budget = setup.budget();
    let log = CoreLog::create(alloc, budget)?;
    let notes = Notes::create(alloc, budget)?;
    Ok(Seat {
        state: CoreState::create(core, setup.guest(), budget),
        tags: TagFile::create(),
        log,
        notes: Some(notes),
        outcome: None,
    })
}

/// All cores before their first units.
fn first_seats(alloc: Global, setup: &Setup) -> Result<Vec<Seat>, NoMemory>
    ensures { IfOk result (λ seats. AreFirstSeats setup.now (core_count setup.now) seats.items) }
{
    let cores = setup.guest().image().cores();
    let Ok(mut seats) = Vec::with_capacity(alloc, cores as usize) else {
        return Err(NoMemory);
    };
    for core in 0..cores {
        let seat = first_seat(alloc, setup, core)?;
        let Ok(()) = seats.push(seat) else {
            return Err(NoMemory);
        };
    }
    Ok(seats)
}

/// The run before its first unit.
pub(crate) fn first_run(alloc: Global, setup: &Setup) -> Result<Run, NoMemory>
    ensures stands { IfOk result (Stands setup.now) }
    ensures order { IfOk result (λ run. run.order.items ≡ []) }
{
    let image = setup.guest().image();
    let cores = u32::from(image.cores());
    let units = cores * setup.budget();
    Ok(Run {
        seats: first_seats(alloc, setup)?,
        cells: first_cells(alloc, image)?,
        order: Order::create(alloc, units)?,
        output: Bytes::create(alloc, 4 * units)?,
        logs: BoundedList::create(alloc, cores)?,
        outcomes: BoundedList::create(alloc, cores)?,
    })
}
