//! Memory for what a run leaves.
ghost use Rattle.std.specs.Prelude.{IfOk};
ghost use Rattle.live_run.specs.Parts.{IsRoomFor};

use crate::ends::Ends;
use inline_tracker::Setup;
use order_core::{Bytes, NoMemory, Walk};
use std::alloc::Global;

/// Memory for the end of a run: the walk along its order, what its cores leave, and its output.
#[derive(Drop)]
pub struct RunRoom {
    pub(crate) walk: Walk,
    pub(crate) ends: Ends,
    pub(crate) output: Bytes,
}

impl RunRoom {
    /// Room for what a run of the setup leaves.
    pub(crate) fn create(alloc: Global, setup: &Setup) -> Result<RunRoom, NoMemory>
        ensures { IfOk result (IsRoomFor setup.now) }
    {
        let image = setup.guest().image();
        let cores = image.cores();
        Ok(RunRoom {
            walk: Walk::create(alloc, image.words(), cores)?,
            ends: Ends::create(alloc, u32::from(cores))?,
            output: Bytes::create(alloc, 4 * (u32::from(cores) * setup.budget()))?,
        })
    }
}
