//! The two tables of a new run.
ghost use Rattle.std.specs.Prelude.{IfOk};
ghost use Rattle.live_run.specs.Beginnings.{HavePasses};

use inline_tracker::Setup;
use std::alloc::Global;
use word_stores::{NoMemory, Pass, SharedMemory, TagMemory};

/// The words of a run and their tags, with the passes of the cores that have no actors yet, in the order of their numbers.
#[derive(Drop)]
pub(crate) struct Tables {
    pub(crate) memory: SharedMemory,
    pub(crate) tags: TagMemory,
    pub(crate) drawn: Vec<Pass>,
    pub(crate) served: Vec<Pass>,
}

impl Tables {
    /// The tables of a setup, with the passes of all its cores.
    pub(crate) fn create(alloc: Global, setup: &Setup) -> Result<Tables, NoMemory>
        ensures { IfOk result (HavePasses setup.now 0) }
    {
        let image = setup.guest().image();
        let cores = image.cores();
        let limit = setup.limit();
        let (memory, drawn) = SharedMemory::create(alloc, image, cores, limit)?;
        let (tags, served) = TagMemory::create(alloc, image.words(), cores, limit)?;
        Ok(Tables {
            memory,
            tags,
            drawn,
            served,
        })
    }
}
