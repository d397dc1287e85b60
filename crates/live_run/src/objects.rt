//! What the turns of a run's actors use.

use inline_tracker::Setup;
use record_lane::{Lane, Record, Reply, Ring};
use word_stores::{SharedMemory, TagMemory};

/// The setup of a run, its two tables, and what its actors send to each other: the ring and the lane of a core stand at its number.
#[derive(Drop)]
pub(crate) struct Objects<'a> {
    pub setup: &'a Setup,
    pub memory: SharedMemory,
    pub tags: TagMemory,
    pub items: Vec<Ring<Record>>,
    pub replies: Vec<Lane<Reply>>,
    pub quantum: u32,
}
