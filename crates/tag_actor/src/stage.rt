use record_lane::{Lane, Record, Reply, Ring};
use word_stores::TagMemory;

/// What a turn works on: the memory of tags, the ring of records and the lane of replies.
#[derive(Clone, Copy)]
pub(crate) struct Stage<'a> {
    pub memory: &'a TagMemory,
    pub items: &'a Ring<Record>,
    pub replies: &'a Lane<Reply>,
}
