use order_core::{Bytes, CoreLog, Pieces};
use record_lane::{Notes, Record, Reply, RingSender, Taker};
use syscall_drain::End;
use word_stores::Pass;

/// What a hart actor leaves: how its core ended and after how many units, what it kept, and its tokens. A piece of output is its
/// place and its length, and its bytes stand in `output` behind those of the pieces before it.
#[derive(Drop)]
pub struct HartParts {
    pub end: End,
    pub units: u32,
    pub entries: CoreLog,
    pub notes: Notes,
    pub output: Bytes,
    pub pieces: Pieces,
    pub pass: Pass,
    pub sender: RingSender<Record>,
    pub taker: Taker<Reply>,
}
