//! One core of a run, with its tags, its log and its notes.
use crate::finished::CoreOutcome;
use order_core::CoreLog;
use record_lane::Notes;
use syscall_drain::CoreState;
use tag_registers::TagFile;

/// One core. Its notes go into its outcome when it ends.
#[derive(Drop)]
pub(crate) struct Seat {
    pub(crate) state: CoreState,
    pub(crate) tags: TagFile,
    pub(crate) log: CoreLog,
    pub(crate) notes: Option<Notes>,
    pub(crate) outcome: Option<CoreOutcome>,
}
