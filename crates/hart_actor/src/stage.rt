use record_lane::Record;

/// Where a hart actor is between two moves.
#[derive(Clone, Copy, Debug, PartialEq, Eq)]
pub(crate) enum Stage {
    /// At no meeting; its next unit can begin once its last record is sent.
    Going,
    /// At a meeting with this record.
    Meeting(Record),
    /// Its core has ended, and its last record is ready or sent.
    Closed,
}
