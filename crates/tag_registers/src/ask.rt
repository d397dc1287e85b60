use record_lane::Reply;
use rv_execute::Op;

/// What a file of tags asks for when it is given a record.
#[derive(Clone, Copy, Debug, PartialEq, Eq)]
pub enum TagAsk {
    /// Nothing: the record is done with.
    Done,
    /// That this operation be done on the tag word of this word when its number comes, and the tag word
    /// found be given.
    Serve { word: u32, number: u32, op: Op },
    /// That this reply be given to the core.
    Answer(Reply),
    /// Nothing more: the core has ended.
    Ended,
}
