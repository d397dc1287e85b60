use rv_execute::Op;
use std::collections::LinkedList;

/// How a word's numbers are handed out.
#[derive(Clone, Copy, Debug, PartialEq, Eq)]
pub enum Role {
    /// A caller takes the next number.
    Draw,
    /// A caller comes with the number that it was given, and waits for its turn.
    Serve,
}

/// The terms of a table, which each of its passes keeps.
#[derive(Clone, Copy, Debug, PartialEq, Eq)]
pub struct Terms {
    pub role: Role,
    /// A number that is drawn at or above it is spent.
    pub limit: u32,
    /// The callers are 0, 1, 2 and so on, and fewer than this.
    pub callers: u8,
}

/// What a table is made of: its terms, and the first payload of each word.
#[derive(Debug, Drop)]
pub struct Setting {
    pub terms: Terms,
    pub first: Vec<u64>,
}

/// One change of a word: who made it, which number it was, and the payload before and after.
/// Proofs alone speak of changes.
pub struct Change {
    pub caller: u8,
    pub word: u32,
    pub number: u32,
    pub op: Op,
    pub old: u32,
    pub new: u32,
}

/// What a caller's seat knows. Proofs alone speak of views.
pub struct View {
    /// It has not been joined into another.
    pub live: bool,
    pub terms: Terms,
    /// The callers that it stands for.
    pub callers: LinkedList<u8>,
    /// Their changes, in order.
    pub mine: LinkedList<Change>,
    /// The word that was read last, and what it was.
    pub last: Option<(u32, u64)>,
    /// How many steps it has made on words.
    pub steps: u64,
}

/// What a caller announces with a step: itself, and the operation.
#[derive(Clone, Copy)]
pub struct Note {
    pub caller: u8,
    pub op: Op,
}
