/// What a send did.
#[derive(Debug, PartialEq, Eq, Drop)]
pub enum Sent<T> {
    /// The item went in.
    Sent,
    /// There was no room: the item comes back, and nothing changed.
    Full(T),
}

/// What a take did.
#[derive(Debug, PartialEq, Eq, Drop)]
pub enum Got<T> {
    /// The oldest item, which is out now.
    Item(T),
    /// There was none, and nothing changed.
    Empty,
}
