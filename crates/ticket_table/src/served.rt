/// What `serve` did.
#[derive(Clone, Copy, Debug, PartialEq, Eq)]
pub enum Served {
    /// The ticket was served, at the payload `old`.
    Done { old: u32 },
    /// It was not the ticket's turn: the word had the number `seen`, and nothing changed.
    NotYet { seen: u32 },
}
