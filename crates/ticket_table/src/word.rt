//! A shared word: its payload in the low half, the count of its changes in the high half.

ghost use Rattle.std.specs.Prelude.{◌≡◌, ◌+◌, ◌*◌, ◌^◌, ◌<◌};
ghost use Rattle.ticket_table.specs.Words.{number_of, payload_of, packed};

/// How many payloads there are, and so what a word grows by with its count.
pub(crate) const HALF: u64 = 4294967296;

/// The number that the word's next change has: how many it has had.
pub fn number(word: u64) -> u32
    ensures { result ≡ number_of word }
{
    (word / HALF) as u32
}

/// What the word holds.
pub fn payload(word: u64) -> u32
    ensures { result ≡ payload_of word }
{
    (word % HALF) as u32
}

/// The word with this count and payload.
pub(crate) fn packed(number: u32, payload: u32) -> u64
    ensures { result ≡ packed number payload }
{
    number as u64 * HALF + payload as u64
}
