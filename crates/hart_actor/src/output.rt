//! The output that a core claimed.
ghost use Rattle.std.specs.Prelude.{◌≡◌, ◌+◌, ◌<◌, ◌≤◌, ◌++◌, length};
ghost use Rattle.syscall_drain.specs.Pieces.{bytes_placed};
ghost use Rattle.hart_actor.specs.Harts.{size_placed};

use order_core::{Bytes, Pieces};
use syscall_drain::limits::MOST_BYTES;

/// Appends bytes to the output.
fn append(output: &mut Bytes, bytes: &[u8])
    requires { length output.old.items + length bytes.now ≤ output.old.room }
    ensures { output.new ≡ record output.old { items = output.old.items ++ bytes.now } }
{
    for byte in bytes {
        output.push(*byte);
    }
}

/// Puts out the bytes that a core gathered, where it claimed a place for them.
pub(crate) fn put_out(output: &mut Bytes, pieces: &mut Pieces, gathered: &[u8], place: Option<u32>)
    requires few { length gathered.now ≤ MOST_BYTES }
    requires room { length output.old.items + length (bytes_placed place gathered.now) ≤ output.old.room }
    requires pieces { length pieces.old.items < pieces.old.room }
    ensures output { output.new ≡ record output.old { items = output.old.items ++ bytes_placed place gathered.now } }
    ensures pieces { pieces.new ≡ record pieces.old { items = pieces.old.items ++ size_placed place gathered.now } }
{
    if let Some(place) = place {
        append(output, gathered);
        pieces.push((place, gathered.len() as u32));
    }
}
