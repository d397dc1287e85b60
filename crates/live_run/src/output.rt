//! The output of all cores.
ghost use Rattle.std.specs.Prelude.{◌≡◌, ◌≤◌, [], length, replicate};
ghost use Rattle.std.specs.List.{AllByRecursion};
ghost use Rattle.live_run.specs.Laying.{laid, pieces_in, pieces_of, AreLayable};

use crate::pair::Claims;
use order_core::Bytes;

/// Makes the output so many bytes long.
fn lengthen(output: &mut Bytes, size: u32)
    requires empty { output.old.items ≡ [] }
    requires room { size ≤ output.old.room }
    ensures { output.new ≡ record output.old { items = replicate size 0 } }
{
    for _ in 0..size {
        output.push(0);
    }
}

/// Puts each piece of one core at its place.
fn lay(output: &mut Bytes, claims: &Claims)
    requires { AreLayable (length output.old.items) claims.now }
    ensures { output.new ≡ record output.old { items = laid output.old.items (pieces_in claims.now) } }
{
    let mut bytes = claims.output.as_slice();
    for (place, size) in claims.pieces.as_slice() {
        let (piece, rest) = bytes.split_at(*size as usize);
        output.overwrite(*place as usize, piece);
        bytes = rest;
    }
}

/// An output of so many bytes, with the pieces of all cores at their places.
pub(crate) fn lay_out(output: &mut Bytes, claims: &[Claims], size: u32)
    requires empty { output.old.items ≡ [] }
    requires room { size ≤ output.old.room }
    requires claims { AllByRecursion (AreLayable size) claims.now }
    ensures { output.new ≡ record output.old { items = laid (replicate size 0) (pieces_of claims.now) } }
{
    lengthen(output, size);
    for claims in claims {
        lay(output, claims);
    }
}
