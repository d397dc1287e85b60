//! The arguments of a system call.
ghost use Rattle.std.specs.Prelude.{◌≡◌, ◌≤◌};
ghost use Rattle.rv_execute.specs.Harts.{state_of};
ghost use Rattle.syscall_drain.specs.Arguments.{first_argument, buffer_start, byte_count, call_number};

use crate::buffer::Buffer;
use crate::limits::MOST_BYTES;
use rv_execute::Hart;

/// The first argument of a call: a descriptor, a status or a break.
pub(crate) fn first_argument(hart: &Hart) -> u32
    ensures { result ≡ first_argument (state_of hart.now) }
{
    hart.regs[10]
}

/// The number of a call.
pub(crate) fn call_number(hart: &Hart) -> u32
    ensures { result ≡ call_number (state_of hart.now) }
{
    hart.regs[17]
}

/// The count of bytes that a read or a write call is to move.
pub(crate) fn byte_count(hart: &Hart) -> u32
    ensures value { result ≡ byte_count (state_of hart.now) }
    ensures few { result ≤ MOST_BYTES }
{
    hart.regs[12].min(MOST_BYTES)
}

/// The buffer of a read or a write call.
pub(crate) fn call_buffer(hart: &Hart) -> Buffer
    ensures start { result.start ≡ buffer_start (state_of hart.now) }
    ensures count { result.count ≡ byte_count (state_of hart.now) }
    ensures few { result.count ≤ MOST_BYTES }
{
    Buffer {
        start: hart.regs[11],
        count: byte_count(hart),
    }
}
