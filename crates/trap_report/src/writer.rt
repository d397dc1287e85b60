//! Writing a report.
ghost use Rattle.std.specs.Prelude.{◌≡◌, ◌+◌, ◌<◌, ◌≤◌, length, OnOk, OnErr};
ghost use Rattle.machine.specs.FinishedRuns.{IsFinishedRun};
ghost use Rattle.outside.specs.Sinks.{Cut, Wrote};
ghost use Rattle.trap_report.specs.Text.{text};
ghost use Rattle.trap_report.specs.Writing.{WroteFront};

use crate::block::Block;
use crate::cursor::Cursor;
use crate::spelling::{ROOM_BEFORE_LINE, push_line};
use inline_tracker::{Finished, Setup};
use outside::{Sink, SinkFault, write_whole};

/// Writes the report of a finished run of a setup, some thousand bytes at a time. After a fault the
/// sink holds the first bytes of it.
pub fn write_report<S: Sink>(
    sink: &mut S,
    setup: &Setup,
    finished: &mut Finished,
) -> Result<(), SinkFault>
    requires { IsFinishedRun setup.now finished.old.run }
    ensures whole { OnOk result (Wrote (text setup.now finished.old.run.order)
        (record { written = S.written sink.old; faults = S.faults sink.old })
        (record { written = S.written sink.new; faults = S.faults sink.new })) }
    ensures cut { OnErr result (Cut (text setup.now finished.old.run.order)
        (record { written = S.written sink.old; faults = S.faults sink.old })
        (record { written = S.written sink.new; faults = S.faults sink.new })) }
    ensures same { finished.new.run ≡ finished.old.run }
{
    finished.rewind();
    let mut cursor = Cursor::new();
    let mut block = Block::new();
    while let Some(line) = cursor.next_line(setup, finished) {
        make_room(sink, &mut block)?;
        push_line(&mut block, &line);
    }
    write_block(sink, &block)
}

// Writes the block out and clears it, where it might have no room for a further line.
fn make_room<S: Sink>(sink: &mut S, block: &mut Block) -> Result<(), SinkFault>
    ensures room { OnOk result (length block.new ≤ ROOM_BEFORE_LINE) }
    ensures handed { OnOk result (WroteFront block.old block.new
        (record { written = S.written sink.old; faults = S.faults sink.old })
        (record { written = S.written sink.new; faults = S.faults sink.new })) }
    ensures cut { OnErr result (Cut block.old
        (record { written = S.written sink.old; faults = S.faults sink.old })
        (record { written = S.written sink.new; faults = S.faults sink.new })) }
{
    if block.len() > ROOM_BEFORE_LINE {
        write_block(sink, block)?;
        block.clear();
    }
    Ok(())
}

fn write_block<S: Sink>(sink: &mut S, block: &Block) -> Result<(), SinkFault>
    ensures whole { OnOk result (Wrote block.now
        (record { written = S.written sink.old; faults = S.faults sink.old })
        (record { written = S.written sink.new; faults = S.faults sink.new })) }
    ensures cut { OnErr result (Cut block.now
        (record { written = S.written sink.old; faults = S.faults sink.old })
        (record { written = S.written sink.new; faults = S.faults sink.new })) }
{
    match write_whole(sink, block.as_bytes()) {
        Ok(()) => Ok(()),
        Err(fault) => Err(fault),
    }
}
