//! What is written at the end of a run.
ghost use Rattle.machine.specs.FinishedRuns.{IsFinishedRun};
ghost use Rattle.run_cli.specs.Seen.{sinks_seen};
ghost use Rattle.run_cli.specs.Endings.{run_answer};
ghost use Rattle.run_cli.specs.Forms.{Delivered};

use crate::ending::Ending;
use crate::prepare::Run;
use inline_tracker::status_of;
use outside::{Sink, write_whole};
use trap_report::write_report;

/// Writes the guest's output, and then the report.
pub fn deliver<O: Sink, R: Sink>(run: &mut Run, out: &mut O, report: &mut R) -> Ending
    requires { IsFinishedRun run.old.setup run.old.finished.run }
    ensures { Delivered (run_answer run.old.setup run.old.finished.run.order)
        (sinks_seen (O.written out.old) (O.faults out.old) (R.written report.old) (R.faults report.old))
        (sinks_seen (O.written out.new) (O.faults out.new) (R.written report.new) (R.faults report.new))
        result }
{
    let Ok(()) = write_whole(out, run.finished.output().as_slice()) else {
        return Ending::Write;
    };
    let Ok(()) = write_report(report, &run.setup, &mut run.finished) else {
        return Ending::Write;
    };
    Ending::Class(status_of(&run.finished))
}
