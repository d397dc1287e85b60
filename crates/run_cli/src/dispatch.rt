//! What the program does with the words of its command line.
ghost use Rattle.std.specs.Prelude.{◌≡◌, ◌∷◌, ℕ, List, map, string_bytes, codes};
ghost use Rattle.run_cli.specs.declared.ending.Ending.{Ending as EndingSeen};
ghost use Rattle.run_cli.specs.Seen.{files_seen, sinks_seen, seen};
ghost use Rattle.run_cli.specs.Asked.{Asked, run_in};
ghost use Rattle.run_cli.specs.Words.{Reads};
ghost use Rattle.run_cli.specs.Lines.{exit_status};
ghost use Rattle.run_cli.specs.Endings.{Ended};
ghost use Rattle.run_cli.specs.Completeness.{Completes, CompletesReplay, CompletesMap};
ghost use Rattle.run_cli.specs.Replayable.{Replayable};
ghost use Rattle.run_cli.specs.Forms.{Came};

use crate::deliver::deliver;
use crate::ending::Ending;
use crate::offline_commands::offline;
use crate::options::RunOptions;
use crate::prepare::prepare;
use crate::refusal::refused;
use crate::words::{run_options, words_after_run};
use outside::{Files, Gate, Sink};
use std::alloc::Global;
use std::sync::Wait;
use std::thread::Threads;

/// Runs what the options say, up to its ending.
fn run<F: Files, O: Sink, R: Sink, G: Gate, X: Threads + Wait + Sync>(
    rt: &X,
    alloc: Global,
    options: &RunOptions<'_>,
    files: &mut F,
    out: &mut O,
    report: &mut R,
    gate: &G,
) -> Ending
    ensures { Came (Asked.Run (run_in options.now))
        (seen (files_seen (F.held files.old) (F.faults files.old)) (sinks_seen (O.written out.old) (O.faults out.old) (R.written report.old) (R.faults report.old)))
        (seen (files_seen (F.held files.new) (F.faults files.new)) (sinks_seen (O.written out.new) (O.faults out.new) (R.written report.new) (R.faults report.new)))
        result }
{
    match prepare(rt, alloc, options, files, gate) {
        Ok(mut run) => deliver(&mut run, out, report),
        Err(ending) => refused(ending, report),
    }
}

/// Runs what the words after `run` say, up to its ending.
fn run_words<F: Files, O: Sink, R: Sink, G: Gate, X: Threads + Wait + Sync>(
    rt: &X,
    alloc: Global,
    rest: &[String],
    files: &mut F,
    out: &mut O,
    report: &mut R,
    gate: &G,
) -> Ending
    ensures { (words : List (List ℕ)) → words ≡ codes "run" ∷ map string_bytes rest.now → Ended Reads words
        (seen (files_seen (F.held files.old) (F.faults files.old)) (sinks_seen (O.written out.old) (O.faults out.old) (R.written report.old) (R.faults report.old)))
        (seen (files_seen (F.held files.new) (F.faults files.new)) (sinks_seen (O.written out.new) (O.faults out.new) (R.written report.new) (R.faults report.new)))
        result }
{
    match run_options(alloc, rest) {
        Ok(options) => run(rt, alloc, &options, files, out, report, gate),
        Err(ending) => refused(ending, report),
    }
}

/// On `run`: runs the image that the words name on its input and under its policy, with a thread for each core and one for each
/// tag actor, which call the gate before each turn; writes the guest's output to `out` and then the report of the run to `report`,
/// and answers the class of its outcome. On `replay` and `inspect`: what `offline`
/// does. A refusal writes its one line to `report` and nothing to `out`.
///
/// The statuses: 0 to 5 the class, 0 for a replay and a map; 64 other words; 65 a fault of the image; 66 a fault of the policy's
/// text; 67 and 68 those of a replay; 69 a file that is too long; 71 want of memory; 74 a file that could not be read; 75 `out`
/// or `report` could not be written whole.
pub fn command<F: Files, O: Sink, R: Sink, G: Gate, X: Threads + Wait + Sync>(
    rt: &X,
    alloc: Global,
    words: &[String],
    files: &mut F,
    out: &mut O,
    report: &mut R,
    gate: &G,
) -> u8
    ensures ended { (ending : EndingSeen) × (result ≡ exit_status ending) × Ended Reads (map string_bytes words.now)
        (seen (files_seen (F.held files.old) (F.faults files.old)) (sinks_seen (O.written out.old) (O.faults out.old) (R.written report.old) (R.faults report.old)))
        (seen (files_seen (F.held files.new) (F.faults files.new)) (sinks_seen (O.written out.new) (O.faults out.new) (R.written report.new) (R.faults report.new)))
        ending }
    ensures completes { Completes (map string_bytes words.now)
        (seen (files_seen (F.held files.old) (F.faults files.old)) (sinks_seen (O.written out.old) (O.faults out.old) (R.written report.old) (R.faults report.old)))
        (seen (files_seen (F.held files.new) (F.faults files.new)) (sinks_seen (O.written out.new) (O.faults out.new) (R.written report.new) (R.faults report.new)))
        result }
    ensures completes_replay { CompletesReplay (map string_bytes words.now)
        (seen (files_seen (F.held files.old) (F.faults files.old)) (sinks_seen (O.written out.old) (O.faults out.old) (R.written report.old) (R.faults report.old)))
        (seen (files_seen (F.held files.new) (F.faults files.new)) (sinks_seen (O.written out.new) (O.faults out.new) (R.written report.new) (R.faults report.new)))
        result }
    ensures completes_map { CompletesMap (map string_bytes words.now)
        (seen (files_seen (F.held files.old) (F.faults files.old)) (sinks_seen (O.written out.old) (O.faults out.old) (R.written report.old) (R.faults report.old)))
        (seen (files_seen (F.held files.new) (F.faults files.new)) (sinks_seen (O.written out.new) (O.faults out.new) (R.written report.new) (R.faults report.new)))
        result }
    ensures replays { Replayable (map string_bytes words.now)
        (seen (files_seen (F.held files.old) (F.faults files.old)) (sinks_seen (O.written out.old) (O.faults out.old) (R.written report.old) (R.faults report.old)))
        (seen (files_seen (F.held files.new) (F.faults files.new)) (sinks_seen (O.written out.new) (O.faults out.new) (R.written report.new) (R.faults report.new)))
        result }
{
    match words_after_run(words) {
        Some(rest) => run_words(rt, alloc, rest, files, out, report, gate).status(),
        None => offline(alloc, words, files, out, report),
    }
}
