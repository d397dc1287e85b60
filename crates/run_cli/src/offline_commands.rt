//! What the program does without running anything new: comparing a report with its own run, and showing a memory map.
ghost use Rattle.std.specs.Prelude.{◌≡◌, ℕ, List, map, string_bytes};
ghost use Rattle.outside.specs.Sinks.{SinkSeen};
ghost use Rattle.run_cli.specs.declared.ending.Ending.{Ending as EndingSeen};
ghost use Rattle.run_cli.specs.Seen.{files_seen, sink_seen, sinks_seen, seen};
ghost use Rattle.run_cli.specs.Asked.{Asked, image_in, replay_in};
ghost use Rattle.run_cli.specs.Words.{ReadsOffline};
ghost use Rattle.run_cli.specs.Lines.{exit_status};
ghost use Rattle.run_cli.specs.Endings.{text_answer, Ended};
ghost use Rattle.run_cli.specs.Completeness.{CompletesReplay, CompletesMap};
ghost use Rattle.run_cli.specs.Forms.{Delivered, Came};

use crate::ending::Ending;
use crate::map_text::map_text;
use crate::options::{ImageOptions, OfflineCommand, ReplayOptions};
use crate::refusal::refused;
use crate::replay::replay_report;
use crate::setup::read_image;
use crate::words::read_offline;
use outside::{Files, Sink, write_whole};
use std::alloc::Global;

/// Writes a text to the output.
fn deliver_text<O: Sink>(text: &[u8], out: &mut O) -> Ending
    ensures { (report : SinkSeen) → Delivered (text_answer text.now) (record { out = sink_seen (O.written out.old) (O.faults out.old); report = report })
        (record { out = sink_seen (O.written out.new) (O.faults out.new); report = report }) result }
{
    match write_whole(out, text) {
        Ok(()) => Ending::Class(0),
        Err(_) => Ending::Write,
    }
}

/// Compares a report with the run along its own order, up to its ending.
fn replay<F: Files, O: Sink, R: Sink>(
    alloc: Global,
    options: &ReplayOptions<'_>,
    files: &mut F,
    out: &mut O,
    report: &mut R,
) -> Ending
    ensures { Came (Asked.Replay (replay_in options.now))
        (seen (files_seen (F.held files.old) (F.faults files.old)) (sinks_seen (O.written out.old) (O.faults out.old) (R.written report.old) (R.faults report.old)))
        (seen (files_seen (F.held files.new) (F.faults files.new)) (sinks_seen (O.written out.new) (O.faults out.new) (R.written report.new) (R.faults report.new)))
        result }
{
    match replay_report(alloc, options, files) {
        Ok(()) => deliver_text(b"same\n", out),
        Err(ending) => refused(ending, report),
    }
}

/// Shows the map of the image that the options name, up to its ending.
fn inspect<F: Files, O: Sink, R: Sink>(
    alloc: Global,
    options: &ImageOptions<'_>,
    files: &mut F,
    out: &mut O,
    report: &mut R,
) -> Ending
    ensures { Came (Asked.Inspect (image_in options.now))
        (seen (files_seen (F.held files.old) (F.faults files.old)) (sinks_seen (O.written out.old) (O.faults out.old) (R.written report.old) (R.faults report.old)))
        (seen (files_seen (F.held files.new) (F.faults files.new)) (sinks_seen (O.written out.new) (O.faults out.new) (R.written report.new) (R.faults report.new)))
        result }
{
    match read_image(alloc, options, files) {
        Ok(image) => deliver_text(map_text(&image).as_bytes(), out),
        Err(ending) => refused(ending, report),
    }
}

/// Does what the words say, up to its ending.
fn conclude<F: Files, O: Sink, R: Sink>(
    alloc: Global,
    words: &[String],
    files: &mut F,
    out: &mut O,
    report: &mut R,
) -> Ending
    ensures { Ended ReadsOffline (map string_bytes words.now)
        (seen (files_seen (F.held files.old) (F.faults files.old)) (sinks_seen (O.written out.old) (O.faults out.old) (R.written report.old) (R.faults report.old)))
        (seen (files_seen (F.held files.new) (F.faults files.new)) (sinks_seen (O.written out.new) (O.faults out.new) (R.written report.new) (R.faults report.new)))
        result }
{
    match read_offline(alloc, words) {
        Ok(OfflineCommand::Replay(options)) => replay(alloc, &options, files, out, report),
        Ok(OfflineCommand::Inspect(options)) => inspect(alloc, &options, files, out, report),
        Err(ending) => refused(ending, report),
    }
}

/// On `replay`: compares a report with that of the run along its own order, and writes `same` and a line feed to `out` where
/// they are equal. On `inspect`: writes the memory map of the image to `out`. Either then answers 0. A refusal writes its one
/// line to `report` and nothing to `out`.
///
/// The other statuses: 64 other words, `run` too; 65 a fault of the image; 66 a fault of the policy's text; 67 the report differs;
/// 68 a bad line of the report, or an order that is not complete; 69 a file that is too long; 71 want of memory; 74 a file that
/// could not be read; 75 `out` could not be written whole.
pub fn offline<F: Files, O: Sink, R: Sink>(
    alloc: Global,
    words: &[String],
    files: &mut F,
    out: &mut O,
    report: &mut R,
) -> u8
    ensures ended { (ending : EndingSeen) × (result ≡ exit_status ending) × Ended ReadsOffline (map string_bytes words.now)
        (seen (files_seen (F.held files.old) (F.faults files.old)) (sinks_seen (O.written out.old) (O.faults out.old) (R.written report.old) (R.faults report.old)))
        (seen (files_seen (F.held files.new) (F.faults files.new)) (sinks_seen (O.written out.new) (O.faults out.new) (R.written report.new) (R.faults report.new)))
        ending }
    ensures completes_replay { CompletesReplay (map string_bytes words.now)
        (seen (files_seen (F.held files.old) (F.faults files.old)) (sinks_seen (O.written out.old) (O.faults out.old) (R.written report.old) (R.faults report.old)))
        (seen (files_seen (F.held files.new) (F.faults files.new)) (sinks_seen (O.written out.new) (O.faults out.new) (R.written report.new) (R.faults report.new)))
        result }
    ensures completes_map { CompletesMap (map string_bytes words.now)
        (seen (files_seen (F.held files.old) (F.faults files.old)) (sinks_seen (O.written out.old) (O.faults out.old) (R.written report.old) (R.faults report.old)))
        (seen (files_seen (F.held files.new) (F.faults files.new)) (sinks_seen (O.written out.new) (O.faults out.new) (R.written report.new) (R.faults report.new)))
        result }
{
    conclude(alloc, words, files, out, report).status()
}
