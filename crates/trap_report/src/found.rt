//! What a finished run and its setup have for the lines of a report.
ghost use Rattle.std.specs.Prelude.{◌≡◌, ℕ, ◌+◌, ◌^◌, ◌<◌, ◌≤◌, [], ◌∷◌, if◌then◌else◌, is_some, count_by, drop, length, slice_get, slice_index, slice_set, sum_by, MatchOption};
ghost use Rattle.order_core.specs.Logs.{log_of};
ghost use Rattle.trap_report.specs.Text.{by_core, numbers_of, trap_lines};
ghost use Rattle.trap_report.specs.Left.{header_number, notes_from};
ghost use Rattle.trap_report.specs.declared.report_line.ReportLine.TheVariants.{NoteOf, TrapOf};

use crate::report_line::HeaderLine;
use inline_tracker::{CoreOutcome, Finished, Setup};
use order_core::Entry;
use record_lane::{CallNote, Trap};

pub fn core_count(setup: &Setup) -> u8
    ensures { result ≡ setup.now.program.layout.cores }
{
    setup.guest().image().cores()
}

/// The number that a line of the header tells.
pub fn header_number(name: HeaderLine, setup: &Setup) -> u32
    ensures { result ≡ header_number (numbers_of setup.now) name }
{
    let image = setup.guest().image();
    match name {
        HeaderLine::Cores => u32::from(image.cores()),
        HeaderLine::Budget => setup.budget(),
        HeaderLine::Limit => setup.limit(),
        HeaderLine::Stack => u32::from(image.stack()),
        HeaderLine::Heap => u32::from(image.heap()),
    }
}

/// The next entry of a core's log, which is then told.
pub fn take_entry(taken: &mut [usize; 256], finished: &Finished, core: u8) -> Entry
    requires size { length taken.old ≡ 256 }
    requires known { core < length finished.now.run.logs }
    requires more { slice_index taken.old core < length (log_of finished.now.run.logs core) }
    ensures within { core < length taken.old }
    ensures entry { drop (slice_index taken.old core) (log_of finished.now.run.logs core)
        ≡ result ∷ drop (slice_index taken.old core + 1) (log_of finished.now.run.logs core) }
    ensures taken { taken.new ≡ slice_set taken.old core (slice_index taken.old core + 1) }
{
    let entries = entries_of(finished, core);
    let at = taken[core as usize];
    taken[core as usize] = at + 1;
    entries[at]
}

fn entries_of(finished: &Finished, core: u8) -> &[Entry]
    requires { core < length finished.now.run.logs }
    ensures entries { result.now ≡ log_of finished.now.run.logs core }
    ensures small { length result.now < 2 ^ 32 }
{
    finished.log(core).as_slice()
}

/// A note, the core that it is of, and its place among the notes of that core.
#[derive(Clone, Copy)]
pub struct FoundNote {
    pub core: u8,
    pub place: usize,
    pub note: CallNote,
}

/// The first note from a place of a core's notes on, over the cores from that one on.
pub fn next_note(core: u8, note: usize, cores: u8, finished: &Finished) -> Option<FoundNote>
    requires { length finished.now.run.cores ≡ cores }
    ensures { MatchOption result
        (notes_from note core (drop core finished.now.run.cores) ≡ [])
        (λ found. (found.place < 2 ^ 32) × (notes_from note core (drop core finished.now.run.cores)
        ≡ NoteOf found.core found.note
        ∷ notes_from (found.place + 1) found.core (drop found.core finished.now.run.cores))) }
{
    let mut place = note;
    for number in core..cores {
        if let Some(note) = note_at(finished.core(number), place) {
            return Some(FoundNote {
                core: number,
                place,
                note,
            });
        }
        place = 0;
    }
    None
}

// The note at a place of a core's notes.
fn note_at(core: &CoreOutcome, place: usize) -> Option<CallNote>
    ensures value { result ≡ slice_get core.now.notes.items place }
    ensures small { length core.now.notes.items < 2 ^ 32 }
{
    core.notes.as_slice().get(place).copied()
}

/// The first trap of the cores from one on, and its core.
pub fn next_trap(core: u8, cores: u8, finished: &Finished) -> Option<(u8, Trap)>
    requires { length finished.now.run.cores ≡ cores }
    ensures { MatchOption result
        (by_core trap_lines core (drop core finished.now.run.cores) ≡ [])
        (λ found. (found.0 < cores) × (by_core trap_lines core (drop core finished.now.run.cores)
        ≡ TrapOf found.0 found.1 ∷ by_core trap_lines (found.0 + 1) (drop (found.0 + 1) finished.now.run.cores))) }
{
    for number in core..cores {
        if let Some(trap) = finished.core(number).trap {
            return Some((number, trap));
        }
    }
    None
}

/// How many notes the cores have together.
pub fn count_notes(cores: u8, finished: &Finished) -> u64
    requires { length finished.now.run.cores ≡ cores }
    ensures { result ≡ sum_by (λ core. length core.notes) finished.now.run.cores }
{
    let mut count = 0;
    for number in 0..cores {
        count += finished.core(number).notes.len() as u64;
    }
    count
}

/// How many cores have a trap.
pub fn count_traps(cores: u8, finished: &Finished) -> u64
    requires { length finished.now.run.cores ≡ cores }
    ensures { result ≡ count_by (λ core. is_some core.trap) finished.now.run.cores }
{
    let mut count = 0;
    for number in 0..cores {
        count += traps_of(finished.core(number));
    }
    count
}

// 1 where the core has a trap, else 0.
fn traps_of(core: &CoreOutcome) -> u64
    ensures count { result ≡ (if is_some core.now.trap then 1 else 0) }
    ensures small { result ≤ 1 }
{
    u64::from(core.trap.is_some())
}
