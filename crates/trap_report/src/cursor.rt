//! A walk along the lines of a report.
ghost use Rattle.std.specs.Prelude.{◌≡◌, ◌+◌, ◌^◌, ◌<◌, ◌≤◌, ◌∷◌, length, replicate};
ghost use Rattle.trap_report.specs.Left.{GivesLine, IsTakenAt, IsTakenTo, TellsRun, following, left};

use crate::found::{
    core_count, count_notes, count_traps, header_number, next_note, next_trap, take_entry,
};
use crate::place::LinePlace;
use crate::report_line::{HeaderLine, ReportLine, Section};
use inline_tracker::{Finished, Setup};

/// Where in the report of a finished run the next line is.
#[derive(Drop)]
pub struct Cursor {
    pub place: LinePlace,
    /// How many entries of the log of each core were told.
    pub taken: [usize; 256],
}

impl Cursor {
    /// At the first line.
    pub fn new() -> Cursor
        ensures place { result.place ≡ LinePlace.AtVersion }
        ensures taken { result.taken ≡ replicate 256 0 }
    {
        Cursor {
            place: LinePlace::AtVersion,
            taken: [0; 256],
        }
    }

    /// The next line, or `None` where the report is at its end.
    pub fn next_line(&mut self, setup: &Setup, finished: &mut Finished) -> Option<ReportLine>
        requires told { TellsRun setup.now finished.old.run }
        requires taken { IsTakenAt setup.now finished.old self.old.place self.old.taken }
        ensures line { GivesLine (left setup.now finished.old.run self.old.place)
            (left setup.now finished.old.run self.new.place) result }
        ensures taken { IsTakenAt setup.now finished.new self.new.place self.new.taken }
        ensures same { finished.new.run ≡ finished.old.run }
    {
        match self.place {
            LinePlace::AtVersion => Some(self.version_line()),
            LinePlace::AtHeader(next) => Some(self.header_line(next, setup, finished)),
            LinePlace::AtUnits => Some(self.units_line(setup, finished)),
            LinePlace::AtUnit(place) => Some(self.unit_line(place, setup, finished)),
            LinePlace::AtNote { core, note } => Some(self.note_line(core, note, setup, finished)),
            LinePlace::AtTrap(core) => Some(self.trap_line(core, setup, finished)),
            LinePlace::AtEnd(core) => Some(self.end_line(core, setup, finished)),
            LinePlace::Done => None,
        }
    }

    fn version_line(&mut self) -> ReportLine
        ensures line { result ≡ ReportLine.Version }
        ensures place { self.new.place ≡ LinePlace.AtHeader HeaderLine.Cores }
        ensures taken { self.new.taken ≡ self.old.taken }
    {
        self.place = LinePlace::AtHeader(HeaderLine::Cores);
        ReportLine::Version
    }

    fn header_line(&mut self, next: HeaderLine, setup: &Setup, finished: &Finished) -> ReportLine
        requires told { TellsRun setup.now finished.now.run }
        requires taken { IsTakenTo setup.now finished.now 0 self.old.taken }
        ensures line { left setup.now finished.now.run (LinePlace.AtHeader next)
            ≡ result ∷ left setup.now finished.now.run self.new.place }
        ensures taken { IsTakenAt setup.now finished.now self.new.place self.new.taken }
    {
        self.place = following(next);
        ReportLine::Header(next, header_number(next, setup))
    }

    fn units_line(&mut self, setup: &Setup, finished: &Finished) -> ReportLine
        requires told { TellsRun setup.now finished.now.run }
        requires taken { IsTakenTo setup.now finished.now 0 self.old.taken }
        ensures line { left setup.now finished.now.run LinePlace.AtUnits
            ≡ result ∷ left setup.now finished.now.run self.new.place }
        ensures taken { IsTakenAt setup.now finished.now self.new.place self.new.taken }
    {
        self.place = LinePlace::AtUnit(0);
        ReportLine::Count(Section::Units, u64::from(finished.units()))
    }

    fn unit_line(&mut self, place: usize, setup: &Setup, finished: &mut Finished) -> ReportLine
        requires told { TellsRun setup.now finished.old.run }
        requires taken { IsTakenTo setup.now finished.old place self.old.taken }
        ensures line { left setup.now finished.old.run (LinePlace.AtUnit place)
            ≡ result ∷ left setup.now finished.old.run self.new.place }
        ensures taken { IsTakenAt setup.now finished.new self.new.place self.new.taken }
        ensures same { finished.new.run ≡ finished.old.run }
    {
        match finished.next_core() {
            Some(core) => {
                let entry = take_entry(&mut self.taken, finished, core);
                self.place = LinePlace::AtUnit(place + 1);
                ReportLine::UnitOf(core, entry)
            }
            None => {
                self.place = LinePlace::AtNote { core: 0, note: 0 };
                ReportLine::Count(Section::Calls, count_notes(core_count(setup), finished))
            }
        }
    }

    fn note_line(&mut self, core: u8, note: usize, setup: &Setup, finished: &Finished) -> ReportLine
        requires told { TellsRun setup.now finished.now.run }
        ensures line { left setup.now finished.now.run (LinePlace.AtNote core note)
            ≡ result ∷ left setup.now finished.now.run self.new.place }
        ensures taken { IsTakenAt setup.now finished.now self.new.place self.new.taken }
    {
        let cores = core_count(setup);
        match next_note(core, note, cores, finished) {
            Some(found) => {
                self.place = LinePlace::AtNote {
                    core: found.core,
                    note: found.place + 1,
                };
                ReportLine::NoteOf(found.core, found.note)
            }
            None => {
                self.place = LinePlace::AtTrap(0);
                ReportLine::Count(Section::Traps, count_traps(cores, finished))
            }
        }
    }

    fn trap_line(&mut self, core: u8, setup: &Setup, finished: &Finished) -> ReportLine
        requires told { TellsRun setup.now finished.now.run }
        ensures line { left setup.now finished.now.run (LinePlace.AtTrap core)
            ≡ result ∷ left setup.now finished.now.run self.new.place }
        ensures taken { IsTakenAt setup.now finished.now self.new.place self.new.taken }
    {
        let cores = core_count(setup);
        match next_trap(core, cores, finished) {
            Some((owner, trap)) => {
                self.place = LinePlace::AtTrap(owner + 1);
                ReportLine::TrapOf(owner, trap)
            }
            None => {
                self.place = LinePlace::AtEnd(0);
                ReportLine::Count(Section::Ends, u64::from(cores))
            }
        }
    }

    fn end_line(&mut self, core: u8, setup: &Setup, finished: &Finished) -> ReportLine
        requires told { TellsRun setup.now finished.now.run }
        ensures line { left setup.now finished.now.run (LinePlace.AtEnd core)
            ≡ result ∷ left setup.now finished.now.run self.new.place }
        ensures taken { IsTakenAt setup.now finished.now self.new.place self.new.taken }
    {
        if core >= core_count(setup) {
            self.place = LinePlace::Done;
            return ReportLine::Last;
        }
        self.place = LinePlace::AtEnd(core + 1);
        ReportLine::EndOf(core, finished.core(core).end)
    }
}

// What the line after a line of the header tells.
fn following(next: HeaderLine) -> LinePlace
    ensures { result ≡ following next }
{
    match next {
        HeaderLine::Cores => LinePlace::AtHeader(HeaderLine::Budget),
        HeaderLine::Budget => LinePlace::AtHeader(HeaderLine::Limit),
        HeaderLine::Limit => LinePlace::AtHeader(HeaderLine::Stack),
        HeaderLine::Stack => LinePlace::AtHeader(HeaderLine::Heap),
        HeaderLine::Heap => LinePlace::AtUnits,
    }
}
