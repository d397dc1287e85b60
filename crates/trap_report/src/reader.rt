//! Reading a report.
ghost use Rattle.std.specs.Prelude.{◌≡◌, Ok, ◌-◌, ◌≤◌, [], ◌∷◌, length, IfOk};
ghost use Rattle.trap_report.specs.Reading.{Counted, LastLine, Reported, saved_of};
ghost use Rattle.trap_report.specs.Saved.{AreInRange, IsReading};
ghost use Rattle.trap_report.specs.Walking.{Goes, reading};
ghost use Rattle.trap_report.specs.declared.report_line.Section.TheVariants.{Calls, Ends, Traps};

use crate::header::{read_first, read_header};
use crate::lines::Lines;
use crate::report_line::Section;
use crate::saved::{ReportFault, Saved};
use crate::sections::{read_last, read_units, skip_section};
use std::alloc::Global;

/// Reads a report of at most 536,870,912 bytes, or tells its first bad line. That its order is
/// complete is not looked at.
pub fn read_report(alloc: Global, bytes: &[u8]) -> Result<Saved, ReportFault>
    requires { length bytes.now ≤ 536870912 }
    ensures read { IsReading (saved_of bytes.now) result }
    ensures ranges { IfOk result AreInRange }
{
    let mut lines = Lines::new(bytes);
    read_first(&mut lines)?;
    let header = read_header(&mut lines)?;
    let order = read_units(alloc, &mut lines, &header)?;
    read_rest(&mut lines, u32::from(header.cores) - 1)?;
    Ok(Saved {
        cores: header.cores,
        budget: header.budget,
        limit: header.limit,
        stack: header.stack,
        heap: header.heap,
        order,
    })
}

// The sections of which nothing is kept, and the last line.
fn read_rest(lines: &mut Lines<'_>, last: u32) -> Result<(), ReportFault>
    ensures { (told : Reported) → told.numbers.cores - 1 ≡ last → Goes
        (reading lines.old.rest.now lines.old.taken told
        (Counted Calls ∷ Counted Traps ∷ Counted Ends ∷ LastLine ∷ []))
        (λ _. Ok told)
        result }
{
    skip_section(lines, Section::Calls, last)?;
    skip_section(lines, Section::Traps, last)?;
    skip_section(lines, Section::Ends, last)?;
    read_last(lines)
}
