//! The header of a report that is read.
ghost use Rattle.std.specs.Prelude.{◌≡◌, ◌+◌, ◌^◌, ◌<◌, ◌≤◌, [], ◌∷◌, ◌++◌, List, IfOk};
ghost use Rattle.trap_report.specs.Reading.{FirstLine, LineKind, Numbered, Reported, header_kinds, header_range};
ghost use Rattle.trap_report.specs.Matching.{ReadsWithin};
ghost use Rattle.trap_report.specs.Saved.{HasRanges};
ghost use Rattle.trap_report.specs.Walking.{Goes, TakesLine, numbers_in, reading};

use crate::kinds::{first_line, header_number};
use crate::lines::Lines;
use crate::report_line::HeaderLine;
use crate::saved::ReportFault;

/// The numbers of a report's setup.
#[derive(Clone, Copy)]
pub struct Header {
    pub cores: u8,
    pub budget: u32,
    pub limit: u32,
    pub stack: u32,
    pub heap: u32,
}

/// The first line.
pub fn read_first(lines: &mut Lines<'_>) -> Result<u32, ReportFault>
    ensures { (told : Reported) (kinds : List LineKind)
        → TakesLine FirstLine told kinds lines.old.rest.now lines.old.taken lines.new.rest.now lines.new.taken result }
{
    let line = lines.take()?;
    lines.told(first_line(line))
}

/// The lines of the header.
pub fn read_header(lines: &mut Lines<'_>) -> Result<Header, ReportFault>
    ensures goes { (told : Reported) (kinds : List LineKind)
        → Goes (reading lines.old.rest.now lines.old.taken told (header_kinds ++ kinds))
        (λ header. reading lines.new.rest.now lines.new.taken (record told { numbers = numbers_in header }) kinds)
        result }
    ensures ranges { IfOk result (λ header. HasRanges (numbers_in header)) }
{
    let cores = read_number(lines, HeaderLine::Cores)?;
    let budget = read_number(lines, HeaderLine::Budget)?;
    let limit = read_number(lines, HeaderLine::Limit)?;
    let stack = read_number(lines, HeaderLine::Stack)?;
    let heap = read_number(lines, HeaderLine::Heap)?;
    Ok(Header {
        cores: cores as u8,
        budget,
        limit,
        stack,
        heap,
    })
}

fn read_number(lines: &mut Lines<'_>, name: HeaderLine) -> Result<u32, ReportFault>
    ensures takes { (told : Reported) (kinds : List LineKind)
        → TakesLine (Numbered name) told kinds lines.old.rest.now lines.old.taken lines.new.rest.now lines.new.taken result }
    ensures within { IfOk result (ReadsWithin (header_range name ∷ [])) }
{
    let line = lines.take()?;
    lines.told(header_number(line, name))
}
