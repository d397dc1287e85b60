//! The counted parts of a report that is read.
ghost use Rattle.std.specs.Prelude.{◌≡◌, ◌≢◌, ℕ, Ok, ◌+◌, ◌-◌, ◌*◌, ◌^◌, ◌<◌, ◌≤◌, [], ◌∷◌, ◌++◌, All, List, IfOk, OnErr, IfErr, replicate};
ghost use Rattle.trap_report.specs.Text.{Numbers};
ghost use Rattle.trap_report.specs.Reading.{Counted, LastLine, LineKind, LineOf, Reported, count_range, section_kinds};
ghost use Rattle.trap_report.specs.Saved.{HasRanges};
ghost use Rattle.trap_report.specs.Walking.{Goes, TakesLine, numbers_in, reading};
ghost use Rattle.trap_report.specs.declared.form.Field.TheVariants.{Decimal};
ghost use Rattle.trap_report.specs.declared.report_line.Section.TheVariants.{Calls, Ends, Traps, Units};

use crate::header::Header;
use crate::kinds::{last_line, line_core, line_count};
use crate::lines::Lines;
use crate::report_line::Section;
use crate::saved::{ReportFault, ReportKind};
use order_core::Order;
use std::alloc::Global;

/// The lines of the units: the core of each.
pub fn read_units(
    alloc: Global,
    lines: &mut Lines<'_>,
    header: &Header,
) -> Result<Order, ReportFault>
    requires { HasRanges (numbers_in header.now) }
    ensures goes { (kinds : List LineKind) → Goes
        (reading lines.old.rest.now lines.old.taken
        (record { numbers = numbers_in header.now; order = [] }) (Counted Units ∷ kinds))
        (λ order. reading lines.new.rest.now lines.new.taken
        (record { numbers = numbers_in header.now; order = order.items }) kinds)
        result }
    ensures cores { IfOk result (λ order. All (λ core. core < header.now.cores) order.items) }
{
    let most = u32::from(header.cores) * header.budget;
    let count = read_count(lines, Section::Units, most)?;
    let order = empty_order(alloc, count)?;
    fill_order(lines, order, count, u32::from(header.cores) - 1)
}

fn empty_order(alloc: Global, room: u32) -> Result<Order, ReportFault>
    ensures empty { IfOk result (λ order. order ≡ record { items = []; room = room }) }
    ensures memory { IfErr result (λ fault. fault ≡ ReportFault.NoMemory) }
{
    match Order::create(alloc, room) {
        Ok(order) => Ok(order),
        Err(_) => Err(ReportFault::NoMemory),
    }
}

// Puts the core of each of the next lines at the end of an order.
fn fill_order(
    lines: &mut Lines<'_>,
    mut order: Order,
    count: u32,
    last: u32,
) -> Result<Order, ReportFault>
    requires empty { order ≡ record { items = []; room = count } }
    requires small { last < 2 ^ 8 }
    ensures goes { (numbers : Numbers) (kinds : List LineKind) → numbers.cores - 1 ≡ last → Goes
        (reading lines.old.rest.now lines.old.taken
        (record { numbers = numbers; order = [] }) (replicate count (LineOf Units) ++ kinds))
        (λ order. reading lines.new.rest.now lines.new.taken
        (record { numbers = numbers; order = order.items }) kinds)
        result }
    ensures cores { IfOk result (λ order. All (λ core. core ≤ last) order.items) }
{
    let mut left = count;
    while left > 0 {
        let core = read_core(lines, Section::Units, last)?;
        order.push(core as u8);
        left -= 1;
    }
    Ok(order)
}

/// A section of which nothing is kept, where `last` is the greatest core number.
pub fn skip_section(lines: &mut Lines<'_>, section: Section, last: u32) -> Result<(), ReportFault>
    requires { section ≢ Units }
    ensures { (told : Reported) (kinds : List LineKind) → told.numbers.cores - 1 ≡ last → Goes
        (reading lines.old.rest.now lines.old.taken told (Counted section ∷ kinds))
        (λ _. reading lines.new.rest.now lines.new.taken told kinds)
        result }
{
    let count = read_count(lines, section, u32::MAX)?;
    let mut left = count;
    while left > 0 {
        read_core(lines, section, last)?;
        left -= 1;
    }
    Ok(())
}

/// The last line, which nothing may follow.
pub fn read_last(lines: &mut Lines<'_>) -> Result<(), ReportFault>
    ensures { (told : Reported) → Goes
        (reading lines.old.rest.now lines.old.taken told (LastLine ∷ []))
        (λ _. Ok told)
        result }
{
    let line = lines.take()?;
    lines.told(last_line(line))?;
    if lines.rest.is_empty() {
        Ok(())
    } else {
        Err(ReportFault::Bad {
            line: lines.taken + 1,
            kind: ReportKind::TooLong,
        })
    }
}

fn read_count(lines: &mut Lines<'_>, section: Section, most: u32) -> Result<u32, ReportFault>
    ensures takes { (told : Reported) (kinds : List LineKind) → count_range told.numbers section ≡ Decimal 0 most
        → TakesLine (Counted section) told kinds lines.old.rest.now lines.old.taken lines.new.rest.now lines.new.taken result }
    ensures within { IfOk result (λ count. count ≤ most) }
{
    let line = lines.take()?;
    lines.told(line_count(line, section, most))
}

fn read_core(lines: &mut Lines<'_>, section: Section, last: u32) -> Result<u32, ReportFault>
    ensures takes { (told : Reported) (kinds : List LineKind) → told.numbers.cores - 1 ≡ last
        → TakesLine (LineOf section) told kinds lines.old.rest.now lines.old.taken lines.new.rest.now lines.new.taken result }
    ensures within { IfOk result (λ core. core ≤ last) }
{
    let line = lines.take()?;
    lines.told(line_core(line, section, last))
}
