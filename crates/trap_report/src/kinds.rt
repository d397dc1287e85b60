//! What each kind of line tells.
ghost use Rattle.std.specs.Prelude.{◌≡◌, ◌+◌, ◌-◌, ◌^◌, ◌<◌, ◌≤◌, [], ◌∷◌, List, IfOk};
ghost use Rattle.trap_report.specs.Text.{Numbers};
ghost use Rattle.trap_report.specs.Forms.{forms_read};
ghost use Rattle.trap_report.specs.Reading.{LineOf, Numbered, Counted, FirstLine, LastLine, count_range, fields_of, header_range, line_read, section_forms};
ghost use Rattle.trap_report.specs.Matching.{ReadsWithin, greatest};
ghost use Rattle.trap_report.specs.declared.form.Field.{Field};
ghost use Rattle.trap_report.specs.declared.form.Field.TheVariants.{Decimal};
ghost use Rattle.trap_report.specs.declared.report_line.Section.TheVariants.{Calls, Ends, Traps, Units};

use crate::form::{Field, ReportWord};
use crate::limits::{MOST_LIMIT, REPORTED_CORES};
use crate::match_line::form_read;
use crate::report_line::{HeaderLine, Section};
use crate::saved::ReportKind;
use elf_image::limits::{MOST_HEAP, MOST_STACK};
use syscall_drain::limits::MOST_BUDGET;

// A decimal that has no other range than its type.
const ANY: Field = Field::Decimal(0, u32::MAX);

/// Whether the first line is that of this version.
pub fn first_line(line: &[u8]) -> Result<u32, ReportKind>
    ensures { (numbers : Numbers) → result ≡ line_read numbers FirstLine (fields_of line.now) }
{
    match form_read(
        line,
        &[
            Field::Exactly(ReportWord::TaintReport),
            Field::Exactly(ReportWord::One),
        ],
    ) {
        Some(_) => Ok(0),
        None => Err(ReportKind::Version),
    }
}

/// The number of a line of the header.
pub fn header_number(line: &[u8], name: HeaderLine) -> Result<u32, ReportKind>
    ensures read { (numbers : Numbers)
        → result ≡ line_read numbers (Numbered name) (fields_of line.now) }
    ensures within { IfOk result (ReadsWithin (header_range name ∷ [])) }
{
    read_or(
        line,
        &[Field::Exactly(ReportWord::NameOf(name)), header_range(name)],
        Err(ReportKind::Shape),
    )
}

fn header_range(name: HeaderLine) -> Field
    ensures range { result ≡ header_range name }
    ensures small { greatest (result ∷ []) < 2 ^ 32 }
{
    match name {
        HeaderLine::Cores => Field::Decimal(1, REPORTED_CORES),
        HeaderLine::Budget => Field::Decimal(1, MOST_BUDGET),
        HeaderLine::Limit => Field::Decimal(1, MOST_LIMIT),
        HeaderLine::Stack => Field::Decimal(1, MOST_STACK),
        HeaderLine::Heap => Field::Decimal(0, MOST_HEAP),
    }
}

/// How many lines a section has, which are at most `most`.
pub fn line_count(line: &[u8], section: Section, most: u32) -> Result<u32, ReportKind>
    ensures read { (numbers : Numbers) → count_range numbers section ≡ Decimal 0 most
        → result ≡ line_read numbers (Counted section) (fields_of line.now) }
    ensures within { IfOk result (λ count. count ≤ most) }
{
    let form = [
        Field::Exactly(ReportWord::CountOf(section)),
        Field::Decimal(0, most),
    ];
    read_or(line, &form, Err(ReportKind::Shape))
}

/// The core that a line of a section is of, where `last` is the greatest core number.
pub fn line_core(line: &[u8], section: Section, last: u32) -> Result<u32, ReportKind>
    ensures read { (numbers : Numbers) → numbers.cores - 1 ≡ last
        → result ≡ line_read numbers (LineOf section) (fields_of line.now) }
    ensures within { IfOk result (λ core. core ≤ last) }
{
    match section {
        Section::Units => unit_core(line, last),
        Section::Calls => note_core(line, last),
        Section::Traps => trap_core(line, last),
        Section::Ends => end_core(line, last),
    }
}

fn unit_core(line: &[u8], last: u32) -> Result<u32, ReportKind>
    ensures read { result ≡ forms_read (section_forms (Decimal 0 last) Units) (fields_of line.now) }
    ensures within { IfOk result (λ core. core ≤ last) }
{
    let core = Field::Decimal(0, last);
    let touched = read_or(
        line,
        &[core, ANY, ANY, Field::Hex(8)],
        Err(ReportKind::Shape),
    );
    read_or(line, &[core], touched)
}

fn note_core(line: &[u8], last: u32) -> Result<u32, ReportKind>
    ensures read { result ≡ forms_read (section_forms (Decimal 0 last) Calls) (fields_of line.now) }
    ensures within { IfOk result (λ core. core ≤ last) }
{
    let form = [
        Field::Decimal(0, last),
        ANY,
        Field::Hex(8),
        Field::Meeting,
        ANY,
        Field::Hex(32),
        Field::Hex(1),
        Field::Verdict,
    ];
    read_or(line, &form, Err(ReportKind::Shape))
}

fn trap_core(line: &[u8], last: u32) -> Result<u32, ReportKind>
    ensures read { result ≡ forms_read (section_forms (Decimal 0 last) Traps) (fields_of line.now) }
    ensures within { IfOk result (λ core. core ≤ last) }
{
    let core = Field::Decimal(0, last);
    read_or(
        line,
        &[core, ANY, Field::Hex(8), ANY, Field::Hex(1)],
        Err(ReportKind::Shape),
    )
}

fn end_core(line: &[u8], last: u32) -> Result<u32, ReportKind>
    ensures read { result ≡ forms_read (section_forms (Decimal 0 last) Ends) (fields_of line.now) }
    ensures within { IfOk result (λ core. core ≤ last) }
{
    let core = Field::Decimal(0, last);
    let spent = read_or(
        line,
        &[core, Field::Exactly(ReportWord::Spent)],
        Err(ReportKind::Shape),
    );
    let budget = read_or(line, &[core, Field::Exactly(ReportWord::Budget)], spent);
    let fault = read_or(
        line,
        &[core, Field::Exactly(ReportWord::Fault), ANY],
        budget,
    );
    let trapped = read_or(line, &[core, Field::Exactly(ReportWord::Trapped)], fault);
    read_or(
        line,
        &[
            core,
            Field::Exactly(ReportWord::Exit),
            Field::Decimal(0, 255),
        ],
        trapped,
    )
}

/// Whether a line is the last one of a report.
pub fn last_line(line: &[u8]) -> Result<u32, ReportKind>
    ensures { (numbers : Numbers) → result ≡ line_read numbers LastLine (fields_of line.now) }
{
    read_or(
        line,
        &[Field::Exactly(ReportWord::End)],
        Err(ReportKind::Shape),
    )
}

// The first number of a line of this form, or what the line tells where it has another form.
fn read_or(line: &[u8], form: &[Field], other: Result<u32, ReportKind>) -> Result<u32, ReportKind>
    requires { greatest form.now < 2 ^ 32 }
    ensures read { (forms : List (List Field)) → other ≡ forms_read forms (fields_of line.now)
        → result ≡ forms_read (form.now ∷ forms) (fields_of line.now) }
    ensures within { IfOk other (ReadsWithin form.now) → IfOk result (ReadsWithin form.now) }
{
    match form_read(line, form) {
        Some(read) => narrowed(read),
        None => other,
    }
}

fn narrowed(read: Result<u64, ReportKind>) -> Result<u32, ReportKind>
    requires { IfOk read (λ number. number < 2 ^ 32) }
    ensures { result ≡ read }
{
    match read {
        Ok(number) => Ok(number as u32),
        Err(kind) => Err(kind),
    }
}
