//! The text of one line, written into a block.
ghost use Rattle.std.specs.Prelude.{◌≡◌, ◌+◌, ◌^◌, ◌<◌, ◌≤◌, [], ◌∷◌, ◌++◌, decimal, length};
ghost use Rattle.trap_report.specs.Fields.{line_text, rest_of_line, spelled};
ghost use Rattle.trap_report.specs.Names.{header_name, section_name, kind_name, verdict_name};
ghost use Rattle.trap_report.specs.Digits.{hex};
ghost use Rattle.trap_report.specs.declared.report_line.ReportLine.TheVariants.{EndOf, NoteOf, TrapOf, UnitOf};

use crate::block::{Block, ROOM};
use crate::report_line::{HeaderLine, ReportLine, Section};
use order_core::Entry;
use record_lane::{CallNote, MeetKind, Trap};
use syscall_drain::End;

/// A block with at most so many bytes has room for one more line. The longest line, a note, has 80.
pub const ROOM_BEFORE_LINE: usize = ROOM - 96;

/// Puts a line at the end of a block.
pub fn push_line(block: &mut Block, line: &ReportLine)
    requires { length block.old ≤ ROOM_BEFORE_LINE }
    ensures { block.new ≡ block.old ++ line_text line.now }
{
    match *line {
        ReportLine::Version => push_word(block, b"taint-report 1"),
        ReportLine::Header(name, number) => push_named(block, header_name(name), u64::from(number)),
        ReportLine::Count(section, number) => push_named(block, section_name(section), number),
        ReportLine::UnitOf(core, entry) => push_unit(block, core, entry),
        ReportLine::NoteOf(core, note) => push_note(block, core, &note),
        ReportLine::TrapOf(core, trap) => push_trap(block, core, trap),
        ReportLine::EndOf(core, end) => push_end(block, core, end),
        ReportLine::Last => push_word(block, b"end"),
    }
}

fn push_word(block: &mut Block, word: &[u8])
    requires room { length block.old ≤ ROOM_BEFORE_LINE }
    requires short { length word.now ≤ 20 }
    ensures { block.new ≡ block.old ++ (word.now ++ 10 ∷ []) }
{
    block.push_text(word);
    block.end_line();
}

fn push_named(block: &mut Block, name: &[u8], number: u64)
    requires room { length block.old ≤ ROOM_BEFORE_LINE }
    requires short { length name.now ≤ 20 }
    ensures { block.new ≡ block.old ++ spelled (name.now ∷ decimal number ∷ []) }
{
    block.push_text(name);
    block.number_field(number);
    block.end_line();
}

fn push_unit(block: &mut Block, core: u8, entry: Entry)
    requires { length block.old ≤ ROOM_BEFORE_LINE }
    ensures { block.new ≡ block.old ++ line_text (UnitOf core entry) }
{
    block.push_number(core);
    if let Some(access) = entry.touch {
        block.number_field(access.word);
        block.number_field(access.number);
        block.hex_field(u128::from(access.found), 8);
    }
    block.end_line();
}

fn push_note(block: &mut Block, core: u8, note: &CallNote)
    requires { length block.old ≤ ROOM_BEFORE_LINE }
    ensures { block.new ≡ block.old ++ line_text (NoteOf core note.now) }
{
    block.push_number(core);
    block.number_field(note.step);
    block.hex_field(u128::from(note.pc), 8);
    block.text_field(kind_name(note.kind));
    push_reply(block, note);
}

// The fields of a note from the number of its call on.
fn push_reply(block: &mut Block, note: &CallNote)
    requires { length block.old ≤ ROOM_BEFORE_LINE + 32 }
    ensures { block.new ≡ block.old ++ rest_of_line (decimal note.now.call ∷ hex 32 note.now.tags
        ∷ hex 1 note.now.buffer ∷ verdict_name note.now.stop ∷ []) }
{
    block.number_field(note.call);
    block.hex_field(note.tags, 32);
    block.hex_field(u128::from(note.buffer), 1);
    block.text_field(verdict_name(note.stop));
    block.end_line();
}

fn push_trap(block: &mut Block, core: u8, trap: Trap)
    requires { length block.old ≤ ROOM_BEFORE_LINE }
    ensures { block.new ≡ block.old ++ line_text (TrapOf core trap) }
{
    block.push_number(core);
    block.number_field(trap.step);
    block.hex_field(u128::from(trap.pc), 8);
    block.number_field(trap.kind);
    block.hex_field(u128::from(trap.bits), 1);
    block.end_line();
}

fn push_end(block: &mut Block, core: u8, end: End)
    requires { length block.old ≤ ROOM_BEFORE_LINE }
    ensures { block.new ≡ block.old ++ line_text (EndOf core end) }
{
    block.push_number(core);
    match end {
        End::Exit(code) => {
            block.text_field(b"exit");
            block.number_field(code);
        }
        End::Trapped => block.text_field(b"trapped"),
        End::Fault(fault) => {
            block.text_field(b"fault");
            block.number_field(fault.number());
        }
        End::Budget => block.text_field(b"budget"),
        End::Spent => block.text_field(b"spent"),
    }
    block.end_line();
}

pub fn header_name(name: HeaderLine) -> &'static [u8]
    ensures name { result.now ≡ header_name name }
    ensures short { length result.now ≤ 6 }
{
    match name {
        HeaderLine::Cores => b"cores",
        HeaderLine::Budget => b"budget",
        HeaderLine::Limit => b"limit",
        HeaderLine::Stack => b"stack",
        HeaderLine::Heap => b"heap",
    }
}

pub fn section_name(section: Section) -> &'static [u8]
    ensures name { result.now ≡ section_name section }
    ensures short { length result.now ≤ 5 }
{
    match section {
        Section::Units => b"units",
        Section::Calls => b"calls",
        Section::Traps => b"traps",
        Section::Ends => b"ends",
    }
}

fn kind_name(kind: MeetKind) -> &'static [u8]
    ensures name { result.now ≡ kind_name kind }
    ensures short { length result.now ≤ 4 }
{
    match kind {
        MeetKind::Call => b"call",
        MeetKind::Verdict => b"sink",
    }
}

fn verdict_name(stop: bool) -> &'static [u8]
    ensures name { result.now ≡ verdict_name stop }
    ensures short { length result.now ≤ 4 }
{
    if stop { b"stop" } else { b"go" }
}
