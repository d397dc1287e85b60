//! The line of a refusal, and writing it.
ghost use Rattle.std.specs.Prelude.{◌≡◌, ◌+◌, ◌≤◌, ◌∷◌, ◌++◌, [], codes, decimal, length};
ghost use Rattle.arrayvec.specs.ArrayString.{array_string_len};
ghost use Rattle.outside.specs.Sinks.{Told};
ghost use Rattle.trap_report.specs.Fields.{rest_of_line};
ghost use Rattle.run_cli.specs.Seen.{sink_seen};
ghost use Rattle.run_cli.specs.Lines.{file_name, cause_fields, line_of};

use crate::ending::Ending;
use crate::files::FileKind;
use arrayvec::ArrayString;
use itoa::{Buffer, Integer};
use outside::{Sink, write_whole};

/// The most bytes of a line. The longest, of a fault of a policy, has 43.
pub const ROOM: usize = 64;

/// The name of a file of this kind.
fn file_name(kind: FileKind) -> &'static str
    ensures name { result.now ≡ file_name kind }
    ensures short { length result.now ≤ 6 }
{
    match kind {
        FileKind::Image => "image",
        FileKind::Policy => "policy",
        FileKind::Input => "input",
        FileKind::Report => "report",
    }
}

/// Puts a further field at the end of a line.
fn push_field(line: &mut ArrayString<ROOM>, field: &str)
    requires { array_string_len line.old + length field.now + 1 ≤ ROOM }
    ensures bytes { line.new.bytes ≡ line.old.bytes ++ 32 ∷ field.now }
    ensures len { array_string_len line.new ≡ array_string_len line.old + length field.now + 1 }
{
    line.push_str(" ");
    line.push_str(field);
}

/// Puts a further field with a number at the end of a line.
fn push_number<I: Integer>(line: &mut ArrayString<ROOM>, number: I)
    requires { array_string_len line.old + I.MAX_STR_LEN + 1 ≤ ROOM }
    ensures bytes { line.new.bytes ≡ line.old.bytes ++ 32 ∷ I.text number }
    ensures len { array_string_len line.new ≤ array_string_len line.old + I.MAX_STR_LEN + 1 }
{
    let mut buffer = Buffer::new();
    push_field(line, buffer.format(number));
}

/// Puts what a refusal tells after its status at the end of a line.
fn push_cause(line: &mut ArrayString<ROOM>, ending: Ending)
    requires { array_string_len line.old ≤ 11 }
    ensures bytes { line.new.bytes ++ 10 ∷ [] ≡ line.old.bytes ++ rest_of_line (cause_fields ending) }
    ensures len { array_string_len line.new ≤ 63 }
{
    match ending {
        Ending::Class(_) | Ending::Write => {}
        Ending::Words => push_field(line, "words"),
        Ending::Image(fault) => {
            push_field(line, "image");
            push_number(line, fault.number());
            push_field(line, fault.name());
        }
        Ending::Policy { kind, table, key } => {
            push_field(line, "policy");
            push_number(line, kind.number());
            push_field(line, kind.name());
            push_number(line, table);
            push_number(line, key);
        }
        Ending::Differs(place) => {
            push_field(line, "differs");
            push_number(line, place);
        }
        Ending::Report { line: bad, kind } => {
            push_field(line, "report");
            push_number(line, bad);
            push_number(line, kind.number());
            push_field(line, kind.name());
        }
        Ending::Long(kind) => {
            push_field(line, "long");
            push_field(line, file_name(kind));
        }
        Ending::Memory => push_field(line, "memory"),
        Ending::Read(kind) => {
            push_field(line, "read");
            push_field(line, file_name(kind));
        }
    }
}

/// The line of a refusal.
pub fn refusal_line(ending: Ending) -> ArrayString<ROOM>
    ensures { result.bytes ≡ line_of ending }
{
    let mut line = ArrayString::new();
    line.push_str("refused");
    push_number(&mut line, ending.status());
    push_cause(&mut line, ending);
    line.push_str("\n");
    line
}

/// Writes the line of a refusal, which stays the ending whether it is written whole or not.
pub fn refused<R: Sink>(ending: Ending, report: &mut R) -> Ending
    ensures same { result ≡ ending }
    ensures told { Told (line_of ending) (sink_seen (R.written report.old) (R.faults report.old)) (sink_seen (R.written report.new) (R.faults report.new)) }
{
    let line = refusal_line(ending);
    let _ = write_whole(report, line.as_str().as_bytes());
    ending
}
