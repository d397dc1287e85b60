//! How a command ended.
ghost use Rattle.std.specs.Prelude.{◌≡◌};
ghost use Rattle.run_cli.specs.Lines.{exit_status};

use crate::files::FileKind;
use elf_image::ImageFault;
use tag_policy::PolicyKind;
use trap_report::ReportKind;

/// How a command ended, each with one status and, for a refusal, one line.
#[derive(Clone, Copy)]
pub enum Ending {
    /// All was done and written. The class of a run's outcome, at most 5; 0 for other commands.
    Class(u8),
    /// The words are not those of a command.
    Words,
    /// The image has this fault.
    Image(ImageFault),
    /// The text of the policy has a fault: its kind, the policy table that it is about, and the key.
    Policy {
        kind: PolicyKind,
        table: u32,
        key: u8,
    },
    /// The report is not the text of its own order; the first place at which they differ.
    Differs(u64),
    /// This line of the report is bad, or the order of its units is not complete.
    Report {
        line: u32,
        kind: ReportKind,
    },
    /// The file is longer than such a file may be.
    Long(FileKind),
    /// There was not enough memory.
    Memory,
    /// The file could not be read.
    Read(FileKind),
    /// The output or the report could not be written whole.
    Write,
}

impl Ending {
    /// The status that the program ends with.
    pub fn status(self) -> u8
        ensures { result ≡ exit_status self }
    {
        match self {
            Ending::Class(class) => class,
            Ending::Words => 64,
            Ending::Image(_) => 65,
            Ending::Policy { .. } => 66,
            Ending::Differs(_) => 67,
            Ending::Report { .. } => 68,
            Ending::Long(_) => 69,
            Ending::Memory => 71,
            Ending::Read(_) => 74,
            Ending::Write => 75,
        }
    }
}
