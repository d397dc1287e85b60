//! The files that a command reads.
ghost use Rattle.std.specs.Prelude.{◌≡◌, OnOk, IfOk, IfErr};
ghost use Rattle.run_cli.specs.Seen.{files_seen};
ghost use Rattle.run_cli.specs.Work.{most_bytes, IsContents};
ghost use Rattle.run_cli.specs.Asked.{Asked};
ghost use Rattle.run_cli.specs.Causes.{ComesTo, Caused};

use crate::ending::Ending;
use crate::limits::{MOST_IMAGE, MOST_POLICY, MOST_REPORT};
use outside::{FileFault, Files};
use std::alloc::Global;
use syscall_drain::limits::MOST_INPUT;

/// The files that a command reads, by the option that names each.
#[derive(Clone, Copy)]
pub enum FileKind {
    Image,
    Policy,
    Input,
    Report,
}

/// The most bytes that a file of this kind may have.
fn most_bytes(kind: FileKind) -> usize
    ensures { result ≡ most_bytes kind }
{
    match kind {
        FileKind::Image => MOST_IMAGE,
        FileKind::Policy => MOST_POLICY,
        FileKind::Input => MOST_INPUT as usize,
        FileKind::Report => MOST_REPORT,
    }
}

/// The bytes of the file with this name.
pub fn read_file<F: Files>(
    alloc: Global,
    kind: FileKind,
    name: &str,
    files: &mut F,
) -> Result<Vec<u8>, Ending>
    ensures read { IfOk result (λ bytes. IsContents (files_seen (F.held files.old) (F.faults files.old)) kind name.now bytes.items) }
    ensures same { OnOk result (files_seen (F.held files.new) (F.faults files.new) ≡ files_seen (F.held files.old) (F.faults files.old)) }
    ensures refused { (asked : Asked) → ComesTo asked (files_seen (F.held files.old) (F.faults files.old)) kind name.now
        → IfErr result (Caused asked (files_seen (F.held files.old) (F.faults files.old)) (files_seen (F.held files.new) (F.faults files.new))) }
{
    match files.read_all(alloc, name, most_bytes(kind)) {
        Ok(bytes) => Ok(bytes),
        Err(FileFault::Failed) => Err(Ending::Read(kind)),
        Err(FileFault::TooLong) => Err(Ending::Long(kind)),
        Err(FileFault::NoMemory) => Err(Ending::Memory),
    }
}
