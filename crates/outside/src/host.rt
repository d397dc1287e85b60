//! Files and sinks of the host, over std. They tell no contents.
ghost use Rattle.std.specs.Prelude.{◌≡◌, ◌<◌, ◌≤◌, IfOk, IsOk, length, take};
ghost use Rattle.std.specs.Io.KnownBytes.{Appends, WriteAppends};
ghost use Rattle.outside.specs.Faults.{HasCause};
ghost use Rattle.outside.specs.Files.{ReadsHeld};
ghost use Rattle.outside.specs.Sinks.{TakesSome};

use crate::files::{FileFault, Files};
use crate::sink::{Sink, SinkFault};
use std::alloc::Global;
use std::io::{ErrorKind, Read, Write};
use std::marker::Model;
use std::{fs, rt};

/// The files of the host's file system. One count of faults serves every name.
#[derive(Drop)]
pub struct HostFiles<'a, R: rt::Files> {
    rt: &'a R,
    faults: u64,
}

impl<'a, R: rt::Files> Model for HostFiles<'a, R> {
    ghost use Rattle.std.specs.Prelude.{ℕ};

    ghost Value = { ℕ };

    ghost view = { λ files. files.faults };
}

impl<'a, R: rt::Files> HostFiles<'a, R> {
    /// The files that the runtime reaches, by their paths.
    pub fn new(rt: &'a R) -> HostFiles<'a, R>
        ensures { result ≡ 0 }
    {
        HostFiles { rt, faults: 0 }
    }

    /// The count of faults.
    pub fn faults(&self) -> u64
        ensures { result ≡ self.now }
    {
        self.faults
    }
}

impl<'a, R: rt::Files> Files for HostFiles<'a, R> {
    ghost use Rattle.std.specs.Prelude.{None};

    ghost held = { λ _ _. None };

    ghost faults = { λ files _. files };

    fn read_all(&mut self, alloc: Global, name: &str, most: usize) -> Result<Vec<u8>, FileFault> {
        let result = open_and_read(self.rt, alloc, name, most);
        if let Err(FileFault::Failed) = result {
            self.faults = self.faults.saturating_add(1);
        }
        result
    }
}

fn open_and_read<R: rt::Files>(
    rt: &R,
    alloc: Global,
    name: &str,
    most: usize,
) -> Result<Vec<u8>, FileFault>
    ensures { IfOk result (λ bytes. length bytes.items ≤ most) }
{
    let mut file = fs::open(rt, name).map_err(|_| FileFault::Failed)?;
    read_to_end(alloc, &mut file, most)
}

// All that a reader has left, if that is at most `most` bytes. A read that was interrupted is tried again.
fn read_to_end<R: Read>(alloc: Global, reader: &mut R, most: usize) -> Result<Vec<u8>, FileFault>
    ensures at_most { IfOk result (λ bytes. length bytes.items ≤ most) }
    ensures bytes { ReadsHeld (λ bytes. bytes.items) (R.remaining reader.old) most result }
{
    let mut bytes = Vec::new(alloc);
    let mut buffer = [0u8; 4096];
    for _ in 0..u64::MAX {
        match reader.read(&mut buffer) {
            Ok(0) => return Ok(bytes),
            Ok(count) => {
                if count > most - bytes.len() {
                    return Err(FileFault::TooLong);
                }
                bytes
                    .extend_from_slice(&buffer[..count])
                    .map_err(|_| FileFault::NoMemory)?;
            }
            Err(error) if error.kind() == ErrorKind::Interrupted => {}
            Err(_) => return Err(FileFault::Failed),
        }
    }
    Err(FileFault::Failed)
}

/// A writer of the host, as its standard output. Each write is flushed.
#[derive(Drop)]
pub struct HostSink<W: Write> {
    writer: W,
    faults: u64,
}

impl<W: Write> Model for HostSink<W> {
    ghost use Rattle.outside.specs.Host.{HostedWriter};

    ghost Value = { HostedWriter W };

    ghost view = { λ sink. record { writer = sink.writer; faults = sink.faults } };
}

impl<W: Write> HostSink<W> {
    /// A sink over a writer, which is flushed after each write.
    pub fn new(writer: W) -> HostSink<W>
        ensures { result ≡ record { writer = writer; faults = 0 } }
    {
        HostSink { writer, faults: 0 }
    }

    /// The count of faults.
    pub fn faults(&self) -> u64
        ensures { result ≡ self.now.faults }
    {
        self.faults
    }
}

impl<W: Write> Sink for HostSink<W> {
    ghost use Rattle.std.specs.Prelude.{None};

    ghost written = { λ _. None };

    ghost faults = { λ sink. sink.faults };

    fn write(&mut self, bytes: &[u8]) -> Result<usize, SinkFault>
        ensures taken { IfOk result (TakesSome bytes.now) }
        ensures empty { length bytes.now ≡ 0 → IsOk result }
        ensures bytes { WriteAppends None None result bytes.now }
        ensures cause { HasCause self.old.faults self.new.faults result }

        // The writer got the bytes that were taken.
        ensures passed { IfOk result (λ count. Appends (W.contents self.old.writer)
            (W.contents self.new.writer) (take count bytes.now)) }
    {
        if bytes.is_empty() {
            return Ok(0);
        }
        let result = write_and_flush(&mut self.writer, bytes);
        if result.is_err() {
            self.faults = self.faults.saturating_add(1);
        }
        result
    }
}

// A write that takes nothing is a fault, and so is a flush that fails.
fn write_and_flush<W: Write>(writer: &mut W, bytes: &[u8]) -> Result<usize, SinkFault>
    ensures taken { IfOk result (λ count. (0 < count) × (count ≤ length bytes.now)) }
    ensures appended { IfOk result (λ count.
        Appends (W.contents writer.old) (W.contents writer.new) (take count bytes.now)) }
{
    let count = writer.write(bytes).map_err(|_| SinkFault::Failed)?;
    if count == 0 {
        return Err(SinkFault::Failed);
    }
    writer.flush().map_err(|_| SinkFault::Failed)?;
    Ok(count)
}

#[cfg(test)]
mod tests;
