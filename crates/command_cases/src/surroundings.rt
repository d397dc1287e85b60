//! What a command is given, and what it leaves.

use crate::difference::{Difference, same};
use outside::{Gate, MemFiles, MemSink, OpenGate};
use run_cli::{command, offline};
use std::alloc::{AllocError, Global};
use std::sync::Wait;
use std::thread::Threads;

/// These words, as a command takes them.
pub fn strings(alloc: Global, words: &[&str]) -> Result<Vec<String>, AllocError> {
    let mut strings = Vec::new(alloc);
    for word in words {
        strings.push(String::from_str(alloc, word)?)?;
    }
    Ok(strings)
}

/// What a command leaves: its status, what goes out, and its report.
#[derive(Clone, Copy)]
pub struct Outcome<'a> {
    pub status: u8,
    pub out: &'a [u8],
    pub report: &'a [u8],
}

/// A command that is answered with this output and this report.
pub fn answered<'a>(out: &'a [u8], report: &'a [u8]) -> Outcome<'a> {
    Outcome {
        status: 0,
        out,
        report,
    }
}

/// A command that is refused with this line.
pub fn refused(status: u8, line: &[u8]) -> Outcome<'_> {
    Outcome {
        status,
        out: b"",
        report: line,
    }
}

/// A command on an image, and what it leaves.
#[derive(Clone, Copy)]
pub struct Answer<'a> {
    pub words: &'a [&'a str],
    pub image: &'a [u8],
    pub want: Outcome<'a>,
}

/// The files and the two sinks of a command.
#[derive(Drop)]
pub struct Surroundings {
    pub files: MemFiles,
    pub out: MemSink,
    pub report: MemSink,
}

impl Surroundings {
    /// The image is the file `guest.elf`. The sinks have ample room, and no call fails.
    pub fn ample(alloc: Global, image: &[u8]) -> Result<Surroundings, AllocError> {
        let mut files = MemFiles::new(alloc, &[])?;
        files.add(alloc, "guest.elf", image)?;
        Ok(Surroundings {
            files,
            out: MemSink::new(alloc, 8192, &[])?,
            report: MemSink::new(alloc, 1_048_576, &[])?,
        })
    }

    /// One file more.
    pub fn add(&mut self, alloc: Global, name: &str, bytes: &[u8]) -> Result<(), AllocError> {
        self.files.add(alloc, name, bytes)
    }

    /// The status of a command whose actors pass this gate.
    pub fn status_at<G: Gate, X: Threads + Wait + Sync>(
        &mut self,
        rt: &X,
        alloc: Global,
        words: &[String],
        gate: &G,
    ) -> u8 {
        command(
            rt,
            alloc,
            words,
            &mut self.files,
            &mut self.out,
            &mut self.report,
            gate,
        )
    }

    /// The status of a command that runs nothing.
    pub fn status_offline(&mut self, alloc: Global, words: &[String]) -> u8 {
        offline(
            alloc,
            words,
            &mut self.files,
            &mut self.out,
            &mut self.report,
        )
    }

    /// Gives a command of these words, and compares what it leaves. Where nothing is to go out, nothing is written.
    pub fn try_command<X: Threads + Wait + Sync>(
        &mut self,
        rt: &X,
        alloc: Global,
        words: &[&str],
        want: &Outcome<'_>,
    ) -> Result<(), Difference> {
        let status = self.command(rt, alloc, words)?;
        same(alloc, words, &[status], &[want.status])?;
        same(alloc, words, self.out.bytes(), want.out)?;
        same(alloc, words, self.report.bytes(), want.report)?;
        if want.out.is_empty() && self.out.calls() != 0 {
            return Err(Difference::Written);
        }
        Ok(())
    }

    /// The status of a command of these words.
    pub fn command<X: Threads + Wait + Sync>(
        &mut self,
        rt: &X,
        alloc: Global,
        words: &[&str],
    ) -> Result<u8, AllocError> {
        let words = strings(alloc, words)?;
        Ok(self.status_at(rt, alloc, &words, &OpenGate))
    }
}
