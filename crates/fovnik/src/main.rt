//! Runs a guest program, writes its output, and then a report of its run; or compares such a report with its own run; or shows the
//! memory map of a program.
#![tactic(auto)]

use outside::{HostFiles, HostSink, OpenGate};
use run_cli::command;
use std::process::ExitCode;
use std::{env, io};

/// The status where the words of the command line cannot be had from the system.
const NO_WORDS: u8 = 72;

fn command_words(rt: &HostRuntime) -> io::Result<Vec<String>> {
    let words = env::args(rt)?.skip(1).collect(rt.alloc())?;
    Ok(words)
}

fn main(rt: HostRuntime) -> ExitCode {
    let Ok(words) = command_words(&rt) else {
        return ExitCode::from(NO_WORDS);
    };
    let mut files = HostFiles::new(&rt);
    let mut out = HostSink::new(rt.stdout());
    let mut report = HostSink::new(rt.stderr());
    let alloc = rt.alloc();
    ExitCode::from(command(
        &rt,
        alloc,
        &words,
        &mut files,
        &mut out,
        &mut report,
        &OpenGate,
    ))
}
