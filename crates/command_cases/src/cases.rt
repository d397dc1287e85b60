//! Runs of guests, and what they leave.

use crate::difference::{Difference, same};
use crate::known::{REPLAY, RUN, SAME};
use crate::surroundings::{Surroundings, strings};
use outside::{Gate, OpenGate};
use std::alloc::{AllocError, Global};
use std::sync::Wait;
use std::thread::Threads;

/// A run, and what it leaves.
#[derive(Clone, Copy)]
pub struct Case<'a> {
    pub name: &'a str,
    pub image: &'a [u8],
    /// The options after the image. A run that names an input or a policy is given these.
    pub options: &'a [&'a str],
    pub input: &'a [u8],
    pub policy: &'a [u8],
    pub status: u8,
    pub out: &'a [u8],
    /// How the report begins after its first line, and how it ends.
    pub head: &'a [u8],
    pub tail: &'a [u8],
}

/// A run of an image without further options.
pub fn plain<'a>(
    name: &'a str,
    image: &'a [u8],
    status: u8,
    out: &'a [u8],
    tail: &'a [u8],
) -> Case<'a> {
    Case {
        name,
        image,
        options: &[],
        input: b"",
        policy: b"",
        status,
        out,
        head: b"",
        tail,
    }
}

/// The words that replay a report of a case.
fn replay_words(alloc: Global, case: &Case<'_>) -> Result<Vec<String>, AllocError> {
    let mut words = strings(alloc, &REPLAY)?;
    for files in case.options.chunks_exact(2) {
        if files[0] == "--input" || files[0] == "--policy" {
            words.push(String::from_str(alloc, files[0])?)?;
            words.push(String::from_str(alloc, files[1])?)?;
        }
    }
    Ok(words)
}

/// Replays a report of a case, which is to be that of its own order.
pub fn try_replay(alloc: Global, case: &Case<'_>, report: &[u8]) -> Result<(), Difference> {
    let name = [case.name, "replayed"];
    let mut around = surroundings_of(alloc, case)?;
    around.add(alloc, "report.txt", report)?;
    let words = replay_words(alloc, case)?;
    same(alloc, &name, &[around.status_offline(alloc, &words)], &[0])?;
    same(alloc, &name, around.out.bytes(), SAME)?;
    same(alloc, &name, around.report.bytes(), b"")
}

/// The files of a case, and sinks with ample room.
fn surroundings_of(alloc: Global, case: &Case<'_>) -> Result<Surroundings, AllocError> {
    let mut around = Surroundings::ample(alloc, case.image)?;
    around.add(alloc, "input", case.input)?;
    around.add(alloc, "policy.toml", case.policy)?;
    Ok(around)
}

/// The status of a case whose actors pass this gate, and what it left.
pub fn left_by<G: Gate, X: Threads + Wait + Sync>(
    rt: &X,
    alloc: Global,
    case: &Case<'_>,
    gate: &G,
) -> Result<(u8, Surroundings), AllocError> {
    let mut around = surroundings_of(alloc, case)?;
    let mut words = strings(alloc, &RUN)?;
    for option in case.options {
        words.push(String::from_str(alloc, option)?)?;
    }
    let status = around.status_at(rt, alloc, &words, gate);
    Ok((status, around))
}

/// Compares how a report of a case begins and ends.
fn try_report(alloc: Global, case: &Case<'_>, report: &[u8]) -> Result<(), Difference> {
    let mut head = Vec::from_slice(alloc, b"taint-report 1\n")?;
    head.extend_from_slice(case.head)?;
    let begins = report.get(..head.len()).unwrap_or(report);
    same(alloc, &[case.name], begins, &head)?;
    let ends = report
        .get(report.len().saturating_sub(case.tail.len())..)
        .unwrap_or(report);
    same(alloc, &[case.name], ends, case.tail)
}

/// Runs a case whose actors pass this gate, compares what it left, and replays its report.
pub fn try_case_at<G: Gate, X: Threads + Wait + Sync>(
    rt: &X,
    alloc: Global,
    case: &Case<'_>,
    gate: &G,
) -> Result<Surroundings, Difference> {
    let name = [case.name];
    let (status, around) = left_by(rt, alloc, case, gate)?;
    same(alloc, &name, &[status], &[case.status])?;
    same(alloc, &name, around.out.bytes(), case.out)?;
    let report = around.report.bytes();
    try_report(alloc, case, report)?;
    try_replay(alloc, case, report)?;
    Ok(around)
}

/// Tries these cases one after the other.
pub fn try_cases<X: Threads + Wait + Sync>(
    rt: &X,
    alloc: Global,
    cases: &[Case<'_>],
) -> Result<(), Difference> {
    for case in cases {
        try_case(rt, alloc, case)?;
    }
    Ok(())
}

/// Runs a case, compares what it left, and replays its report.
pub fn try_case<X: Threads + Wait + Sync>(
    rt: &X,
    alloc: Global,
    case: &Case<'_>,
) -> Result<(), Difference> {
    try_case_at(rt, alloc, case, &OpenGate)?;
    Ok(())
}
