//! Policies: what they stop, and where.

use command_cases::{Case, FINE, image_of, plain, try_cases};
use guest_images::{BYTE_JUMP, JUMP, ODD, PASS};
use std::test::Fail;

const INPUT: [&str; 2] = ["--input", "input"];

const BOTH: [&str; 4] = ["--input", "input", "--policy", "policy.toml"];

/// What reports of 15 units tell first.
const FIFTEEN: &[u8] = b"cores 1\nbudget 1048576\nlimit 4294967280\nstack 16\nheap 256\nunits 15\n";

/// What a report of six units of `JUMP` tells first.
const SIX: &[u8] = b"cores 1\nbudget 6\nlimit 4294967280\nstack 16\nheap 256\nunits 6\n\
    0\n0\n0\n0\n0\n0 0 0 00000000\ncalls 1\n";

/// How the report of `JUMP` ends.
const STOPPED: &[u8] = b"0 14 00010030 call 64 00000000000000000000000000100000 0 stop\n\
    traps 1\n0 9 00010018 1 1\nends 1\n0 trapped\nend\n";

/// A jump to its input, to its end and with two budgets.
fn jumps(jump: &[u8]) -> [Case<'_>; 3] {
    let target = b"\x20\x00\x01\x00";
    let six = b"traps 0\nends 1\n0 budget\nend\n";
    let ten = b"traps 1\n0 9 00010018 1 1\nends 1\n0 budget\nend\n";
    [
        Case {
            options: &INPUT,
            input: target,
            head: FIFTEEN,
            ..plain("jump", jump, 2, b"", STOPPED)
        },
        Case {
            options: &["--input", "input", "--budget", "6"],
            input: target,
            head: SIX,
            ..plain("jump of 6 units", jump, 4, b"", six)
        },
        Case {
            options: &["--input", "input", "--budget", "10"],
            input: target,
            ..plain("jump of 10 units", jump, 2, b"", ten)
        },
    ]
}

#[test]
fn a_jump_to_input_is_stopped(rt: HostRuntime) -> Result<(), Fail> {
    let alloc = rt.alloc();
    let jump = image_of(alloc, &JUMP)?;
    try_cases(&rt, alloc, &jumps(&jump))?;
    Ok(())
}

/// The text of `examples/policies/sink.toml`.
pub(super) const SINK: &[u8] = b"version = 1\n[[policy]]\nsource = true\ncheck_sink = true\n";

const PASS_HEAD: &[u8] =
    b"cores 1\nbudget 1048576\nlimit 4294967280\nstack 16\nheap 256\nunits 13\n";

const PASS_TAIL: &[u8] = b"0 1027 1 64636261\n0\ncalls 3\n\
    0 4 00010010 call 63 00000000000000000000000000000000 0 go\n\
    0 10 0001001c call 64 00000000000000000000000000000000 0 go\n\
    0 12 0001001c sink 64 00000000000000000000000000000000 1 stop\n\
    traps 1\n0 12 0001001c 7 1\nends 1\n0 trapped\nend\n";

const ODD_HEAD: &[u8] = b"cores 1\nbudget 1048576\nlimit 4294967280\nstack 16\nheap 256\nunits 21\n\
    0\n0\n0\n0\n0\n0\n0 0 0 00000000\n0 1027 0 00000000\n0 1028 0 00000000\n\
    0\n0\n0\n0\n0 1027 1 42410000\n0 1028 1 00454443\n";

/// Input that goes out where that is checked, and where it is not.
fn copies<'a>(pass: &'a [u8], odd: &'a [u8]) -> [Case<'a>; 2] {
    [
        Case {
            options: &BOTH,
            input: b"abcd",
            policy: SINK,
            head: PASS_HEAD,
            ..plain("pass", pass, 2, b"", PASS_TAIL)
        },
        Case {
            options: &INPUT,
            input: b"ABCDE",
            head: ODD_HEAD,
            ..plain("odd", odd, 0, b"ABCDE", FINE)
        },
    ]
}

#[test]
fn output_of_input_is_stopped_where_it_is_checked(rt: HostRuntime) -> Result<(), Fail> {
    let alloc = rt.alloc();
    let pass = image_of(alloc, &PASS)?;
    let odd = image_of(alloc, &ODD)?;
    try_cases(&rt, alloc, &copies(&pass, &odd))?;
    Ok(())
}

/// The standard policy with tags of bytes.
const BYTES: &[u8] =
    b"version = 2\n[[policy]]\nsource = true\ncheck_jump = true\ncheck_call_number = true\n";

/// A jump by the byte beside its input, with tags of words and of bytes.
fn byte_jumps(byte_jump: &[u8]) -> [Case<'_>; 2] {
    let words = "jump by the next byte";
    let bytes = "jump by the next byte, with tags of bytes";
    let stopped = b"traps 1\n0 11 00010020 1 1\nends 1\n0 trapped\nend\n";
    [
        Case {
            options: &INPUT,
            input: b"\0",
            head: FIFTEEN,
            ..plain(words, byte_jump, 2, b"", stopped)
        },
        Case {
            options: &BOTH,
            input: b"\0",
            policy: BYTES,
            head: FIFTEEN,
            ..plain(bytes, byte_jump, 0, b"", FINE)
        },
    ]
}

#[test]
fn a_byte_beside_the_input_has_its_own_tag(rt: HostRuntime) -> Result<(), Fail> {
    let alloc = rt.alloc();
    let byte_jump = image_of(alloc, &BYTE_JUMP)?;
    try_cases(&rt, alloc, &byte_jumps(&byte_jump))?;
    Ok(())
}
