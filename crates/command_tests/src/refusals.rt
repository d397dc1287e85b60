//! Words, images and policies that are refused.

use command_cases::{Difference, Surroundings, echo, image_of, refused};
use guest_images::HI;
use std::alloc::{AllocError, Global};
use std::sync::Wait;
use std::test::Fail;
use std::thread::Threads;

fn zeros(alloc: Global, count: usize) -> Result<Vec<u8>, AllocError> {
    let mut bytes = Vec::new(alloc);
    bytes.resize(count, 0)?;
    Ok(bytes)
}

/// The files of a run that is refused, its status and the line that it writes.
#[derive(Clone, Copy)]
struct OtherFiles<'a> {
    image: &'a [u8],
    policy: &'a [u8],
    input: &'a [u8],
    status: u8,
    line: &'a [u8],
}

/// A run that is refused for its image.
fn other_image<'a>(image: &'a [u8], status: u8, line: &'a [u8]) -> OtherFiles<'a> {
    OtherFiles {
        image,
        policy: b"",
        input: b"",
        status,
        line,
    }
}

/// A run that is refused for its policy or its input.
fn other_policy<'a>(
    image: &'a [u8],
    policy: &'a [u8],
    input: &'a [u8],
    status: u8,
    line: &'a [u8],
) -> OtherFiles<'a> {
    OtherFiles {
        image,
        policy,
        input,
        status,
        line,
    }
}

/// The words of these runs.
const WORDS: [&str; 7] = [
    "run",
    "--image",
    "guest.elf",
    "--input",
    "input",
    "--policy",
    "policy.toml",
];

fn try_files<X: Threads + Wait + Sync>(
    rt: &X,
    alloc: Global,
    files: &OtherFiles<'_>,
) -> Result<(), Difference> {
    let mut around = Surroundings::ample(alloc, files.image)?;
    around.add(alloc, "policy.toml", files.policy)?;
    around.add(alloc, "input", files.input)?;
    around.try_command(rt, alloc, &WORDS, &refused(files.status, files.line))
}

/// Images that are refused: an empty one, zeros, one with other flags, and a long one.
fn other_images<'a>(flags: &'a [u8], long: &'a [u8]) -> [OtherFiles<'a>; 4] {
    [
        other_image(b"", 65, b"refused 65 image 1 Short\n"),
        other_image(&[0; 52], 65, b"refused 65 image 2 Magic\n"),
        other_image(flags, 65, b"refused 65 image 8 Flags\n"),
        other_image(long, 69, b"refused 69 long image\n"),
    ]
}

/// One policy more than there may be.
const FIVE: &[u8] =
    b"version = 1\n[[policy]]\nsource = true\n[[policy]]\nsource = true\n[[policy]]\nsource = true\n\
    [[policy]]\nsource = true\n[[policy]]\nsource = true\n";

/// A policy with a value that its key cannot have.
const XOR: &[u8] = b"version = 1\n[[policy]]\nsource = true\narith = \"xor\"\n";

const NONE: &[u8] = b"version = 2\npolicy = []\n";

/// Policies that are refused, and after one that is not a long input.
fn other_policies<'a>(
    hi: &'a [u8],
    long_policy: &'a [u8],
    long_input: &'a [u8],
) -> [OtherFiles<'a>; 5] {
    [
        other_policy(hi, b"", b"", 66, b"refused 66 policy 3 MissingKey 0 1\n"),
        other_policy(
            hi,
            FIVE,
            long_input,
            66,
            b"refused 66 policy 5 TooMany 0 2\n",
        ),
        other_policy(hi, XOR, b"", 66, b"refused 66 policy 6 BadValue 1 2\n"),
        other_policy(hi, long_policy, b"", 69, b"refused 69 long policy\n"),
        other_policy(hi, NONE, long_input, 69, b"refused 69 long input\n"),
    ]
}

#[test]
fn other_images_are_refused(rt: HostRuntime) -> Result<(), Fail> {
    let alloc = rt.alloc();
    let flags = echo(alloc, 1)?;
    let long = zeros(alloc, 33_554_433)?;
    for files in other_images(&flags, &long) {
        try_files(&rt, alloc, &files)?;
    }
    Ok(())
}

#[test]
fn other_policies_and_inputs_are_refused(rt: HostRuntime) -> Result<(), Fail> {
    let alloc = rt.alloc();
    let hi = image_of(alloc, &HI)?;
    let long_policy = zeros(alloc, 65_537)?;
    let long_input = zeros(alloc, 16_777_217)?;
    for files in other_policies(&hi, &long_policy, &long_input) {
        try_files(&rt, alloc, &files)?;
    }
    Ok(())
}

/// Words that are no command.
fn other_words() -> [&'static [&'static str]; 23] {
    [
        &[],
        &["--help"],
        &["run"],
        &["run", "--image"],
        &["run", "--image", ""],
        &["run", "--image", "-guest.elf"],
        &["run", "--image", "guest.elf", "--"],
        &["run", "--image", "guest.elf", "guest.elf"],
        &["run", "--image", "guest.elf", "--cores", "9"],
        &["run", "--image", "guest.elf", "--cores", "01"],
        &["run", "--image", "guest.elf", "--cores", "0"],
        &["run", "--image", "guest.elf", "--budget", "1048577"],
        &["run", "--image", "guest.elf", "--limit=4294967281"],
        &["run", "--image", "guest.elf", "--heap=4097"],
        &["run", "--image", "guest.elf", "--lane=+1"],
        &["run", "--image", "guest.elf", "--image", "other.elf"],
        &["run", "--image", "guest.elf", "--other", "1"],
        &["Run", "--image", "guest.elf"],
        &["--image", "guest.elf", "run"],
        &["replay", "--image", "guest.elf"],
        &["replay", "--report", "guest.elf"],
        &[
            "replay",
            "--image=guest.elf",
            "--report=guest.elf",
            "--cores=1",
        ],
        &["gen", "--kind=1", "--number=0"],
    ]
}

#[test]
fn other_words_are_refused(rt: HostRuntime) -> Result<(), Fail> {
    let alloc = rt.alloc();
    let bytes = image_of(alloc, &HI)?;
    for words in other_words() {
        let mut around = Surroundings::ample(alloc, &bytes)?;
        around.add(alloc, "-guest.elf", &bytes)?;
        around.add(alloc, "", &bytes)?;
        around.try_command(&rt, alloc, words, &refused(64, b"refused 64 words\n"))?;
        assert!(rt; around.files.calls() == 0);
    }
    Ok(())
}
