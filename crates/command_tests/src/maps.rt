//! Memory maps of images.

use command_cases::{Answer, HI_MAP, INSPECT, Surroundings, answered, echo, image_of, refused};
use guest_images::HI;
use std::test::Fail;

const ECHO_MAP: &[u8] = b"entry 000100b4\n\
    segment 00010000 000100f0 r-x\n\
    segment 00011000 00011010 rw-\n\
    break 00012000 00112000\n\
    stack 0 efff0000 f0000000\n\
    words 280579\n";

/// The map of `hi` with two cores of one page of stack, and no heap: two pages of stack, and one of the segment.
const SMALL_MAP: &[u8] = b"entry 00010000\n\
    segment 00010000 00010028 rwx\n\
    break 00011000 00011000\n\
    stack 0 effff000 f0000000\n\
    stack 1 edfff000 ee000000\n\
    words 3075\n";

/// The words that ask for it.
const SMALL: [&str; 7] = [
    "inspect",
    "--image=guest.elf",
    "--heap=0",
    "--stack",
    "1",
    "--cores",
    "2",
];

/// A map of `hi`, one of `echo` and a small one.
fn maps<'a>(hi: &'a [u8], echo: &'a [u8]) -> [Answer<'a>; 3] {
    [
        Answer {
            words: &INSPECT,
            image: hi,
            want: answered(HI_MAP, b""),
        },
        Answer {
            words: &INSPECT,
            image: echo,
            want: answered(ECHO_MAP, b""),
        },
        Answer {
            words: &SMALL,
            image: hi,
            want: answered(SMALL_MAP, b""),
        },
    ]
}

/// What is refused, where this is the image of `hi`.
fn refusals(hi: &[u8]) -> [Answer<'_>; 4] {
    [
        Answer {
            words: &INSPECT,
            image: b"",
            want: refused(65, b"refused 65 image 1 Short\n"),
        },
        Answer {
            words: &["inspect", "--image", "none"],
            image: hi,
            want: refused(74, b"refused 74 read image\n"),
        },
        Answer {
            words: &["inspect"],
            image: hi,
            want: refused(64, b"refused 64 words\n"),
        },
        Answer {
            words: &["inspect", "--image", "guest.elf", "--budget", "1"],
            image: hi,
            want: refused(64, b"refused 64 words\n"),
        },
    ]
}

#[test]
fn maps_are_told(rt: HostRuntime) -> Result<(), Fail> {
    let alloc = rt.alloc();
    let hi = image_of(alloc, &HI)?;
    let echo = echo(alloc, 0)?;
    for answer in maps(&hi, &echo) {
        let mut around = Surroundings::ample(alloc, answer.image)?;
        around.try_command(&rt, alloc, answer.words, &answer.want)?;
    }
    Ok(())
}

#[test]
fn other_maps_are_refused(rt: HostRuntime) -> Result<(), Fail> {
    let alloc = rt.alloc();
    let hi = image_of(alloc, &HI)?;
    for answer in refusals(&hi) {
        let mut around = Surroundings::ample(alloc, answer.image)?;
        around.try_command(&rt, alloc, answer.words, &answer.want)?;
    }
    Ok(())
}
