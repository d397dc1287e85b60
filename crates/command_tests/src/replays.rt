//! Reports that replay, and reports that are damaged.
use command_cases::{
    Answer, Difference, HI_MAP, HI_REPORT, INSPECT, Outcome, REPLAY, RUN, SAME, Surroundings,
    answered, image_of, refused, strings,
};
use guest_images::HI;
use std::alloc::{AllocError, Global};
use std::sync::Wait;
use std::test::Fail;
use std::thread::Threads;

/// A text with the first place that is as the old one replaced.
fn changed(alloc: Global, text: &[u8], old: &[u8], new: &[u8]) -> Result<Vec<u8>, AllocError> {
    for at in 0..text.len() {
        if let Some(rest) = text[at..].strip_prefix(old) {
            let mut bytes = Vec::from_slice(alloc, &text[..at])?;
            bytes.extend_from_slice(new)?;
            bytes.extend_from_slice(rest)?;
            return Ok(bytes);
        }
    }
    Vec::from_slice(alloc, text)
}

/// Replays a report of `hi`, and compares what is answered.
fn try_report<X: Threads + Wait + Sync>(
    rt: &X,
    alloc: Global,
    report: &[u8],
    status: u8,
    line: &[u8],
) -> Result<(), Difference> {
    let image = image_of(alloc, &HI)?;
    let mut around = Surroundings::ample(alloc, &image)?;
    around.add(alloc, "report.txt", report)?;
    let want = Outcome {
        out: if status == 0 { SAME } else { b"" },
        ..refused(status, line)
    };
    around.try_command(rt, alloc, &REPLAY, &want)
}

/// A change of the report, and what a replay of the changed one answers.
#[derive(Clone, Copy)]
struct Change {
    old: &'static [u8],
    new: &'static [u8],
    status: u8,
    line: &'static [u8],
}

fn replaced(old: &'static [u8], new: &'static [u8], status: u8, line: &'static [u8]) -> Change {
    Change {
        old,
        new,
        status,
        line,
    }
}

/// Replays each changed report.
fn try_changes<X: Threads + Wait + Sync>(
    rt: &X,
    alloc: Global,
    changes: &[Change],
) -> Result<(), Difference> {
    for Change {
        old,
        new,
        status,
        line,
    } in changes {
        let report = changed(alloc, HI_REPORT, old, new)?;
        try_report(rt, alloc, &report, *status, line)?;
    }
    Ok(())
}

/// Reports that agree with their own order, and such that do not.
fn own_orders() -> [Change; 9] {
    [
        replaced(b"", b"", 0, b""),
        // The numbers of the setup are those of the report, and the run comes to its end in fewer units.
        replaced(b"budget 1048576", b"budget 13", 0, b""),
        replaced(b"000a6968", b"000a6969", 67, b"refused 67 differs 108\n"),
        replaced(b"exit 0", b"exit 1", 67, b"refused 67 differs 343\n"),
        replaced(b"0 go", b"0 stop", 67, b"refused 67 differs 199\n"),
        replaced(
            b"budget 1048576",
            b"budget 12",
            68,
            b"refused 68 report 7 3 Number\n",
        ),
        replaced(
            b"units 13",
            b"units 14\n0",
            68,
            b"refused 68 report 21 6 Order\n",
        ),
        replaced(
            b"units 13\n0\n",
            b"units 12\n",
            68,
            b"refused 68 report 20 6 Order\n",
        ),
        replaced(
            b"cores 1",
            b"cores 2",
            68,
            b"refused 68 report 21 6 Order\n",
        ),
    ]
}

/// A bad line.
fn bad(old: &'static [u8], new: &'static [u8], line: &'static [u8]) -> Change {
    replaced(old, new, 68, line)
}

/// Bad lines among the numbers of the setup.
fn bad_numbers() -> [Change; 10] {
    [
        bad(
            b"report 1\n",
            b"report 2\n",
            b"refused 68 report 1 1 Version\n",
        ),
        bad(b"cores 1", b"core 1", b"refused 68 report 2 2 Shape\n"),
        bad(b"cores 1", b"cores  1", b"refused 68 report 2 2 Shape\n"),
        bad(b"cores 1", b"cores 1\r", b"refused 68 report 2 2 Shape\n"),
        bad(b"cores 1", b"cores 9", b"refused 68 report 2 3 Number\n"),
        bad(b"cores 1", b"cores 01", b"refused 68 report 2 3 Number\n"),
        bad(
            b"budget 1048576",
            b"budget 0",
            b"refused 68 report 3 3 Number\n",
        ),
        bad(
            b"4294967280",
            b"4294967281",
            b"refused 68 report 4 3 Number\n",
        ),
        bad(
            b"stack 16",
            b"stack 4097",
            b"refused 68 report 5 3 Number\n",
        ),
        bad(b"heap 256", b"heap 4097", b"refused 68 report 6 3 Number\n"),
    ]
}

/// Bad lines after them.
fn bad_units() -> [Change; 8] {
    [
        bad(
            b"units 13\n0",
            b"units 13\n1",
            b"refused 68 report 8 3 Number\n",
        ),
        bad(b"000a6968", b"000A6968", b"refused 68 report 14 2 Shape\n"),
        bad(b"0 12 0 ", b"0 00 00 ", b"refused 68 report 14 3 Number\n"),
        bad(b"calls 3", b"calls 2", b"refused 68 report 24 2 Shape\n"),
        bad(b"calls 3", b"calls 4", b"refused 68 report 25 2 Shape\n"),
        bad(b"exit 0", b"exit 256", b"refused 68 report 27 3 Number\n"),
        bad(b"end\n", b"end\nend", b"refused 68 report 29 5 TooLong\n"),
        bad(b"end\n", b"end", b"refused 68 report 28 4 Truncated\n"),
    ]
}

#[test]
fn a_report_replays_where_it_is_that_of_its_own_order(rt: HostRuntime) -> Result<(), Fail> {
    try_changes(&rt, rt.alloc(), &own_orders())?;
    Ok(())
}

#[test]
fn the_first_bad_line_is_told(rt: HostRuntime) -> Result<(), Fail> {
    try_changes(&rt, rt.alloc(), &bad_numbers())?;
    try_changes(&rt, rt.alloc(), &bad_units())?;
    let cut = b"refused 68 report 14 4 Truncated\n";
    try_report(&rt, rt.alloc(), &HI_REPORT[..94], 68, cut)?;
    Ok(())
}

/// The files of a replay that is refused, its status and the line that it writes.
#[derive(Clone, Copy)]
struct OtherFiles<'a> {
    report: &'a [u8],
    image: &'a [u8],
    policy: &'a [u8],
    status: u8,
    line: &'a [u8],
}

/// Files of which more and more are as they are to be, where the report has an order that is not complete.
fn other_files<'a>(report: &'a [u8], hi: &'a [u8]) -> [OtherFiles<'a>; 4] {
    [
        OtherFiles {
            report: b"",
            image: b"",
            policy: b"",
            status: 68,
            line: b"refused 68 report 1 4 Truncated\n",
        },
        OtherFiles {
            report,
            image: b"",
            policy: b"",
            status: 65,
            line: b"refused 65 image 1 Short\n",
        },
        OtherFiles {
            report,
            image: hi,
            policy: b"",
            status: 66,
            line: b"refused 66 policy 3 MissingKey 0 1\n",
        },
        OtherFiles {
            report,
            image: hi,
            policy: b"version = 1\npolicy = []\n",
            status: 68,
            line: b"refused 68 report 20 6 Order\n",
        },
    ]
}

/// The words of these replays.
const WORDS: [&str; 4] = [
    "replay",
    "--report=report.txt",
    "--policy=policy.toml",
    "--image=guest.elf",
];

#[test]
fn files_of_a_replay_are_refused_in_their_order(rt: HostRuntime) -> Result<(), Fail> {
    let alloc = rt.alloc();
    let hi = image_of(alloc, &HI)?;
    let short = changed(alloc, HI_REPORT, b"units 13\n0\n", b"units 12\n")?;
    for files in other_files(&short, &hi) {
        let mut around = Surroundings::ample(alloc, files.image)?;
        around.add(alloc, "report.txt", files.report)?;
        around.add(alloc, "policy.toml", files.policy)?;
        let want = refused(files.status, files.line);
        around.try_command(&rt, alloc, &WORDS, &want)?;
    }
    Ok(())
}

/// What is answered without a runtime, where this is the image of `hi`.
fn offline_answers(hi: &[u8]) -> [Answer<'_>; 3] {
    [
        Answer {
            words: &REPLAY,
            image: hi,
            want: answered(SAME, b""),
        },
        Answer {
            words: &INSPECT,
            image: hi,
            want: answered(HI_MAP, b""),
        },
        Answer {
            words: &RUN,
            image: hi,
            want: refused(64, b"refused 64 words\n"),
        },
    ]
}

#[test]
fn offline_does_all_but_run(rt: HostRuntime) -> Result<(), Fail> {
    let alloc = rt.alloc();
    let hi = image_of(alloc, &HI)?;
    for Answer { words, image, want } in offline_answers(&hi) {
        let mut around = Surroundings::ample(alloc, image)?;
        around.add(alloc, "report.txt", HI_REPORT)?;
        let words = strings(alloc, words)?;
        assert!(rt; around.status_offline(alloc, &words) == want.status);
        assert!(rt; around.out.bytes() == want.out);
        assert!(rt; around.report.bytes() == want.report);
    }
    Ok(())
}
