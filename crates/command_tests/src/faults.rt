//! Calls of the files and of the sinks that fail, each in turn, and sinks with little room.
use command_cases::{
    Answer, Difference, HI_MAP, HI_OUTPUT, HI_REPORT, INSPECT, Outcome, RUN, SAME, Surroundings,
    echo, image_of, refused,
};
use guest_images::{COUNT, HI};
use outside::{MemFiles, MemSink};
use std::alloc::{AllocError, Global};
use std::sync::Wait;
use std::test::Fail;
use std::thread::Threads;

/// A command on `hi` that is not refused: its words, the line where each of its readings fails, in their order, and what it
/// writes.
#[derive(Clone, Copy)]
struct Done<'a> {
    words: &'a [&'a str],
    lines: &'a [&'a [u8]],
    out: &'a [u8],
    report: &'a [u8],
}

/// One of each command.
fn all_done() -> [Done<'static>; 3] {
    [
        Done {
            words: &[
                "run",
                "--image=guest.elf",
                "--input=input",
                "--policy=policy.toml",
            ],
            lines: &[
                b"refused 74 read image\n",
                b"refused 74 read policy\n",
                b"refused 74 read input\n",
            ],
            out: HI_OUTPUT,
            report: HI_REPORT,
        },
        Done {
            words: &[
                "replay",
                "--image=guest.elf",
                "--input=input",
                "--policy=policy.toml",
                "--report=report.txt",
            ],
            lines: &[
                b"refused 74 read report\n",
                b"refused 74 read image\n",
                b"refused 74 read policy\n",
                b"refused 74 read input\n",
            ],
            out: SAME,
            report: b"",
        },
        Done {
            words: &["inspect", "--image=guest.elf"],
            lines: &[b"refused 74 read image\n"],
            out: HI_MAP,
            report: b"",
        },
    ]
}

/// The files of these commands, where the reading of this number fails, and sinks with this room.
fn around(
    alloc: Global,
    reading: u64,
    out: usize,
    report: usize,
) -> Result<Surroundings, AllocError> {
    let bytes = image_of(alloc, &HI)?;
    let mut around = Surroundings {
        files: MemFiles::new(alloc, &[reading])?,
        out: MemSink::new(alloc, out, &[])?,
        report: MemSink::new(alloc, report, &[])?,
    };
    around.add(alloc, "guest.elf", &bytes)?;
    around.add(alloc, "policy.toml", b"version = 1\npolicy = []\n")?;
    around.add(alloc, "input", b"")?;
    around.add(alloc, "report.txt", HI_REPORT)?;
    Ok(around)
}

/// Whether what was written is the beginning of a whole, and not all of it.
fn is_cut(written: &[u8], whole: &[u8]) -> bool {
    written.len() < whole.len() && whole.starts_with(written)
}

/// Whether what was written is as much of a whole as there is room for.
fn fills(written: &[u8], room: usize, whole: &[u8]) -> bool {
    written.len() == room && whole.starts_with(written)
}

/// No reading has this number.
const NEVER: u64 = 1000;

/// A command each of whose readings fails in turn. Answers how many there are.
fn try_readings<X: Threads + Wait + Sync>(
    rt: &X,
    alloc: Global,
    done: &Done<'_>,
) -> Result<u64, Difference> {
    let mut readings = 0;
    for line in done.lines {
        let mut around = around(alloc, readings, 8192, 8192)?;
        around.try_command(rt, alloc, done.words, &refused(74, line))?;
        readings = around.files.calls();
    }
    Ok(readings)
}

#[test]
fn each_reading_fails_in_turn(rt: HostRuntime) -> Result<(), Fail> {
    let alloc = rt.alloc();
    for done in all_done() {
        let readings = try_readings(&rt, alloc, &done)?;
        let mut around = around(alloc, readings, 8192, 8192)?;
        assert!(rt; around.command(&rt, alloc, done.words)? == 0);
        assert!(rt; around.files.calls() == readings);
    }
    Ok(())
}

#[test]
fn each_write_of_the_output_fails_in_turn(rt: HostRuntime) -> Result<(), Fail> {
    let alloc = rt.alloc();
    for done in all_done() {
        let mut covered = 0;
        for call in 0..1000 {
            let mut around = around(alloc, NEVER, 8192, 8192)?;
            around.out = MemSink::new(alloc, done.out.len(), &[call])?;
            let status = around.command(&rt, alloc, done.words)?;
            if around.out.calls() <= call {
                assert!(rt; status == 0);
                covered = call;
                break;
            }
            assert!(rt; status == 75);
            assert!(rt; is_cut(around.out.bytes(), done.out));
            assert!(rt; around.report.calls() == 0);
        }
        assert!(rt; covered >= 1);
    }
    Ok(())
}

#[test]
fn each_write_of_the_report_fails_in_turn(rt: HostRuntime) -> Result<(), Fail> {
    let alloc = rt.alloc();
    let mut covered = 0;
    for call in 0..1000 {
        let mut around = around(alloc, NEVER, 8192, 8192)?;
        around.report = MemSink::new(alloc, 349, &[call])?;
        let status = around.command(&rt, alloc, &RUN)?;
        assert!(rt; around.out.bytes() == HI_OUTPUT);
        if around.report.calls() <= call {
            assert!(rt; status == 0);
            covered = call;
            break;
        }
        assert!(rt; status == 75);
        assert!(rt; is_cut(around.report.bytes(), HI_REPORT));
    }
    assert!(rt; covered >= 1);
    Ok(())
}

#[test]
fn little_room_cuts_the_output(rt: HostRuntime) -> Result<(), Fail> {
    let alloc = rt.alloc();
    for done in all_done() {
        for room in [0, 1, 2, 4, 29, 100] {
            if room >= done.out.len() {
                break;
            }
            let mut around = around(alloc, NEVER, room, 8192)?;
            assert!(rt; around.command(&rt, alloc, done.words)? == 75);
            assert!(rt; fills(around.out.bytes(), room, done.out));
            assert!(rt; around.report.calls() == 0);
        }
    }
    Ok(())
}

/// Runs a guest that adds 1 to a word for 700 units, with this room for the report and one write of it that fails.
fn run_long<X: Threads + Wait + Sync>(
    rt: &X,
    alloc: Global,
    room: usize,
    call: u64,
) -> Result<(u8, Surroundings), AllocError> {
    let bytes = image_of(alloc, &COUNT)?;
    let mut around = Surroundings::ample(alloc, &bytes)?;
    around.report = MemSink::new(alloc, room, &[call])?;
    let words = ["run", "--image=guest.elf", "--budget=700"];
    let status = around.command(rt, alloc, &words)?;
    Ok((status, around))
}

#[test]
fn rooms_at_the_border_of_each_piece_cut_a_long_report(rt: HostRuntime) -> Result<(), Fail> {
    let alloc = rt.alloc();
    let (status, whole) = run_long(&rt, alloc, 65_536, NEVER)?;
    assert!(rt; status == 4);
    let pieces = whole.report.calls();
    assert!(rt; pieces >= 2);
    for call in 0..pieces {
        // What stands before the piece of this number.
        let (_, cut) = run_long(&rt, alloc, 65_536, call)?;
        let border = cut.report.bytes().len();
        for room in border.saturating_sub(1)..border + 2 {
            let (status, left) = run_long(&rt, alloc, room, NEVER)?;
            assert!(rt; status == 75);
            assert!(rt; fills(left.report.bytes(), room, whole.report.bytes()));
        }
    }
    Ok(())
}

/// A refusal of each kind, where this image has other flags.
fn refusals(flags: &[u8]) -> [Answer<'_>; 6] {
    [
        Answer {
            words: &["run"],
            image: b"",
            want: refused(64, b"refused 64 words\n"),
        },
        Answer {
            words: &RUN,
            image: b"",
            want: refused(65, b"refused 65 image 1 Short\n"),
        },
        Answer {
            words: &RUN,
            image: flags,
            want: refused(65, b"refused 65 image 8 Flags\n"),
        },
        Answer {
            words: &["run", "--image", "none"],
            image: b"",
            want: refused(74, b"refused 74 read image\n"),
        },
        Answer {
            words: &["replay", "--image=guest.elf", "--report=guest.elf"],
            image: b"",
            want: refused(68, b"refused 68 report 1 4 Truncated\n"),
        },
        Answer {
            words: &INSPECT,
            image: b"",
            want: refused(65, b"refused 65 image 1 Short\n"),
        },
    ]
}

#[test]
fn a_refusal_keeps_its_status_where_its_line_fails(rt: HostRuntime) -> Result<(), Fail> {
    let alloc = rt.alloc();
    let flags = echo(alloc, 1)?;
    for Answer { words, image, want } in refusals(&flags) {
        let Outcome { status, report, .. } = want;
        let mut covered = 0;
        for call in 0..1000 {
            let mut around = Surroundings::ample(alloc, image)?;
            around.report = MemSink::new(alloc, report.len(), &[call])?;
            assert!(rt; around.command(&rt, alloc, words)? == status);
            assert!(rt; around.out.calls() == 0);
            if around.report.calls() <= call {
                assert!(rt; around.report.bytes() == report);
                covered = call;
                break;
            }
            assert!(rt; is_cut(around.report.bytes(), report));
        }
        assert!(rt; covered >= 1);
    }
    Ok(())
}

#[test]
fn a_refusal_keeps_its_status_in_little_room(rt: HostRuntime) -> Result<(), Fail> {
    let alloc = rt.alloc();
    let flags = echo(alloc, 1)?;
    for Answer { words, image, want } in refusals(&flags) {
        let Outcome { status, report, .. } = want;
        for room in 0..report.len() {
            let mut around = Surroundings::ample(alloc, image)?;
            around.report = MemSink::new(alloc, room, &[])?;
            assert!(rt; around.command(&rt, alloc, words)? == status);
            assert!(rt; around.out.calls() == 0);
            assert!(rt; fills(around.report.bytes(), room, report));
        }
    }
    Ok(())
}
