//! The text of each kind of line.

use order_core::{Access, Entry};
use record_lane::{CallNote, MeetKind, Trap};
use rv_execute::Fault;
use syscall_drain::End;
use trap_report::{Block, HeaderLine, ReportLine, Section, push_line};

fn note(kind: MeetKind, tags: u128, stop: bool) -> CallNote {
    CallNote {
        step: 5,
        pc: 0x10014,
        call: 64,
        kind,
        tags,
        buffer: 15,
        stop,
    }
}

fn access() -> Access {
    Access {
        word: 12,
        number: 0,
        found: 0x000a6968,
    }
}

#[test]
fn tells_numbers_units_and_meetings(rt: HostRuntime) {
    let call = note(MeetKind::Call, 0, false);
    let sink = note(MeetKind::Verdict, 0xabcdef << 104, true);
    let mut block = Block::new();
    for (line, want) in [
        (ReportLine::Version, "taint-report 1\n"),
        (
            ReportLine::Header(HeaderLine::Limit, 4294967280),
            "limit 4294967280\n",
        ),
        (ReportLine::Count(Section::Units, 0), "units 0\n"),
        (
            ReportLine::UnitOf(
                0,
                Entry {
                    touch: Some(access()),
                },
            ),
            "0 12 0 000a6968\n",
        ),
        (ReportLine::UnitOf(7, Entry { touch: None }), "7\n"),
        (
            ReportLine::NoteOf(0, call),
            "0 5 00010014 call 64 00000000000000000000000000000000 f go\n",
        ),
        (
            ReportLine::NoteOf(31, sink),
            "31 5 00010014 sink 64 abcdef00000000000000000000000000 f stop\n",
        ),
    ] {
        block.clear();
        push_line(&mut block, &line);
        assert!(rt; block.as_bytes() == want.as_bytes(), "{want}");
    }
}

#[test]
fn tells_traps_and_ends(rt: HostRuntime) {
    let trap = Trap {
        step: 4294967295,
        pc: 0xfedcba98,
        kind: 7,
        bits: 10,
    };
    let mut block = Block::new();
    for (line, want) in [
        (ReportLine::TrapOf(31, trap), "31 4294967295 fedcba98 7 a\n"),
        (ReportLine::EndOf(3, End::Exit(242)), "3 exit 242\n"),
        (ReportLine::EndOf(3, End::Trapped), "3 trapped\n"),
        (
            ReportLine::EndOf(3, End::Fault(Fault::Break)),
            "3 fault 9\n",
        ),
        (ReportLine::EndOf(3, End::Budget), "3 budget\n"),
        (ReportLine::EndOf(3, End::Spent), "3 spent\n"),
        (ReportLine::Last, "end\n"),
    ] {
        block.clear();
        push_line(&mut block, &line);
        assert!(rt; block.as_bytes() == want.as_bytes(), "{want}");
    }
}
