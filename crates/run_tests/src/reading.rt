//! Reports that are read, and the first line that is not one.

use std::test::Fail;
use trap_report::{ReportFault, ReportKind, read_report};

// The report of a run of one core that writes `hi` and exits.
const HI_REPORT: &str = "taint-report 1
cores 1
budget 1048576
limit 4294967280
stack 16
heap 256
units 13
0
0
0
0
0
0
0 12 0 000a6968
0
0 1 0 00000000
0
0
0
0
calls 3
0 5 00010014 call 64 00000000000000000000000000000000 0 go
0 7 00010014 sink 64 00000000000000000000000000000000 0 go
0 12 00010020 call 93 00000000000000000000000000000000 0 go
traps 0
ends 1
0 exit 0
end
";

#[test]
fn reads_a_whole_report(rt: HostRuntime) -> Result<(), Fail> {
    let saved = read_report(rt.alloc(), HI_REPORT.as_bytes())?;
    assert!(rt; (saved.cores, saved.budget, saved.limit) == (1, 1048576, 4294967280));
    assert!(rt; (saved.stack, saved.heap) == (16, 256));
    assert!(rt; saved.order.as_slice() == [0; 13].as_slice());
    Ok(())
}

// Each row has another text in place of the bytes from one place to another.
#[test]
fn tells_the_first_bad_line(rt: HostRuntime) -> Result<(), Fail> {
    let report = HI_REPORT.as_bytes();
    for (from, to, with, line, kind) in [
        (13, 14, "3", 1, ReportKind::Version),
        (21, 22, "x", 2, ReportKind::Shape),
        (21, 22, "01", 2, ReportKind::Number),
        (21, 22, "99", 2, ReportKind::Number),
        (133, 135, "", 20, ReportKind::Shape),
        (94, 349, "", 14, ReportKind::Truncated),
        (348, 349, "", 28, ReportKind::Truncated),
        (349, 349, "x", 29, ReportKind::TooLong),
        (96, 98, "012", 14, ReportKind::Number),
        (96, 109, "012 0 000A6968", 14, ReportKind::Shape),
    ] {
        assert!(rt; from <= to && to <= report.len());
        let mut bytes = Vec::new(rt.alloc());
        bytes.extend_from_slice(&report[..from])?;
        bytes.extend_from_slice(with.as_bytes())?;
        bytes.extend_from_slice(&report[to..])?;
        assert!(rt; bytes.len() <= 1000);
        let fault = read_report(rt.alloc(), &bytes).err();
        assert!(rt;
            fault == Some(ReportFault::Bad { line, kind }),
            "{with} from {from} to {to}"
        );
    }
    Ok(())
}

#[test]
fn leaves_the_order_to_a_run(rt: HostRuntime) -> Result<(), Fail> {
    let report = HI_REPORT.as_bytes();
    assert!(rt; report.len() == 349);
    let mut bytes = Vec::new(rt.alloc());
    bytes.extend_from_slice(&report[..80])?;
    bytes.extend_from_slice(b"2")?;
    bytes.extend_from_slice(&report[81..133])?;
    bytes.extend_from_slice(&report[135..])?;
    assert!(rt; bytes.len() <= 1000);
    let saved = read_report(rt.alloc(), &bytes)?;
    assert!(rt; saved.order.as_slice() == [0; 12].as_slice());
    Ok(())
}
