mod lanes;
mod rings;

use lanes::lane_row;
use record_lane::{Got, MeetKind, Record, Reply, Sent, Why};
use rings::ring_row;
use std::test::Fail;

// What the calls of a row answer: two sends, two takes, and after a third send and the end the two looks at what is left.
type Row<T> = (Sent<T>, Sent<T>, Got<T>, Got<T>, Option<T>, Option<T>);

fn expected<T>(first: T, second: T) -> Row<T>
where
    T: Copy,
{
    (
        Sent::Sent,
        Sent::Full(second),
        Got::Item(first),
        Got::Empty,
        Some(second),
        None,
    )
}

#[test]
fn a_bound_of_one_is_full_after_a_send_and_empty_after_a_take(rt: HostRuntime) -> Result<(), Fail> {
    let alloc = rt.alloc();
    let touch = Record::Touch {
        step: 4,
        pc: 65536,
        word: 0,
        number: 0,
        why: Why::Fill { bytes: 15 },
    };
    let meet = Record::Meet {
        step: 5,
        pc: 65540,
        call: 64,
        kind: MeetKind::Verdict,
    };
    let go = Reply {
        stop: false,
        trap: None,
        tags: 7,
        buffer: 1,
    };
    let stop = Reply { stop: true, ..go };
    for (first, second) in [(touch, meet), (meet, touch)] {
        assert!(rt; lane_row(&rt, alloc, first, second)? == expected(first, second));
        assert!(rt; ring_row(alloc, first, second)? == expected(first, second));
    }
    assert!(rt; lane_row(&rt, alloc, go, stop)? == expected(go, stop));
    assert!(rt; ring_row(alloc, go, stop)? == expected(go, stop));
    Ok(())
}
