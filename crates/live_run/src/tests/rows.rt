//! The rows of small programs, each by several shapes of a run.
ghost use Rattle.std.specs.Prelude.{◌≡◌, IfOk};
ghost use Rattle.live_run.specs.Seats.{HaveEnded};

use super::*;
use crate::ends::finish_all;
use std::sync::Wait;
use std::thread::Threads;
use ticket_table::{number, payload};

/// The policy under which no input is to reach the output.
const CHECK_SINK: &str = "version = 1\n[[policy]]\nsource = true\ncheck_sink = true\n";

/// Programs that write, that race for a word, and that are trapped: at a jump to their input, and at a write of it.
fn rows<'a>(check_sink: Policy) -> [Row<'a>; 7] {
    [
        Row {
            class: Some(0),
            output: b"hi\n",
            ..quiet("hi", &HI, 1, 13)
        },
        Row {
            class: Some(0),
            ..quiet("count", &COUNT, 2, 6_012)
        },
        quiet("load-reserved and store-conditional", &LRSC, 2, 14),
        Row {
            class: Some(1),
            ..quiet("store buffering", &STORE_BUFFERING, 2, 22)
        },
        Row {
            input: b"abcd",
            class: Some(0),
            output: b"abcd",
            ..quiet("pass", &PASS, 1, 18)
        },
        Row {
            input: &[0x20, 0x00, 0x01, 0x00],
            class: Some(2),
            trap: Some(Trap {
                step: 9,
                pc: 0x0001_0018,
                kind: 1,
                bits: 1,
            }),
            ..quiet("jump", &JUMP, 1, 15)
        },
        Row {
            input: b"abcd",
            policy: check_sink,
            class: Some(2),
            trap: Some(Trap {
                step: 12,
                pc: 0x0001_001c,
                kind: 7,
                bits: 1,
            }),
            ..quiet("pass with a checked sink", &PASS, 1, 13)
        },
    ]
}

#[test]
fn one_thread_gives_all_actors_their_turns(rt: HostRuntime) -> Result<(), Fail> {
    let row = Row {
        class: Some(0),
        ..quiet("count", &COUNT, 2, 6_012)
    };
    let setup = setup_of(rt.alloc(), &row)?;
    let parts = parts_of(rt.alloc(), &setup, 4, 64)?;
    assert!(rt; !parts.ended(), "before the first turn");
    let parts = drive(&rt, parts, &OpenGate);
    assert!(rt; parts.ended());
    let fault = fault_of(rt.alloc(), &setup, assemble(parts), &row)?;
    assert!(rt; fault == None);
    Ok(())
}

/// The parts of a run of this shape, whose actors have had their turns on one thread until all have ended.
fn driven<'a, X: Wait>(
    rt: &X,
    alloc: Global,
    setup: &'a Setup,
    bound: u32,
    quantum: u32,
) -> Result<LiveParts<'a>, Fail>
    ensures setup { IfOk result (λ parts. parts.setup ≡ setup.entry.now) }
    ensures ended { IfOk result (λ parts. HaveEnded parts.harts parts.followers) }
{
    let parts = parts_of(alloc, setup, bound, quantum)?;
    Ok(drive(rt, parts, &OpenGate))
}

/// A word of the data table of a run that has ended, as the table closes: its count and its payload.
fn closed_word(parts: LiveParts<'_>, word: u32) -> Result<(u32, u32), Fail>
    requires { HaveEnded parts.harts parts.followers }
{
    let LiveParts {
        objects,
        actors,
        room,
    } = parts;
    if word >= objects.setup.guest().image().words() {
        return Err(Fail::new("no such word"));
    }
    let ends = finish_all(
        actors.harts,
        actors.followers,
        objects.items,
        objects.replies,
        room.ends,
    );
    let words = objects.memory.close(ends.drawn.into_vec());
    let left = words.word(word);
    Ok((number(left), payload(left)))
}

#[test]
fn the_shortest_ring_and_turn_count_to_two_thousand(rt: HostRuntime) -> Result<(), Fail> {
    let alloc = rt.alloc();
    let row = Row {
        class: Some(0),
        ..quiet("count", &COUNT, 2, 6_012)
    };
    let setup = setup_of(alloc, &row)?;
    let parts = driven(&rt, alloc, &setup, 1, 1)?;
    let fault = fault_of(alloc, &setup, assemble(parts), &row)?;
    assert!(rt; fault == None);
    let parts = driven(&rt, alloc, &setup, 1, 1)?;
    // The word at 0x11000, behind the three words of devices.
    assert!(rt; closed_word(parts, 1_027)? == (2_000, 2_000));
    Ok(())
}

/// Whether the order of a run, from where it stands, has this many units of core 0, and then as many of core 1.
fn is_one_core_after_the_other(finished: &mut Finished, units: u32) -> bool {
    for core in 0..2 {
        for _ in 0..units {
            if finished.next_core() != Some(core) {
                return false;
            }
        }
    }
    finished.next_core().is_none()
}

#[test]
fn the_order_of_a_run_is_the_canonical_merge(rt: HostRuntime) -> Result<(), Fail> {
    let alloc = rt.alloc();
    let row = Row {
        class: Some(0),
        output: b"hi\nhi\n",
        ..quiet("hi", &HI, 2, 26)
    };
    let setup = setup_of(alloc, &row)?;
    let mut finished = assemble(driven(&rt, alloc, &setup, 1, 1)?);
    assert!(rt; finished.output().as_slice() == row.output);
    // The cores had their units in turn. No access of core 0 comes after one of core 1.
    assert!(rt; is_one_core_after_the_other(&mut finished, 13));
    Ok(())
}

/// Runs a row in threads with a shape. Answers in what it is other than it should be.
fn fault_in_threads<X: Threads + Wait + Sync>(
    rt: &X,
    alloc: Global,
    row: &Row<'_>,
    bound: u32,
    quantum: u32,
) -> Result<Option<&'static str>, Fail> {
    let setup = setup_of(alloc, row)?;
    let parts = parts_of(alloc, &setup, bound, quantum)?;
    let finished = assemble(run(rt, parts, &OpenGate));
    fault_of(alloc, &setup, finished, row)
}

#[test]
fn threads_come_to_what_one_thread_does(rt: HostRuntime) -> Result<(), Fail> {
    let alloc = rt.alloc();
    let check_sink = read_policy(alloc, CHECK_SINK.as_bytes())?;
    for row in rows(check_sink) {
        let name = row.name;
        for bound in [1, 4, 64] {
            for quantum in [1, 3, 64] {
                let fault = fault_in_threads(&rt, alloc, &row, bound, quantum)?;
                assert!(rt; fault == None, "{name}, bound {bound}, quantum {quantum}");
            }
        }
    }
    Ok(())
}
