//! Runs whose gate holds an actor up: what others do meanwhile, and that nothing of a run depends on it.
use super::races::a_store_was_found;
use command_cases::{Case, Difference, image_of, left_by, plain, try_case_at, try_replay};
use guest_images::{COUNT, LRSC, STORE_BUFFERING};
use outside::{Gate, Who};
use std::alloc::Global;
use std::sync::Wait;
use std::sync::atomic::{AtomicBool, Ordering};
use std::test::Fail;
use std::thread::Threads;

/// How often a gate looks for other actors before it lets go in any case.
const MOST_LOOKS: u32 = 200_000_000;

/// How often a gate looks that waits for nobody.
const LOOKS: u32 = 100_000;

/// A core that comes to a gate with a count of units between these, and whether it has come.
#[derive(Drop)]
struct Sight {
    core: u8,
    least: u32,
    most: u32,
    has_come: AtomicBool,
}

impl Sight {
    fn new(core: u8, least: u32, most: u32) -> Sight {
        Sight {
            core,
            least,
            most,
            has_come: AtomicBool::new(false),
        }
    }

    /// Marks it where this is the core and the count.
    fn mark(&self, who: Who, done: u32) {
        if who == Who::Hart(self.core) && self.least <= done && done <= self.most {
            self.has_come.store(true, Ordering::SeqCst);
        }
    }

    fn has_come(&self) -> bool {
        self.has_come.load(Ordering::SeqCst)
    }
}

/// Holds the first turn of an actor until both cores have come.
#[derive(Drop)]
struct MeetingGate {
    held: Who,
    first: Sight,
    second: Sight,
    entered: AtomicBool,
    missed: AtomicBool,
}

impl MeetingGate {
    fn new(held: Who, first: Sight, second: Sight) -> MeetingGate {
        MeetingGate {
            held,
            first,
            second,
            entered: AtomicBool::new(false),
            missed: AtomicBool::new(false),
        }
    }

    /// Looks until both cores have come, and notes where they do not.
    fn hold(&self) {
        self.entered.store(true, Ordering::SeqCst);
        for _ in 0..MOST_LOOKS {
            if self.first.has_come() && self.second.has_come() {
                return;
            }
        }
        self.missed.store(true, Ordering::SeqCst);
    }

    /// Whether the actor was held, and let go since both cores had come.
    fn has_met(&self) -> bool {
        self.entered.load(Ordering::SeqCst) && !self.missed.load(Ordering::SeqCst)
    }
}

impl Gate for MeetingGate {
    fn before(&self, who: Who, turn: u64, done: u32) {
        self.first.mark(who, done);
        self.second.mark(who, done);
        if who == self.held && turn == 0 {
            self.hold();
        }
    }
}

/// Holds one turn of an actor for a while.
#[derive(Drop)]
struct HoldGate {
    held: Who,
    turn: u64,
    is_over: AtomicBool,
}

impl HoldGate {
    fn new(held: Who, turn: u64) -> HoldGate {
        HoldGate {
            held,
            turn,
            is_over: AtomicBool::new(false),
        }
    }
}

impl Gate for HoldGate {
    fn before(&self, who: Who, turn: u64, _done: u32) {
        if who != self.held || turn != self.turn {
            return;
        }
        for _ in 0..LOOKS {
            if self.is_over.load(Ordering::SeqCst) {
                return;
            }
        }
        self.is_over.store(true, Ordering::SeqCst);
    }
}

/// Two cores that add 1 to a word a thousand times each, with short rings and a gate that lets both cores meet: whether they met.
fn meets<X: Threads + Wait + Sync>(
    rt: &X,
    alloc: Global,
    gate: &MeetingGate,
) -> Result<bool, Difference> {
    let count = image_of(alloc, &COUNT)?;
    let case = Case {
        options: &["--cores", "2", "--lane", "4", "--quantum", "1"],
        head: b"cores 2\nbudget 1048576\nlimit 4294967280\nstack 16\nheap 256\nunits 6012\n",
        ..plain("count", &count, 0, b"", b"0 exit 0\n1 exit 0\nend\n")
    };
    try_case_at(rt, alloc, &case, gate)?;
    Ok(gate.has_met())
}

#[test]
fn cores_go_on_while_a_tag_actor_is_held(rt: HostRuntime) -> Result<(), Fail> {
    // The ring of core 0 takes four records, and a fifth waits for room.
    let first = Sight::new(0, 5, 5);
    let second = Sight::new(1, 9, u32::MAX);
    let gate = MeetingGate::new(Who::Tag(0), first, second);
    assert!(rt; meets(&rt, rt.alloc(), &gate)?);
    Ok(())
}

#[test]
fn a_core_goes_on_while_the_other_is_held(rt: HostRuntime) -> Result<(), Fail> {
    for (held, other) in [(0, 1), (1, 0)] {
        let first = Sight::new(other, 10, u32::MAX);
        let second = Sight::new(held, 0, 0);
        let gate = MeetingGate::new(Who::Hart(held), first, second);
        assert!(rt; meets(&rt, rt.alloc(), &gate)?);
    }
    Ok(())
}

/// The four actors of two cores.
const ACTORS: [Who; 4] = [Who::Hart(0), Who::Tag(0), Who::Hart(1), Who::Tag(1)];

/// The options of a small run with the shortest rings and turns.
const NARROW: [&str; 12] = [
    "--cores",
    "2",
    "--lane",
    "1",
    "--quantum",
    "1",
    "--budget",
    "64",
    "--stack",
    "1",
    "--heap",
    "1",
];

#[test]
fn a_reservation_stands_or_falls_whichever_turn_is_held(rt: HostRuntime) -> Result<(), Fail> {
    let alloc = rt.alloc();
    let reserving = image_of(alloc, &LRSC)?;
    let case = Case {
        options: &NARROW,
        ..plain(
            "load-reserved and store-conditional",
            &reserving,
            0,
            b"",
            b"",
        )
    };
    for held in ACTORS {
        for turn in 0..20 {
            let gate = HoldGate::new(held, turn);
            let (status, around) = left_by(&rt, alloc, &case, &gate)?;
            assert!(rt; status <= 1);
            try_replay(alloc, &case, around.report.bytes())?;
        }
    }
    Ok(())
}

#[test]
fn a_store_is_found_whichever_turn_is_held(rt: HostRuntime) -> Result<(), Fail> {
    let alloc = rt.alloc();
    let buffering = image_of(alloc, &STORE_BUFFERING)?;
    let case = Case {
        options: &NARROW,
        ..plain("store buffering", &buffering, 1, b"", b"end\n")
    };
    for held in ACTORS {
        for turn in [0, 7] {
            let gate = HoldGate::new(held, turn);
            let around = try_case_at(&rt, alloc, &case, &gate)?;
            assert!(rt; a_store_was_found(around.report.bytes())?);
        }
    }
    Ok(())
}
