//! An actor whose core meets it twice, and one whose core reads input and jumps by it.

ghost use Rattle.std.specs.Prelude.{◌≡◌, ◌<◌, [], IfOk};
ghost use Rattle.record_lane.specs.Rings.{word_count_of, top_of, sent_by, IsSenderOf};
ghost use Rattle.record_lane.specs.Lanes.{IsTakerOf};
ghost use Rattle.ticket_table.specs.Calls.{MayServe};
ghost use Rattle.tag_actor.specs.Turns.{AreOf};

use record_lane::{Got, Lane, MeetKind, Record, Reply, Ring, RingSender, Taker, Trap, Why};
use rv_decode::{Insn, LoadKind};
use rv_execute::Op;
use std::alloc::Global;
use std::sync::Wait;
use std::test::Fail;
use tag_actor::{TagActor, TagTurn};
use tag_policy::Policy;
use word_stores::{NoMemory, Pass, TagMemory};

/// An access by a read call, the second to word 3.
const FILL: Record = Record::Touch {
    step: 0,
    pc: 65536,
    word: 3,
    number: 1,
    why: Why::Fill { bytes: 15 },
};

const MEET: Record = Record::Meet {
    step: 1,
    pc: 65536,
    call: 64,
    kind: MeetKind::Call,
};

/// The load of word 3 into x5, and the jump to it.
const LOAD: Record = Record::Touch {
    step: 3,
    pc: 65540,
    word: 3,
    number: 2,
    why: Why::Insn {
        insn: Insn::Load {
            kind: LoadKind::Lw,
            rd: 5,
            rs1: 6,
            imm: 0,
        },
        hit: true,
        bytes: 15,
    },
};

const JUMP: Record = Record::Quiet {
    step: 4,
    pc: 65544,
    insn: Insn::Jalr {
        rd: 0,
        rs1: 5,
        imm: 0,
    },
    faulted: false,
};

const NOT_YET: TagTurn = TagTurn::NotYet {
    word: 3,
    number: 1,
    seen: 0,
};

const GO: Reply = Reply {
    stop: false,
    trap: None,
    tags: 0,
    buffer: 0,
};

const JUMPED: Trap = Trap {
    step: 4,
    pc: 65544,
    kind: 1,
    bits: 1,
};

/// A memory of four words for two cores with the pass of the other core, a ring with its sender, a lane with its taker, and the actor.
#[derive(Drop)]
struct Stage {
    memory: TagMemory,
    other: Pass,
    items: Ring<Record>,
    records: RingSender<Record>,
    replies: Lane<Reply>,
    answers: Taker<Reply>,
    actor: TagActor,
}

fn open_stage(alloc: Global) -> Result<Stage, NoMemory>
    ensures actor { IfOk result (λ made. AreOf made.memory made.items made.replies made.actor) }
    ensures other { IfOk result (λ made. MayServe made.memory made.other 3 0) }
    ensures sender { IfOk result (λ made. IsSenderOf made.items made.records × (sent_by made.records ≡ [])) }
    ensures taker { IfOk result (λ made. IsTakerOf made.replies made.answers) }
    ensures numbers { IfOk result (λ made. (word_count_of made.items ≡ 4) × (top_of made.items ≡ 12)) }
{
    let (memory, mut passes) = TagMemory::create(alloc, 4, 2, 10)?;
    let Some(other) = passes.pop() else {
        return Err(NoMemory);
    };
    let Some(pass) = passes.pop() else {
        return Err(NoMemory);
    };
    let (items, records, taker) = Ring::create(alloc, 4, 4, 12)?;
    let (replies, sender, answers) = Lane::create(alloc, 1, 4, 12)?;
    let actor = TagActor::create(Policy::standard(), pass, taker, sender);
    Ok(Stage {
        memory,
        other,
        items,
        records,
        replies,
        answers,
        actor,
    })
}

/// A turn of so many records at most, and how many records the actor has consumed after it.
fn turn_of<R: Wait>(
    rt: &R,
    actor: &mut TagActor,
    memory: &TagMemory,
    items: &Ring<Record>,
    replies: &Lane<Reply>,
    quantum: u32,
) -> (TagTurn, u32)
    requires of { AreOf memory.now items.now replies.now actor.old }
    requires some { 0 < quantum }
    ensures { AreOf memory.now items.now replies.now actor.new }
{
    let turn = actor.turn(rt, memory, items, replies, quantum);
    (turn, actor.done())
}

#[test]
fn an_access_waits_for_the_one_before(rt: HostRuntime) -> Result<(), Fail> {
    let Stage {
        memory,
        mut other,
        items,
        mut records,
        replies,
        answers: _answers,
        mut actor,
    } = open_stage(rt.alloc())?;
    let empty = turn_of(&rt, &mut actor, &memory, &items, &replies, 9);
    let _ = items.send(&mut records, FILL);
    let took = turn_of(&rt, &mut actor, &memory, &items, &replies, 9);
    let waits = turn_of(&rt, &mut actor, &memory, &items, &replies, 9);
    memory.serve(&mut other, 3, 0, Op::Read);
    let served = turn_of(&rt, &mut actor, &memory, &items, &replies, 9);
    assert!(rt; empty == (TagTurn::Empty, 0));
    assert!(rt; took == (TagTurn::Went, 0));
    assert!(rt; waits == (NOT_YET, 0));
    assert!(rt; served == (TagTurn::Went, 1));
    Ok(())
}

#[test]
fn a_meeting_waits_until_the_reply_before_is_taken(rt: HostRuntime) -> Result<(), Fail> {
    let Stage {
        memory,
        other: _other,
        items,
        mut records,
        replies,
        mut answers,
        mut actor,
    } = open_stage(rt.alloc())?;
    let _ = items.send(&mut records, MEET);
    let _ = items.send(&mut records, MEET);
    let replied = turn_of(&rt, &mut actor, &memory, &items, &replies, 9);
    let waits = turn_of(&rt, &mut actor, &memory, &items, &replies, 9);
    let reply = replies.take(&rt, &mut answers);
    let again = turn_of(&rt, &mut actor, &memory, &items, &replies, 9);
    assert!(rt; replied == (TagTurn::Went, 1));
    assert!(rt; waits == (TagTurn::ReplyFull, 1));
    assert!(rt; reply == Got::Item(GO));
    assert!(rt; again == (TagTurn::Went, 2));
    Ok(())
}

#[test]
fn a_core_that_jumps_by_input_is_trapped(rt: HostRuntime) -> Result<(), Fail> {
    let Stage {
        memory,
        mut other,
        items,
        mut records,
        replies,
        answers: _answers,
        mut actor,
    } = open_stage(rt.alloc())?;
    memory.serve(&mut other, 3, 0, Op::Read);
    let _ = items.send(&mut records, FILL);
    let _ = items.send(&mut records, LOAD);
    let _ = items.send(&mut records, JUMP);
    let _ = items.send(&mut records, Record::End);
    let one = turn_of(&rt, &mut actor, &memory, &items, &replies, 1);
    let others = turn_of(&rt, &mut actor, &memory, &items, &replies, 9);
    let after = turn_of(&rt, &mut actor, &memory, &items, &replies, 9);
    assert!(rt; one == (TagTurn::Went, 1));
    assert!(rt; others == (TagTurn::Ended, 4));
    assert!(rt; after == (TagTurn::Ended, 4));
    if actor.ended() {
        assert!(rt; actor.finish().trap == Some(JUMPED));
    }
    Ok(())
}
