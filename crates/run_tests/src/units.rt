//! The units of one core, asked for and answered.

ghost use Rattle.std.specs.Prelude.{◌≡◌, IfSome};
ghost use Rattle.syscall_drain.specs.Units.{FitsAsk, taken_of};

use guest_images::{HI, guest_of};
use record_lane::{MeetKind, Record, Reply};
use rv_execute::{Op, Taken};
use std::test::Fail;
use syscall_drain::{Answer, CoreAsk, CoreState, End, Guest};

/// An answer to an ask: an access is the first to its word and finds this word.
fn answer_to(ask: CoreAsk, word: u32) -> Option<Answer>
    ensures fits { IfSome result (FitsAsk ask) }
    ensures first { IfSome result (λ given. (taken_of given).number ≡ 0) }
{
    match ask {
        CoreAsk::Quiet => Some(Answer::Nothing),
        CoreAsk::Touch { .. } => Some(Answer::Taken(Taken {
            number: 0,
            old: word,
            spent: false,
        })),
        CoreAsk::Meet { .. } => Some(Answer::Reply(Reply {
            stop: false,
            trap: None,
            tags: 0,
            buffer: 0,
        })),
        CoreAsk::Ended => None,
    }
}

/// Spends a unit, and says what it asked.
fn spend(core: &mut CoreState, guest: &Guest, word: u32) -> Option<CoreAsk> {
    let unit = core.next(guest);
    let given = answer_to(unit.ask, word)?;
    core.spend(guest, unit, given);
    Some(unit.ask)
}

#[test]
fn hi_prints_and_exits(rt: HostRuntime) -> Result<(), Fail> {
    let guest = guest_of(rt.alloc(), &HI, 1)?;
    assert!(rt; guest.image().entry() % 4 == 0);
    let mut core = CoreState::create(0, &guest, 1048576);
    let meeting = |step, pc, call, kind| CoreAsk::Meet {
        item: Record::Meet {
            step,
            pc,
            call,
            kind,
        },
    };
    let asks = [
        CoreAsk::Quiet,
        CoreAsk::Quiet,
        CoreAsk::Quiet,
        CoreAsk::Quiet,
        CoreAsk::Quiet,
        meeting(5, 0x0001_0014, 64, MeetKind::Call),
        CoreAsk::Touch {
            word: 12,
            op: Op::Read,
        },
        meeting(7, 0x0001_0014, 64, MeetKind::Verdict),
        CoreAsk::Touch {
            word: 1,
            op: Op::Place { len: 3 },
        },
        CoreAsk::Quiet,
        CoreAsk::Quiet,
        CoreAsk::Quiet,
        meeting(12, 0x0001_0020, 93, MeetKind::Call),
    ];
    for ask in asks {
        assert!(rt; spend(&mut core, &guest, 0x000a_6968) == Some(ask));
    }
    assert!(rt; core.next(&guest).ask == CoreAsk::Ended);
    assert!(rt; core.end() == Some(End::Exit(0)));
    assert!(rt; core.units() == 13);
    assert!(rt; core.gathered() == b"hi\n".as_slice());
    Ok(())
}
