ghost use Rattle.order_core.specs.Logs.{logs_of};
ghost use Rattle.order_core.specs.Walk.{IsSameSize};
ghost use Rattle.order_core.specs.WalkCalls.{IsWalking};

use order_core::{Access, CoreLog, Entry, MergeRoom, Walk, all_touch_below, merge};
use std::test::Fail;

const QUIET: Entry = Entry { touch: None };

fn touch(word: u32, number: u32) -> Entry {
    Entry {
        touch: Some(Access {
            word,
            number,
            found: 0,
        }),
    }
}

fn next_four(walk: &mut Walk, logs: &[CoreLog]) -> [Option<u8>; 4]
    requires { IsWalking walk.old (logs_of logs.now) }
    ensures { IsSameSize walk.new walk.old }
{
    let first = walk.next(logs);
    let second = walk.next(logs);
    let third = walk.next(logs);
    [first, second, third, walk.next(logs)]
}

#[test]
fn worked_logs_merge_and_walk_to_0_1_0(rt: HostRuntime) -> Result<(), Fail> {
    let alloc = rt.alloc();
    let mut first = CoreLog::create(alloc, 2)?;
    first.push(QUIET);
    first.push(touch(5, 1));
    let mut second = CoreLog::create(alloc, 1)?;
    second.push(touch(5, 0));
    let logs = vec![in alloc; first, second]?;
    assert!(rt; all_touch_below(&logs, 6));
    let mut room = MergeRoom::create(alloc, 6, 3)?;
    merge(&logs, &mut room);
    assert!(rt; room.order().as_slice() == [0, 1, 0].as_slice());
    let mut walk = Walk::create(alloc, 6, 2)?;
    assert!(rt; next_four(&mut walk, &logs) == [Some(0), Some(1), Some(0), None]);
    walk.restart();
    assert!(rt; next_four(&mut walk, &logs) == [Some(0), Some(1), Some(0), None]);
    Ok(())
}

#[test]
fn one_empty_log_gives_no_core(rt: HostRuntime) -> Result<(), Fail> {
    let alloc = rt.alloc();
    let logs = vec![in alloc; CoreLog::create(alloc, 0)?]?;
    let mut room = MergeRoom::create(alloc, 0, 0)?;
    merge(&logs, &mut room);
    assert!(rt; room.order().len() == 0);
    let mut walk = Walk::create(alloc, 0, 1)?;
    assert!(rt; walk.next(&logs) == None);
    Ok(())
}
