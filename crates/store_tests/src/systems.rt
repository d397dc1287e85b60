//! Moves of the protocol machine.

use order_core::{Move, Shape, System};
use std::test::Fail;

#[test]
fn sends_and_serves(rt: HostRuntime) -> Result<(), Fail> {
    let mut system = System::create(rt.alloc(), 2, 1, 1)?;
    assert!(rt; system.can_commit(0));
    system.commit(0, Shape::Touch(0));
    assert!(rt; system.can_commit(1));
    system.commit(1, Shape::Touch(0));
    assert!(rt; system.can_act(Move::Send(1)));
    system.act(Move::Send(1));
    assert!(rt; system.some_move() == Some(Move::Send(0)));
    assert!(rt; system.can_act(Move::Send(0)));
    system.act(Move::Send(0));
    assert!(rt; system.some_move() == Some(Move::Serve(0)));
    Ok(())
}

#[test]
fn meets_and_ends(rt: HostRuntime) -> Result<(), Fail> {
    let mut system = System::create(rt.alloc(), 1, 0, 1)?;
    assert!(rt; system.can_commit(0));
    system.commit(0, Shape::Meet);
    for step in [Move::Send(0), Move::Reply(0), Move::Resume(0)] {
        assert!(rt; (system.can_commit(0), system.some_move()) == (false, Some(step)));
        assert!(rt; system.can_act(step));
        system.act(step);
    }
    assert!(rt; system.some_move() == None);
    assert!(rt; system.can_commit(0));
    system.commit(0, Shape::End);
    for step in [Move::Send(0), Move::Serve(0)] {
        assert!(rt; system.some_move() == Some(step));
        assert!(rt; system.can_act(step));
        system.act(step);
    }
    assert!(rt; (system.can_commit(0), system.some_move()) == (false, None));
    Ok(())
}
