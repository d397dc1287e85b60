//! A list of a bound that is taken at once.

use bounded_list::BoundedList;
use std::test::Fail;

#[test]
fn keeps_what_is_pushed(rt: HostRuntime) -> Result<(), Fail> {
    let mut list = BoundedList::create(rt.alloc(), 2)?;
    assert!(rt; (list.len(), list.room()) == (0, 2));
    list.push(7u32);
    list.push(5);
    assert!(rt; list.as_slice() == [7, 5].as_slice());
    for (place, want) in [(0, Some(7)), (1, Some(5)), (2, None)] {
        assert!(rt; list.get(place) == want);
    }
    list.overwrite(1, [4].as_slice());
    assert!(rt; list.as_slice() == [7, 4].as_slice());
    list.overwrite(0, [].as_slice());
    list.overwrite(0, [8, 5].as_slice());
    assert!(rt; list.remove_first() == 8);
    assert!(rt; list.as_slice() == [5].as_slice());
    assert!(rt; list.into_vec().as_slice() == [5].as_slice());
    let mut list = BoundedList::create(rt.alloc(), 1)?;
    list.push(3u32);
    list.clear();
    assert!(rt; list.len() == 0);
    Ok(())
}
