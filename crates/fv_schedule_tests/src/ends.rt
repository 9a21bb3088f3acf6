// The two ends of a deque: its owner takes what was put last, another worker what was put first.

use fv_steal::TaskDeque;
use std::test::Fail;

#[test]
fn the_owner_takes_at_the_back_and_a_thief_at_the_front(rt: HostRuntime) -> Result<(), Fail> {
    let alloc = rt.alloc();
    let mut deque = TaskDeque::new(alloc, 4)?;
    let mut hold = deque.lend()?;
    assert_eq!(rt; hold.steal(), None);
    assert_eq!(rt; deque.pop(), None);
    deque.push(3);
    deque.push(0);
    deque.push(2);
    deque.push(1);
    assert_eq!(rt; hold.steal(), Some(3));
    assert_eq!(rt; deque.pop(), Some(1));
    assert_eq!(rt; hold.steal(), Some(0));
    assert_eq!(rt; deque.pop(), Some(2));
    assert_eq!(rt; deque.pop(), None);
    assert_eq!(rt; hold.steal(), None);
    deque.take_back(hold);
    assert_eq!(rt; deque.pop(), None);
    Ok(())
}
