//! A pool of four buffers: which of them are leased, and what they hold.

use crate::Pool;
use std::test::Fail;

// Four are leased, and a fifth once one of them is given back. What was written stays its holder's, and the fifth finds
// what the one before it left.
#[test]
fn a_pool_of_four(rt: HostRuntime) -> Result<(), Fail> {
    let mut pool = Pool::new(rt.alloc(), 4, 2)?;
    let mut first = pool.take().expect(&rt, "the first");
    let mut second = pool.take().expect(&rt, "the second");
    let third = pool.take().expect(&rt, "the third");
    let fourth = pool.take().expect(&rt, "the fourth");
    assert_eq!(rt; pool.free(), 0);
    pool.bytes_mut(&mut first).copy_from_slice(&[1, 2]);
    pool.bytes_mut(&mut second).copy_from_slice(&[3, 4]);
    assert_eq!(rt; pool.bytes(&first), [1, 2].as_slice());
    assert_eq!(rt; pool.bytes(&second), [3, 4].as_slice());
    assert_eq!(rt; pool.bytes(&third), [0, 0].as_slice());
    pool.give(second);
    let fifth = pool.take().expect(&rt, "the fifth");
    assert_eq!(rt; pool.bytes(&fifth), [3, 4].as_slice());
    pool.give(first);
    pool.give(third);
    pool.give(fourth);
    pool.give(fifth);
    assert_eq!(rt; pool.free(), 4);
    Ok(())
}
