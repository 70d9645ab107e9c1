// A frame of a pool is taken, given back, and taken again.
use page_pool::{NoFrame, Pool};
use std::test::Fail;

// Takes the one frame, and marks it. Returns whether another one is refused then. It gives the frame back.
fn took_one(pool: &mut Pool) -> Result<bool, Fail> {
    let id = pool.take_frame()?;
    let refused = pool.take_frame().err() == Some(NoFrame);
    pool.frame_mut(&id).len = 3;
    pool.give_frame(id);
    Ok(refused)
}

// Takes a frame, and returns its length.
fn next_len(pool: &mut Pool) -> Result<u32, Fail> {
    let again = pool.take_frame()?;
    Ok(pool.frame(&again).len)
}

#[test]
fn a_frame_that_was_given_back_is_taken_again(rt: HostRuntime) -> Result<(), Fail> {
    let mut pool = Pool::reserve(rt.alloc(), 1)?;
    assert!(rt; took_one(&mut pool)?);
    assert!(rt; pool.spare() == 1);
    assert!(rt; next_len(&mut pool)? == 0);
    Ok(())
}
