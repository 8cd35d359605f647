//! A deque that wraps, sorted, filled and edited in place.
use arraydeque_samples::build::{deque_at, wrapping_at};
use std::test::Fail;
use uses::in_place::{fill, replace_found, sort};

#[test]
fn a_list_that_wraps_is_sorted_filled_and_edited(rt: HostRuntime) -> Result<(), Fail> {
    for start in 0..5 {
        let mut deque = wrapping_at::<5>(rt.alloc(), start, &[4, 1, 5, 2])?;
        sort(rt.alloc(), &mut deque)?;
        let found = replace_found(&mut deque, 4, 3);
        let missed = replace_found(&mut deque, 9, 0);
        let sorted = deque.into_vec()?;
        let mut deque = deque_at::<4>(rt.alloc(), start, &[1, 2, 3])?;
        fill(&mut deque, 7);
        let filled = deque.into_vec()?;
        assert!(rt;
            (found, missed) == (Ok(2), Err(4))
                && sorted.as_slice() == [1, 2, 3, 5].as_slice()
                && filled.as_slice() == [7, 7, 7].as_slice(),
            "start {start}"
        );
    }
    Ok(())
}
