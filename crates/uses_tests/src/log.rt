//! What a log keeps of states that repeat, and of more states or lines than it has places.
use arraydeque::{ArrayDeque, Wrapping};
use arraydeque_samples::build::holds;
use std::test::Fail;
use uses::log::{log, log_line};

#[test]
fn a_state_that_repeats_is_logged_once(rt: HostRuntime) -> Result<(), Fail> {
    let mut states = ArrayDeque::<i64, 3, Wrapping>::new(rt.alloc())?;
    for (state, logged) in [
        (4, [4].as_slice()),
        (4, &[4]),
        (5, &[4, 5]),
        (4, &[4, 5, 4]),
        (6, &[5, 4, 6]),
        (6, &[5, 4, 6]),
    ] {
        log(&mut states, state);
        assert!(rt; holds(&states, logged), "after {state}");
    }
    Ok(())
}

#[test]
fn the_last_lines_are_kept(rt: HostRuntime) -> Result<(), Fail> {
    let mut lines = ArrayDeque::<Vec<u8>, 2, Wrapping>::new(rt.alloc())?;
    for line in ["up", "", "down"] {
        log_line(rt.alloc(), &mut lines, line.as_bytes())?;
    }
    let is_first = lines.pop_front().is_some_and(|line| line.is_empty());
    let is_last = lines
        .pop_front()
        .is_some_and(|line| line.as_slice() == b"down".as_slice());
    assert!(rt; is_first && is_last && lines.is_empty());
    Ok(())
}
