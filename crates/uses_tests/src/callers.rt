//! Callers of a call or two.
use arraydeque::lookahead::Scanner;
use arraydeque::{ArrayDeque, Saturating};
use arraydeque_callers::calls::{cut_and_join, rotate_left, take_for_first, write_back};
use arraydeque_callers::extending::{add_reversed, add_two, move_all};
use arraydeque_callers::scanning::next_or;
use std::alloc::AllocError;
use std::test::Fail;

/// Whether each of several calls changes three items as it should.
fn all_work(rt: &HostRuntime) -> Result<bool, AllocError> {
    let mut deque = ArrayDeque::<u64, 4, Saturating>::from_array(rt.alloc(), [1, 2, 3])?;
    rotate_left(&mut deque, 1);
    cut_and_join(&mut deque, 2)?;
    write_back(&mut deque, 7);
    let taken = take_for_first(&mut deque, 1);
    Ok(taken == Some(3) && deque.into_vec()?.as_slice() == [2, 7].as_slice())
}

#[test]
fn calls_do_what_their_callers_promise(rt: HostRuntime) -> Result<(), Fail> {
    assert!(rt; all_work(&rt)?);
    Ok(())
}

/// Whether a deque of three places takes what it should of one that has two items.
fn as_much_as_fits(rt: &HostRuntime) -> Result<bool, AllocError> {
    let mut from = ArrayDeque::<u64, 2, Saturating>::new(rt.alloc())?;
    add_two(&mut from, 1, 2);
    let mut to = ArrayDeque::<u64, 3, Saturating>::new(rt.alloc())?;
    add_reversed(&mut to, &from);
    move_all(&mut to, &mut from)?;
    Ok(from.is_empty() && to.into_vec()?.as_slice() == [2, 1, 1].as_slice())
}

#[test]
fn a_deque_takes_as_much_as_finds_room(rt: HostRuntime) -> Result<(), Fail> {
    assert!(rt; as_much_as_fits(&rt)?);
    Ok(())
}

/// Two answers of a text of one byte.
fn answers(rt: &HostRuntime) -> Result<(u8, u8), AllocError> {
    let mut scanner = Scanner::<_, 1>::new(rt.alloc(), b"a".iter().copied())?;
    Ok((next_or(&mut scanner, b'?'), next_or(&mut scanner, b'?')))
}

#[test]
fn a_scanner_that_is_spent_has_no_next(rt: HostRuntime) -> Result<(), Fail> {
    assert!(rt; answers(&rt)? == (b'a', b'?'));
    Ok(())
}
