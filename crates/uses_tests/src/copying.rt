//! Bytes copied from a deque to a vector, and to another deque, and a line of them.
use arraydeque::{ArrayDeque, Saturating, Wrapping};
use arraydeque_samples::build::{holds, made};
use std::io::ErrorKind;
use std::test::Fail;
use uses::copying::{pour, pour_over, take_line};

#[test]
fn all_bytes_go_over(rt: HostRuntime) -> Result<(), Fail> {
    let alloc = rt.alloc();
    let mut last = made(ArrayDeque::<u8, 4, Wrapping>::from_array(alloc, *b"abcdef"))?;
    let mut both = made(ArrayDeque::<u8, 6, Saturating>::from_array(alloc, *b"ab"))?;
    assert!(rt; pour_over(&mut last, &mut both)? == 4 && last.is_empty());
    let mut list = vec![in alloc; 0]?;
    assert!(rt; pour(&mut both, &mut list)? == 6 && both.is_empty());
    assert!(rt; list.as_slice() == b"\0abcdef".as_slice());
    Ok(())
}

#[test]
fn what_finds_no_room_is_lost(rt: HostRuntime) -> Result<(), Fail> {
    let alloc = rt.alloc();
    let mut from = made(ArrayDeque::<u8, 4, Saturating>::from_array(alloc, *b"abcd"))?;
    let mut into = ArrayDeque::<u8, 3, Saturating>::new(alloc)?;
    let refused = pour_over(&mut from, &mut into).map_err(|error| error.kind());
    assert!(rt; refused == Err(ErrorKind::WriteZero) && from.is_empty() && holds(&into, b"abc"));
    Ok(())
}

#[test]
fn a_line_goes_with_its_line_feed(rt: HostRuntime) -> Result<(), Fail> {
    let alloc = rt.alloc();
    let mut from = made(ArrayDeque::<u8, 5, Saturating>::from_array(alloc, *b"ab\nc"))?;
    let mut into = vec![in alloc; 0]?;
    assert!(rt; take_line(&mut from, &mut into)? == 3 && holds(&from, b"c"));
    assert!(rt; take_line(&mut from, &mut into)? == 1 && from.is_empty());
    assert!(rt; into.as_slice() == b"\0ab\nc".as_slice());
    Ok(())
}
