//! Bytes that std reads from a deque and writes to it.
use crate::build::holds;
use arraydeque::{ArrayDeque, Saturating, Wrapping};
use std::alloc::Global;
use std::io::{BufRead, ErrorKind, Read, Write};
use std::test::Fail;

/// A deque of these bytes, the first of which stands at the place `start`.
fn bytes_at<const CAP: usize>(
    alloc: Global,
    start: usize,
    bytes: &[u8],
) -> Result<ArrayDeque<u8, CAP, Saturating>, Fail> {
    let mut deque = ArrayDeque::<u8, CAP, Saturating>::new(alloc)?;
    for _ in 0..start {
        deque.extend_back([0]);
        deque.pop_front();
    }
    deque.extend_back(bytes.iter().copied());
    Ok(deque)
}

/// Whether two bytes are read exactly, and not a second time from three.
fn is_read_exactly(alloc: Global, start: usize) -> Result<bool, Fail> {
    let mut deque = bytes_at::<4>(alloc, start, &[1, 2, 3])?;
    let mut buf = [0; 2];
    let is_read = deque.read_exact(&mut buf).is_ok() && buf == [1, 2] && holds(&deque, &[3]);
    let refused = deque.read_exact(&mut buf).map_err(|error| error.kind());
    Ok(is_read && refused == Err(ErrorKind::UnexpectedEof) && deque.is_empty())
}

/// Whether two bytes are written at once, and of three more those that find room.
fn is_written_in_full(alloc: Global, start: usize) -> Result<bool, Fail> {
    let mut deque = bytes_at::<4>(alloc, start, &[])?;
    let is_written = deque.write_all(&[1, 2]).is_ok() && holds(&deque, &[1, 2]);
    let refused = deque.write_all(&[3, 4, 5]).map_err(|error| error.kind());
    Ok(is_written && refused == Err(ErrorKind::WriteZero) && holds(&deque, &[1, 2, 3, 4]))
}

/// Whether a buffer is the bytes up to the region's end, and then those behind it.
fn is_lent_in_two(alloc: Global) -> Result<bool, Fail> {
    let mut deque: ArrayDeque<u8, 4, Wrapping> = bytes_at::<4>(alloc, 2, &[1, 2, 3])?.into();
    let is_front = deque.fill_buf()? == [1, 2].as_slice();
    deque.consume(1);
    let is_cut = deque.fill_buf()? == [2].as_slice();
    deque.consume(1);
    let is_behind = deque.fill_buf()? == [3].as_slice();
    deque.consume(9);
    Ok(is_front && is_cut && is_behind && deque.fill_buf()?.is_empty() && deque.is_empty())
}

#[test]
fn what_finds_too_little_is_an_error(rt: HostRuntime) -> Result<(), Fail> {
    for start in 0..4 {
        assert!(rt;
            is_read_exactly(rt.alloc(), start)? && is_written_in_full(rt.alloc(), start)?,
            "start {start}"
        );
    }
    assert!(rt; is_lent_in_two(rt.alloc())?);
    Ok(())
}
