//! Items of every size that are told apart, and rings of them.
use arraydeque_ring::ring::Ring;
use std::alloc::Global;
use std::process::Abort;
use std::test::Fail;

/// Items that are told apart by a number, where they take any bytes.
pub(crate) trait Numbered: Drop {
    fn of(number: u8) -> Self;

    fn number(&self) -> u8;
}

impl Numbered for () {
    fn of(_number: u8) {}

    fn number(&self) -> u8 {
        0
    }
}

impl Numbered for u8 {
    fn of(number: u8) -> u8 {
        number
    }

    fn number(&self) -> u8 {
        *self
    }
}

impl Numbered for u64 {
    fn of(number: u8) -> u64 {
        u64::from(number) << 56 | u64::from(number)
    }

    fn number(&self) -> u8 {
        let [first, .., last] = self.to_be_bytes();
        if first == last { first } else { u8::MAX }
    }
}

/// An item of 24 bytes.
#[derive(Drop)]
pub(crate) struct Three {
    words: [u64; 3],
}

impl Numbered for Three {
    fn of(number: u8) -> Three {
        Three {
            words: [u64::of(number); 3],
        }
    }

    fn number(&self) -> u8 {
        let [first, _, last] = self.words;
        if first == last {
            first.number()
        } else {
            u8::MAX
        }
    }
}

/// An item of 200 bytes.
#[derive(Drop)]
pub(crate) struct Wide {
    bytes: [u8; 200],
}

impl Numbered for Wide {
    fn of(number: u8) -> Wide {
        Wide {
            bytes: [number; 200],
        }
    }

    fn number(&self) -> u8 {
        let [first, .., last] = self.bytes;
        if first == last { first } else { u8::MAX }
    }
}

/// A ring whose `len` items are numbered from 0 on, and stand from the place `start` on.
pub(crate) fn ring_at<T: Numbered>(
    rt: &impl Abort,
    alloc: Global,
    capacity: usize,
    start: u8,
    len: u8,
) -> Result<Ring<T>, Fail> {
    let mut ring = Ring::<T>::new(alloc, capacity)?;
    for _ in 0..start {
        assert!(rt; ring.len() < ring.capacity());
        ring.push_back(T::of(0));
        ring.pop_front();
    }
    for number in 0..len {
        assert!(rt; ring.len() < ring.capacity());
        ring.push_back(T::of(number));
    }
    Ok(ring)
}
