//! What comes back where memory is refused. Each test holds where none is, and where any one
//! request of the tested calls is; where one of its set-up is, it ends there.
use crate::asked::{Count, Script};
use crate::build::{deque_at, holds};
use arraydeque::behavior::Behavior;
use arraydeque::lookahead::Scanner;
use arraydeque::{ArrayDeque, MakeError, Saturating, Wrapping};
use std::alloc::AllocError;
use std::test::Fail;

type Refusing = ArrayDeque<i64, 3, Saturating>;

type Displacing = ArrayDeque<i64, 3, Wrapping>;

/// Whether a deque was made of this list, or its source came back.
fn comes_back<S: PartialEq + Drop, B: Behavior>(
    made: Result<ArrayDeque<i64, 3, B>, MakeError<S>>,
    list: &[i64],
    source: &S,
) -> bool {
    match made {
        Ok(deque) => holds(&deque, list),
        Err(refusal) => refusal.source == *source,
    }
}

#[test]
fn a_refused_source_comes_back(rt: HostRuntime) -> Result<(), Fail> {
    let alloc = rt.alloc();
    let array = [1, 2, 3, 4];
    let vector = vec![in alloc; 1, 2, 3, 4]?;
    let list = vec![in alloc; 1, 2, 3, 4]?;
    let of_vector = comes_back(Refusing::from_vec(alloc, list), &[1, 2, 3], &vector);
    let list = vec![in alloc; 1, 2, 3, 4]?;
    let displaced = comes_back(Displacing::from_vec(alloc, list), &[2, 3, 4], &vector);
    assert!(rt; of_vector && displaced);
    assert!(rt;
        comes_back(Refusing::from_iter(alloc, 1..5), &[1, 2, 3], &(1..5))
            && comes_back(Displacing::from_iter(alloc, 1..5), &[2, 3, 4], &(1..5))
            && comes_back(Refusing::from_array(alloc, array), &[1, 2, 3], &array)
            && comes_back(Displacing::from_array(alloc, array), &[2, 3, 4], &array)
    );
    Ok(())
}

/// Whether a deque was made of the first three numbers of a count, or the count came back and was
/// not asked.
fn counts_on(made: Result<Refusing, MakeError<Count>>) -> bool {
    match made {
        Ok(deque) => holds(&deque, &[1, 2, 3]),
        Err(refusal) => {
            let mut count = refusal.source;
            count.asked == 0 && count.next() == Some(1)
        }
    }
}

#[test]
fn a_refused_count_comes_back(rt: HostRuntime) -> Result<(), Fail> {
    assert!(rt; counts_on(Refusing::from_iter(rt.alloc(), Count::from(1))));
    Ok(())
}

/// Whatever is refused, a deque that is made is whole.
#[test]
fn a_refused_region_is_an_error(rt: HostRuntime) -> Result<(), Fail> {
    let refusing = match Refusing::new(rt.alloc()) {
        Ok(mut deque) => {
            deque.extend_back([1, 2]);
            holds(&deque, &[1, 2])
        }
        Err(_) => true,
    };
    let displacing = match Displacing::new(rt.alloc()) {
        Ok(mut deque) => {
            deque.extend_front([1, 2]);
            holds(&deque, &[2, 1])
        }
        Err(_) => true,
    };
    assert!(rt; refusing && displacing);
    Ok(())
}

#[test]
fn a_refused_call_leaves_the_list(rt: HostRuntime) -> Result<(), Fail> {
    let deque = deque_at::<3>(rt.alloc(), 2, &[2, 3, 4])?;
    let becomes_vec = match deque.into_vec() {
        Ok(list) => list.as_slice() == [2, 3, 4].as_slice(),
        Err(refusal) => holds(&refusal.source, &[2, 3, 4]),
    };
    let mut deque = deque_at::<3>(rt.alloc(), 2, &[0, 1, 2])?;
    assert!(rt; becomes_vec && deque.len() == 3);
    let splits = match deque.split_off(1) {
        Ok(rest) => holds(&rest, &[1, 2]) && holds(&deque, &[0]),
        Err(_) => holds(&deque, &[0, 1, 2]),
    };
    drop(deque);
    let mut deque = deque_at::<4>(rt.alloc(), 3, &[0, 1, 2, 3])?;
    assert!(rt; splits && deque.len() == 4);
    let drains = match deque.drain(1..3) {
        Ok(drain) => drain.eq([1, 2]) && holds(&deque, &[0, 3]),
        Err(_) => holds(&deque, &[0, 1, 2, 3]),
    };
    assert!(rt; drains);
    Ok(())
}

/// At capacity 0, where a deque has no region, a clone makes no request at all.
#[test]
fn a_refused_clone_leaves_the_list(rt: HostRuntime) -> Result<(), Fail> {
    let nothing = ArrayDeque::<i64, 0, Saturating>::new(rt.alloc())?;
    assert!(rt; nothing.clone()? == nothing);
    let deque = deque_at::<3>(rt.alloc(), 2, &[1, 2, 3])?;
    let is_whole = match deque.clone() {
        Ok(clone) => holds(&clone, &[1, 2, 3]),
        Err(_) => true,
    };
    assert!(rt; is_whole && holds(&deque, &[1, 2, 3]));
    Ok(())
}

#[test]
fn a_refused_vector_leaves_a_long_list(rt: HostRuntime) -> Result<(), Fail> {
    let list = [0, 1, 2, 3, 4, 5, 6, 7, 8, 9, 10, 11, 12, 13, 14, 15, 16, 17];
    let deque = deque_at::<20>(rt.alloc(), 9, &list)?;
    let is_whole = match deque.into_vec() {
        Ok(items) => items.as_slice() == list.as_slice(),
        Err(refusal) => holds(&refusal.source, &list),
    };
    assert!(rt; is_whole);
    Ok(())
}

/// Whether a scanner over 1, 2 and 3 gives them, and two items put back, as it should.
fn reads_on(scanner: &mut Scanner<Script<'_>, 2>) -> bool {
    scanner.peek(1) == Some(&2)
        && scanner.next() == Some(1)
        && scanner.unread(9).is_ok()
        && scanner.unread(8).is_err()
        && (scanner.next(), scanner.next()) == (Some(9), Some(2))
        && (scanner.next(), scanner.next()) == (Some(3), None)
}

/// After two requests, for the buffers of the first two scanners, this test makes none: the third,
/// of capacity 0, has no region.
#[test]
fn a_refused_scanner_gives_its_iterator_back(rt: HostRuntime) -> Result<(), Fail> {
    let gives_one = match Scanner::<Script<'_>, 2>::new(rt.alloc(), Script::of(&[Some(1)])) {
        Ok(mut scanner) => (scanner.next(), scanner.next()) == (Some(1), None),
        Err(refusal) => {
            let mut script = refusal.source;
            script.asked == 0 && (script.next(), script.next()) == (Some(1), None)
        }
    };
    assert!(rt; gives_one);
    let input = [Some(1), Some(2), Some(3)];
    let scanner = Scanner::<_, 2>::new(rt.alloc(), Script::of(&input));
    assert!(rt; reads_on(&mut scanner.ok().ok_or(AllocError)?));
    let mut scanner = Scanner::<_, 0>::new(rt.alloc(), Script::of(&input))
        .ok()
        .ok_or("refused")?;
    assert!(rt; scanner.next() == Some(1) && scanner.unread(9).is_err());
    Ok(())
}
