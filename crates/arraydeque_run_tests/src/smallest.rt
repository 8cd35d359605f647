//! Each call of a run at the capacities 0 and 1, under either policy.
use crate::replies::text_of;
use arraydeque::ArrayDeque;
use arraydeque::run::{Call, RunPolicy};
use arraydeque_samples::build::{deque_at, made, wrapping_at};
use std::alloc::Global;
use std::fmt::Write;
use std::process::Abort;
use std::test::Fail;

/// A call, and what it comes to on a deque that refuses, and on one that displaces: its reply and
/// the list that it leaves, at capacity 0, at capacity 1 with no item, and at capacity 1 with 7.
type Row = (Call<i64>, [&'static str; 3], [&'static str; 3]);

/// The row of a call that means the same under either policy.
fn under_both(call: Call<i64>, told: [&'static str; 3]) -> Row {
    (call, told, told)
}

/// Each call, in the order of its declaration.
fn rows(alloc: Global) -> Result<Vec<Row>, Fail> {
    Ok(vec![in alloc;
        (
            Call::PushFront(5),
            ["full 5 []", "done [5]", "full 5 [7]"],
            ["displaced 5 []", "displaced none [5]", "displaced 7 [5]"]
        ),
        (
            Call::PushBack(5),
            ["full 5 []", "done [5]", "full 5 [7]"],
            ["displaced 5 []", "displaced none [5]", "displaced 7 [5]"]
        ),
        under_both(Call::PopFront, ["none []", "none []", "7 []"]),
        under_both(Call::PopBack, ["none []", "none []", "7 []"]),
        (
            Call::Insert(0, 5),
            ["full 5 []", "done [5]", "full 5 [7]"],
            ["unoffered 5 []", "unoffered 5 []", "unoffered 5 [7]"]
        ),
        (
            Call::Insert(1, 5),
            ["range 5 []", "range 5 []", "full 5 [7]"],
            ["unoffered 5 []", "unoffered 5 []", "unoffered 5 [7]"]
        ),
        (
            Call::Insert(2, 5),
            ["range 5 []", "range 5 []", "range 5 [7]"],
            ["unoffered 5 []", "unoffered 5 []", "unoffered 5 [7]"]
        ),
        under_both(Call::Remove(0), ["none []", "none []", "7 []"]),
        under_both(Call::Remove(1), ["none []", "none []", "none [7]"]),
        under_both(Call::SwapRemoveBack(0), ["none []", "none []", "7 []"]),
        under_both(Call::SwapRemoveBack(1), ["none []", "none []", "none [7]"]),
        under_both(Call::SwapRemoveFront(0), ["none []", "none []", "7 []"]),
        under_both(Call::SwapRemoveFront(1), ["none []", "none []", "none [7]"]),
        under_both(Call::Swap(0, 0), ["range []", "range []", "done [7]"]),
        under_both(Call::Swap(0, 1), ["range []", "range []", "range [7]"]),
        under_both(Call::Swap(1, 0), ["range []", "range []", "range [7]"]),
        under_both(Call::Replace(0, 5), ["range 5 []", "range 5 []", "7 [5]"]),
        under_both(
            Call::Replace(1, 5),
            ["range 5 []", "range 5 []", "range 5 [7]"]
        ),
        under_both(Call::Clear, ["done []", "done []", "done []"]),
        under_both(Call::Linearize, ["done []", "done []", "done [7]"]),
        (
            Call::ExtendBack(vec![in alloc; 1, 2]?),
            ["done []", "done [1]", "done [7]"],
            ["done []", "done [2]", "done [2]"]
        ),
        (
            Call::ExtendFront(vec![in alloc; 1, 2]?),
            ["done []", "done [1]", "done [7]"],
            ["done []", "done [2]", "done [2]"]
        ),
        (
            Call::Extend(vec![in alloc; 1, 2]?),
            ["done []", "done [1]", "done [7]"],
            ["done []", "done [2]", "done [2]"]
        ),
        under_both(
            Call::Drain(0, 0),
            ["drained [] []", "drained [] []", "drained [] [7]"]
        ),
        under_both(
            Call::Drain(0, 1),
            ["range []", "range []", "drained [7] []"]
        ),
        under_both(Call::Drain(1, 0), ["range []", "range []", "range [7]"]),
        under_both(
            Call::Drain(1, 1),
            ["range []", "range []", "drained [] [7]"]
        ),
        under_both(Call::Drain(0, 2), ["range []", "range []", "range [7]"]),
        under_both(
            Call::SplitOff(0),
            ["split [] []", "split [] []", "split [7] []"]
        ),
        under_both(Call::SplitOff(1), ["range []", "range []", "split [] [7]"]),
        under_both(Call::SplitOff(2), ["range []", "range []", "range [7]"]),
        under_both(Call::Len, ["number 0 []", "number 0 []", "number 1 [7]"]),
        under_both(
            Call::Capacity,
            ["number 0 []", "number 1 []", "number 1 [7]"]
        ),
        under_both(Call::IsEmpty, ["true []", "true []", "false [7]"]),
        under_both(Call::IsFull, ["true []", "false []", "true [7]"]),
    ]?)
}

/// Makes a call, and compares its one reply and the list that it leaves with the text.
fn compare<const CAP: usize, B: RunPolicy<i64, CAP>>(
    rt: &impl Abort,
    alloc: Global,
    mut deque: ArrayDeque<i64, CAP, B>,
    call: Call<i64>,
    told: &str,
) -> Result<(), Fail> {
    let mut text = String::new(alloc);
    for reply in made(deque.run(vec![in alloc; call]?))? {
        write!(text, "{} {deque:?}", text_of(alloc, reply)?)?;
    }
    assert!(rt; text.as_str() == told, "{text} for {told}");
    Ok(())
}

#[test]
fn each_call_at_the_smallest_capacities(rt: HostRuntime) -> Result<(), Fail> {
    for (call, [told, _, _], _) in rows(rt.alloc())? {
        let deque = deque_at::<0>(rt.alloc(), 0, &[])?;
        compare(&rt, rt.alloc(), deque, call, told)?;
    }
    for (call, [_, told, _], _) in rows(rt.alloc())? {
        let deque = deque_at::<1>(rt.alloc(), 0, &[])?;
        compare(&rt, rt.alloc(), deque, call, told)?;
    }
    for (call, [_, _, told], _) in rows(rt.alloc())? {
        let deque = deque_at::<1>(rt.alloc(), 0, &[7])?;
        compare(&rt, rt.alloc(), deque, call, told)?;
    }
    for (call, _, [told, _, _]) in rows(rt.alloc())? {
        let deque = wrapping_at::<0>(rt.alloc(), 0, &[])?;
        compare(&rt, rt.alloc(), deque, call, told)?;
    }
    for (call, _, [_, told, _]) in rows(rt.alloc())? {
        let deque = wrapping_at::<1>(rt.alloc(), 0, &[])?;
        compare(&rt, rt.alloc(), deque, call, told)?;
    }
    for (call, _, [_, _, told]) in rows(rt.alloc())? {
        let deque = wrapping_at::<1>(rt.alloc(), 0, &[7])?;
        compare(&rt, rt.alloc(), deque, call, told)?;
    }
    Ok(())
}
