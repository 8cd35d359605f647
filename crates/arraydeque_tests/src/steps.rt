//! Pushes and pops in turn, beside their answers.
use crate::build::holds;
use arraydeque::behavior::Behavior;
use arraydeque::{ArrayDeque, Saturating, Wrapping};
use std::process::Abort;

#[derive(Clone, Copy)]
pub(crate) enum End {
    Front,
    Back,
}

#[derive(Clone, Copy)]
pub(crate) enum Step {
    Push(End, i64),
    Pop(End),
}

/// A step, its answer, and the length that it leaves.
pub(crate) type Row = (Step, Option<i64>, usize);

/// A policy, and what a push under it answers with: the element that it hands back, or the item
/// that it gives up.
pub(crate) trait Policy<const CAP: usize>: Behavior + Sized {
    fn push(deque: &mut ArrayDeque<i64, CAP, Self>, end: End, item: i64) -> Option<i64>;
}

impl<const CAP: usize> Policy<CAP> for Saturating {
    fn push(deque: &mut ArrayDeque<i64, CAP, Saturating>, end: End, item: i64) -> Option<i64> {
        let pushed = match end {
            End::Front => deque.push_front(item),
            End::Back => deque.push_back(item),
        };
        match pushed {
            Ok(()) => None,
            Err(refusal) => Some(refusal.element),
        }
    }
}

impl<const CAP: usize> Policy<CAP> for Wrapping {
    fn push(deque: &mut ArrayDeque<i64, CAP, Wrapping>, end: End, item: i64) -> Option<i64> {
        match end {
            End::Front => deque.push_front(item),
            End::Back => deque.push_back(item),
        }
    }
}

pub(crate) fn pop<const CAP: usize, B: Behavior>(
    deque: &mut ArrayDeque<i64, CAP, B>,
    end: End,
) -> Option<i64> {
    match end {
        End::Front => deque.pop_front(),
        End::Back => deque.pop_back(),
    }
}

/// Makes the steps. After each, all calls that tell the length agree with the row. The ends of what
/// is left are those of the list.
pub(crate) fn walk<const CAP: usize, B: Policy<CAP>>(
    rt: &impl Abort,
    mut deque: ArrayDeque<i64, CAP, B>,
    rows: &[Row],
    left: &[i64],
) {
    for &(step, answer, len) in rows {
        let given = match step {
            Step::Push(end, item) => B::push(&mut deque, end, item),
            Step::Pop(end) => pop(&mut deque, end),
        };
        assert!(rt;
            given == answer
                && deque.len() == len
                && deque.is_empty() == (len == 0)
                && deque.is_full() == (len == CAP)
                && deque.capacity() == CAP,
            "{given:?} where {answer:?} and the length {len} are due"
        );
    }
    assert!(rt;
        holds(&deque, left) && (deque.front(), deque.back()) == (left.first(), left.last())
    );
}
