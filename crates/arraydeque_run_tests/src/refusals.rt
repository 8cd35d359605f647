//! What comes back where memory is refused to a run, or to a call of it. The test holds where none
//! is, and where any one request of the run is; where one of its set-up is, it ends there.
use arraydeque::Saturating;
use arraydeque::run::{Call, Reply};
use arraydeque_samples::build::{deque_at, holds};
use std::process::Abort;
use std::test::Fail;

/// Compares the replies, of which that to the drain may be `NoMemory`, and returns what is left
/// then.
fn compare_replies(rt: &impl Abort, replies: Vec<Reply<i64, 5, Saturating>>) -> &'static [i64] {
    let mut replies = replies.into_iter();
    assert!(rt; matches!(&replies.next(), Some(Reply::Done)));
    let left: &'static [i64] = match replies.next() {
        Some(Reply::Drained(mut drained)) => {
            assert!(rt; (drained.next(), drained.next()) == (Some(1), Some(2)));
            &[3, 4]
        }
        reply => {
            assert!(rt; matches!(&reply, Some(Reply::NoMemory)));
            &[1, 2, 3, 4]
        }
    };
    assert!(rt; matches!(&replies.next(), Some(Reply::Item(Some(0)))) && replies.next().is_none());
    left
}

/// The calls that come back.
fn compare_calls(rt: &impl Abort, calls: Vec<Call<i64>>) {
    assert!(rt;
        matches!(
            calls.as_slice(),
            [Call::PushBack(4), Call::Drain(1, 3), Call::PopFront]
        )
    );
}

/// It prints what is left, so that `.ci/requests` sees which outcome each refused request has.
#[test]
fn a_run_goes_on_after_a_refused_drain(rt: HostRuntime) -> Result<(), Fail> {
    let mut deque = deque_at::<5>(rt.alloc(), 4, &[0, 1, 2, 3])?;
    let calls = vec![in rt.alloc(); Call::PushBack(4), Call::Drain(1, 3), Call::PopFront]?;
    let left: &[i64] = match deque.run(calls) {
        Ok(replies) => compare_replies(&rt, replies),
        Err(refusal) => {
            compare_calls(&rt, refusal.source);
            &[0, 1, 2, 3]
        }
    };
    assert!(rt; holds(&deque, left));
    println!(rt; "left {left:?}")?;
    Ok(())
}
