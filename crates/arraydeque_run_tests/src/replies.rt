//! Calls beside the replies that they must have.
use arraydeque::ArrayDeque;
use arraydeque::behavior::Behavior;
use arraydeque::run::{Call, Reply, RunPolicy};
use arraydeque_samples::build::made;
use std::alloc::Global;
use std::fmt::Write;
use std::process::Abort;
use std::test::Fail;

/// Calls, and beside each its reply as text.
pub(crate) type Rows<'a> = Vec<(Call<i64>, &'a str)>;

/// Makes the calls, and compares the replies.
pub(crate) fn run<const CAP: usize, B: RunPolicy<i64, CAP>>(
    rt: &impl Abort,
    alloc: Global,
    deque: &mut ArrayDeque<i64, CAP, B>,
    rows: Rows<'_>,
) -> Result<(), Fail> {
    let (calls, told) = part_rows(alloc, rows)?;
    compare(rt, alloc, made(deque.run(calls))?, told.as_slice())
}

/// The calls and the texts, each by themselves.
fn part_rows<'a>(alloc: Global, rows: Rows<'a>) -> Result<(Vec<Call<i64>>, Vec<&'a str>), Fail> {
    let mut calls = Vec::new(alloc);
    let mut told = Vec::new(alloc);
    for (call, text) in rows {
        calls.push(call)?;
        told.push(text)?;
    }
    Ok((calls, told))
}

fn compare<const CAP: usize, B: Behavior>(
    rt: &impl Abort,
    alloc: Global,
    replies: Vec<Reply<i64, CAP, B>>,
    told: &[&str],
) -> Result<(), Fail> {
    assert!(rt; replies.len() == told.len());
    for (reply, expected) in replies.into_iter().zip(told) {
        let text = text_of(alloc, reply)?;
        assert!(rt; text.as_str() == *expected, "{text} for {expected}");
    }
    Ok(())
}

/// A reply as text.
pub(crate) fn text_of<const CAP: usize, B: Behavior>(
    alloc: Global,
    reply: Reply<i64, CAP, B>,
) -> Result<String, Fail> {
    let mut text = String::new(alloc);
    match reply {
        Reply::Done => write!(text, "done")?,
        Reply::Item(Some(item)) => write!(text, "{item}")?,
        Reply::Item(None) => write!(text, "none")?,
        Reply::Displaced(Some(item)) => write!(text, "displaced {item}")?,
        Reply::Displaced(None) => write!(text, "displaced none")?,
        Reply::Number(number) => write!(text, "number {number}")?,
        Reply::Truth(truth) => write!(text, "{truth}")?,
        Reply::Drained(drained) => {
            let list: Vec<i64> = drained.collect(alloc)?;
            write!(text, "drained {list:?}")?;
        }
        Reply::Split(deque) => write!(text, "split {deque:?}")?,
        Reply::Full(refusal) => write!(text, "full {}", refusal.element)?,
        Reply::OutOfRange(Some(element)) => write!(text, "range {element}")?,
        Reply::OutOfRange(None) => write!(text, "range")?,
        Reply::NoMemory => write!(text, "no memory")?,
        Reply::NotOffered(element) => write!(text, "unoffered {element}")?,
    }
    Ok(text)
}
