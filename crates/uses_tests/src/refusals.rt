//! What comes back where memory is refused. Each test holds where none is, and where any one
//! request of the tested call is.
use arraydeque::lookahead::Scanner;
use std::test::Fail;
use uses::edits::Edit::{Delete, Insert, Keep};
use uses::edits::merge;
use uses::tokens::tokenize;

#[test]
fn a_refused_merge_loses_no_edit(rt: HostRuntime) -> Result<(), Fail> {
    let input = [Keep, Delete, Delete, Insert, Keep, Insert, Insert, Delete];
    let mut edits = Scanner::<_, 2>::new(rt.alloc(), input.iter().copied())?;
    let runs = match merge(rt.alloc(), &mut edits) {
        Ok(runs) => runs,
        Err(refusal) => refusal.source,
    };
    let mut all = input.iter().copied();
    let are_there = runs
        .iter()
        .all(|run| (0..run.count).all(|_| all.next() == Some(run.edit)));
    assert!(rt; are_there && edits.eq(all));
    Ok(())
}

#[test]
fn refused_tokens_lose_no_byte(rt: HostRuntime) -> Result<(), Fail> {
    let text = b"let circumference = 2 * pi * radius;";
    let mut scanner = Scanner::<_, 1>::new(rt.alloc(), text.iter().copied())?;
    let tokens = match tokenize(rt.alloc(), &mut scanner) {
        Ok(tokens) => tokens,
        Err(refusal) => refusal.source,
    };
    let mut all = text.iter().copied();
    let are_there = tokens.iter().all(|token| token
        .text
        .iter()
        .all(|byte| all.next() == Some(*byte)));
    assert!(rt; are_there && scanner.eq(all));
    Ok(())
}
