//! Items that move while there are some, and room for them.
use arraydeque::{ArrayDeque, Saturating};
use std::test::Fail;
use uses::moving::move_some;

#[test]
fn some_items_move(rt: HostRuntime) -> Result<(), Fail> {
    let mut from = ArrayDeque::<i64, 5, Saturating>::from_array(rt.alloc(), [1, 2, 3, 4])?;
    let mut to = ArrayDeque::<i64, 3, Saturating>::from_array(rt.alloc(), [0])?;
    assert!(rt; move_some(&mut from, &mut to, 1) == 1 && move_some(&mut from, &mut to, 9) == 1);
    assert!(rt; to.iter().copied().eq([0, 1, 2]) && from.iter().copied().eq([3, 4]));
    Ok(())
}
