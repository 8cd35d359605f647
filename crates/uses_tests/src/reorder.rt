//! Pieces that come in another order than that of their numbers.
use std::test::Fail;
use uses::reorder::Reorder;

#[test]
fn pieces_go_out_by_their_numbers(rt: HostRuntime) -> Result<(), Fail> {
    let mut reorder = Reorder::<&str, 4>::new(rt.alloc())?;
    for (number, piece) in [(7, "d"), (2, "a"), (5, "b"), (5, "c")] {
        assert!(rt; reorder.put(number, piece) == Ok(()), "{piece}");
    }
    assert!(rt; reorder.put(1, "e") == Err("e"));
    for first in [
        Some((2, "a")),
        Some((5, "b")),
        Some((5, "c")),
        Some((7, "d")),
        None,
    ] {
        assert!(rt; reorder.take() == first);
    }
    Ok(())
}
