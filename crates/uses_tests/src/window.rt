//! What stands in a window after more samples than it holds.
use std::test::Fail;
use uses::window::Window;

#[test]
fn the_oldest_sample_leaves_a_full_window(rt: HostRuntime) -> Result<(), Fail> {
    let mut window = Window::<3>::new(rt.alloc())?;
    window.push_all(&[5, 1]);
    assert!(rt; (window.count(), window.sum()) == (2, 6));
    window.push_all(&[4, 2]);
    assert!(rt; (window.count(), window.sum()) == (3, 7));
    window.push(u32::MAX);
    assert!(rt; (window.count(), window.sum()) == (3, 4294967301));
    Ok(())
}
