//! The largest of the last samples.
use arraydeque::{ArrayDeque, Wrapping};
use std::test::Fail;
use uses::peaks::Peaks;

#[test]
fn the_largest_of_the_last_three(rt: HostRuntime) -> Result<(), Fail> {
    let mut window = ArrayDeque::<u32, 3, Wrapping>::new(rt.alloc())?;
    let mut peaks = Peaks::<3>::new(rt.alloc())?;
    let rows = [
        (3, 3),
        (1, 3),
        (4, 4),
        (1, 4),
        (5, 5),
        (9, 9),
        (2, 9),
        (6, 9),
        (5, 6),
        (3, 6),
        (3, 5),
        (3, 3),
    ];
    let is_new = peaks.largest() == None;
    for (sample, largest) in rows {
        if let Some(oldest) = window.push_back(sample) {
            peaks.leave(oldest);
        }
        let is_entered = peaks.enter(sample).is_ok();
        assert!(rt;
            is_new && is_entered && peaks.largest() == Some(largest),
            "{sample}"
        );
    }
    Ok(())
}
