//! The mean of the last samples.
use std::test::Fail;
use uses::average::averages;

#[test]
fn of_the_last_three_rounded_down(rt: HostRuntime) -> Result<(), Fail> {
    let means = averages::<3>(rt.alloc(), &[3, 5, 7, 30, 2, 2])?;
    assert!(rt; means.as_slice() == [3, 4, 5, 14, 13, 11].as_slice());
    Ok(())
}
