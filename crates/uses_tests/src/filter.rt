//! What a filter makes of signed samples.
use std::test::Fail;
use uses::filter::Filter;

#[test]
fn the_newest_sample_meets_the_first_coefficient(rt: HostRuntime) -> Result<(), Fail> {
    let mut filter = Filter::new(rt.alloc(), [1, -2, 3])?;
    assert!(rt; (filter.next(5), filter.next(-7)) == (5, -17));
    assert!(rt; (filter.next(0), filter.next(i16::MIN)) == (29, -32789));
    Ok(())
}
