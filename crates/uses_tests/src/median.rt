//! The median of the last samples, of an odd and of an even number.
use std::alloc::AllocError;
use std::test::Fail;
use uses::median::Median;

/// The median after each sample, in a window of `CAP`; none at capacity 0.
fn medians<const CAP: usize>(rt: &HostRuntime, samples: &[u32]) -> Result<Vec<u32>, AllocError> {
    let mut medians = Vec::new(rt.alloc());
    if CAP == 0 {
        return Ok(medians);
    }
    let mut median = Median::<CAP>::new(rt.alloc())?;
    for &sample in samples {
        median.push(sample);
        medians.push(median.median().unwrap_or(0))?;
    }
    Ok(medians)
}

#[test]
fn the_median_of_the_last_samples(rt: HostRuntime) -> Result<(), Fail> {
    let samples = [5, 1, 9, 2, 2, 7];
    let three = medians::<3>(&rt, &samples)?;
    let four = medians::<4>(&rt, &samples)?;
    assert!(rt; three.as_slice() == [5, 5, 5, 2, 2, 2].as_slice());
    assert!(rt; four.as_slice() == [5, 5, 5, 5, 2, 7].as_slice());
    Ok(())
}
