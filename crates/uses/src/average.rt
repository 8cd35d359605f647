//! A moving average: for each sample the mean of the last `N` up to it.
//!
//! It uses [`window`](super::window), and is proved over that window's contract alone: each mean is
//! by its definition that of the last samples, though none is added up twice.
ghost use Rattle.std.specs.Prelude.{◌≡◌, ◌≤◌, ◌<◌, ◌+◌, ◌^◌, length, map, take, IfOk};
ghost use Rattle.std.specs.List.{range_with_len};
ghost use Rattle.arraydeque.specs.Deque.{keep_last};
ghost use Rattle.uses.specs.Average.{mean};

use crate::window::Window;
use std::alloc::{AllocError, Global};

/// For each sample the mean of the last `N` up to it, rounded down; of all up to it while there are
/// fewer.
pub fn averages<const N: usize>(alloc: Global, samples: &[u32]) -> Result<Vec<u64>, AllocError>
    requires some { 0 < N }
    requires fits { N ≤ 2 ^ 32 }
    ensures { IfOk result (λ averages. averages.items ≡
        map (λ i. mean (keep_last N (take (i + 1) samples.now)))
        (range_with_len 0 (length samples.now))) }
{
    let mut window = Window::<N>::new(alloc)?;
    let mut averages = Vec::new(alloc);
    for &sample in samples {
        window.push(sample);
        averages.push(window.sum() / window.count() as u64)?;
    }
    Ok(averages)
}
