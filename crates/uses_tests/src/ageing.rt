//! Which entries are left as time goes by.
use arraydeque::{ArrayDeque, Saturating};
use std::test::Fail;
use uses::ageing::{Entry, age};

/// Up to four entries, each with the time that it has left.
type Entries = ArrayDeque<Entry<u8>, 4, Saturating>;

#[test]
fn entries_go_when_their_time_is_over(rt: HostRuntime) -> Result<(), Fail> {
    let rows: [(u64, &[(u8, u64)]); 5] = [
        (0, &[(1, 5), (2, 1), (3, 9), (4, 3)]),
        (1, &[(1, 4), (3, 8), (4, 2)]),
        (2, &[(1, 2), (3, 6)]),
        (5, &[(3, 1)]),
        (u64::MAX, &[]),
    ];
    let mut entries = Entries::new(rt.alloc())?;
    for (value, left) in [(1, 5), (2, 1), (3, 9), (4, 3)] {
        entries.extend_back([Entry { value, left }]);
    }
    for (elapsed, left) in rows {
        age(&mut entries, elapsed);
        assert!(rt;
            entries
                .iter()
                .map(|entry| (entry.value, entry.left))
                .eq(left.iter().copied()),
            "{elapsed}"
        );
    }
    Ok(())
}
