//! Which entries a journal finds by a time, also where its list wraps.
use std::test::Fail;
use uses::journal::Journal;

#[test]
fn entries_are_found_by_their_times(rt: HostRuntime) -> Result<(), Fail> {
    let mut journal = Journal::<char, 3>::new(rt.alloc())?;
    journal.add(1, 'a');
    journal.add(4, 'b');
    journal.add(4, 'c');
    journal.add(6, 'd');
    for (time, found) in [(0, "bcd"), (4, "bcd"), (5, "d"), (7, "")] {
        let values = journal.since(time).map(|entry| entry.1);
        assert!(rt; values.eq(found.chars()), "since {time}");
    }
    Ok(())
}
