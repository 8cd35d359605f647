//! What a full queue does with a job under either policy.
use arraydeque::{Saturating, Wrapping};
use std::test::Fail;
use uses::jobs::Jobs;

#[test]
fn a_full_queue_hands_the_new_job_back(rt: HostRuntime) -> Result<(), Fail> {
    let mut jobs = Jobs::<&str, 2, Saturating>::new(rt.alloc())?;
    assert!(rt; (jobs.submit("wash"), jobs.submit("dry")) == (Ok(()), Ok(())));
    assert!(rt; jobs.submit("iron") == Err("iron"));
    assert!(rt; (jobs.take(), jobs.waiting()) == (Some("wash"), 1));
    assert!(rt; jobs.submit("iron") == Ok(()));
    assert!(rt; (jobs.take(), jobs.take(), jobs.take()) == (Some("dry"), Some("iron"), None));
    Ok(())
}

#[test]
fn a_job_is_deferred(rt: HostRuntime) -> Result<(), Fail> {
    let mut jobs = Jobs::<&str, 2, Saturating>::new(rt.alloc())?;
    jobs.defer();
    assert!(rt; (jobs.submit("wash"), jobs.submit("dry")) == (Ok(()), Ok(())));
    jobs.defer();
    assert!(rt; (jobs.take(), jobs.take(), jobs.take()) == (Some("dry"), Some("wash"), None));
    Ok(())
}

#[test]
fn a_full_queue_gives_up_its_oldest_job(rt: HostRuntime) -> Result<(), Fail> {
    let mut jobs = Jobs::<&str, 2, Wrapping>::new(rt.alloc())?;
    assert!(rt; (jobs.submit("wash"), jobs.submit("dry")) == (None, None));
    assert!(rt; jobs.submit("iron") == Some("wash"));
    assert!(rt; (jobs.take(), jobs.take(), jobs.take()) == (Some("dry"), Some("iron"), None));
    Ok(())
}
